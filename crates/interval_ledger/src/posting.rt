// Posting: which queue an item goes to.
ghost use Rattle.std.specs.Prelude.{◌≡◌, ◌+◌, ◌*◌, ◌<◌, ◌≤◌, length, slice_index};
ghost use Rattle.interval_ledger.specs.Channel.{with_value, with_window};
ghost use Rattle.interval_ledger.specs.Count.{HasPlace, HasPlaceForValue, HasPlaceForWindow, PutsItem, SetsChannel, counts_of};

use crate::channel::{Channel, SpanValue};
use crate::queue::Queue;
use event_detect::Window;
use freq10s::Reading;
use lanes::LaneItem;

/// Puts an item of a lane into its queue: a value or a window into those of its channel, which has two lanes.
pub(crate) fn post(
    channels: &mut Vec<Channel>,
    readings: &mut Queue<Reading>,
    lane: u32,
    item: LaneItem,
)
    requires { HasPlace channels.old.items readings.old lane item }
    ensures { PutsItem lane item channels.old.items readings.old channels.new.items readings.new }
{
    let position = (lane / 2) as usize;
    match item {
        LaneItem::Value { start, end, value } => {
            post_value(channels, position, SpanValue { start, end, value });
        }
        LaneItem::Window(window) => post_window(channels, position, window),
        LaneItem::Reading(reading) => readings.push(reading),
    }
}

/// How many lanes there are.
pub(crate) fn lanes(channels: &[Channel]) -> u32
    requires { length channels.now ≤ 16 }
    ensures { result ≡ 2 * length channels.now + 1 }
{
    2 * channels.len() as u32 + 1
}

/// How many items of a lane are posted.
pub(crate) fn count(channels: &[Channel], readings: &Queue<Reading>, lane: u32) -> usize
    requires { lane < 2 * length channels.now + 1 }
    ensures { result ≡ slice_index (counts_of channels.now readings.now.items) lane }
{
    let position = (lane / 2) as usize;
    match channels.get(position) {
        Some(channel) => {
            if lane % 2 == 0 {
                channel.values()
            } else {
                channel.windows()
            }
        }
        None => readings.count(),
    }
}

fn post_value(channels: &mut [Channel], position: usize, value: SpanValue)
    requires { HasPlaceForValue channels.old position }
    ensures { SetsChannel channels.old channels.new position (λ c. with_value c value) }
{
    channels[position].push_value(value);
}

fn post_window(channels: &mut [Channel], position: usize, window: Window)
    requires { HasPlaceForWindow channels.old position }
    ensures { SetsChannel channels.old channels.new position (λ c. with_window c window) }
{
    channels[position].push_window(window);
}
