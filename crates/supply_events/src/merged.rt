// The windows of all channels.
ghost use Rattle.std.specs.Prelude.{◌≡◌, ◌≤◌, All, length};
ghost use Rattle.pq_words.specs.declared.limits.TheConstants.{MOST_SELECTED};
ghost use Rattle.std.specs.Iterator.{YieldsFirst, item_count};
ghost use Rattle.supply_events.specs.FirstStart.{Rise, TakesNext};
ghost use Rattle.polyphase.specs.PolyphaseEvent.{merged_windows};

use crate::least::least;
use crate::queue::Queue;
use event_detect::Window;
use std::marker::Model;

/// A half-cycle window of the channel at a position.
#[derive(Clone, Copy, Debug, PartialEq, Eq)]
pub struct MergedWindow {
    pub position: u32,
    pub window: Window,
}

impl Model for MergedWindow {
    ghost use Rattle.polyphase.specs.PolyphaseEvent.{ChannelWindow};

    ghost Value = { ChannelWindow };

    ghost view = { λ m. record { channel = m.position; window = m.window } };

    ghost inverse = { λ m. record { position = m.channel; window = m.window } };
}

/// The windows of all channels by their starts, and of those that start together by channel: an iterator,
/// seen as the list of those that are left.
#[derive(Drop)]
pub struct MergedWindows<'a> {
    channels: Vec<Queue<'a>>,
}

impl<'a> Model for MergedWindows<'a> {
    ghost use Rattle.std.specs.Prelude.{◌≤◌, List, All, length};
    ghost use Rattle.supply_events.specs.FirstStart.{Rise};
    ghost use Rattle.polyphase.specs.PolyphaseEvent.{ChannelWindow, merged_windows};
    ghost use Rattle.pq_words.specs.declared.limits.TheConstants.{MOST_SELECTED};

    ghost Value = { List ChannelWindow };

    ghost view = { λ m. merged_windows m.channels.items };

    ghost invariant = { λ m. All Rise m.channels.items × length m.channels.items ≤ MOST_SELECTED };
}

impl<'a> MergedWindows<'a> {
    /// Those of these channels.
    pub fn new(channels: Vec<Queue<'a>>) -> MergedWindows<'a>
        requires rise { All Rise channels.items }
        requires few { length channels.items ≤ MOST_SELECTED }
        ensures { result ≡ merged_windows channels.entry.items }
    {
        MergedWindows { channels }
    }
}

impl<'a> Iterator for MergedWindows<'a> {
    type Item = MergedWindow;

    ghost next_gives = { YieldsFirst (λ left. left) };

    ghost remaining = { item_count (λ left. left) };

    fn next(&mut self) -> Option<MergedWindow> {
        take_next(&mut self.channels)
    }
}

// Takes the next window off its channel.
fn take_next(channels: &mut [Queue<'_>]) -> Option<MergedWindow>
    requires rise { All Rise channels.old }
    requires few { length channels.old ≤ MOST_SELECTED }
    ensures taken { TakesNext channels.old channels.new result }
    ensures rise { All Rise channels.new }
    ensures same { length channels.new ≡ length channels.old }
{
    let position = least(channels)?;
    let window = channels[position].take()?;
    Some(MergedWindow {
        position: position as u32,
        window,
    })
}
