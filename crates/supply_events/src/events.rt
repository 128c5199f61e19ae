// The events of all kinds, over the merged windows.
ghost use Rattle.std.specs.Prelude.{◌≡◌, ◌<◌, All, IfOk, length};
ghost use Rattle.event_detect.specs.Threshold.{IsInOrder};
ghost use Rattle.polyphase.specs.PolyphaseEvent.{IsChannelCount, all_polyphase_events};
ghost use Rattle.supply_events.specs.FirstStart.{Rise};
ghost use Rattle.supply_events.specs.SupplyEvents.{events_over};

use crate::event_lists::EventLists;
use crate::merged::MergedWindows;
use crate::queue::Queue;
use event_detect::{Event, Limits};
use polyphase::Poly;
use std::alloc::{AllocError, Global};

/// The dips, swells and interruptions of the whole supply, kind by kind, over the windows of its channels;
/// those that do not end are open at place `n` (IEC 61000-4-30:2015, 5.4, 5.5).
///
/// # Errors
///
/// [`AllocError`] where memory is short.
pub fn supply_events(
    alloc: Global,
    channels: Vec<Queue<'_>>,
    limits: &Limits,
    n: u64,
) -> Result<Vec<Event>, AllocError>
    requires channels { IsChannelCount (length channels.items) }
    requires rise { All Rise channels.items }
    requires limits { IsInOrder limits.now }
    ensures { IfOk result (λ found. found.items ≡ events_over limits.now n channels.entry.items) }
{
    let count = channels.len() as u32;
    all_events(alloc, MergedWindows::new(channels), count, limits, n)
}

// The events of all kinds over the merged windows of so many channels.
fn all_events(
    alloc: Global,
    windows: MergedWindows<'_>,
    channels: u32,
    limits: &Limits,
    n: u64,
) -> Result<Vec<Event>, AllocError>
    requires channels { IsChannelCount channels }
    requires there { All (λ m. m.channel < channels) windows }
    requires limits { IsInOrder limits.now }
    ensures { IfOk result (λ found. found.items
        ≡ all_polyphase_events limits.now channels n windows.entry) }
{
    let mut poly = Poly::new(channels, *limits);
    let mut lists = EventLists::new(alloc);
    for window in windows {
        lists.push_answers(poly.step(window.position, window.window))?;
    }
    lists.push_answers(poly.finish(n))?;
    lists.joined()
}
