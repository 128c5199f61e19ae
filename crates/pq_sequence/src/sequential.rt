// The sequential result.
ghost use Rattle.std.specs.Prelude.{◌<◌, length, All, OnOk};
ghost use Rattle.event_detect.specs.Threshold.{IsInOrder};
ghost use Rattle.pq_base.specs.Recorded.{IsRecording};
ghost use Rattle.pq_items.specs.ItemRange.{IsItemInRange};
ghost use Rattle.pq_sequence.specs.Lists.{Gives, GivesAll};
ghost use Rattle.pq_sequence.specs.MeasuredRecording.{recorded_events as events_of_recording};
ghost use Rattle.pq_sequence.specs.SequentialResult.{all_items as items_of_recording, items_under, sequential};

use crate::intervals::{push_intervals, recorded_intervals};
use crate::items::push_events;
use crate::readings::push_readings;
use crate::touches::reaches;
use crate::windows::channel_windows;
use event_detect::{Event, Limits};
use pq_base::{OutOfMemory, Recording};
use pq_items::{Item, sort_items};
use std::alloc::{AllocError, Global};
use supply_events::supply_events;

/// All items of a recording, in order: the frequency readings of its reference channel; the basic
/// intervals of each channel over the cycles of the reference channel, which begin anew at each
/// 10-minute tick of its clock, and what they are aggregated to, all channels alike flagged where some
/// event of the whole recording touches them; and the dips, swells and interruptions of the whole supply
/// (IEC 61000-4-30:2015, 4.5, 4.7, 5.1, 5.2, 5.4, 5.5).
///
/// # Errors
///
/// [`OutOfMemory`] where memory is short.
pub fn sequence(
    alloc: Global,
    recording: &Recording,
    limits: &Limits,
) -> Result<Vec<Item>, OutOfMemory>
    requires { IsInOrder limits.now }
    ensures value { Gives result (sequential recording.now limits.now) }
    ensures within { GivesAll IsItemInRange result }
{
    let mut items = all_items(alloc, recording, limits)?;
    sort_items(&mut items);
    Ok(items)
}

// All items, kind by kind.
fn all_items(
    alloc: Global,
    recording: &Recording,
    limits: &Limits,
) -> Result<Vec<Item>, OutOfMemory>
    requires { IsInOrder limits.now }
    ensures value { Gives result (items_of_recording recording.now limits.now) }
    ensures within { GivesAll IsItemInRange result }
{
    let events = recorded_events(alloc, recording, limits)?;
    let items = items_under(alloc, recording, &events)?;
    Ok(items)
}

// The events of the whole recording, over the windows of its channels.
fn recorded_events(
    alloc: Global,
    recording: &Recording,
    limits: &Limits,
) -> Result<Vec<Event>, AllocError>
    requires { IsInOrder limits.now }
    ensures value { Gives result (events_of_recording recording.now limits.now) }
    ensures conditions { OnOk result (IsRecording recording.now) }
{
    let channels = channel_windows(alloc, recording)?;
    supply_events(alloc, channels, limits, recording.len())
}

// All items of a recording that has these events, kind by kind.
fn items_under(
    alloc: Global,
    recording: &Recording,
    events: &[Event],
) -> Result<Vec<Item>, OutOfMemory>
    requires { All (λ event. event.channel < length recording.now.numbers) events.now }
    ensures { Gives result (items_under recording.now events.now) }
{
    let reaches = reaches(alloc, events)?;
    let intervals = recorded_intervals(alloc, recording, &reaches)?;
    let room = intervals
        .items(recording.channels())
        .saturating_add(events.len());
    let mut items = Vec::with_capacity(alloc, room)?;
    push_readings(&mut items, recording, &reaches)?;
    push_intervals(&mut items, recording, &intervals)?;
    push_events(&mut items, recording, events)?;
    Ok(items)
}
