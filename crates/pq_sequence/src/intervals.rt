// The intervals of a recording, of all lengths.
ghost use Rattle.std.specs.Prelude.{IfOk, OnOk};
ghost use Rattle.pq_sequence.specs.Lists.{Adds};
ghost use Rattle.pq_sequence.specs.Measured.{AreIntervals, intervals_seen};
ghost use Rattle.pq_sequence.specs.Touches.{AreReachesOfSome, ForEventsOf};

use crate::basics::{BasicInterval, recorded_basics};
use crate::clock::clock_of;
use crate::cycles::reference_cycles;
use crate::groups::{Groups, all_groups};
use crate::items::{Length, push_basics, push_groups};
use crate::touches::Reach;
use pq_base::{OutOfMemory, Recording};
use pq_items::Item;
use std::alloc::{AllocError, Global};

/// The intervals of a recording: the basic ones, and what they are aggregated to.
#[derive(Drop)]
pub struct RecordedIntervals {
    basics: Vec<BasicInterval>,
    groups: Groups,
}

impl RecordedIntervals {
    /// How many items they are for so many channels.
    pub fn items(&self, channels: u32) -> usize {
        let Groups {
            shorts,
            tens,
            two_hours,
        } = &self.groups;
        let groups = shorts
            .len()
            .saturating_add(tens.len())
            .saturating_add(two_hours.len());
        self.basics
            .len()
            .saturating_add(groups)
            .saturating_mul(channels as usize)
    }
}

/// The intervals of a recording between the cycle boundaries of its reference channel, flagged by the
/// reaches of its events.
pub fn recorded_intervals(
    alloc: Global,
    recording: &Recording,
    reaches: &[Reach],
) -> Result<RecordedIntervals, OutOfMemory>
    requires { AreReachesOfSome reaches.now }
    ensures { IfOk result
        (λ found. ForEventsOf reaches.now (λ events. AreIntervals recording.now events found)) }
{
    let boundaries = reference_cycles(alloc, recording)?;
    let basics = recorded_basics(alloc, recording, &boundaries, reaches)?;
    let groups = all_groups(
        alloc,
        clock_of(recording),
        recording.len(),
        recording.channels(),
        &basics,
    )?;
    Ok(RecordedIntervals { basics, groups })
}

/// Adds intervals of each length, one item a channel of each.
pub fn push_intervals(
    items: &mut Vec<Item>,
    recording: &Recording,
    intervals: &RecordedIntervals,
) -> Result<(), AllocError>
    ensures { OnOk result
        (Adds items.old items.new (intervals_seen recording.now intervals.now)) }
{
    let groups = &intervals.groups;
    push_basics(items, recording, &intervals.basics)?;
    push_groups(items, recording, Length::Short, &groups.shorts)?;
    push_groups(items, recording, Length::TenMinutes, &groups.tens)?;
    push_groups(items, recording, Length::TwoHours, &groups.two_hours)
}
