// What is merged next of basic intervals and frequency readings.
ghost use Rattle.std.specs.Prelude.{◌≡◌, ◌<◌, ◌≤◌, length, IfSome, IfNone};
ghost use Rattle.interval_ledger.specs.Posted.{end_of_due};
ghost use Rattle.interval_ledger.specs.NextDue.{HasAll, IsNextDue, LacksOne};

use crate::channel::{Channel, SpanValue};
use crate::queue::Queue;
use freq10s::Reading;

/// A basic interval, by the first channel's value of it, or a frequency reading.
#[derive(Clone, Copy)]
pub(crate) enum Due {
    Basic(SpanValue),
    Reading(Reading),
}

impl Due {
    // Where it ends.
    pub(crate) fn end(self) -> u64
        ensures { result ≡ end_of_due self }
    {
        match self {
            Due::Basic(first) => first.end,
            Due::Reading(reading) => reading.end,
        }
    }
}

/// Of the basic interval at an index and the reading at one, each where it is posted and ends by a place, the
/// one that ends first; of two that end together the basic interval.
pub(crate) fn next_due(
    channels: &[Channel],
    basics: usize,
    readings: &Queue<Reading>,
    merged: usize,
    w: u64,
) -> Option<Due>
    requires { 0 < length channels.now }
    ensures { IsNextDue channels.now basics readings.now.items merged w result }
{
    match (next_basic(channels, basics), readings.get(merged)) {
        (Some(basic), Some(reading)) => {
            if basic.end <= reading.end {
                basic_by(basic, w)
            } else {
                reading_by(reading, w)
            }
        }
        (Some(basic), None) => basic_by(basic, w),
        (None, Some(reading)) => reading_by(reading, w),
        (None, None) => None,
    }
}

// The first channel's value at an index, if each channel has posted its own.
fn next_basic(channels: &[Channel], k: usize) -> Option<SpanValue>
    requires { 0 < length channels.now }
    ensures value { IfSome result (HasAll channels.now k) }
    ensures none { IfNone result (LacksOne channels.now k) }
{
    for channel in channels {
        if channel.value(k).is_none() {
            return None;
        }
    }
    channels[0].value(k)
}

fn basic_by(basic: SpanValue, w: u64) -> Option<Due>
    ensures due { basic.end ≤ w → result ≡ Some (Due.Basic basic) }
    ensures none { w < basic.end → result ≡ None }
{
    (basic.end <= w).then_some(Due::Basic(basic))
}

fn reading_by(reading: Reading, w: u64) -> Option<Due>
    ensures due { reading.end ≤ w → result ≡ Some (Due.Reading reading) }
    ensures none { w < reading.end → result ≡ None }
{
    (reading.end <= w).then_some(Due::Reading(reading))
}
