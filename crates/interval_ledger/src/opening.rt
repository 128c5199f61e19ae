// Opening: nothing is posted, and there is room for all that will be.
ghost use Rattle.std.specs.Prelude.{◌≡◌, ◌≤◌, IfOk};
ghost use Rattle.event_detect.specs.Threshold.{IsInOrder};
ghost use Rattle.interval_ledger.specs.IsLedger.{IsLedger, settlement_of};
ghost use Rattle.interval_ledger.specs.Opening.{empty_channels as empty_channels_of};
ghost use Rattle.interval_ledger.specs.Settlement.{nothing_posted};
ghost use Rattle.pq_sequence.specs.Lists.{Gives};

use crate::channel::Channel;
use crate::known::Known;
use crate::merging::Merging;
use crate::queue::Queue;
use crate::segments::Segments;
use crate::tick_places::tick_places;
use event_detect::Limits;
use pq_base::Recording;
use pq_sequence::{clock_of, cycles_of_line, recorded_rule};
use std::alloc::{AllocError, Global};

// No more frequency readings than ticks of ten seconds less one.
const MOST_READINGS: usize = 6250;

/// Nothing is posted or merged, and the mark is at 0. The room of all queues is taken here, from bounds; no
/// sample is read.
pub(crate) fn open_merging(
    alloc: Global,
    recording: &Recording,
    limits: &Limits,
) -> Result<Merging, AllocError>
    requires { IsInOrder limits.now }
    ensures ledger { IfOk result IsLedger }
    ensures value { IfOk result (λ s. settlement_of s ≡ nothing_posted recording.now limits.now) }
{
    let places = tick_places(alloc, &clock_of(recording), recording.len())?;
    let channels = empty_channels(alloc, recording, places.len())?;
    let readings = Queue::with_room(alloc, MOST_READINGS)?;
    let known = Known::open(alloc, recording, limits)?;
    Ok(Merging {
        samples: recording.len(),
        channels,
        readings,
        basics_merged: 0,
        readings_merged: 0,
        segments: Segments::new(places),
        known,
        mark: 0,
    })
}

// The queues of each channel, with room for its values and windows among so many 10-minute ticks.
fn empty_channels(
    alloc: Global,
    recording: &Recording,
    ticks: usize,
) -> Result<Vec<Channel>, AllocError>
    requires { ticks ≤ 6251 }
    ensures { Gives result (empty_channels_of recording.now ticks) }
{
    let rule = recorded_rule(recording);
    let samples = recording.len();
    let values = (samples / (2 * rule.lo * cycles_of_line(recording.lf()))) as usize + ticks;
    let windows = (samples / rule.lo) as usize;
    let mut channels = Vec::with_capacity(alloc, recording.channels() as usize)?;
    for _ in 0..recording.channels() {
        channels.push(Channel::with_room(alloc, values, windows)?)?;
    }
    Ok(channels)
}
