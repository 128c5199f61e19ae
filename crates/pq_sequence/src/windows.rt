// The half-cycle windows of each channel.
ghost use Rattle.std.specs.Prelude.{◌≡◌, All, IfOk};
ghost use Rattle.pq_sequence.specs.MeasuredRecording.{windows_by_channel};
ghost use Rattle.supply_events.specs.FirstStart.{Rise};

use crate::cycles::recorded_rule;
use pq_base::Recording;
use std::alloc::{AllocError, Global};
use supply_events::Queue;

/// The windows of the channels of a recording, each on its own crossings, as they are asked for.
pub fn channel_windows(alloc: Global, recording: &Recording) -> Result<Vec<Queue<'_>>, AllocError>
    ensures value { IfOk result (λ found. found.items ≡ windows_by_channel recording.now) }
    ensures rise { IfOk result (λ found. All Rise found.items) }
{
    let rule = recorded_rule(recording);
    let mut channels = Vec::with_capacity(alloc, recording.channels() as usize)?;
    for position in 0..recording.channels() {
        channels.push(Queue::new(recording.samples(position), rule))?;
    }
    Ok(channels)
}
