// What is measured of a recording.
ghost use Rattle.std.specs.Prelude.{◌≡◌, ◌<◌, ◌^◌, length, All, IfOk, OnOk};
ghost use Rattle.pq_base.specs.Recorded.{IsRecording};
ghost use Rattle.event_detect.specs.Threshold.{IsInOrder};
ghost use Rattle.chain_core.specs.MeasuredOf.{measured_of};
ghost use Rattle.pq_items.specs.ItemRange.{IsItemInRange};

use crate::lane_keys::all_keys;
use crate::measurement::Measurement;
use event_detect::Limits;
use pq_base::{OutOfMemory, Recording};
use pq_sequence::sequence;
use std::alloc::Global;

/// All that the core knows of a recording.
#[tactic(auto, using(crate::proofs::LaneLemmas::few_lanes))]
pub fn measure(
    alloc: Global,
    recording: &Recording,
    limits: &Limits,
) -> Result<Measurement, OutOfMemory>
    requires { IsInOrder limits.now }
    ensures value { IfOk result (λ m. m ≡ measured_of recording.now limits.now) }
    ensures items { IfOk result (λ m. All IsItemInRange m.items) }
    ensures lanes { IfOk result (λ m. length m.keys < 2 ^ 32) }
    ensures conditions { OnOk result (IsRecording recording.now) }
{
    let items = sequence(alloc, recording, limits)?;
    let keys = all_keys(alloc, recording)?;
    Ok(Measurement::new(keys, items, recording.len()))
}
