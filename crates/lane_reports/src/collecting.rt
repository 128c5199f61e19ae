// The items of a recording, collected from its lanes.
ghost use Rattle.std.specs.Prelude.{◌≡◌, All, IfOk};
ghost use Rattle.event_detect.specs.Threshold.{IsInOrder};
ghost use Rattle.pq_items.specs.ItemRange.{IsItemInRange};
ghost use Rattle.pq_sequence.specs.SequentialResult.{sequential};

use crate::opening::open_chain;
use event_detect::Limits;
use lane_workers::{Collector, Gate, Ran, run_lanes};
use pq_base::{OutOfMemory, Recording};
use pq_items::Item;
use std::alloc::Global;
use std::sync::Wait;
use std::thread::Threads;

/// The items of a recording in order, as a session of a chain is given them while a worker a lane measures.
/// It may wait.
pub fn lane_items<R: Threads + Wait + Sync, G: Gate + Sync>(
    rt: &R,
    alloc: Global,
    recording: &Recording,
    limits: &Limits,
    gate: &G,
) -> Result<Vec<Item>, OutOfMemory>
    requires { IsInOrder limits.now }
    ensures value { IfOk result (λ items. items.items ≡ sequential recording.now limits.now) }
    ensures within { IfOk result (λ items. All IsItemInRange items.items) }
{
    let (chain, seats, mut session) = open_chain(alloc, recording, limits)?;
    let mut collector = Collector {
        items: Vec::new(alloc),
    };
    match run_lanes(rt, alloc, &chain, seats, &mut session, gate, &mut collector) {
        Ran::All => Ok(collector.items),
        Ran::Failed => Err(OutOfMemory),
        Ran::OutOfMemory => Err(OutOfMemory),
    }
}
