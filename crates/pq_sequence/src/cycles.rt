// Cycle boundaries, over whole lists.
ghost use Rattle.std.specs.Prelude.{◌≡◌, length, IfOk};
ghost use Rattle.pq_base.specs.Recorded.{sample_count};
ghost use Rattle.pq_sequence.specs.BasicInterval.{cycles_of};
ghost use Rattle.pq_sequence.specs.Lists.{Gives};
ghost use Rattle.pq_sequence.specs.MeasuredRecording.{recorded_rule, reference_cycles as cycles_of_recording};
ghost use Rattle.zero_cross.specs.Boundary.{AreBoundaries, IsRule, cycle_boundaries as cycle_places};

use pq_base::Recording;
use std::alloc::{AllocError, Global};
use zero_cross::{Boundaries, Rule};

/// How many cycles a basic interval has: 10 at 50 Hz, 12 at 60 Hz.
pub fn cycles_of_line(lf: u32) -> u64
    ensures { result ≡ cycles_of lf }
{
    if lf == 50 { 10 } else { 12 }
}

/// How far apart the recording's boundaries are.
pub fn recorded_rule(recording: &Recording) -> Rule
    ensures value { result ≡ recorded_rule recording.now }
    ensures rule { IsRule result }
{
    Rule::of(recording.rate(), recording.lf())
}

/// The cycle boundaries of the reference channel (IEC 61000-4-30:2015, 4.5).
pub fn reference_cycles(alloc: Global, recording: &Recording) -> Result<Vec<u64>, AllocError>
    ensures value { Gives result (cycles_of_recording recording.now) }
    ensures within { IfOk result (λ found. AreBoundaries found.items (sample_count recording.now)) }
{
    let samples = recording.samples(recording.reference());
    cycle_boundaries(alloc, samples, recorded_rule(recording))
}

// The cycle boundaries of the samples, in order.
fn cycle_boundaries(alloc: Global, samples: &[i64], rule: Rule) -> Result<Vec<u64>, AllocError>
    requires { IsRule rule }
    ensures value { Gives result (cycle_places samples.now rule) }
    ensures within { IfOk result (λ found. AreBoundaries found.items (length samples.now)) }
{
    let mut found = Vec::with_capacity(alloc, samples.len() / (2 * rule.lo as usize) + 1)?;
    for boundary in Boundaries::new(samples, rule) {
        if boundary.rising {
            found.push(boundary.place)?;
        }
    }
    Ok(found)
}
