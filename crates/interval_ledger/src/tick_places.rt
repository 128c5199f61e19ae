// The places of the 10-minute ticks.
ghost use Rattle.std.specs.Prelude.{◌≤◌, IfOk};
ghost use Rattle.std.specs.List.Sorted.{IsNonDecreasing};
ghost use Rattle.pq_sequence.specs.Lists.{Gives};
ghost use Rattle.pq_sequence.specs.MeasuredRecording.{tick_places as places_of_ticks};
ghost use Rattle.pq_time.specs.Time.{IsClock};

use pq_time::{Clock, TEN_MINUTES};
use pq_words::MOST_SAMPLES;
use std::alloc::{AllocError, Global};

// There are no more ticks of ten seconds, and so none of ten minutes.
const MOST_TICKS: usize = 6251;

/// The places of the clock's 10-minute ticks among `n` samples, in order.
pub(crate) fn tick_places(alloc: Global, clock: &Clock, n: u64) -> Result<Vec<u64>, AllocError>
    requires clock { IsClock clock.now }
    requires places { n ≤ MOST_SAMPLES }
    ensures value { Gives result (places_of_ticks clock.now n) }
    ensures rising { IfOk result (λ found. IsNonDecreasing found.items) }
{
    let mut found = Vec::with_capacity(alloc, MOST_TICKS)?;
    for second in clock.ticks(n, TEN_MINUTES) {
        found.push(clock.tick_place(n, second))?;
    }
    Ok(found)
}
