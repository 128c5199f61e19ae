// The runs of cycles that make basic intervals.
ghost use Rattle.std.specs.Prelude.{◌≡◌, ◌-◌, length, IfOk};
ghost use Rattle.std.specs.List.Sorted.{IsNonDecreasing};
ghost use Rattle.pq_base.specs.Recorded.{sample_count};
ghost use Rattle.pq_sequence.specs.BasicInterval.{IsRun, basic_span, cycles_of};
ghost use Rattle.pq_sequence.specs.Lists.{Gives, GivesAll};
ghost use Rattle.pq_sequence.specs.Measured.{run_starts};
ghost use Rattle.pq_sequence.specs.MeasuredRecording.{runs_of};
ghost use Rattle.ten_twelve.specs.Run.{AreStarts, runs};
ghost use Rattle.zero_cross.specs.Boundary.{AreBoundaries};

use crate::clock::clock_of;
use crate::cycles::cycles_of_line;
use crate::fronts::all_fronts;
use pq_base::{OutOfMemory, Recording};
use std::alloc::Global;
use ten_twelve::{Span, chop};

/// The runs of cycles that make the basic intervals of a recording between these cycle boundaries
/// (IEC 61000-4-30:2015, 4.5).
pub fn recorded_runs(
    alloc: Global,
    recording: &Recording,
    boundaries: &[u64],
) -> Result<Vec<Span>, OutOfMemory>
    requires { AreBoundaries boundaries.now (sample_count recording.now) }
    ensures value { Gives result (runs_of recording.now boundaries.now) }
    ensures within { GivesAll (IsRun (length boundaries.now)) result }
{
    let fronts = all_fronts(alloc, boundaries, &clock_of(recording), recording.len())?;
    let runs = basic_runs(alloc, &fronts, boundaries, recording.lf())?;
    Ok(runs)
}

/// A run of cycles as a span of places.
pub fn span_of(boundaries: &[u64], run: Span) -> Span
    requires { IsRun (length boundaries.now) run }
    ensures { result ≡ basic_span boundaries.now run }
{
    Span {
        start: boundaries[run.start as usize],
        end: boundaries[run.end as usize],
    }
}

/// The basic intervals as runs of cycles, from each front on.
pub fn basic_runs(
    alloc: Global,
    fronts: &[u64],
    boundaries: &[u64],
    lf: u32,
) -> Result<Vec<Span>, OutOfMemory>
    requires { AreStarts fronts.now (length boundaries.now - 1) }
    ensures value { Gives result (runs fronts.now (cycles_of lf) (length boundaries.now - 1)) }
    ensures within { GivesAll (IsRun (length boundaries.now)) result }
    ensures rising { IfOk result (λ found. IsNonDecreasing (run_starts found.items)) }
{
    let count = boundaries.len().saturating_sub(1) as u64;
    chop(alloc, fronts, cycles_of_line(lf), count).map_err(|_| OutOfMemory)
}
