// The basic intervals of a recording, as spans of places.
ghost use Rattle.std.specs.Prelude.{◌≡◌, length, map, All};
ghost use Rattle.lane_sources.specs.Sampler.{LiesIn, recorded_spans};
ghost use Rattle.pq_base.specs.Recorded.{sample_count};
ghost use Rattle.pq_sequence.specs.BasicInterval.{IsRun, basic_span};
ghost use Rattle.pq_sequence.specs.Lists.{Gives, GivesAll};

use pq_base::Recording;
use pq_sequence::{recorded_runs, reference_cycles, span_of};
use std::alloc::{AllocError, Global};
use ten_twelve::Span;

/// The spans of the basic intervals of a recording, in order.
pub fn basic_spans(alloc: Global, recording: &Recording) -> Result<Vec<Span>, AllocError>
    ensures value { Gives result (recorded_spans recording.now) }
    ensures within { GivesAll (LiesIn (sample_count recording.now)) result }
{
    let boundaries = reference_cycles(alloc, recording)?;
    let Ok(runs) = recorded_runs(alloc, recording, &boundaries) else {
        return Err(AllocError);
    };
    spans_of(alloc, &boundaries, &runs)
}

// Runs of cycles as spans of places.
fn spans_of(alloc: Global, boundaries: &[u64], runs: &[Span]) -> Result<Vec<Span>, AllocError>
    requires { All (IsRun (length boundaries.now)) runs.now }
    ensures { Gives result (map (basic_span boundaries.now) runs.now) }
{
    let mut spans = Vec::with_capacity(alloc, runs.len())?;
    for run in runs {
        spans.push(span_of(boundaries, *run))?;
    }
    Ok(spans)
}
