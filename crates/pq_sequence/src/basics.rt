// Basic intervals, with their values and flags.
ghost use Rattle.std.specs.Prelude.{◌≡◌, ◌<◌, ◌≤◌, ◌==◌, ◌-◌, length, take, All, IfOk, slice_index, slice_range};
ghost use Rattle.std.specs.List.{list_any};
ghost use Rattle.std.specs.List.Sorted.{IsNonDecreasing, IsStrictlyIncreasing};
ghost use Rattle.fixed_rms.specs.Root.{rms};
ghost use Rattle.pq_base.specs.Recorded.{sample_count};
ghost use Rattle.pq_sequence.specs.BasicInterval.{IsRun, basic_span, cycles_of};
ghost use Rattle.pq_sequence.specs.Lists.{Gives, GivesAll};
ghost use Rattle.pq_sequence.specs.Measured.{AreBasicsOver, AreBelow, AreMeasured, GivesBasics, IsBasicOver, IsMeasured, run_starts, GivesBasicsOver};
ghost use Rattle.pq_sequence.specs.MeasuredRecording.{channel_count, roots_over};
ghost use Rattle.pq_sequence.specs.Touches.{AreReachesOfSome};
ghost use Rattle.pq_words.specs.Samples.{AreSamples};
ghost use Rattle.ten_twelve.specs.Run.{AreStarts, runs};
ghost use Rattle.zero_cross.specs.Boundary.{AreBoundaries};

use crate::clock::clock_of;
use crate::fronts::all_fronts;
use crate::runs::{basic_runs, span_of};
use crate::touches::{Reach, is_touched};
use fixed_rms::rms;
use pq_base::{OutOfMemory, Recording};
use pq_words::{MOST_MICROVOLTS, MOST_SELECTED};
use std::alloc::{AllocError, Global};
use ten_twelve::Span;

// Room for the values of the most channels.
const SLOTS: usize = MOST_SELECTED as usize;

/// A basic interval of all channels (IEC 61000-4-30:2015, 4.5, 4.7, 5.2).
#[derive(Clone, Copy)]
pub struct BasicInterval {
    /// Whether it is the first of a segment.
    pub front: bool,
    /// Its span of sample places.
    pub span: Span,
    /// The root of each channel by position, in microvolts, and 0 past the channels.
    pub values: [u64; SLOTS],
    /// Whether some event touches it.
    pub flagged: bool,
}

/// The basic intervals of a recording between its reference channel's boundaries, flagged by the
/// reaches of its events.
pub fn recorded_basics(
    alloc: Global,
    recording: &Recording,
    boundaries: &[u64],
    reaches: &[Reach],
) -> Result<Vec<BasicInterval>, OutOfMemory>
    requires boundaries { AreBoundaries boundaries.now (sample_count recording.now) }
    requires reaches { AreReachesOfSome reaches.now }
    ensures value { GivesBasics result recording.now boundaries.now reaches.now }
    ensures order { IfOk result (λ found. AreMeasured recording.now found.items) }
{
    let fronts = all_fronts(alloc, boundaries, &clock_of(recording), recording.len())?;
    let runs = basic_runs(alloc, &fronts, boundaries, recording.lf())?;
    let basics = basics_over(alloc, recording, boundaries, &fronts, &runs, reaches)?;
    Ok(basics)
}

// The basic intervals over runs of cycles; the fronts are gone along with.
fn basics_over(
    alloc: Global,
    recording: &Recording,
    boundaries: &[u64],
    fronts: &[u64],
    runs: &[Span],
    reaches: &[Reach],
) -> Result<Vec<BasicInterval>, AllocError>
    requires boundaries { AreBoundaries boundaries.now (sample_count recording.now) }
    requires fronts { IsStrictlyIncreasing fronts.now }
    requires runs { All (IsRun (length boundaries.now)) runs.now }
    requires rising { IsNonDecreasing (run_starts runs.now) }
    ensures value { GivesBasicsOver result recording.now boundaries.now fronts.now reaches.now runs.now }
    ensures each { GivesAll (IsMeasured recording.now) result }
{
    let mut found = Vec::with_capacity(alloc, runs.len())?;
    let mut next = 0;
    for run in runs {
        next = front_from(fronts, next, run.start);
        let front = is_at(fronts, next, run.start);
        found.push(basic(recording, span_of(boundaries, *run), front, reaches))?;
    }
    Ok(found)
}

// The index of the first front that is not before a cycle; none is, up to index `next`.
fn front_from(fronts: &[u64], mut next: usize, cycle: u64) -> usize
    requires before { AreBelow cycle fronts.now next }
    ensures before { AreBelow cycle fronts.now result }
    ensures there { result < length fronts.now → cycle ≤ slice_index fronts.now result }
{
    while next < fronts.len() && fronts[next] < cycle {
        next += 1;
    }
    next
}

// Whether a cycle is a front, by the first front that is not before it.
fn is_at(fronts: &[u64], next: usize, cycle: u64) -> bool
    requires rising { IsStrictlyIncreasing fronts.now }
    requires before { AreBelow cycle fronts.now next }
    requires there { next < length fronts.now → cycle ≤ slice_index fronts.now next }
    ensures { result ≡ list_any (λ g. g == cycle) fronts.now }
{
    next < fronts.len() && fronts[next] == cycle
}

// The basic interval over a span.
fn basic(recording: &Recording, span: Span, front: bool, reaches: &[Reach]) -> BasicInterval
    requires some { span.start < span.end }
    requires inside { span.end ≤ sample_count recording.now }
    ensures value { IsBasicOver recording.now span front reaches.now result }
    ensures measured { IsMeasured recording.now result }
{
    BasicInterval {
        front,
        span,
        values: roots_over(recording, span),
        flagged: is_touched(reaches, span),
    }
}

// The root of each channel's samples over a span, by position, and 0 past the channels.
fn roots_over(recording: &Recording, span: Span) -> [u64; SLOTS]
    requires some { span.start < span.end }
    requires inside { span.end ≤ sample_count recording.now }
    ensures value { take (channel_count recording.now) result ≡ roots_over recording.now span }
    ensures quiet { All (λ value. value ≤ MOST_MICROVOLTS) result }
{
    let mut roots = [0; SLOTS];
    for position in 0..recording.channels() {
        roots[position as usize] = root(recording.samples(position), span);
    }
    roots
}

// The root of samples over a span.
fn root(samples: &[i64], span: Span) -> u64
    requires some { span.start < span.end }
    requires inside { span.end ≤ length samples.now }
    requires samples { AreSamples samples.now }
    ensures value { result ≡ rms (slice_range samples.now span.start span.end) }
    ensures quiet { result ≤ MOST_MICROVOLTS }
{
    rms(&samples[span.start as usize..span.end as usize])
}
