// The keys of the lanes of a recording.
ghost use Rattle.std.specs.Prelude.{◌≡◌, ◌*◌, ◌/◌, ◌<◌, ◌≤◌, length, map, All, IfOk, OnOk};
ghost use Rattle.chain_core.specs.MeasuredOf.{keys_at, recorded_keys};
ghost use Rattle.lanes.specs.Lane.{detector_items, frequency_items, lane_count, lane_key, sampler_items};
ghost use Rattle.pq_base.specs.Recorded.{IsRecording};
ghost use Rattle.pq_sequence.specs.BasicInterval.{IsRun};
ghost use Rattle.pq_sequence.specs.Lists.{Gives};
ghost use Rattle.pq_sequence.specs.MeasuredRecording.{channel_count, reference_cycles as cycles_of_recording};
ghost use Rattle.lanes.specs.Lane.{recorded_runs as runs_of_recording};

use crate::measurement::LaneKeys;
use freq10s::Readings;
use half_cycle::Windows;
use pq_base::{OutOfMemory, Recording};
use pq_sequence::{clock_of, recorded_rule, recorded_runs, reference_cycles};
use std::alloc::{AllocError, Global};
use ten_twelve::Span;

/// The keys of all lanes.
pub fn all_keys(alloc: Global, recording: &Recording) -> Result<Vec<LaneKeys>, OutOfMemory>
    ensures value { IfOk result (λ keys. keys.items ≡ recorded_keys recording.now) }
    ensures conditions { OnOk result (IsRecording recording.now) }
{
    let boundaries = reference_cycles(alloc, recording)?;
    let runs = recorded_runs(alloc, recording, &boundaries)?;
    let _channels = recording.channels();
    Ok(keys_by_lane(alloc, recording, &boundaries, &runs)?)
}

// The keys of all lanes, with the boundaries and the runs of cycles at hand.
fn keys_by_lane(
    alloc: Global,
    recording: &Recording,
    boundaries: &[u64],
    runs: &[Span],
) -> Result<Vec<LaneKeys>, AllocError>
    requires cycles { boundaries.now ≡ cycles_of_recording recording.now }
    requires runs { runs.now ≡ runs_of_recording recording.now }
    requires within { All (IsRun (length boundaries.now)) runs.now }
    ensures { IfOk result (λ keys. keys.items ≡ recorded_keys recording.now) }
{
    let mut found = Vec::with_capacity(alloc, 2 * recording.channels() as usize + 1)?;
    for lane in 0..2 * recording.channels() + 1 {
        found.push(LaneKeys {
            keys: lane_keys(alloc, recording, boundaries, runs, lane)?,
        })?;
    }
    Ok(found)
}

// The keys of one lane.
#[tactic(auto, using(crate::proofs::LaneLemmas::keys_by_lane))]
fn lane_keys(
    alloc: Global,
    recording: &Recording,
    boundaries: &[u64],
    runs: &[Span],
    lane: u32,
) -> Result<Vec<u64>, AllocError>
    requires lane { lane < lane_count recording.now }
    requires cycles { boundaries.now ≡ cycles_of_recording recording.now }
    requires runs { runs.now ≡ runs_of_recording recording.now }
    requires within { All (IsRun (length boundaries.now)) runs.now }
    ensures { Gives result (keys_at recording.now lane) }
{
    if lane == 2 * recording.channels() {
        frequency_keys(alloc, recording)
    } else if lane % 2 == 0 {
        sampler_keys(alloc, recording, boundaries, runs, lane / 2)
    } else {
        detector_keys(alloc, recording, lane / 2)
    }
}

// The ends of the basic intervals.
fn sampler_keys(
    alloc: Global,
    recording: &Recording,
    boundaries: &[u64],
    runs: &[Span],
    position: u32,
) -> Result<Vec<u64>, AllocError>
    requires cycles { boundaries.now ≡ cycles_of_recording recording.now }
    requires runs { runs.now ≡ runs_of_recording recording.now }
    requires within { All (IsRun (length boundaries.now)) runs.now }
    ensures { Gives result (map lane_key (sampler_items recording.now position)) }
{
    let mut keys = Vec::with_capacity(alloc, runs.len())?;
    for run in runs {
        keys.push(boundaries[run.end as usize])?;
    }
    Ok(keys)
}

// One more than the starts of a channel's windows.
fn detector_keys(
    alloc: Global,
    recording: &Recording,
    position: u32,
) -> Result<Vec<u64>, AllocError>
    requires { position < channel_count recording.now }
    ensures { Gives result (map lane_key (detector_items recording.now position)) }
{
    let mut keys = Vec::new(alloc);
    for window in Windows::new(recording.samples(position), recorded_rule(recording)) {
        keys.push(window.start + 1)?;
    }
    Ok(keys)
}

// The ends of the frequency readings.
fn frequency_keys(alloc: Global, recording: &Recording) -> Result<Vec<u64>, AllocError>
    ensures { Gives result (map lane_key (frequency_items recording.now)) }
{
    let samples = recording.samples(recording.reference());
    let mut keys = Vec::new(alloc);
    for reading in Readings::new(samples, recorded_rule(recording), clock_of(recording)) {
        keys.push(reading.end)?;
    }
    Ok(keys)
}
