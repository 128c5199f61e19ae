// The recording as it is measured.
ghost use Rattle.std.specs.Prelude.{◌≡◌, IfOk};
ghost use Rattle.pq_generate.specs.MeasuredRecording.{generated_recording};

use crate::samples::channel_samples;
use pq_base::{OutOfMemory, Recording};
use std::alloc::Global;

// 1 March 2024, 11:59:59, in nanoseconds since 1970 in UTC.
const FIRST_MOMENT: i64 = 1_709_294_399_000_000_000;

// In microhertz.
const RATE: u64 = 1_200_000_000;

const LINE_FREQUENCY: u32 = 50;

/// The recording that the files of a seed say, without a text in between.
pub fn generated_recording(alloc: Global, seed: u64) -> Result<Recording, OutOfMemory>
    ensures { IfOk result (λ recording. recording ≡ generated_recording seed) }
{
    let numbers = Vec::from_array(alloc, [1, 2, 3])?;
    let first = channel_samples(alloc, seed, 1)?;
    let second = channel_samples(alloc, seed, 2)?;
    let third = channel_samples(alloc, seed, 3)?;
    let samples = Vec::from_array(alloc, [first, second, third])?;
    Ok(Recording::new(FIRST_MOMENT, RATE, LINE_FREQUENCY, numbers, 0, samples))
}
