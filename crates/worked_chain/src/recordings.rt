// The worked recordings of two intervals.
ghost use Rattle.std.specs.Prelude.{◌≡◌, length, All, IfOk};
ghost use Rattle.pq_words.specs.Magnitude.{IsWithin};

use pq_base::Recording;
use pq_words::MOST_MICROVOLTS;
use std::alloc::{AllocError, Global};

const CYCLE: [i16; 24] = [
    0, 2588, 5000, 7071, 8660, 9659, 10000, 9659, 8660, 7071, 5000, 2588, 0, -2588, -5000, -7071,
    -8660, -9659, -10000, -9659, -8660, -7071, -5000, -2588,
];

/// One channel of 552 samples from a second after noon of 1 March 2024: a sine; where the flag is set, it is
/// halved for two cycles.
pub fn recording(alloc: Global, halved: bool) -> Result<Recording, AllocError> {
    let samples = vec![in alloc; samples(alloc, halved, 552)?]?;
    let numbers = vec![in alloc; 1u32]?;
    Ok(Recording::new(
        1_709_294_401_000_000_000,
        1_200_000_000,
        50,
        numbers,
        0,
        samples,
    ))
}

// n samples of it, in microvolts.
fn samples(alloc: Global, halved: bool, n: usize) -> Result<Vec<i64>, AllocError>
    ensures count { IfOk result (λ samples. length samples.items ≡ n) }
    ensures quiet { IfOk result (λ samples. All (IsWithin MOST_MICROVOLTS) samples.items) }
{
    let mut samples = Vec::with_capacity(alloc, n)?;
    for place in 0..n {
        samples.push(sample(halved, place))?;
    }
    Ok(samples)
}

// A sine of 10,000 counts at 0.0325 V; where the flag is set, counts are halved toward zero at places 264 to
// 311.
fn sample(halved: bool, place: usize) -> i64
    ensures { IsWithin MOST_MICROVOLTS result }
{
    let count = i64::from(CYCLE[place % 24]);
    if halved && 264 <= place && place < 312 {
        count / 2 * 32_500
    } else {
        count * 32_500
    }
}
