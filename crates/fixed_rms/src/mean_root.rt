// Roots of mean squares.
ghost use Rattle.std.specs.Prelude.{◌≡◌, ◌*◌, ◌/◌, ◌^◌, ◌<◌, ◌≤◌, IfSome, length};
ghost use Rattle.fixed_rms.specs.Root.{AreRoots, IsGreatestRoot, isqrt, sum_of_squares};
ghost use Rattle.fixed_rms.specs.Root.{mean_of_squares, mean_square, rms, root_mean};
ghost use Rattle.pq_words.specs.Samples.{AreSamples};

use crate::integer_root::{isqrt, square};
use pq_words::MOST_MICROVOLTS;

// One past the greatest number of 32 bits.
const WORD: u64 = 1 << 32;

/// The sum of the squares of samples in microvolts, in square microvolts. Where each is small, as is
/// usual, it takes half the time.
pub fn sum_of_squares(samples: &[i64]) -> u128
    requires { AreSamples samples.now }
    ensures value { result ≡ sum_of_squares samples.now }
    ensures within { result ≤ length samples.now * MOST_MICROVOLTS ^ 2 }
{
    match sum_if_small(samples) {
        Some(sum) => sum,
        None => sum_of_any(samples),
    }
}

// The sum where each magnitude fits in 32 bits, as it does up to 4,294 V: the halves of each square are
// summed apart, in 64 bits, two samples at a time.
fn sum_if_small(samples: &[i64]) -> Option<u128>
    requires { AreSamples samples.now }
    ensures { IfSome result (λ sum. sum ≡ sum_of_squares samples.now) }
{
    let mut are_small = true;
    let mut low: u64 = 0;
    let mut high: u64 = 0;
    for sample in samples {
        let size = sample.unsigned_abs();
        are_small &= size < WORD;
        let square = square_of_word((size % WORD) as u32);
        low += square % WORD;
        high += square / WORD;
    }
    if are_small {
        Some(u128::from(high) * u128::from(WORD) + u128::from(low))
    } else {
        None
    }
}

// The square of a number of 32 bits.
fn square_of_word(n: u32) -> u64
    ensures value { result ≡ n * n }
    ensures within { result < WORD * WORD }
{
    u64::from(n) * u64::from(n)
}

// The sum of samples of any size.
fn sum_of_any(samples: &[i64]) -> u128
    requires { AreSamples samples.now }
    ensures { result ≡ sum_of_squares samples.now }
{
    let mut sum = 0;
    for sample in samples {
        sum += square(sample.unsigned_abs());
    }
    sum
}

/// The root of the mean of so many squares of this sum, in microvolts, rounded down.
pub fn root_of_mean(sum: u128, count: u64) -> u64
    requires some { 0 < count }
    requires within { sum ≤ count * MOST_MICROVOLTS ^ 2 }
    ensures value { result ≡ isqrt (sum / count) }
    ensures greatest { IsGreatestRoot (sum / count) result }
    ensures within { result ≤ MOST_MICROVOLTS }
{
    isqrt(sum / u128::from(count))
}

/// The mean of the squares of samples in microvolts, rounded down, in square microvolts.
pub fn mean_square(samples: &[i64]) -> u128
    requires some { 0 < length samples.now }
    requires samples { AreSamples samples.now }
    ensures value { result ≡ mean_square samples.now }
    ensures within { result ≤ MOST_MICROVOLTS ^ 2 }
{
    sum_of_squares(samples) / samples.len() as u128
}

/// The root of the mean square of samples in microvolts, in microvolts, rounded down (5.2).
pub fn rms(samples: &[i64]) -> u64
    requires some { 0 < length samples.now }
    requires samples { AreSamples samples.now }
    ensures value { result ≡ rms samples.now }
    ensures greatest { IsGreatestRoot (mean_square samples.now) result }
    ensures within { result ≤ MOST_MICROVOLTS }
{
    isqrt(mean_square(samples))
}

/// The root of the mean of the squares of values that are roots themselves, all in microvolts, rounded
/// down (aggregation, 4.5).
pub fn root_mean(values: &[u64]) -> u64
    requires some { 0 < length values.now }
    requires values { AreRoots values.now }
    ensures value { result ≡ root_mean values.now }
    ensures greatest { IsGreatestRoot (mean_of_squares values.now) result }
    ensures within { result ≤ MOST_MICROVOLTS }
{
    let mut sum = 0;
    for value in values {
        sum += square(*value);
    }
    root_of_mean(sum, values.len() as u64)
}
