// The greatest whole number whose square fits.
ghost use Rattle.std.specs.Prelude.{◌≡◌, ◌*◌, ◌^◌, ◌≤◌};
ghost use Rattle.fixed_rms.specs.Root.{IsGreatestRoot, isqrt};

use pq_words::MOST_MICROVOLTS;
use std::num::{nearest_u64_to_f64, saturating_f64_to_u64};

/// The greatest number whose square is at most `x`, which is at most the square of the greatest
/// magnitude of a sample. Rounding down is this project's choice.
pub fn isqrt(x: u128) -> u64
    requires { x ≤ MOST_MICROVOLTS ^ 2 }
    ensures value { result ≡ isqrt x }
    ensures greatest { IsGreatestRoot x result }
    ensures within { result ≤ MOST_MICROVOLTS }
{
    raise_to_root(x, lower_to_fit(x, guess_root(x)))
}

// The root in floating point: one off at most, and no more than a guess, since the two searches find
// the root from any number.
fn guess_root(x: u128) -> u64 {
    // 2^64
    const WORD: f64 = 18_446_744_073_709_551_616.0;
    let high = (x >> 64) as u64;
    let low = (x & u128::from(u64::MAX)) as u64;
    let near = nearest_u64_to_f64(high) * WORD + nearest_u64_to_f64(low);
    saturating_f64_to_u64(near.sqrt())
}

// The square of a number.
pub(crate) fn square(n: u64) -> u128
    ensures { result ≡ n * n }
{
    u128::from(n) * u128::from(n)
}

// The first number from `guess` downwards whose square is at most `x`.
fn lower_to_fit(x: u128, guess: u64) -> u64
    ensures { result * result ≤ x }
{
    let mut root = guess;
    while square(root) > x {
        root -= 1;
    }
    root
}

// The root of `x`, from a number upwards whose square is at most `x`.
fn raise_to_root(x: u128, low: u64) -> u64
    requires small { x ≤ MOST_MICROVOLTS ^ 2 }
    requires fits { low * low ≤ x }
    ensures { IsGreatestRoot x result }
{
    let mut root = low;
    while square(root + 1) <= x {
        root += 1;
    }
    root
}
