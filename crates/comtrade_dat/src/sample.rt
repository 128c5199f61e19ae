// The sample of a count.
ghost use Rattle.std.specs.Prelude.{◌≡◌, ◌^◌, ◌≤◌, ◌≤ℤ◌, ◌+ℤ◌, ◌*ℤ◌, true, pos, unsigned_abs};
ghost use Rattle.comtrade_cfg.specs.Selecting.{AreWithinLimit};
ghost use Rattle.comtrade_dat.specs.Channel.{AreSmall};
ghost use Rattle.pq_base.specs.Decimal.{rounded_quotient};
ghost use Rattle.pq_base.specs.Sample.{sample_of};
ghost use Rattle.pq_words.specs.declared.limits.TheConstants.{MOST_MICROVOLTS};
ghost use Rattle.pq_words.specs.Magnitude.{IsWithin};

use comtrade_cfg::Coefficients;

const PICOVOLTS_IN_MICROVOLT: u64 = 1_000_000;

// The sample of a count that is there, in whole microvolts.
pub(crate) fn microvolts(coefficients: &Coefficients, count: i16) -> i64
    requires limit { AreWithinLimit coefficients.now }
    requires within { IsWithin 32767 count }
    ensures value { result ≡ sample_of coefficients.now.a coefficients.now.b count }
    ensures quiet { IsWithin MOST_MICROVOLTS result }
{
    let picovolts = picovolts(coefficients, count);
    let size = rounded(picovolts.unsigned_abs() as u64);
    if picovolts < 0 { -size } else { size }
}

// The same in whole picovolts.
fn picovolts(coefficients: &Coefficients, count: i16) -> i128
    requires limit { AreWithinLimit coefficients.now }
    requires within { IsWithin 32767 count }
    ensures value { result ≡ (coefficients.now.a *ℤ count) +ℤ coefficients.now.b }
    ensures within { unsigned_abs result ≤ 10 ^ 19 }
{
    if are_small(coefficients) {
        i128::from(small_picovolts(coefficients, count))
    } else {
        wide_picovolts(coefficients, count)
    }
}

// No count makes picovolts past 64 bits. Coefficients of nearly all channels are such.
fn are_small(coefficients: &Coefficients) -> bool
    ensures { result ≡ true → AreSmall coefficients.now }
{
    coefficients.a.unsigned_abs() <= 1 << 46 && coefficients.b.unsigned_abs() <= 1 << 62
}

// The picovolts of a count in 64 bits, which takes half the time.
fn small_picovolts(coefficients: &Coefficients, count: i16) -> i64
    requires small { AreSmall coefficients.now }
    requires within { IsWithin 32767 count }
    ensures { result ≡ (coefficients.now.a *ℤ count) +ℤ coefficients.now.b }
{
    coefficients.a as i64 * i64::from(count) + coefficients.b as i64
}

// The same in 128 bits.
fn wide_picovolts(coefficients: &Coefficients, count: i16) -> i128
    requires limit { AreWithinLimit coefficients.now }
    requires within { IsWithin 32767 count }
    ensures value { result ≡ (coefficients.now.a *ℤ count) +ℤ coefficients.now.b }
    ensures within { unsigned_abs result ≤ 10 ^ 19 }
{
    i128::from(coefficients.a as i64) * i128::from(count) + coefficients.b
}

// A magnitude in picovolts as whole microvolts, half rounded up.
fn rounded(picovolts: u64) -> i64
    requires { picovolts ≤ 10 ^ 19 }
    ensures value { result ≡ pos (rounded_quotient picovolts (10 ^ 6)) }
    ensures within { result ≤ℤ pos MOST_MICROVOLTS }
{
    ((picovolts + PICOVOLTS_IN_MICROVOLT / 2) / PICOVOLTS_IN_MICROVOLT) as i64
}
