// The one rounding, for decimals and for samples.
ghost use Rattle.std.specs.Prelude.{◌≡◌, ◌<◌};
ghost use Rattle.pq_base.specs.Decimal.{rounded_quotient};

/// The size divided by the unit, rounded half up: with a sign before it, half away from zero.
#[inline]
pub fn rounded_quotient(size: u128, unit: u128) -> u128
    requires { 0 < unit }
    ensures { result ≡ rounded_quotient size unit }
{
    let whole = size / unit;
    let rest = size % unit;
    if rest < unit - rest { whole } else { whole + 1 }
}
