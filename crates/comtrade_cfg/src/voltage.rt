// Channels of voltage, and how great their samples may be.
ghost use Rattle.std.specs.Prelude.{◌≡◌, ◌↔◌, ◌≤◌, unsigned_abs, IfSome, IsSome, is_some};
ghost use Rattle.comtrade_cfg.specs.Selecting.{AreWithinLimit, coefficients_of, is_voltage_channel, is_within_value_limit, picovolts, unit_power};

use crate::cfg::Analogue;
use crate::limits::MOST_PICOVOLTS;
use cfg_fields::is_word;
use pq_base::read_decimal;

// The power of ten of the picovolts in a unit of voltage, V or kV.
pub(crate) fn unit_power(unit: &[u8]) -> Option<u32>
    ensures value { result ≡ unit_power unit.now }
    ensures within { IfSome result (λ p. p ≤ 15) }
{
    if is_word(unit, b"V") {
        return Some(12);
    }
    if is_word(unit, b"kV") {
        return Some(15);
    }
    None
}

/// The coefficients of a channel in whole picovolts: the count x stands for `a * x + b`.
#[derive(Clone, Copy, Debug, PartialEq, Eq)]
pub struct Coefficients {
    pub a: i128,
    pub b: i128,
}

// A coefficient in whole picovolts, where it is within the limit by itself.
#[tactic(auto, using(crate::proofs::ValueLemmas::sign_abs))]
fn coefficient(power: u32, text: &[u8]) -> Option<i128>
    requires { power ≤ 15 }
    ensures succeeds { IsSome result ↔ (unsigned_abs (picovolts power text.now) ≤ MOST_PICOVOLTS) }
    ensures value { IfSome result (λ x. x ≡ picovolts power text.now) }
    ensures within { IfSome result (λ x. unsigned_abs x ≤ MOST_PICOVOLTS) }
{
    let Some(value) = read_decimal(text) else {
        return Some(0);
    };
    value.round(power, MOST_PICOVOLTS)
}

impl Analogue {
    /// The coefficients of a channel in V or kV, each rounded half away from zero to whole picovolts;
    /// None where `32767 * abs(a) + abs(b)` is above 10^19, so that a count may make a sample past the limit.
    pub fn coefficients(&self) -> Option<Coefficients>
        ensures succeeds { IsSome result ↔ AreWithinLimit (coefficients_of self.now) }
        ensures value { IfSome result (λ k. k ≡ coefficients_of self.now) }
        ensures within { IfSome result AreWithinLimit }
    {
        let power = unit_power(self.unit.bytes()).unwrap_or(0);
        let a = coefficient(power, self.a.bytes())?;
        let b = coefficient(power, self.b.bytes())?;
        if a.unsigned_abs() * 32767 + b.unsigned_abs() > MOST_PICOVOLTS {
            return None;
        }
        Some(Coefficients { a, b })
    }
}

// Whether no count makes a sample past the limit.
pub(crate) fn is_within_value_limit(channel: &Analogue) -> bool
    ensures { result ≡ is_within_value_limit channel.now }
{
    channel.coefficients().is_some()
}

// Whether the channel of this number, from 1, is there and in V or kV.
pub(crate) fn is_voltage_channel(channels: &[Analogue], number: u32) -> bool
    ensures { result ≡ is_voltage_channel channels.now number }
{
    if number == 0 {
        return false;
    }
    match channels.get(number as usize - 1) {
        Some(channel) => unit_power(channel.unit.bytes()).is_some(),
        None => false,
    }
}
