// Decimals: numbers with a point and an exponent, as fields of a cfg write them.
ghost use Rattle.std.specs.Prelude.{◌≡◌, ◌+◌, ◌*◌, ◌^◌, ◌<◌, ◌≤◌, ◌==◌, [], ◌∷◌, ◌++◌, length, IfSome, OnSome, SomeIff};
ghost use Rattle.std.specs.List.{position, slice_split};
ghost use Rattle.std.specs.Option.{option_copied};
ghost use Rattle.pq_base.specs.Decimal.{IsCut, decimal_of, exponent_of, is_exponent_mark, mantissa_of, rounded_quotient, scaled_by, shifted_within, signed_text, with_sign};
ghost use Rattle.pq_words.specs.Magnitude.{IsWithin};
ghost use Rattle.pq_words.specs.Text.{digits_between, parted_at};

use crate::number::{read_digits, with_digits};
use crate::rounding::rounded_quotient;

// Digits of a decimal, before and after its point together.
const MOST_DIGITS: usize = 32;

const TEN: u128 = 10;

// The greatest power of ten within 128 bits.
const MOST_POWER: u64 = 38;

/// A number in whole digits times a power of ten.
#[derive(Clone, Copy, Debug, PartialEq, Eq)]
pub struct Scaled {
    /// Whether the number is below zero, where its digits are not 0.
    pub negative: bool,
    /// The digits before and after the point, as one whole number.
    pub digits: u128,
    /// The power of ten that the digits are times.
    pub exponent: i32,
}

/// The number that a decimal writes; None where the text is no decimal.
///
/// A decimal is an optional sign, 1 to 32 digits with at most one point before, between or after
/// them, and optionally `e` or `E`, a sign if any, and one to three digits.
pub fn read_decimal(text: &[u8]) -> Option<Scaled>
    ensures { result ≡ decimal_of text.now }
{
    let (negative, unsigned) = cut_sign(text);
    let (mantissa, written) = cut_exponent(unsigned);
    match written {
        Some(written) => {
            let exponent = read_exponent(written)?;
            read_mantissa(negative, mantissa, exponent)
        }
        None => read_mantissa(negative, mantissa, 0),
    }
}

impl Scaled {
    /// The number times ten to the `shift`, rounded half away from zero to a whole number; None where
    /// its magnitude is above `most`.
    pub fn round(&self, shift: u32, most: u128) -> Option<i128>
        requires shift { shift ≤ 15 }
        requires most { most ≤ 10 ^ 30 }
        ensures value { result ≡ shifted_within most self.now shift }
        ensures within { IfSome result (IsWithin most) }
    {
        let power = i64::from(self.exponent) + i64::from(shift);
        let size = if power < 0 {
            divided(self.digits, power.unsigned_abs())
        } else {
            multiplied(self.digits, power as u64)?
        };
        if size > most {
            return None;
        }
        Some(signed(self.negative, size))
    }
}

// Whether a minus stands in front, and what stands after the sign if there is one.
fn cut_sign(text: &[u8]) -> (bool, &[u8])
    ensures negative { result.0 ≡ (signed_text text.now).0 }
    ensures unsigned { result.1.now ≡ (signed_text text.now).1 }
{
    match text {
        [b'-', unsigned @ ..] => (true, unsigned),
        [b'+', unsigned @ ..] => (false, unsigned),
        _ => (false, text),
    }
}

fn exponent_index(text: &[u8]) -> Option<usize>
    ensures { result ≡ position is_exponent_mark text.now }
{
    text.iter().position(|byte| *byte == b'e' || *byte == b'E')
}

fn point_index(text: &[u8]) -> Option<usize>
    ensures { result ≡ position (λ c. c == 46) text.now }
{
    text.iter().position(|byte| *byte == b'.')
}

// What stands before the first exponent mark, and what stands after it if there is one.
fn cut_exponent(text: &[u8]) -> (&[u8], Option<&[u8]>)
    ensures { IsCut is_exponent_mark text.now result.0.now (option_copied result.1) }
{
    match exponent_index(text) {
        Some(at) => (&text[..at], Some(&text[at + 1..])),
        None => (text, None),
    }
}

// What stands before the first point, and what stands after it if there is one.
fn cut_point(text: &[u8]) -> (&[u8], Option<&[u8]>)
    ensures { IsCut (λ c. c == 46) text.now result.0.now (option_copied result.1) }
{
    match point_index(text) {
        Some(at) => (&text[..at], Some(&text[at + 1..])),
        None => (text, None),
    }
}

// A sign if any, and one to three digits.
fn read_exponent(text: &[u8]) -> Option<i32>
    ensures value { result ≡ exponent_of text.now }
    ensures within { IfSome result (IsWithin 999) }
{
    let (negative, unsigned) = cut_sign(text);
    let size = read_digits(unsigned, 3)? as i32;
    Some(if negative { -size } else { size })
}

fn read_mantissa(negative: bool, text: &[u8], exponent: i32) -> Option<Scaled>
    requires { IsWithin 999 exponent }
    ensures { result ≡ mantissa_of negative (parted_at 46 text.now) exponent }
{
    let (whole, fraction) = cut_point(text);
    match fraction {
        Some(fraction) => read_parts(negative, whole, fraction, exponent),
        None => read_parts(negative, whole, &[], exponent),
    }
}

fn read_parts(negative: bool, whole: &[u8], fraction: &[u8], exponent: i32) -> Option<Scaled>
    requires { IsWithin 999 exponent }
    ensures { result ≡ scaled_by negative whole.now fraction.now exponent }
{
    let digits = joined_digits(whole, fraction)?;
    let exponent = exponent - fraction.len() as i32;
    Some(Scaled {
        negative,
        digits,
        exponent,
    })
}

// The number that the digits before and after a point write together.
fn joined_digits(whole: &[u8], fraction: &[u8]) -> Option<u128>
    ensures value { result ≡ digits_between 1 32 (whole.now ++ fraction.now) }
    ensures within { OnSome result (length fraction.now ≤ 32) }
{
    let count = whole.len().saturating_add(fraction.len());
    if count == 0 {
        return None;
    }
    if count > MOST_DIGITS {
        return None;
    }
    let front = with_digits(0, whole)?;
    with_digits(front, fraction)
}

// The digits times ten to the power; None where that is not within 128 bits.
fn multiplied(digits: u128, power: u64) -> Option<u128>
    ensures { SomeIff result (digits * 10 ^ power < 2 ^ 128) (digits * 10 ^ power) }
{
    if digits == 0 {
        return Some(0);
    }
    if power > MOST_POWER {
        return None;
    }
    digits.checked_mul(power_of_ten(power))
}

// The digits divided by ten to the power, rounded half up.
fn divided(digits: u128, power: u64) -> u128
    requires { 0 < power }
    ensures { result ≡ rounded_quotient digits (10 ^ power) }
{
    if power > MOST_POWER {
        return 0;
    }
    rounded_quotient(digits, power_of_ten(power))
}

fn power_of_ten(power: u64) -> u128
    requires { power ≤ 38 }
    ensures value { result ≡ 10 ^ power }
    ensures some { 0 < result }
{
    TEN.pow(power as u32)
}

// The size, below zero where `negative`.
fn signed(negative: bool, size: u128) -> i128
    requires { size ≤ 10 ^ 30 }
    ensures { result ≡ with_sign negative size }
{
    if negative {
        -(size as i128)
    } else {
        size as i128
    }
}
