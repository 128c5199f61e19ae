// One field of a line. Lines and fields count from 1.
ghost use Rattle.std.specs.Prelude.{Ok, ◌*◌, ◌≡◌, ◌==◌, ◌<◌, ◌≤◌, ◌^◌, ◌⊎◌, IfOk, IfSome};
ghost use Rattle.std.specs.List.{list_any};
ghost use Rattle.std.specs.Str.{str_eq_ignore_ascii_case};
ghost use Rattle.pq_words.specs.Text.{number};
ghost use Rattle.pq_base.specs.Decimal.{decimal_of};
ghost use Rattle.cfg_fields.specs.Fields.{Gives, text_field, number_field, position_field, decimal_text, decimal_field, lettered, channel_count, frequency_field, rate_field, samples_field};

use crate::fault::{CfgFault, Quantity, Unsupported};
use crate::limits::MOST_CHANNELS;
use pq_base::{Scaled, Text, read_decimal, read_number};
use pq_words::{LEAST_SAMPLES_IN_CYCLE, MOST_RATE, MOST_SAMPLES};
use std::alloc::Global;

// A carriage return in a text.
fn has_carriage_return(text: &[u8]) -> bool
    ensures { result ≡ list_any (λ c. c == 13) text.now }
{
    text.iter().any(|byte| *byte == b'\r')
}

/// Whether a text is this word, without regard to the case of its ASCII letters.
pub fn is_word(text: &[u8], word: &[u8]) -> bool
    ensures { result ≡ str_eq_ignore_ascii_case text.now word.now }
{
    text.eq_ignore_ascii_case(word)
}

// A text of its own.
fn copied(alloc: Global, text: &[u8]) -> Result<Text, CfgFault>
    ensures { Gives result (Ok text.now) }
{
    Ok(Text::new(Vec::from_slice(alloc, text)?))
}

/// Reads a text.
///
/// # Errors
///
/// [`CfgFault::Field`] where it holds a carriage return, [`CfgFault::OutOfMemory`].
#[tactic(auto, unfolding(crate::specs::Fields::text_field))]
pub fn text_field(alloc: Global, line: u32, field: u32, text: &[u8]) -> Result<Text, CfgFault>
    ensures { Gives result (text_field line field text.now) }
{
    if has_carriage_return(text) {
        return Err(CfgFault::Field { line, field });
    }
    copied(alloc, text)
}

/// Reads a number of one to ten digits.
///
/// # Errors
///
/// [`CfgFault::Field`] where the text is no such number.
#[tactic(auto, unfolding(crate::specs::Fields::number_field))]
pub fn number_field(line: u32, field: u32, text: &[u8]) -> Result<u64, CfgFault>
    ensures { Gives result (number_field line field text.now) }
{
    read_number(text).ok_or(CfgFault::Field { line, field })
}

/// Reads a number that is known before: the position of a line among its kind, from 1, or a total.
///
/// # Errors
///
/// [`CfgFault::Field`] where the text is no number, or another one.
#[tactic(auto, unfolding(crate::specs::Fields::position_field))]
pub fn position_field(position: u32, line: u32, field: u32, text: &[u8]) -> Result<u64, CfgFault>
    ensures { Gives result (position_field position line field text.now) }
{
    let number = number_field(line, field, text)?;
    if number != u64::from(position) {
        return Err(CfgFault::Field { line, field });
    }
    Ok(number)
}

// A number behind which a letter stands, which is given as capital.
fn lettered(capital: u8, text: &[u8]) -> Option<u64>
    requires { capital < 128 }
    ensures { result ≡ lettered capital text.now }
{
    let (last, digits) = text.split_last()?;
    if *last != capital && *last != capital + 32 {
        return None;
    }
    read_number(digits)
}

/// Reads a number of channels, behind which a letter stands, as capital or small: `capital` is `A` for
/// analogue channels and `D` for status channels, and `what` names them.
///
/// # Errors
///
/// [`CfgFault::Field`] where the text is no number with this letter, and else [`CfgFault::Limit`] where
/// there are more than 999.
#[tactic(auto, unfolding(crate::specs::Fields::channel_count))]
pub fn channel_count(
    capital: u8,
    what: Quantity,
    line: u32,
    field: u32,
    text: &[u8],
) -> Result<u32, CfgFault>
    requires { capital < 128 }
    ensures value { Gives result (channel_count capital what line field text.now) }
    ensures within { IfOk result (λ n. n ≤ MOST_CHANNELS) }
{
    let count = lettered(capital, text).ok_or(CfgFault::Field { line, field })?;
    if count > MOST_CHANNELS {
        return Err(CfgFault::Limit { what, line });
    }
    Ok(count as u32)
}

// A decimal.
#[tactic(auto, unfolding(crate::specs::Fields::decimal_field))]
fn decimal_field(line: u32, field: u32, text: &[u8]) -> Result<Scaled, CfgFault>
    ensures { Gives result (decimal_field line field text.now) }
{
    read_decimal(text).ok_or(CfgFault::Field { line, field })
}

/// Reads a decimal, and keeps its spelling.
///
/// # Errors
///
/// [`CfgFault::Field`] where the text is no decimal, [`CfgFault::OutOfMemory`].
#[tactic(auto, unfolding(crate::specs::Fields::decimal_text))]
pub fn decimal_text(alloc: Global, line: u32, field: u32, text: &[u8]) -> Result<Text, CfgFault>
    ensures { Gives result (decimal_text line field text.now) }
{
    let _value = decimal_field(line, field, text)?;
    copied(alloc, text)
}

/// Reads the line frequency, in hertz: 50 or 60, after rounding to microhertz.
///
/// # Errors
///
/// [`CfgFault::Field`] where the text is no decimal, and else [`CfgFault::Unsupported`] where it is
/// neither of them.
#[tactic(auto, unfolding(crate::specs::Fields::frequency_field))]
pub fn frequency_field(line: u32, field: u32, text: &[u8]) -> Result<u32, CfgFault>
    ensures value { Gives result (frequency_field line field text.now) }
    ensures known { IfOk result (λ n. (n ≡ 50) ⊎ (n ≡ 60)) }
{
    match decimal_field(line, field, text)?.round(6, 60_000_000) {
        Some(50_000_000) => Ok(50),
        Some(60_000_000) => Ok(60),
        _ => Err(CfgFault::Unsupported {
            what: Unsupported::Frequency,
            line,
        }),
    }
}

/// Reads the sampling rate, a decimal in hertz, and gives it in microhertz, rounded half away from zero.
/// The line frequency `lf` is in hertz.
///
/// # Errors
///
/// [`CfgFault::Field`] where the text is no decimal, and else [`CfgFault::Limit`] where the rounded rate
/// is under 16 samples a cycle of the line frequency, or over 200,000 hertz.
#[tactic(auto, unfolding(crate::specs::Fields::rate_field))]
pub fn rate_field(lf: u32, line: u32, field: u32, text: &[u8]) -> Result<u64, CfgFault>
    requires { lf ≤ 60 }
    ensures { Gives result (rate_field lf line field text.now) }
{
    let least = i128::from(LEAST_SAMPLES_IN_CYCLE) * i128::from(lf) * 1_000_000;
    match decimal_field(line, field, text)?.round(6, u128::from(MOST_RATE)) {
        Some(rate) if rate >= least => Ok(rate as u64),
        _ => Err(CfgFault::Limit {
            what: Quantity::Rate,
            line,
        }),
    }
}

/// Reads the number of samples.
///
/// # Errors
///
/// [`CfgFault::Field`] where the text is no number, and else [`CfgFault::Limit`] where there are more than
/// 50,000,000.
#[tactic(auto, unfolding(crate::specs::Fields::samples_field))]
pub fn samples_field(line: u32, field: u32, text: &[u8]) -> Result<u64, CfgFault>
    ensures { Gives result (samples_field line field text.now) }
{
    let samples = number_field(line, field, text)?;
    if samples > MOST_SAMPLES {
        return Err(CfgFault::Limit {
            what: Quantity::Samples,
            line,
        });
    }
    Ok(samples)
}
