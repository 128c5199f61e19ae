// Fields that tell a time, the offset of a clock, or how good it is. Lines and fields count from 1.
ghost use Rattle.std.specs.Prelude.{◌*◌, ◌≡◌, ◌^◌, IfOk};
ghost use Rattle.pq_words.specs.Magnitude.{IsWithin};
ghost use Rattle.pq_time.specs.Moment.{written_moment};
ghost use Rattle.cfg_fields.specs.Fields.{Gives, moment_fields, hexadecimal, leap_digit, leap_field, local_code_of};

use crate::fault::{CfgFault, Unsupported};
use crate::field::is_word;
use pq_time::{BadMoment, read_code, read_moment};
use pq_words::MOST_NANOSECONDS;

/// Reads a moment as written, in nanoseconds since 1970: the date is field 1, the time field 2.
///
/// # Errors
///
/// [`CfgFault::Field`] with the first of the two that is no date, or no time.
pub fn moment_fields(line: u32, date: &[u8], time: &[u8]) -> Result<i64, CfgFault>
    ensures value { Gives result (moment_fields line (written_moment date.now time.now)) }
    ensures within { IfOk result (IsWithin MOST_NANOSECONDS) }
{
    match read_moment(date, time) {
        Ok(moment) => Ok(moment),
        Err(BadMoment::Date) => Err(CfgFault::Field { line, field: 1 }),
        Err(BadMoment::Time) => Err(CfgFault::Field { line, field: 2 }),
    }
}

/// Reads one hexadecimal digit, capital or small: the time quality. None for every other text.
pub fn hexadecimal(text: &[u8]) -> Option<u8>
    ensures { result ≡ hexadecimal text.now }
{
    match text {
        [digit @ b'0'..=b'9'] => Some(*digit - b'0'),
        [digit @ b'A'..=b'F'] => Some(*digit - b'A' + 10),
        [digit @ b'a'..=b'f'] => Some(*digit - b'a' + 10),
        _ => None,
    }
}

// One digit from 0 to 3.
fn leap_digit(text: &[u8]) -> Option<u8>
    ensures { result ≡ leap_digit text.now }
{
    match text {
        [digit @ b'0'..=b'3'] => Some(*digit - b'0'),
        _ => None,
    }
}

/// Reads the leap second digit, from 0 to 3.
///
/// # Errors
///
/// [`CfgFault::Field`] where the text is no such digit, and else [`CfgFault::Unsupported`] where it announces
/// a leap second, by 1 or 2.
#[tactic(auto, unfolding(crate::specs::Fields::leap_field))]
pub fn leap_field(line: u32, field: u32, text: &[u8]) -> Result<u8, CfgFault>
    ensures { Gives result (leap_field line field text.now) }
{
    let leap = leap_digit(text).ok_or(CfgFault::Field { line, field })?;
    if leap != 0 && leap != 3 {
        return Err(CfgFault::Unsupported {
            what: Unsupported::LeapSecond,
            line,
        });
    }
    Ok(leap)
}

/// Reads a time code, in minutes, or `x`, which says that there is none: `Some(None)`. None for every
/// other text.
pub fn local_code(text: &[u8]) -> Option<Option<i32>>
    ensures { result ≡ local_code_of text.now }
{
    if is_word(text, b"x") {
        return Some(None);
    }
    Some(Some(read_code(text)?))
}
