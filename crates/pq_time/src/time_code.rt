// A written time code.
ghost use Rattle.std.specs.Prelude.{◌≡◌, ◌≤◌, IfSome};
ghost use Rattle.pq_words.specs.Magnitude.{IsWithin};
ghost use Rattle.pq_time.specs.Written.{code_of, minutes_of, minutes_of_numbers};

use crate::field::{digits_between, one_or_two_parts};

/// The greatest offset of a time code, in minutes (profile).
pub const MOST_OFFSET: u32 = 899;

/// Reads a time code: an optional sign, one or two digits of hours up to 14, and optionally `h` with
/// two digits of minutes. Gives minutes, with the sign of both together; UTC is the written moment
/// less these. `None` exactly where the text is no time code.
#[tactic(auto, unfolding(crate::specs::Written::code_of))]
pub fn read_code(text: &[u8]) -> Option<i32>
    ensures value { result ≡ code_of text.now }
    ensures within { IfSome result (IsWithin MOST_OFFSET) }
{
    let (&first, rest) = text.split_first()?;
    match first {
        b'-' => Some(-(read_minutes(rest)? as i32)),
        b'+' => Some(read_minutes(rest)? as i32),
        _ => Some(read_minutes(text)? as i32),
    }
}

// The minutes of a time code without its sign.
#[tactic(auto, using(crate::proofs::WrittenLemmas::no_minutes), unfolding(crate::specs::Written::minutes_of))]
fn read_minutes(text: &[u8]) -> Option<u32>
    ensures value { result ≡ minutes_of text.now }
    ensures within { IfSome result (λ m. m ≤ MOST_OFFSET) }
{
    let (hours, minutes) = one_or_two_parts(text, b'h')?;
    let hours = digits_between(hours, 1, 2)?;
    match minutes {
        Some(minutes) => minutes_of(hours, digits_between(minutes, 2, 2)?),
        None => minutes_of(hours, 0),
    }
}

// Hours and minutes as minutes, where they are in range.
fn minutes_of(hours: u32, minutes: u32) -> Option<u32>
    ensures value { result ≡ minutes_of_numbers hours minutes }
    ensures within { IfSome result (λ m. m ≤ MOST_OFFSET) }
{
    if hours > 14 || minutes >= 60 {
        return None;
    }
    Some(60 * hours + minutes)
}
