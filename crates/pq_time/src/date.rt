// A written date.
ghost use Rattle.std.specs.Prelude.{◌≡◌, ◌≤◌, option_map, IfSome};
ghost use Rattle.pq_time.specs.Moment.{IsWrittenDay, day_number};
ghost use Rattle.pq_time.specs.Written.{date_of, date_of_numbers};

use crate::field::{digits_between, three_parts};
use jiff::civil::Date;

// The day number of a written date.
#[tactic(auto, using(crate::proofs::WrittenLemmas::no_date), unfolding(crate::specs::Written::date_of))]
pub(crate) fn read_date(text: &[u8]) -> Option<i64>
    ensures value { result ≡ option_map day_number (date_of text.now) }
    ensures within { IfSome result IsWrittenDay }
{
    let (day, month, year) = three_parts(text, b'/')?;
    let day = digits_between(day, 1, 2)?;
    let month = digits_between(month, 1, 2)?;
    let year = digits_between(year, 4, 4)?;
    day_number(day, month, year)
}

// The day number of a date, where the calendar has the day and the year is 1900 to 2199.
fn day_number(day: u32, month: u32, year: u32) -> Option<i64>
    requires day { day ≤ 99 }
    requires month { month ≤ 99 }
    requires year { year ≤ 9999 }
    ensures value { result ≡ option_map day_number (date_of_numbers day month year) }
    ensures within { IfSome result IsWrittenDay }
{
    if year < 1900 || year > 2199 {
        return None;
    }
    match Date::new(year as i16, month as i8, day as i8) {
        Ok(date) => Some(i64::from(date.to_plain().to_unix_epoch_day())),
        Err(_) => None,
    }
}
