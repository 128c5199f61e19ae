// Written moments.
ghost use Rattle.std.specs.Prelude.{◌≡◌, ◌*◌, ◌^◌, IfOk};
ghost use Rattle.pq_time.specs.Moment.{written_moment, utc_of};
ghost use Rattle.pq_words.specs.Magnitude.{IsWithin};

use crate::date::read_date;
use crate::time_of_day::read_time;
use crate::{BadMoment, MOST_OFFSET};
use pq_words::MOST_NANOSECONDS;

const NANOSECONDS_IN_DAY: i64 = 86_400_000_000_000;

const NANOSECONDS_IN_MINUTE: i64 = 60_000_000_000;

/// Reads a date `dd/mm/yyyy` and a time `hh:mm:ss`, which may have a fraction of up to nine digits:
/// the nanoseconds since 1970 on the clock that shows them.
///
/// # Errors
///
/// [`BadMoment::Date`] where the date is not in its grammar, or the calendar has no such day from
/// 1900 to 2199; else [`BadMoment::Time`] where the time is not in its grammar.
#[tactic(auto, unfolding(crate::specs::Moment::written_moment))]
pub fn read_moment(date: &[u8], time: &[u8]) -> Result<i64, BadMoment>
    ensures value { result ≡ written_moment date.now time.now }
    ensures within { IfOk result (IsWithin (7_300 * 10 ^ 15)) }
{
    let Some(day) = read_date(date) else {
        return Err(BadMoment::Date);
    };
    let Some(nanoseconds) = read_time(time) else {
        return Err(BadMoment::Time);
    };
    Ok(day * NANOSECONDS_IN_DAY + nanoseconds as i64)
}

/// UTC, in nanoseconds since 1970, of a written moment at an offset in minutes.
pub fn to_utc(local: i64, minutes: i32) -> i64
    requires local { IsWithin MOST_NANOSECONDS local }
    requires minutes { IsWithin MOST_OFFSET minutes }
    ensures { result ≡ utc_of local minutes }
{
    local - i64::from(minutes) * NANOSECONDS_IN_MINUTE
}
