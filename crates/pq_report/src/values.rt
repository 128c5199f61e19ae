// The numbers and the ticks that fields write.
ghost use Rattle.std.specs.Prelude.{◌≡◌, ◌<◌, ◌^◌, IfSome, bytes_eq, decimal, length};
ghost use Rattle.pq_report.specs.ReportReading.{number_read, second_read};
ghost use Rattle.pq_report.specs.ShownSecond.{TellsDay, TellsSecond, TellsTime};
ghost use Rattle.pq_words.specs.Magnitude.{IsWithin};

use crate::moments::tick_moment;
use itoa::Buffer;
use jiff_core::civil::Date;
use pq_base::read_digits;
use pq_items::MOST_TICK;

const SECONDS_IN_DAY: i64 = 86_400;

// The number whose decimal text a field is.
#[tactic(auto, unfolding(crate::specs::ReportReading::number_read))]
pub(crate) fn read_number(field: &[u8]) -> Option<u64>
    ensures { result ≡ number_read field.now }
{
    let number = read_digits(field, 20)?;
    if number > u128::from(u64::MAX) {
        return None;
    }
    let number = number as u64;
    if !is_decimal_of(field, number) {
        return None;
    }
    Some(number)
}

// Whether a field is the decimal text of a number.
fn is_decimal_of(field: &[u8], number: u64) -> bool
    ensures { result ≡ bytes_eq field.now (decimal number) }
{
    let mut buffer = Buffer::new();
    field == buffer.format(number).as_bytes()
}

// The second of a tick whose moment a field is.
pub(crate) fn read_second(field: &[u8]) -> Option<i64>
    ensures { result ≡ second_read field.now }
{
    let second = shown_second(field)?;
    if second.unsigned_abs() > MOST_TICK {
        return None;
    }
    if field != tick_moment(second).as_slice() {
        return None;
    }
    Some(second)
}

// The second that a printed moment shows.
fn shown_second(field: &[u8]) -> Option<i64>
    ensures value { TellsSecond field.now result }
    ensures within { IfSome result (IsWithin (10 ^ 15)) }
{
    if field.len() < 19 {
        return None;
    }
    let day = shown_day(&field[..10])?;
    let seconds = shown_time(&field[11..19])?;
    Some(day * SECONDS_IN_DAY + seconds as i64)
}

// The day number of a date `yyyy-mm-dd`.
fn shown_day(field: &[u8]) -> Option<i64>
    requires { length field.now ≡ 10 }
    ensures value { TellsDay field.now result }
    ensures within { IfSome result (IsWithin (10 ^ 7)) }
{
    let year = read_digits(&field[..4], 4)?;
    let month = read_digits(&field[5..7], 2)?;
    let day = read_digits(&field[8..10], 2)?;
    match Date::new(year as i16, month as i8, day as i8) {
        Ok(date) => Some(i64::from(date.to_unix_epoch_day())),
        Err(_) => None,
    }
}

// The seconds since midnight of a time `hh:mm:ss`.
fn shown_time(field: &[u8]) -> Option<u64>
    requires { length field.now ≡ 8 }
    ensures value { TellsTime field.now result }
    ensures within { IfSome result (λ n. n < 10 ^ 6) }
{
    let hour = read_digits(&field[..2], 2)?;
    let minute = read_digits(&field[3..5], 2)?;
    let second = read_digits(&field[6..], 2)?;
    Some((hour * 3600 + minute * 60 + second) as u64)
}
