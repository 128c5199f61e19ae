// A written time of day.
ghost use Rattle.std.specs.Prelude.{◌≡◌, ◌<◌, ◌≤◌, ◌*◌, ◌-◌, ◌^◌, length, option_map, IfSome};
ghost use Rattle.pq_time.specs.Moment.{nanoseconds_in_day};
ghost use Rattle.pq_time.specs.Written.{nanoseconds_of, second_of, clock_time_of, time_of_numbers};
ghost use Rattle.pq_words.specs.Text.{parted_at};

use crate::field::{digits_between, one_or_two_parts, three_parts};

// The nanoseconds since midnight of a written time.
#[tactic(auto, using(crate::proofs::WrittenLemmas::no_time), unfolding(crate::specs::Written::clock_time_of))]
pub(crate) fn read_time(text: &[u8]) -> Option<u64>
    ensures value { result ≡ option_map nanoseconds_in_day (clock_time_of text.now) }
    ensures within { IfSome result (λ n. n < 86_400_000_000_000) }
{
    let (hour, minute, second_text) = three_parts(text, b':')?;
    let hour = digits_between(hour, 1, 2)?;
    let minute = digits_between(minute, 1, 2)?;
    nanoseconds_since_midnight(hour, minute, second(second_text)?)
}

// The nanoseconds since midnight, where the parts are in range.
fn nanoseconds_since_midnight(hour: u32, minute: u32, second: (u32, u32)) -> Option<u64>
    requires { second.1 < 10 ^ 9 }
    ensures value { result ≡ option_map nanoseconds_in_day (time_of_numbers hour minute second) }
    ensures within { IfSome result (λ n. n < 86_400_000_000_000) }
{
    if hour >= 24 || minute >= 60 || second.0 >= 60 {
        return None;
    }
    let seconds = 3600 * hour + 60 * minute + second.0;
    Some(u64::from(seconds) * 1_000_000_000 + u64::from(second.1))
}

// The seconds and nanoseconds of a text of seconds.
#[tactic(auto, using(crate::proofs::WrittenLemmas::no_second))]
fn second(text: &[u8]) -> Option<(u32, u32)>
    ensures value { result ≡ second_of (parted_at 46 text.now) }
    ensures within { IfSome result (λ s. s.1 < 10 ^ 9) }
{
    let (second, fraction) = one_or_two_parts(text, b'.')?;
    let second = digits_between(second, 1, 2)?;
    match fraction {
        Some(fraction) => Some((second, nanoseconds(fraction)?)),
        None => Some((second, 0)),
    }
}

// The nanoseconds that the digits after the point stand for.
fn nanoseconds(fraction: &[u8]) -> Option<u32>
    ensures value { result ≡ nanoseconds_of fraction.now }
    ensures within { IfSome result (λ n. n < 10 ^ 9) }
{
    let digits = digits_between(fraction, 1, 9)?;
    Some(digits * 10u32.pow(9 - fraction.len() as u32))
}
