// The ticks of clock intervals.
ghost use Rattle.std.specs.Prelude.{◌≡◌, ◌*◌, ◌^◌, ◌≤◌, ◌≤ℤ◌, length};
ghost use Rattle.std.specs.Iterator.{YieldsFirst, item_count};
ghost use Rattle.pq_time.specs.Tick.{IsPeriod, HasTicks, count_between, first_period, last_period, moment_of, seconds_between, tick_place, ticks};
ghost use Rattle.pq_time.specs.Time.{IsClock, time_of};
ghost use Rattle.pq_words.specs.Magnitude.{IsWithin};

use crate::Clock;
use pq_words::MOST_SAMPLES;
use std::marker::Model;

/// From one tick to the next of frequency readings, in seconds (IEC 61000-4-30:2015, 5.1).
pub const TEN_SECONDS: u64 = 10;

/// From one tick to the next of 10-minute intervals, in seconds (4.4, 4.5).
pub const TEN_MINUTES: u64 = 600;

/// From one tick to the next of 2-hour intervals, in seconds (4.5).
pub const TWO_HOURS: u64 = 7200;

const NANOSECONDS_IN_SECOND: i64 = 1_000_000_000;

/// The ticks that are left, as UTC seconds since 1970 in rising order
/// (IEC 61000-4-30:2015, 4.4, 4.5, 5.1). It is seen as their list.
#[derive(Drop)]
pub struct Ticks {
    // The first that is left, and how many are.
    next: i64,
    left: u64,
    // Seconds from one to the next.
    period: u64,
}

impl Model for Ticks {
    ghost use Rattle.std.specs.Prelude.{List, ℤ};
    ghost use Rattle.pq_time.specs.Tick.{AreLeft};
    ghost use Rattle.pq_words.specs.Steps.{steps_from};

    ghost Value = { List ℤ };

    ghost view = { λ t. steps_from t.next t.period t.left };

    ghost invariant = { λ t. AreLeft t.next t.left t.period };
}

impl Clock {
    /// The ticks of a period of 10, 600 or 7200 seconds: the UTC seconds divisible by it, from the
    /// first sample's moment to that of place `n`, both included (IEC 61000-4-30:2015, 4.4, 4.5, 5.1).
    #[tactic(auto, unfolding(crate::specs::Tick::ticks))]
    pub fn ticks(&self, n: u64, period: u64) -> Ticks
        requires clock { IsClock self.now }
        requires places { n ≤ MOST_SAMPLES }
        requires period { IsPeriod period }
        ensures value { result ≡ ticks self.now n period }
        ensures each { HasTicks self.now n period result }
        ensures within { length result ≤ 6251 }
    {
        let first = first_period(self.t0, period);
        let last = last_period(self.time_of(n), period);
        between(first, last, period)
    }

    /// The place of a tick, a UTC second, among `n` samples: the least of the places from 0 whose sample
    /// is taken at the tick or after it, but at most `n`.
    pub fn tick_place(&self, n: u64, second: i64) -> u64
        requires clock { IsClock self.now }
        requires places { n ≤ MOST_SAMPLES }
        requires after { self.now.t0 ≤ℤ moment_of second }
        requires before { moment_of second ≤ℤ time_of self.now n }
        ensures { result ≡ tick_place self.now n second }
    {
        self.place_of(second * NANOSECONDS_IN_SECOND, n)
    }
}

impl Iterator for Ticks {
    type Item = i64;

    ghost next_gives = { YieldsFirst (λ left. left) };

    ghost remaining = { item_count (λ left. left) };

    fn next(&mut self) -> Option<i64> {
        if self.left == 0 {
            return None;
        }
        let second = self.next;
        self.next = second + self.period as i64;
        self.left -= 1;
        Some(second)
    }
}

// The ticks from one whole number of periods to another, both included.
fn between(first: i64, last: i64, period: u64) -> Ticks
    requires first { IsWithin (10 ^ 9) first }
    requires last { IsWithin (10 ^ 9) last }
    requires period { IsPeriod period }
    ensures { result ≡ seconds_between first last period }
{
    Ticks {
        next: first * period as i64,
        left: count(first, last),
        period,
    }
}

// How many whole numbers there are from one to another, both included.
fn count(first: i64, last: i64) -> u64
    requires first { IsWithin (10 ^ 9) first }
    requires last { IsWithin (10 ^ 9) last }
    ensures { result ≡ count_between first last }
{
    (last - first + 1).max(0) as u64
}

// The first whole number of periods at or after a moment.
fn first_period(moment: i64, period: u64) -> i64
    requires moment { IsWithin (9 * 10 ^ 18) moment }
    requires period { IsPeriod period }
    ensures value { result ≡ first_period moment period }
    ensures within { IsWithin (10 ^ 9) result }
{
    -last_period(-moment, period)
}

// The last whole number of periods at or before a moment.
fn last_period(moment: i64, period: u64) -> i64
    requires moment { IsWithin (9 * 10 ^ 18) moment }
    requires period { IsPeriod period }
    ensures value { result ≡ last_period moment period }
    ensures within { IsWithin (10 ^ 9) result }
{
    moment.div_euclid(period as i64 * NANOSECONDS_IN_SECOND)
}
