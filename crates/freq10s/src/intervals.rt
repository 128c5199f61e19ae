// The 10-second intervals of the clock, one after another.
ghost use Rattle.std.specs.Prelude.{◌≡◌, ◌≤◌};
ghost use Rattle.std.specs.Iterator.{YieldsFirst, item_count};
ghost use Rattle.freq10s.specs.Intervals.{FollowFrom, interval_between, intervals_between};
ghost use Rattle.pq_time.specs.Tick.{IsTick, ticks};
ghost use Rattle.pq_time.specs.Time.{IsClock};

use pq_time::{Clock, TEN_SECONDS, Ticks};
use pq_words::MOST_SAMPLES;
use std::marker::Model;

/// From a tick to the next: that tick, a UTC second, and the places of both.
#[derive(Clone, Copy)]
pub struct Interval {
    pub tick: i64,
    pub start: u64,
    pub end: u64,
}

/// The intervals between the 10-second ticks, in order: an iterator, seen as the list of those that are
/// left.
#[derive(Drop)]
pub struct Intervals {
    clock: Clock,
    // How many samples there are.
    n: u64,
    // The tick at which the next interval begins; None where there is no tick.
    begun: Option<i64>,
    // The ticks after it.
    ticks: Ticks,
}

impl Model for Intervals {
    ghost use Rattle.std.specs.Prelude.{List};
    ghost use Rattle.freq10s.specs.declared.intervals.Interval.{Interval};

    ghost Value = { List Interval };

    ghost use Rattle.freq10s.specs.Intervals.{intervals_left, AreSound};

    ghost view = { λ w. intervals_left w.clock w.n w.begun w.ticks };

    ghost invariant = { λ w. AreSound w.clock w.n w.begun w.ticks };
}

impl Intervals {
    /// The intervals of the clock among so many samples.
    pub fn new(clock: Clock, n: u64) -> Intervals
        requires clock { IsClock clock }
        requires places { n ≤ MOST_SAMPLES }
        ensures value { result ≡ intervals_between clock n (ticks clock n 10) }
        ensures in_order { FollowFrom 0 result }
    {
        let mut ticks = clock.ticks(n, TEN_SECONDS);
        let begun = ticks.next();
        Intervals {
            clock,
            n,
            begun,
            ticks,
        }
    }
}

impl Iterator for Intervals {
    type Item = Interval;

    ghost next_gives = { YieldsFirst (λ rest. rest) };

    ghost remaining = { item_count (λ rest. rest) };

    fn next(&mut self) -> Option<Interval> {
        let tick = self.begun?;
        let following = self.ticks.next()?;
        self.begun = Some(following);
        Some(between(&self.clock, self.n, tick, following))
    }
}

// The interval from a tick to another.
fn between(clock: &Clock, n: u64, tick: i64, following: i64) -> Interval
    requires clock { IsClock clock.now }
    requires places { n ≤ MOST_SAMPLES }
    requires tick { IsTick clock.now n 10 tick }
    requires following { IsTick clock.now n 10 following }
    ensures { result ≡ interval_between clock.now n tick following }
{
    Interval {
        tick,
        start: clock.tick_place(n, tick),
        end: clock.tick_place(n, following),
    }
}
