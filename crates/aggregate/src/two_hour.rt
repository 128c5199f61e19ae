// 2-hour intervals, 10-minute interval by 10-minute interval.
ghost use Rattle.std.specs.Prelude.{◌≡◌, [], true, false, None};
ghost use Rattle.aggregate.specs.BasicOrder.{IsSetting};
ghost use Rattle.aggregate.specs.Sum.{HasSummed};
ghost use Rattle.aggregate.specs.TwoHourSum.{Completes, HasSeen, IsNear, KeepsSetting, MayFollow, SeesMore, begins_two_hours, next_hours, next_ten};

use crate::Group;
use crate::sum::Sum;
use pq_time::{Clock, TEN_MINUTES, TWO_HOURS};
use std::marker::Model;
use ten_twelve::Span;

// How many 10-minute intervals two hours have.
const TENS_IN_TWO_HOURS: u64 = 12;

// Sums the 10-minute intervals of two hours, and finds the 2-hour interval that one completes.
#[derive(Drop)]
pub(crate) struct TwoHourSum {
    clock: Clock,
    samples: u64,
    channels: u32,
    sum: Sum,
    hours: Option<TwoHours>,
}

// Two hours: the tick at which they begin, and how many of their 10-minute intervals are there.
#[derive(Clone, Copy)]
pub(crate) struct TwoHours {
    pub(crate) tick: i64,
    pub(crate) count: u64,
}

impl Model for TwoHourSum {
    ghost use Rattle.aggregate.specs.TwoHourSum.{IsTwoHourSum, TwoHourView};

    ghost Value = { TwoHourView };

    ghost view = { λ t. record {
      clock = t.clock;
      samples = t.samples;
      channels = t.channels;
      sum = t.sum;
      hours = t.hours;
    } };

    ghost invariant = { λ t. IsTwoHourSum t.clock t.samples t.channels t.hours };
}

impl TwoHourSum {
    // The machine for a recording of so many samples and channels, which has seen nothing.
    pub(crate) fn new(clock: Clock, samples: u64, channels: u32) -> TwoHourSum
        requires { IsSetting clock samples channels }
        ensures value { HasSeen result [] }
        ensures clock { result.clock ≡ clock }
        ensures samples { result.samples ≡ samples }
        ensures channels { result.channels ≡ channels }
    {
        TwoHourSum {
            clock,
            samples,
            channels,
            sum: Sum::new(),
            hours: None,
        }
    }

    // Feeds the next 10-minute interval, and gives the 2-hour interval that it completes.
    pub(crate) fn step(&mut self, ten: &Group) -> Option<Group>
        requires { MayFollow self.old ten.now }
        ensures value { Completes self.old ten.now result }
        ensures seen { SeesMore self.old self.new ten.now }
        ensures same { KeepsSetting self.old self.new }
    {
        let tick = ten.tick?;
        let hours = self.take_hours(tick)?;
        let span = Span {
            start: ten.start,
            end: ten.end,
        };
        self.sum.add(span, &ten.values, ten.flagged);
        let count = hours.count + 1;
        if count == TENS_IN_TWO_HOURS {
            return Some(self.sum.group(Some(hours.tick), self.channels));
        }
        self.hours = Some(TwoHours {
            tick: hours.tick,
            count,
        });
        None
    }

    // Takes out the two hours that a 10-minute interval begins or goes on with; where it begins them,
    // the sum is anew.
    fn take_hours(&mut self, tick: i64) -> Option<TwoHours>
        ensures value { result ≡ next_hours self.old.hours tick }
        ensures taken { self.new.hours ≡ None }
        ensures anew { begins_two_hours tick ≡ true → HasSummed self.new.sum [] }
        ensures goes_on { begins_two_hours tick ≡ false → self.new.sum ≡ self.old.sum }
        ensures same { KeepsSetting self.old self.new }
    {
        let hours = self.hours.take();
        if begins_two_hours(tick) {
            self.sum = Sum::new();
            return Some(TwoHours { tick, count: 0 });
        }
        let hours = hours?;
        if hours.next() == tick {
            return Some(hours);
        }
        None
    }
}

impl TwoHours {
    // The tick of the 10-minute interval that goes on with them.
    fn next(self) -> i64
        requires { IsNear self.tick self.count }
        ensures { result ≡ next_ten self }
    {
        self.tick + (TEN_MINUTES * self.count) as i64
    }
}

// Whether a second is divisible by two hours.
fn begins_two_hours(tick: i64) -> bool
    ensures { result ≡ begins_two_hours tick }
{
    tick.rem_euclid(TWO_HOURS as i64) == 0
}
