// 10-minute intervals, basic interval by basic interval.
ghost use Rattle.std.specs.Prelude.{◌≡◌, ◌<◌, ◌≤◌, ◌+ℤ◌, ◌*ℤ◌, ◌^◌, ◌*◌, [], pos, true, false, ◌&&◌, nat_lt, nat_le};
ghost use Rattle.aggregate.specs.BasicOrder.{IsSetting, basic_of};
ghost use Rattle.aggregate.specs.TenSum.{Completes, HasBegun, HasSeen, KeepsSetting, MayFollow, SeesMore, minutes_at};
ghost use Rattle.pq_time.specs.Tick.{last_period};
ghost use Rattle.pq_time.specs.Time.{IsClock};
ghost use Rattle.pq_words.specs.Magnitude.{IsWithin};

use crate::Group;
use crate::sum::Sum;
use pq_time::{Clock, TEN_MINUTES};
use pq_words::MOST_SAMPLES;
use std::marker::Model;
use ten_twelve::Span;

const NANOSECONDS_IN_SECOND: i64 = 1_000_000_000;

// Sums the basic intervals of each segment, and finds the 10-minute interval that one completes.
#[derive(Drop)]
pub(crate) struct TenSum {
    clock: Clock,
    samples: u64,
    channels: u32,
    sum: Sum,
    minutes: Option<TenMinutes>,
}

// Ten minutes: the tick at which they begin, and the place of the next.
#[derive(Clone, Copy)]
pub(crate) struct TenMinutes {
    pub(crate) tick: i64,
    pub(crate) next: u64,
}

impl Model for TenSum {
    ghost use Rattle.aggregate.specs.BasicOrder.{IsSetting};
    ghost use Rattle.aggregate.specs.TenSum.{TenView};

    ghost Value = { TenView };

    ghost view = { λ t. record {
      clock = t.clock;
      samples = t.samples;
      channels = t.channels;
      sum = t.sum;
      minutes = t.minutes;
    } };

    ghost invariant = { λ t. IsSetting t.clock t.samples t.channels };
}

impl TenSum {
    // The machine for a recording of so many samples and channels, which has seen nothing.
    pub(crate) fn new(clock: Clock, samples: u64, channels: u32) -> TenSum
        requires { IsSetting clock samples channels }
        ensures value { HasSeen result [] }
        ensures clock { result.clock ≡ clock }
        ensures samples { result.samples ≡ samples }
        ensures channels { result.channels ≡ channels }
    {
        TenSum {
            clock,
            samples,
            channels,
            sum: Sum::new(),
            minutes: None,
        }
    }

    // Feeds the next basic interval, and gives the 10-minute interval that it completes.
    pub(crate) fn step(
        &mut self,
        basic: Span,
        front: bool,
        values: &[u64],
        flagged: bool,
    ) -> Option<Group>
        requires { MayFollow self.old (basic_of front basic values.now flagged) }
        ensures value { Completes self.old (basic_of front basic values.now flagged) result }
        ensures seen { SeesMore self.old self.new (basic_of front basic values.now flagged) }
        ensures same { KeepsSetting self.old self.new }
    {
        self.begin(front, basic.start);
        self.sum.add(basic, values, flagged);
        let minutes = self.minutes?;
        if minutes.end_in(basic) {
            return Some(self.sum.group(Some(minutes.tick), self.channels));
        }
        None
    }

    // Begins a sum anew at a front, for the ten minutes in which it lies.
    fn begin(&mut self, front: bool, start: u64)
        requires { start < self.old.samples }
        ensures begun { front ≡ true → HasBegun self.new start }
        ensures goes_on { front ≡ false → self.new ≡ self.old }
        ensures same { KeepsSetting self.old self.new }
    {
        if front {
            self.sum = Sum::new();
            self.minutes = minutes_at(&self.clock, self.samples, start);
        }
    }
}

impl TenMinutes {
    // Whether they end within a span, or at its end.
    fn end_in(self, span: Span) -> bool
        ensures { result ≡ (nat_lt span.start self.next && nat_le self.next span.end) }
    {
        span.start < self.next && self.next <= span.end
    }
}

// The ten minutes in which a place lies, if both their ticks are there.
fn minutes_at(clock: &Clock, samples: u64, place: u64) -> Option<TenMinutes>
    requires clock { IsClock clock.now }
    requires samples { samples ≤ MOST_SAMPLES }
    requires place { place < samples }
    ensures { result ≡ minutes_at clock.now samples place }
{
    let tick = last_tick(clock.time_of(place));
    let next = tick + TEN_MINUTES as i64;
    if tick * NANOSECONDS_IN_SECOND < clock.t0 {
        return None;
    }
    if clock.time_of(samples) < next * NANOSECONDS_IN_SECOND {
        return None;
    }
    Some(TenMinutes {
        tick,
        next: clock.tick_place(samples, next),
    })
}

// The last whole number of ten minutes at or before a moment, as a UTC second.
fn last_tick(moment: i64) -> i64
    requires { IsWithin (9 * 10 ^ 18) moment }
    ensures value { result ≡ (last_period moment 600 *ℤ pos 600) }
    ensures within { IsWithin (10 ^ 10) result }
{
    moment.div_euclid(TEN_MINUTES as i64 * NANOSECONDS_IN_SECOND) * TEN_MINUTES as i64
}
