// The frequency readings of a signal, one after another.
ghost use Rattle.std.specs.Prelude.{◌≡◌, ◌+◌, ◌<◌, ◌≤◌, length};
ghost use Rattle.std.specs.Iterator.{YieldsFirst, item_count};
ghost use Rattle.freq10s.specs.Cycles.{boundaries_from};
ghost use Rattle.freq10s.specs.Frequency.{readings};
ghost use Rattle.freq10s.specs.Readings.{reading_by, reading_over};
ghost use Rattle.pq_time.specs.Time.{IsClock};
ghost use Rattle.zero_cross.specs.Boundary.{AreBoundaries, IsRule, cycle_boundaries};

use crate::cycles::{CycleBoundaries, Cycles};
use crate::intervals::{Interval, Intervals};
use crate::reading::Reading;
use pq_time::Clock;
use pq_words::{MOST_RATE, MOST_SAMPLES};
use std::marker::Model;
use zero_cross::Rule;

/// The frequency readings of a signal, in order (IEC 61000-4-30:2015, 5.1): an iterator, seen as the
/// list of those that are left. It goes once over the boundaries and the ticks.
#[derive(Drop)]
pub struct Readings<'a> {
    // In microhertz.
    rate: u64,
    intervals: Intervals,
    cycles: CycleBoundaries<'a>,
}

impl<'a> Model for Readings<'a> {
    ghost use Rattle.std.specs.Prelude.{List};
    ghost use Rattle.freq10s.specs.declared.reading.Reading.{Reading};

    ghost Value = { List Reading };

    ghost use Rattle.freq10s.specs.Readings.{IsSound, readings_over};

    ghost view = { λ w. readings_over w.rate w.cycles w.intervals };

    ghost invariant = { λ w. IsSound w.rate w.cycles w.intervals };
}

impl<'a> Readings<'a> {
    /// The readings of a reference channel's samples, whose boundaries the rule finds, by the clock.
    pub fn new(samples: &'a [i64], rule: Rule, clock: Clock) -> Readings<'a>
        requires rule { IsRule rule }
        requires clock { IsClock clock }
        requires samples { length samples.now ≤ MOST_SAMPLES }
        ensures { result ≡ readings clock (length samples.now) (cycle_boundaries samples.now rule) }
    {
        Readings {
            rate: clock.rate,
            intervals: Intervals::new(clock, samples.len() as u64),
            cycles: CycleBoundaries::new(samples, rule),
        }
    }
}

impl<'a> Iterator for Readings<'a> {
    type Item = Reading;

    ghost next_gives = { YieldsFirst (λ rest. rest) };

    ghost remaining = { item_count (λ rest. rest) };

    fn next(&mut self) -> Option<Reading> {
        while let Some(interval) = self.intervals.next() {
            if let Some(reading) = read(self.rate, &mut self.cycles, interval) {
                return Some(reading);
            }
        }
        None
    }
}

// The reading over an interval, if there is one; the boundaries before its end are taken.
fn read(rate: u64, boundaries: &mut CycleBoundaries<'_>, interval: Interval) -> Option<Reading>
    requires rate { rate ≤ MOST_RATE }
    requires boundaries { AreBoundaries boundaries.old MOST_SAMPLES }
    requires order { interval.start ≤ interval.end }
    ensures value { result ≡ reading_over rate boundaries.old interval }
    ensures left { boundaries.new ≡ boundaries_from interval.end boundaries.old }
{
    let cycles = boundaries.pass(interval.start, interval.end)?;
    reading(rate, interval, cycles)
}

// The reading of some cycles; none where there is no cycle.
fn reading(rate: u64, interval: Interval, cycles: Cycles) -> Option<Reading>
    requires rate { rate ≤ MOST_RATE }
    requires rising { cycles.first + cycles.count ≤ cycles.last }
    requires within { cycles.last < MOST_SAMPLES }
    ensures { result ≡ reading_by rate interval cycles }
{
    if cycles.count == 0 {
        return None;
    }
    let samples = cycles.last - cycles.first;
    Some(Reading {
        tick: interval.tick,
        start: interval.start,
        end: interval.end,
        cycles: cycles.count,
        samples,
        microhertz: cycles.count * rate / samples,
    })
}
