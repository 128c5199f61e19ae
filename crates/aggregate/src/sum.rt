// The running sum of intervals.
ghost use Rattle.std.specs.Prelude.{◌≡◌, ◌+◌, ◌*◌, ◌/◌, ◌^◌, ◌<◌, ◌≤◌, ℕ, [], length, map, slice_index, All, nat_lt, if◌then◌else◌};
ghost use Rattle.aggregate.specs.BasicOrder.{AreQuiet, IsChannelCount};
ghost use Rattle.aggregate.specs.Sum.{Adds, HasSummed, IsGroupOf, part_of, AddsSquares, mean_roots};
ghost use Rattle.fixed_rms.specs.Root.{isqrt, square};
ghost use Rattle.pq_words.specs.Steps.{numbers_below};

use crate::Group;
use fixed_rms::isqrt;
use pq_words::{MOST_MICROVOLTS, MOST_SAMPLES, MOST_SELECTED};
use std::marker::Model;
use ten_twelve::Span;

// Room for the most channels.
const SLOTS: usize = MOST_SELECTED as usize;

// The sum of intervals, in their order: where the first begins and the last ends, how many there are, whether
// one is flagged, and by channel the sum of the squares of their values.
#[derive(Drop)]
pub(crate) struct Sum {
    start: u64,
    end: u64,
    count: u64,
    flagged: bool,
    squares: [u128; SLOTS],
}

impl Model for Sum {
    ghost use Rattle.aggregate.specs.Sum.{IsSum, SumView};

    ghost Value = { SumView };

    ghost view = { λ s. record {
      start = s.start;
      end = s.end;
      count = s.count;
      flagged = s.flagged;
      squares = s.squares;
    } };

    ghost invariant = { λ s. IsSum s.count s.squares };
}

impl Sum {
    // The sum of no interval.
    pub(crate) fn new() -> Sum
        ensures { HasSummed result [] }
    {
        Sum {
            start: 0,
            end: 0,
            count: 0,
            flagged: false,
            squares: [0; SLOTS],
        }
    }

    // Adds an interval, with the values of its channels by position.
    pub(crate) fn add(&mut self, span: Span, values: &[u64], flagged: bool)
        requires room { self.old.count < MOST_SAMPLES }
        requires few { length values.now ≤ MOST_SELECTED }
        requires quiet { AreQuiet values.now }
        ensures value { Adds self.old self.new (part_of span values.now flagged) }
        ensures count { self.new.count ≡ self.old.count + 1 }
    {
        if self.count == 0 {
            self.start = span.start;
        }
        self.end = span.end;
        self.count += 1;
        self.flagged |= flagged;
        add_squares(&mut self.squares, values);
    }

    // The interval of so many channels that contains them, which may begin at a tick.
    pub(crate) fn group(&self, tick: Option<i64>, channels: u32) -> Group
        requires some { 1 ≤ self.now.count }
        requires channels { IsChannelCount channels }
        ensures value { IsGroupOf self.now tick channels result }
        ensures quiet { AreQuiet result.values }
    {
        Group {
            tick,
            start: self.start,
            end: self.end,
            count: self.count,
            flagged: self.flagged,
            values: roots(&self.squares, self.count, channels),
        }
    }
}

// Adds to each channel's sum the square of its value.
fn add_squares(squares: &mut [u128; SLOTS], values: &[u64])
    requires few { length values.now ≤ MOST_SELECTED }
    requires quiet { AreQuiet values.now }
    requires room { All (λ total. total + MOST_MICROVOLTS ^ 2 < 2 ^ 128) squares.old }
    ensures { AddsSquares squares.old squares.new values.now }
{
    for (channel, value) in values.iter().enumerate() {
        squares[channel] += u128::from(*value) * u128::from(*value);
    }
}

// The root of the mean of each channel's squares, of so many each; 0 past the channels.
fn roots(squares: &[u128; SLOTS], count: u64, channels: u32) -> [u64; SLOTS]
    requires some { 1 ≤ count }
    requires channels { IsChannelCount channels }
    requires quiet { All (λ total. total ≤ count * MOST_MICROVOLTS ^ 2) squares.now }
    ensures value { result ≡ mean_roots squares.now count channels }
    ensures quiet { AreQuiet result }
{
    let mut values = [0; SLOTS];
    for channel in 0..channels as usize {
        values[channel] = isqrt(squares[channel] / u128::from(count));
    }
    values
}
