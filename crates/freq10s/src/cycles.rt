// Cycle boundaries one after another, and the whole cycles between them.
ghost use Rattle.std.specs.Prelude.{◌≡◌, ◌+◌, ◌<◌, ◌≤◌, true, length, IfSome};
ghost use Rattle.freq10s.specs.Cycles.{StepsTo, TakesBelow, boundaries_from, cycles_between, is_next, with_boundary};
ghost use Rattle.freq10s.specs.Frequency.{boundaries_within};
ghost use Rattle.zero_cross.specs.AllBoundaries.{Alternate};
ghost use Rattle.zero_cross.specs.Boundary.{AreBoundaries, IsRule, cycle_boundaries, rising_places};

use pq_words::MOST_SAMPLES;
use std::marker::Model;
use zero_cross::{Boundaries, Rule};

/// The cycle boundaries of a signal that are left, of which the first can be looked at before it is
/// taken. It is seen as their list.
#[derive(Drop)]
pub struct CycleBoundaries<'a> {
    // The one that comes next; None where none is left.
    upcoming: Option<u64>,
    // The boundaries after the falling one that follows it.
    boundaries: Boundaries<'a>,
}

impl<'a> Model for CycleBoundaries<'a> {
    ghost use Rattle.std.specs.Prelude.{ℕ, true, List};

    ghost Value = { List ℕ };

    ghost use Rattle.freq10s.specs.Cycles.{cycles_left};
    ghost use Rattle.zero_cross.specs.AllBoundaries.{Alternate};

    ghost view = { λ w. cycles_left w.upcoming w.boundaries };

    ghost invariant = { λ w. Alternate true w.boundaries };
}

/// Whole cycles one after another: their first and their last boundary, and how many they are.
#[derive(Clone, Copy)]
pub struct Cycles {
    pub first: u64,
    pub last: u64,
    pub count: u64,
}

impl<'a> CycleBoundaries<'a> {
    /// All cycle boundaries of the samples.
    pub fn new(samples: &'a [i64], rule: Rule) -> CycleBoundaries<'a>
        requires { IsRule rule }
        ensures value { result ≡ cycle_boundaries samples.now rule }
        ensures within { AreBoundaries result (length samples.now) }
    {
        let mut boundaries = Boundaries::new(samples, rule);
        let upcoming = next_rising(&mut boundaries);
        CycleBoundaries {
            upcoming,
            boundaries,
        }
    }

    /// The cycles between the boundaries from `low` to `high`, both included; None where there is no
    /// boundary. Those below `high` are taken.
    pub fn pass(&mut self, low: u64, high: u64) -> Option<Cycles>
        requires order { low ≤ high }
        requires boundaries { AreBoundaries self.old MOST_SAMPLES }
        ensures value { result ≡ cycles_between (boundaries_within self.old low high) }
        ensures left { self.new ≡ boundaries_from high self.old }
        ensures rising { IfSome result (λ c. c.first + c.count ≤ c.last) }
        ensures within { IfSome result (λ c. c.last < MOST_SAMPLES) }
    {
        let mut cycles = None;
        while let Some(boundary) = self.next_below(high) {
            if boundary >= low {
                cycles = Some(with_boundary(cycles, boundary));
            }
        }
        if self.is_next(high) {
            cycles = Some(with_boundary(cycles, high));
        }
        cycles
    }

    // Takes the boundary that comes next, if it lies below a place.
    fn next_below(&mut self, place: u64) -> Option<u64>
        ensures { TakesBelow place self.old result self.new }
    {
        let boundary = self.upcoming?;
        if boundary >= place {
            return None;
        }
        self.upcoming = next_rising(&mut self.boundaries);
        Some(boundary)
    }

    // Whether a boundary lies at a place that none before it reaches.
    fn is_next(&self, place: u64) -> bool
        ensures { result ≡ is_next place self.now }
    {
        self.upcoming == Some(place)
    }
}

// Takes the boundary that comes next, a rising one, and the falling one after it.
fn next_rising(boundaries: &mut Boundaries<'_>) -> Option<u64>
    requires { Alternate true boundaries.old }
    ensures value { StepsTo (rising_places boundaries.old) result (rising_places boundaries.new) }
    ensures same { Alternate true boundaries.new }
{
    let place = boundaries.next()?.place;
    boundaries.next();
    Some(place)
}

// The cycles up to one boundary more.
fn with_boundary(cycles: Option<Cycles>, boundary: u64) -> Cycles
    requires rising { IfSome cycles (λ c. c.first + c.count ≤ c.last) }
    requires after { IfSome cycles (λ c. c.last < boundary) }
    ensures value { result ≡ with_boundary cycles boundary }
    ensures rising { result.first + result.count ≤ result.last }
{
    match cycles {
        Some(Cycles { first, count, .. }) => Cycles {
            first,
            last: boundary,
            count: count + 1,
        },
        None => Cycles {
            first: boundary,
            last: boundary,
            count: 0,
        },
    }
}
