// Segments: which basic intervals begin one.
ghost use Rattle.std.specs.Prelude.{◌≡◌, ◌≤◌, ◌<◌, Some, None, IfSome, slice_get, All, take, length};
ghost use Rattle.std.specs.List.Sorted.{IsNonDecreasing};
ghost use Rattle.std.specs.Prelude.{nat_le, false};
ghost use Rattle.std.specs.Option.{option_map_or};
ghost use Rattle.interval_ledger.specs.Segment.{ArePassed, is_first_of_segment};

use std::marker::Model;

/// Tells basic intervals that begin a segment, by the places of the 10-minute ticks
/// (IEC 61000-4-30:2015, 4.5).
#[derive(Drop)]
pub(crate) struct Segments {
    places: Vec<u64>,
    // So many of the places do not lie after the start of the last basic interval.
    passed: usize,
    before: Option<u64>,
}

impl Model for Segments {
    ghost use Rattle.interval_ledger.specs.Segment.{SegmentsView, ArePassed};

    ghost Value = { SegmentsView };

    ghost view = { λ s. record { places = s.places.items; before = s.before } };

    ghost invariant = { λ s. ArePassed s.places.items s.before s.passed };
}

impl Segments {
    // No basic interval yet, among ticks with these places.
    pub(crate) fn new(places: Vec<u64>) -> Segments
        requires { IsNonDecreasing places.items }
        ensures { result ≡ record { places = places.items; before = None } }
    {
        Segments {
            places,
            passed: 0,
            before: None,
        }
    }

    // Whether the next basic interval begins a segment, by its start.
    pub(crate) fn begins(&mut self, start: u64) -> bool
        ensures value { result ≡ is_first_of_segment self.old.places self.old.before start }
        ensures same { self.new ≡ self.old }
    {
        begins_at(&self.places, &mut self.passed, self.before, start)
    }

    // Goes on past it.
    pub(crate) fn pass(&mut self, start: u64)
        requires { IfSome self.old.before (λ b. b ≤ start) }
        ensures { self.new ≡ record self.old { before = Some start } }
    {
        self.before = Some(start);
    }
}

// Whether a basic interval begins a segment, by its start and that of the one before it. So many places are
// passed then that all others lie after the one before it.
fn begins_at(places: &[u64], passed: &mut usize, before: Option<u64>, start: u64) -> bool
    requires { ArePassed places.now before passed.old }
    ensures value { result ≡ is_first_of_segment places.now before start }
    ensures passed { ArePassed places.now before passed.new }
{
    match before {
        Some(before) => {
            *passed = passed_by(places, *passed, before);
            is_by(places, *passed, start)
        }
        None => true,
    }
}

// How many places do not lie after one, of which so many are known not to.
fn passed_by(places: &[u64], mut passed: usize, before: u64) -> usize
    requires there { passed ≤ length places.now }
    requires earlier { All (λ p. p ≤ before) (take passed places.now) }
    ensures there { result ≤ length places.now }
    ensures earlier { All (λ p. p ≤ before) (take result places.now) }
    ensures later { IfSome (slice_get places.now result) (λ p. before < p) }
{
    while passed < places.len() && places[passed] <= before {
        passed += 1;
    }
    passed
}

// Whether the place at an index lies at a start or before it, if there is one.
fn is_by(places: &[u64], index: usize, start: u64) -> bool
    ensures { result ≡ option_map_or (λ p. nat_le p start) (slice_get places.now index) false }
{
    match places.get(index) {
        Some(place) => *place <= start,
        None => false,
    }
}
