// The windows of a channel, one after another.
ghost use Rattle.std.specs.Prelude.{◌≡◌, ◌-◌, ◌*◌, ◌/◌, ◌^◌, ◌<◌, ◌≤◌, length};
ghost use Rattle.std.specs.Iterator.{YieldsFirst, item_count};
ghost use Rattle.half_cycle.specs.HalfCycleWindow.{windows};
ghost use Rattle.fixed_rms.specs.Root.{isqrt};
ghost use Rattle.half_cycle.specs.Windows.{AreFirstTwo, squares_between};
ghost use Rattle.zero_cross.specs.Boundary.{IsRule};
ghost use Rattle.pq_words.specs.Samples.{AreSamples};

use event_detect::Window;
use fixed_rms::{root_of_mean, sum_of_squares};
use pq_words::MOST_MICROVOLTS;
use std::marker::Model;
use zero_cross::{Boundaries, Rule};

/// The half-cycle windows of a channel, in order, each with its root in microvolts (5.4): an
/// iterator, seen as the list of those that are left. Each sample is squared once.
#[derive(Drop)]
pub struct Windows<'a> {
    samples: &'a [i64],
    // The places of the next two boundaries; None where there are fewer.
    next_two: Option<(u64, u64)>,
    // The sum of the squares of the samples between the two.
    sum: u128,
    // The boundaries after them.
    boundaries: Boundaries<'a>,
}

impl<'a> Model for Windows<'a> {
    ghost use Rattle.std.specs.Prelude.{List};
    ghost use Rattle.event_detect.specs.declared.window.Window.{Window};

    ghost Value = { List Window };

    ghost use Rattle.half_cycle.specs.Windows.{windows_left, IsSound};

    ghost view = { λ w. windows_left w.samples.now w.next_two w.boundaries };

    ghost invariant = { λ w. IsSound w.samples.now w.next_two w.sum w.boundaries };
}

impl<'a> Windows<'a> {
    /// The windows of a channel's samples, in microvolts, over the boundaries that the rule finds.
    pub fn new(samples: &'a [i64], rule: Rule) -> Windows<'a>
        requires rule { IsRule rule }
        requires samples { AreSamples samples.now }
        ensures { result ≡ windows samples.now rule }
    {
        let mut boundaries = Boundaries::new(samples, rule);
        let next_two = two_places(&mut boundaries);
        let sum = match next_two {
            Some((start, middle)) => squares_between(samples, start, middle),
            None => 0,
        };
        Windows {
            samples,
            next_two,
            sum,
            boundaries,
        }
    }
}

impl<'a> Iterator for Windows<'a> {
    type Item = Window;

    ghost next_gives = { YieldsFirst (λ rest. rest) };

    ghost remaining = { item_count (λ rest. rest) };

    fn next(&mut self) -> Option<Window> {
        let (start, middle) = self.next_two?;
        let end = self.boundaries.next()?.place;
        let first = self.sum;
        let second = squares_between(self.samples, middle, end);
        self.next_two = Some((middle, end));
        self.sum = second;
        Some(window(start, end, first + second))
    }
}

// The places of the first two boundaries that are left, where there are two.
fn two_places(boundaries: &mut Boundaries<'_>) -> Option<(u64, u64)>
    ensures { AreFirstTwo boundaries.old boundaries.new result }
{
    let start = boundaries.next()?.place;
    let middle = boundaries.next()?.place;
    Some((start, middle))
}

// The sum of the squares of the samples from a place up to another.
fn squares_between(samples: &[i64], start: u64, end: u64) -> u128
    requires some { start < end }
    requires inside { end ≤ length samples.now }
    requires samples { AreSamples samples.now }
    ensures { result ≡ squares_between samples.now start end }
{
    sum_of_squares(&samples[start as usize..end as usize])
}

// The window from a place up to another, by the sum of the squares of the samples between.
fn window(start: u64, end: u64, sum: u128) -> Window
    requires some { start < end }
    requires within { sum ≤ (end - start) * MOST_MICROVOLTS ^ 2 }
    ensures { result ≡ record { start = start; end = end; value = isqrt (sum / (end - start)) } }
{
    Window {
        start,
        end,
        value: root_of_mean(sum, end - start),
    }
}
