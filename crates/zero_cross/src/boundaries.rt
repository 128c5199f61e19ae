// The boundaries of a signal, one after another.
ghost use Rattle.std.specs.Prelude.{◌≡◌, ◌<◌, length, IfSome};
ghost use Rattle.std.specs.Iterator.{YieldsFirst, item_count};
ghost use Rattle.zero_cross.specs.Boundary.{IsRule, AreBoundaries, boundary_after, boundaries, boundary_zero, places_of};

use crate::boundary::{Boundary, first, next};
use crate::rule::Rule;
use std::marker::Model;

/// The boundaries of a signal, in order: an iterator, seen as the list of those that are left. Each
/// sample is looked at about once; nothing is kept but the boundary that comes next.
#[derive(Drop)]
pub struct Boundaries<'a> {
    samples: &'a [i64],
    rule: Rule,
    // The boundary that comes next; None where none is left.
    upcoming: Option<Boundary>,
}

impl<'a> Model for Boundaries<'a> {
    ghost use Rattle.std.specs.Prelude.{List};
    ghost use Rattle.zero_cross.specs.declared.boundary.Boundary.{Boundary};

    ghost Value = { List Boundary };

    ghost use Rattle.zero_cross.specs.Boundaries.{boundaries_from, IsWalk};

    ghost view = { λ walk. boundaries_from walk.samples.now walk.rule walk.upcoming };

    ghost invariant = { λ walk. IsWalk walk.samples.now walk.rule walk.upcoming };
}

impl<'a> Boundaries<'a> {
    /// All boundaries of a signal, as far apart as the rule says.
    pub fn new(samples: &'a [i64], rule: Rule) -> Boundaries<'a>
        requires rule { IsRule rule }
        ensures value { result ≡ boundaries samples.now rule }
        ensures within { AreBoundaries (places_of result) (length samples.now) }
    {
        let upcoming = start(samples, &rule);
        Boundaries {
            samples,
            rule,
            upcoming,
        }
    }
}

impl<'a> Iterator for Boundaries<'a> {
    type Item = Boundary;

    ghost next_gives = { YieldsFirst (λ rest. rest) };

    ghost remaining = { item_count (λ rest. rest) };

    fn next(&mut self) -> Option<Boundary> {
        let boundary = self.upcoming?;
        self.upcoming = after(self.samples, &self.rule, boundary);
        Some(boundary)
    }
}

// Boundary 0, which counts as rising.
fn start(samples: &[i64], rule: &Rule) -> Option<Boundary>
    requires { IsRule rule.now }
    ensures value { result ≡ boundary_zero samples.now rule.now }
    ensures within { IfSome result (λ b. b.place < length samples.now) }
{
    let place = first(samples, rule)?;
    Some(Boundary {
        place,
        rising: true,
    })
}

// The boundary after another, in the other direction.
fn after(samples: &[i64], rule: &Rule, boundary: Boundary) -> Option<Boundary>
    requires rule { IsRule rule.now }
    requires place { boundary.place < length samples.now }
    ensures value { result ≡ boundary_after samples.now rule.now boundary }
    ensures within { IfSome result (λ b. b.place < length samples.now) }
{
    let rising = !boundary.rising;
    let place = next(samples, rule, boundary.place, rising)?;
    Some(Boundary { place, rising })
}
