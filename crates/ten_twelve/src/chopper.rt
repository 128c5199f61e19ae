// Runs, element by element.
ghost use Rattle.std.specs.Prelude.{◌≡◌, [], option_map};
ghost use Rattle.ten_twelve.specs.Chopper.{HasSeen, MayFollow, Completes, SeesMore, element_of};
ghost use Rattle.ten_twelve.specs.Run.{IsRunLength};

use crate::Span;
use crate::unfinished::{Unfinished, UnfinishedRun};
use std::marker::Model;

/// Finds the runs of consecutive elements that it is fed, each at its last element
/// (IEC 61000-4-30:2015, 4.5; where they begin anew is profile). Runs begin at each front and at whole
/// lengths after it, below the next front; a run that lacks elements at a front gets those after it.
#[derive(Drop)]
pub struct Chopper {
    length: u64,
    unfinished: Unfinished,
}

impl Model for Chopper {
    ghost use Rattle.ten_twelve.specs.Chopper.{ChopperView};
    ghost use Rattle.ten_twelve.specs.Unfinished.{AreUnfinished, pending_of};
    ghost use Rattle.ten_twelve.specs.Run.{IsRunLength};

    ghost Value = { ChopperView };

    ghost view = { λ c. record { length = c.length; pending = pending_of c.unfinished } };

    ghost invariant = { λ c. IsRunLength c.length × AreUnfinished c.length c.unfinished };
}

impl Chopper {
    /// A chopper of runs of so many elements, which has seen nothing.
    pub fn new(length: u64) -> Chopper
        requires { IsRunLength length }
        ensures value { HasSeen result [] }
        ensures length { result.length ≡ length }
    {
        Chopper {
            length,
            unfinished: Unfinished {
                older: None,
                latest: None,
            },
        }
    }

    /// Feeds the next element, and gives the run that it completes, from the start of its first element
    /// to the end of this one. The first element is a front, and at most two runs lack elements.
    pub fn push(&mut self, front: bool, element: Span) -> Option<Span>
        requires { MayFollow self.old (element_of front element) }
        ensures value { Completes self.old (element_of front element) result }
        ensures seen { SeesMore self.old self.new (element_of front element) }
        ensures same { self.new.length ≡ self.old.length }
    {
        if self.length == 1 {
            return Some(element);
        }
        let (whole, unfinished) = self
            .unfinished
            .with_element(self.length, front, element.start);
        self.unfinished = unfinished;
        spanned(whole, element.end)
    }
}

// A run as a span up to a place.
fn spanned(run: Option<UnfinishedRun>, end: u64) -> Option<Span>
    ensures { result ≡ option_map (λ r. record { start = r.start; end = end }) run }
{
    run.map(|run| Span {
        start: run.start,
        end,
    })
}
