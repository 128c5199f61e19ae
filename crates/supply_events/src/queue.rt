// The windows of one channel.
ghost use Rattle.std.specs.Prelude.{◌≡◌};
ghost use Rattle.half_cycle.specs.HalfCycleWindow.{windows};
ghost use Rattle.supply_events.specs.FirstStart.{start_of_first};
ghost use Rattle.supply_events.specs.Queue.{TakesFirst};
ghost use Rattle.pq_words.specs.Samples.{AreSamples};
ghost use Rattle.zero_cross.specs.Boundary.{IsRule};

use event_detect::Window;
use half_cycle::Windows;
use std::marker::Model;
use zero_cross::Rule;

/// The half-cycle windows of a channel that are left, the next of them at hand. It is seen as their list.
#[derive(Drop)]
pub struct Queue<'a> {
    next: Option<Window>,
    later: Windows<'a>,
}

impl<'a> Model for Queue<'a> {
    ghost use Rattle.std.specs.Prelude.{List};
    ghost use Rattle.event_detect.specs.declared.window.Window.{Window};
    ghost use Rattle.supply_events.specs.Queue.{windows_left};

    ghost Value = { List Window };

    ghost view = { λ q. windows_left q.next q.later };
}

impl<'a> Queue<'a> {
    /// All windows of a channel's samples, in microvolts, over the boundaries that the rule finds.
    pub fn new(samples: &'a [i64], rule: Rule) -> Queue<'a>
        requires rule { IsRule rule }
        requires samples { AreSamples samples.now }
        ensures { result ≡ windows samples.now rule }
    {
        let mut later = Windows::new(samples, rule);
        let next = later.next();
        Queue { next, later }
    }

    /// The place at which the next window starts.
    pub fn start(&self) -> Option<u64>
        ensures { result ≡ start_of_first self.now }
    {
        match self.next {
            Some(window) => Some(window.start),
            None => None,
        }
    }

    /// Takes the next window off.
    pub fn take(&mut self) -> Option<Window>
        ensures { TakesFirst self.old self.new result }
    {
        let taken = self.next?;
        self.next = self.later.next();
        Some(taken)
    }
}
