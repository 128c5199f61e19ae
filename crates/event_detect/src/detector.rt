// The machine that finds the events of one kind, window by window.
ghost use Rattle.std.specs.Prelude.{◌≡◌, ◌↔◌, [], IsTrue, IsSome, option_map};
ghost use Rattle.event_detect.specs.Detector.{HasSeen, Ends, SeesMore, LeavesOpen, StartsOpen, condition, event_until, is_worse, running_view, with_window};

use crate::event::Event;
use crate::kind::Kind;
use crate::window::Window;
use std::marker::Model;

/// Finds the events of one kind among the windows that it is fed (IEC 61000-4-30:2015, 5.4, 5.5).
#[derive(Drop)]
pub struct Detector {
    kind: Kind,
    running: Option<RunningEvent>,
}

impl Model for Detector {
    ghost use Rattle.std.specs.Prelude.{option_map};
    ghost use Rattle.event_detect.specs.Detector.{Watch, running_view};

    ghost Value = { Watch };

    ghost view = { λ d. record { kind = d.kind; running = option_map running_view d.running } };
}

impl Detector {
    /// A detector that has seen nothing.
    pub fn new(kind: Kind) -> Detector
        ensures value { HasSeen result [] }
        ensures kind { result.kind ≡ kind }
    {
        Detector {
            kind,
            running: None,
        }
    }

    /// Feeds the next window, with the position of its channel: whether an event would begin there,
    /// and whether one would end there, but not both. Gives the event that ends there. An event
    /// begins where none runs, and ends at a later window than the one that began it.
    pub fn step(&mut self, begins: bool, ends: bool, channel: u32, window: Window) -> Option<Event>
        requires { IsTrue begins → ¬ IsTrue ends }
        ensures succeeds { IsSome result ↔ (IsSome self.old.running × IsTrue ends) }
        ensures value { Ends self.old (condition begins ends channel window) result }
        ensures seen { SeesMore self.old self.new (condition begins ends channel window) }
        ensures same { self.new.kind ≡ self.old.kind }
    {
        let Some(running) = self.running else {
            if begins {
                self.running = Some(RunningEvent {
                    start: window.start,
                    channel,
                    value: window.value,
                });
            }
            return None;
        };
        let running = running.with(self.kind, channel, window.value);
        if ends {
            self.running = None;
            return Some(running.event(self.kind, window.end, false));
        }
        self.running = Some(running);
        None
    }

    /// Ends the list at place `n`, and gives the event that is open there. The detector has then
    /// seen nothing.
    pub fn finish(&mut self, n: u64) -> Option<Event>
        ensures succeeds { IsSome result ↔ IsSome self.old.running }
        ensures value { LeavesOpen self.old n result }
        ensures seen { HasSeen self.new [] }
        ensures same { self.new.kind ≡ self.old.kind }
    {
        let running = self.running.take()?;
        Some(running.event(self.kind, n, true))
    }

    /// The start of the event that runs.
    pub fn running(&self) -> Option<u64>
        ensures value { result ≡ option_map (λ r. r.start) self.now.running }
        ensures start { StartsOpen self.now result }
    {
        self.running.map(|running| running.start)
    }
}

// What is known of the event that runs: its worst value so far, and the channel that had this first.
#[derive(Clone, Copy)]
struct RunningEvent {
    start: u64,
    channel: u32,
    value: u64,
}

impl RunningEvent {
    // What is known after one more window.
    fn with(self, kind: Kind, channel: u32, value: u64) -> RunningEvent
        ensures { running_view result ≡ with_window kind (running_view self) channel value }
    {
        if is_worse(kind, value, self.value) {
            RunningEvent {
                start: self.start,
                channel,
                value,
            }
        } else {
            self
        }
    }

    // The event, up to a place.
    fn event(self, kind: Kind, end: u64, is_open: bool) -> Event
        ensures { result ≡ event_until kind (running_view self) end is_open }
    {
        Event {
            kind,
            start: self.start,
            end,
            channel: self.channel,
            value: self.value,
            is_open,
        }
    }
}

// The value is worse than another: less for a dip and an interruption, greater for a swell.
fn is_worse(kind: Kind, value: u64, than: u64) -> bool
    ensures { result ≡ is_worse kind value than }
{
    match kind {
        Kind::Swell => value > than,
        Kind::Dip | Kind::Interruption => value < than,
    }
}
