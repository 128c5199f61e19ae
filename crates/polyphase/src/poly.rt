// The machine that finds the events of all kinds over all channels, window by window.
ghost use Rattle.std.specs.Prelude.{◌≡◌, ◌<◌, [], option_map, IsTrue, IsFalse};
ghost use Rattle.event_detect.specs.Detector.{Ends as EndsOfKind, SeesMore as SeesMoreOfKind};
ghost use Rattle.event_detect.specs.Threshold.{IsInOrder};
ghost use Rattle.polyphase.specs.Poly.{AreIdle, Ends, HasSeen, IsIdle, LeavesOpen, Passes, SeesMore};
ghost use Rattle.polyphase.specs.Poly.{StartsOpen, channel_window, condition_of, running_of};
ghost use Rattle.polyphase.specs.PolyphaseEvent.{IsChannelCount};

use crate::latest::Latest;
use event_detect::{Detector, Event, Kind, Limits, Window};
use std::marker::Model;

/// Finds the dips, swells and interruptions of several channels among the windows that it is fed
/// (IEC 61000-4-30:2015, 5.4, 5.5).
#[derive(Drop)]
pub struct Poly {
    latest: Latest,
    dips: Detector,
    swells: Detector,
    interruptions: Detector,
    // Whether it is known that no event runs and none would begin.
    is_idle: bool,
}

impl Model for Poly {
    ghost use Rattle.polyphase.specs.Poly.{IsPoly, PolyView, poly_view};

    ghost Value = { PolyView };

    ghost view = { λ p. poly_view p.latest p.dips p.swells p.interruptions };

    ghost invariant = { λ p. IsPoly p.latest p.dips p.swells p.interruptions p.is_idle };
}

impl Poly {
    /// A machine for so many channels, which has seen nothing.
    pub fn new(channels: u32, limits: Limits) -> Poly
        requires channels { IsChannelCount channels }
        requires limits { IsInOrder limits }
        ensures value { HasSeen result [] }
        ensures channels { result.channels ≡ channels }
        ensures limits { result.limits ≡ limits }
    {
        Poly {
            latest: Latest::new(channels, limits),
            dips: Detector::new(Kind::Dip),
            swells: Detector::new(Kind::Swell),
            interruptions: Detector::new(Kind::Interruption),
            is_idle: false,
        }
    }

    /// Feeds the next window of the channel at a position, and gives the events that it ends, in the order
    /// of `Kind`. The events are those of all windows in the order in which they are fed: the standard's
    /// where this is the order of the merged windows, by start and then by channel.
    pub fn step(&mut self, position: u32, window: Window) -> [Option<Event>; 3]
        requires { position < self.old.channels }
        ensures value { Ends self.old (channel_window position window) result }
        ensures seen { SeesMore self.old self.new (channel_window position window) }
        ensures same { self.new.channels ≡ self.old.channels }
        ensures limits { self.new.limits ≡ self.old.limits }
    {
        if self.pass(position, window) {
            return [None, None, None];
        }
        self.ask_all(position, window)
    }

    /// Feeds the next window where no event runs, and its value and the channel's before are within all
    /// thresholds: then no event ends, and none begins. Tells whether that is so; else nothing is fed.
    pub fn pass(&mut self, position: u32, window: Window) -> bool
        requires { position < self.old.channels }
        ensures passed { IsTrue result → Passes self.old self.new (channel_window position window) }
        ensures rest { IsFalse result → self.new ≡ self.old }
        ensures same { self.new.channels ≡ self.old.channels }
        ensures limits { self.new.limits ≡ self.old.limits }
    {
        self.is_idle && self.latest.put_calm(position, window.value)
    }

    // Feeds the next window to each detector.
    fn ask_all(&mut self, position: u32, window: Window) -> [Option<Event>; 3]
        requires { position < self.old.channels }
        ensures value { Ends self.old (channel_window position window) result }
        ensures seen { SeesMore self.old self.new (channel_window position window) }
        ensures same { self.new.channels ≡ self.old.channels }
        ensures limits { self.new.limits ≡ self.old.limits }
    {
        self.latest.put(position, window.value);
        let latest = &self.latest;
        let dip = step(&mut self.dips, Kind::Dip, latest, position, window);
        let swell = step(&mut self.swells, Kind::Swell, latest, position, window);
        let interruption = step(
            &mut self.interruptions,
            Kind::Interruption,
            latest,
            position,
            window,
        );
        self.is_idle = are_idle(latest, &self.dips, &self.swells, &self.interruptions);
        [dip, swell, interruption]
    }

    /// Ends the list at place `n`, and gives the events that are open there, in the order of `Kind`. The
    /// machine has then seen nothing.
    pub fn finish(&mut self, n: u64) -> [Option<Event>; 3]
        ensures value { LeavesOpen self.old n result }
        ensures seen { HasSeen self.new [] }
        ensures same { self.new.channels ≡ self.old.channels }
        ensures limits { self.new.limits ≡ self.old.limits }
    {
        self.latest.clear();
        self.is_idle = false;
        [
            self.dips.finish(n),
            self.swells.finish(n),
            self.interruptions.finish(n),
        ]
    }

    /// The start of the event of the kind that runs.
    pub fn running(&self, kind: Kind) -> Option<u64>
        ensures value { result ≡ option_map (λ r. r.start) (running_of self.now kind) }
        ensures start { StartsOpen self.now kind result }
    {
        match kind {
            Kind::Dip => self.dips.running(),
            Kind::Swell => self.swells.running(),
            Kind::Interruption => self.interruptions.running(),
        }
    }
}

// Whether this is so of each kind: no event runs, and none would begin.
fn are_idle(latest: &Latest, dips: &Detector, swells: &Detector, interruptions: &Detector) -> bool
    ensures { IsTrue result → AreIdle latest.now dips.now swells.now interruptions.now }
{
    is_idle(dips, Kind::Dip, latest)
        && is_idle(swells, Kind::Swell, latest)
        && is_idle(interruptions, Kind::Interruption, latest)
}

// Whether no event of a kind runs, and none would begin.
fn is_idle(detector: &Detector, kind: Kind, latest: &Latest) -> bool
    ensures { IsTrue result → IsIdle kind latest.now detector.now }
{
    detector.running().is_none() && !latest.begins(kind)
}

// Feeds the detector of a kind one window, after which these are the latest values.
fn step(
    detector: &mut Detector,
    kind: Kind,
    latest: &Latest,
    position: u32,
    window: Window,
) -> Option<Event>
    requires { IsInOrder latest.now.limits }
    ensures value { EndsOfKind detector.old (condition_of latest.now position window kind) result }
    ensures seen { SeesMoreOfKind detector.old detector.new (condition_of latest.now position window kind) }
    ensures same { detector.new.kind ≡ detector.old.kind }
{
    detector.step(latest.begins(kind), latest.ends(kind), position, window)
}
