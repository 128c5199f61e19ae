// The events over the merged windows, as they are found.
ghost use Rattle.std.specs.Prelude.{◌≡◌, ◌<◌, [], IsTrue, IsFalse};
ghost use Rattle.event_detect.specs.Threshold.{IsInOrder};
ghost use Rattle.interval_ledger.specs.Watch.{HasSeen, HasSetting, NotesEnds, Passes, SeesMore};
ghost use Rattle.interval_ledger.specs.Watch.{TellsKind, TellsTouch, end_of_kind, later_end};
ghost use Rattle.polyphase.specs.Poly.{Ends, LeavesOpen, channel_window};
ghost use Rattle.polyphase.specs.PolyphaseEvent.{IsChannelCount};

use event_detect::{Event, Kind, Limits, Window};
use polyphase::Poly;
use std::marker::Model;

/// Finds the events over the merged windows, and keeps of each kind the greatest end of those that have
/// ended. So a span that ends after the start of each window so far is told to be touched without a look at
/// the events themselves (IEC 61000-4-30:2015, 4.7).
#[derive(Drop)]
pub(crate) struct Watch {
    poly: Poly,
    dip: u64,
    swell: u64,
    interruption: u64,
}

impl Model for Watch {
    ghost use Rattle.interval_ledger.specs.Watch.{WatchView};

    ghost Value = { WatchView };

    ghost view = { λ w. record {
      poly = w.poly;
      dip = w.dip;
      swell = w.swell;
      interruption = w.interruption;
    } };
}

impl Watch {
    // One for so many channels, which has seen nothing.
    pub(crate) fn new(channels: u32, limits: Limits) -> Watch
        requires channels { IsChannelCount channels }
        requires limits { IsInOrder limits }
        ensures value { HasSeen result [] }
        ensures setting { HasSetting result channels limits }
    {
        Watch {
            poly: Poly::new(channels, limits),
            dip: 0,
            swell: 0,
            interruption: 0,
        }
    }

    // Feeds the next of the merged windows, of the channel at a position, where it is plain that it ends no
    // event. Tells whether it is; else nothing is fed.
    pub(crate) fn pass(&mut self, position: u32, window: Window) -> bool
        requires { position < self.old.poly.channels }
        ensures passed { IsTrue result → Passes self.old self.new (channel_window position window) }
        ensures rest { IsFalse result → self.new ≡ self.old }
        ensures setting { HasSetting self.new self.old.poly.channels self.old.poly.limits }
    {
        self.poly.pass(position, window)
    }

    // Feeds the next of the merged windows, of the channel at a position, and gives the events that it ends.
    pub(crate) fn step(&mut self, position: u32, window: Window) -> [Option<Event>; 3]
        requires { position < self.old.poly.channels }
        ensures value { Ends self.old.poly (channel_window position window) result }
        ensures seen { SeesMore self.old self.new (channel_window position window) }
        ensures setting { HasSetting self.new self.old.poly.channels self.old.poly.limits }
    {
        let ended = self.poly.step(position, window);
        self.note(&ended);
        ended
    }

    // Notes the ends of the events that a window ended, of the kinds in order.
    fn note(&mut self, ended: &[Option<Event>; 3])
        ensures ends { NotesEnds self.old self.new ended.now }
        ensures same { self.new.poly ≡ self.old.poly }
    {
        let [dip, swell, interruption] = ended;
        self.dip = later(self.dip, dip);
        self.swell = later(self.swell, swell);
        self.interruption = later(self.interruption, interruption);
    }

    // Whether an event, of any kind, touches a span from this place to one after the start of each window so
    // far.
    pub(crate) fn touches(&self, start: u64) -> bool
        ensures { TellsTouch self.now start result }
    {
        self.touches_by(Kind::Dip, start)
            || self.touches_by(Kind::Swell, start)
            || self.touches_by(Kind::Interruption, start)
    }

    // Whether one of a kind does: it has ended after the place, or it runs.
    fn touches_by(&self, kind: Kind, start: u64) -> bool
        ensures { TellsKind self.now kind start result }
    {
        start < self.greatest_end(kind) || self.poly.running(kind).is_some()
    }

    fn greatest_end(&self, kind: Kind) -> u64
        ensures { result ≡ end_of_kind self.now kind }
    {
        match kind {
            Kind::Dip => self.dip,
            Kind::Swell => self.swell,
            Kind::Interruption => self.interruption,
        }
    }

    // Ends the windows at place `n`, and gives the events that are open there.
    pub(crate) fn finish(&mut self, n: u64) -> [Option<Event>; 3]
        ensures value { LeavesOpen self.old.poly n result }
        ensures setting { HasSetting self.new self.old.poly.channels self.old.poly.limits }
    {
        self.poly.finish(n)
    }
}

// The greater of an end and that of an event, if there is one.
fn later(end: u64, event: &Option<Event>) -> u64
    ensures { result ≡ later_end end event.now }
{
    match event {
        Some(event) => end.max(event.end),
        None => end,
    }
}
