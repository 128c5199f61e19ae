// The latest value of each channel, and what they tell of each kind.
ghost use Rattle.std.specs.Prelude.{◌≡◌, ◌<◌, length, IsTrue, IsFalse};
ghost use Rattle.event_detect.specs.Threshold.{IsInOrder, class_of};
ghost use Rattle.polyphase.specs.Latest.{BeginAlike, calm, no_values, with_value};
ghost use Rattle.polyphase.specs.PolyphaseEvent.{IsChannelCount, begins, ends};

use crate::counts::Counts;
use event_detect::{Kind, Limits, classify};
use pq_words::MOST_SELECTED;
use std::marker::Model;

// Room for the most channels.
const SLOTS: usize = MOST_SELECTED as usize;

// The latest value of each channel, with the thresholds, and counts of how they stand to them. So no step
// asks each channel.
#[derive(Drop)]
pub(crate) struct Latest {
    limits: Limits,
    channels: u32,
    values: [Option<u64>; SLOTS],
    counts: Counts,
}

impl Model for Latest {
    ghost use Rattle.std.specs.Prelude.{take};
    ghost use Rattle.polyphase.specs.Latest.{LatestView, IsCounted};

    ghost Value = { LatestView };

    ghost view = { λ l. record { limits = l.limits; values = take l.channels l.values } };

    ghost invariant = { λ l. IsCounted l.limits l.channels l.values l.counts };
}

impl Latest {
    // No values yet of so many channels.
    pub(crate) fn new(channels: u32, limits: Limits) -> Latest
        requires { IsChannelCount channels }
        ensures { result ≡ no_values channels limits }
    {
        Latest {
            limits,
            channels,
            values: [None; SLOTS],
            counts: Counts::new(),
        }
    }

    // Puts the latest value of the channel at a position.
    pub(crate) fn put(&mut self, position: u32, value: u64)
        requires { position < length self.old.values }
        ensures { self.new ≡ with_value self.old position value }
    {
        let index = position as usize;
        if let Some(before) = self.values[index] {
            self.counts = self.counts.without(classify(&self.limits, before));
        }
        self.values[index] = Some(value);
        self.counts = self.counts.with(classify(&self.limits, value));
    }

    // Puts the latest value of the channel at a position where this one and the one before are within all
    // thresholds, so that no count changes: tells whether that is so.
    pub(crate) fn put_calm(&mut self, position: u32, value: u64) -> bool
        requires inside { position < length self.old.values }
        requires limits { IsInOrder self.old.limits }
        ensures value { IsTrue result → self.new ≡ with_value self.old position value }
        ensures begins { IsTrue result → BeginAlike self.old self.new }
        ensures same { IsFalse result → self.new ≡ self.old }
    {
        let Some(before) = self.values[position as usize] else {
            return false;
        };
        if !is_calm(&self.limits, before) {
            return false;
        }
        if !is_calm(&self.limits, value) {
            return false;
        }
        self.values[position as usize] = Some(value);
        true
    }

    // Takes all values out.
    pub(crate) fn clear(&mut self)
        ensures { self.new ≡ no_values (length self.old.values) self.old.limits }
    {
        *self = Latest::new(self.channels, self.limits);
    }

    // Whether an event of the kind would begin.
    pub(crate) fn begins(&self, kind: Kind) -> bool
        ensures { result ≡ begins kind self.now.limits self.now.values }
    {
        match kind {
            Kind::Dip => self.counts.below_dip > 0,
            Kind::Swell => self.counts.above_swell > 0,
            Kind::Interruption => self.counts.below_interruption == self.channels,
        }
    }

    // Whether an event of the kind would end.
    pub(crate) fn ends(&self, kind: Kind) -> bool
        ensures { result ≡ ends kind self.now.limits self.now.values }
    {
        match kind {
            Kind::Dip => self.counts.clear_dip == self.counts.there,
            Kind::Swell => self.counts.clear_swell == self.counts.there,
            Kind::Interruption => self.counts.clear_interruption > 0,
        }
    }
}

// Whether a value is within all thresholds: past none that begins an event, and back past each that ends one.
fn is_calm(limits: &Limits, value: u64) -> bool
    requires { IsInOrder limits.now }
    ensures { IsTrue result → class_of limits.now value ≡ calm }
{
    limits.dip_end <= value && value <= limits.swell_end
}
