// What is known of the result.
ghost use Rattle.std.specs.Prelude.{◌≡◌, ◌<◌, ◌≤◌, length, slice_get, IfOk, OnOk, OnErr};
ghost use Rattle.aggregate.specs.Aggregator.{MayFollow};
ghost use Rattle.aggregate.specs.BasicOrder.{basic_of};
ghost use Rattle.interval_ledger.specs.Known.{AddsBasic, AddsReading, AddsWindow, Ends, IsOpened, KeepsKnown, KeepsName, MovesMark, TicksReleased};
ghost use Rattle.event_detect.specs.Threshold.{IsInOrder};
ghost use Rattle.interval_ledger.specs.Watch.{TellsTouch};
ghost use Rattle.polyphase.specs.Poly.{channel_window};
ghost use Rattle.pq_base.specs.Recorded.{sample_count};

use crate::labels::Labels;
use crate::outbox::Outbox;
use crate::steps::Steps;
use crate::watch::Watch;
use aggregate::Aggregator;
use event_detect::{Limits, Window};
use freq10s::Reading;
use pq_base::Recording;
use pq_items::Item;
use pq_sequence::clock_of;
use std::alloc::{AllocError, Global};
use std::marker::Model;
use std::sync::ledger::Ledger;
use ten_twelve::Span;

// How many items a window can add, and how many a basic interval can for each channel.
const KINDS: usize = 3;

const LENGTHS: usize = 4;

/// The items that are known, released or waiting, and what finds the next of them.
#[derive(Drop)]
pub(crate) struct Known {
    labels: Labels,
    limits: Limits,
    watch: Watch,
    aggregator: Aggregator,
    outbox: Outbox,
}

impl Model for Known {
    ghost use Rattle.interval_ledger.specs.Known.{KnownView};

    ghost Value = { KnownView };

    ghost view = { λ k. record {
      recording = k.labels.recording.value;
      limits = k.limits;
      watch = k.watch;
      aggregator = k.aggregator;
      outbox = k.outbox;
    } };
}

impl Known {
    // Nothing is merged, and nothing is known.
    pub(crate) fn open(
        alloc: Global,
        recording: &Recording,
        limits: &Limits,
    ) -> Result<Known, AllocError>
        requires { IsInOrder limits.now }
        ensures { IfOk result (IsOpened recording.now limits.now) }
    {
        let labels = Labels::of(alloc, recording)?;
        let channels = recording.channels();
        Ok(Known {
            labels,
            limits: *limits,
            watch: Watch::new(channels, *limits),
            aggregator: Aggregator::new(clock_of(recording), recording.len(), channels),
            outbox: Outbox::new(alloc),
        })
    }

    // Whether an event touches a span from this place to one after the start of each window so far.
    pub(crate) fn touches(&self, start: u64) -> bool
        ensures { TellsTouch self.now.watch start result }
    {
        self.watch.touches(start)
    }

    // How many items are released.
    pub(crate) fn released(&self) -> usize
        ensures { result ≡ length self.now.outbox.released }
    {
        self.outbox.released()
    }

    // The released item at a place from 0, if there is one.
    pub(crate) fn item(&self, k: usize) -> Option<Item>
        ensures { result ≡ slice_get self.now.outbox.released k }
    {
        self.outbox.item(k)
    }

    // Merges the next of the merged windows.
    pub(crate) fn add_window(&mut self, position: u32, window: Window) -> Result<(), AllocError>
        requires { position < self.old.watch.poly.channels }
        ensures value { OnOk result (AddsWindow self.old self.new (channel_window position window)) }
        ensures name { KeepsName self.old self.new }
        ensures same { self.new.outbox.released ≡ self.old.outbox.released }
        ensures err { OnErr result (KeepsKnown self.old self.new) }
    {
        if self.watch.pass(position, window) {
            return Ok(());
        }
        self.outbox.reserve(KINDS)?;
        let ended = self.watch.step(position, window);
        self.labels.push_events(&mut self.outbox, &ended);
        Ok(())
    }

    // Merges the next reading, with its flag.
    pub(crate) fn add_reading(&mut self, reading: Reading) -> Result<(), AllocError>
        ensures value { OnOk result (AddsReading self.old self.new reading) }
        ensures name { KeepsName self.old self.new }
        ensures same { self.new.outbox.released ≡ self.old.outbox.released }
        ensures err { OnErr result (KeepsKnown self.old self.new) }
    {
        self.outbox.reserve(1)?;
        let flagged = self.watch.touches(reading.start);
        self.labels.push_reading(&mut self.outbox, reading, flagged);
        Ok(())
    }

    // Merges the next basic interval, with the values of its channels and its flag.
    pub(crate) fn add_basic(
        &mut self,
        span: Span,
        front: bool,
        values: &[u64],
        flagged: bool,
    ) -> Result<(), AllocError>
        requires values { length self.old.recording.numbers ≤ length values.now }
        requires follows { MayFollow self.old.aggregator (basic_of front span values.now flagged) }
        ensures value { OnOk result
            (AddsBasic self.old self.new (basic_of front span values.now flagged)) }
        ensures name { KeepsName self.old self.new }
        ensures same { self.new.outbox.released ≡ self.old.outbox.released }
        ensures err { OnErr result (KeepsKnown self.old self.new) }
    {
        self.outbox.reserve(LENGTHS * self.labels.channels())?;
        let out = self.aggregator.step(span, front, values, flagged);
        self.labels
            .push_completed(&mut self.outbox, span, values, flagged, &out);
        Ok(())
    }

    // Releases what ends by a place below the end, in order, a step for each.
    pub(crate) fn release<L: Ledger>(&mut self, w: u64, steps: &mut Steps<L>)
        ensures value { MovesMark w self.old self.new }
        ensures name { KeepsName self.old self.new }
        ensures cost { TicksReleased steps.old steps.new self.old self.new }
    {
        self.outbox.release(w, steps);
    }

    // Ends the windows at the end, and releases everything, a step for each.
    pub(crate) fn finish<L: Ledger>(
        &mut self,
        n: u64,
        steps: &mut Steps<L>,
    ) -> Result<(), AllocError>
        requires { n ≡ sample_count self.old.recording }
        ensures value { OnOk result (Ends self.old self.new) }
        ensures name { KeepsName self.old self.new }
        ensures cost { OnOk result (TicksReleased steps.old steps.new self.old self.new) }
        ensures err { OnErr result (KeepsKnown self.old self.new) }
        ensures unticked { OnErr result (steps.new ≡ steps.old) }
    {
        self.outbox.reserve(KINDS)?;
        let left = self.watch.finish(n);
        self.labels.push_events(&mut self.outbox, &left);
        self.outbox.release(n, steps);
        Ok(())
    }
}
