// What is measured, as items.
ghost use Rattle.std.specs.Prelude.{◌≡◌, ◌+◌, ◌*◌, ◌<◌, ◌≤◌, [], ◌∷◌, length, option_to_list, IfOk};
ghost use Rattle.aggregate.specs.Sum.{part_of};
ghost use Rattle.interval_ledger.specs.Added.{answered_items};
ghost use Rattle.interval_ledger.specs.Label.{Adds, AddsCompleted, AddsGroup, AddsGroups, AddsPart, frequency_item};
ghost use Rattle.pq_sequence.specs.BasicInterval.{cycles_of};
ghost use Rattle.pq_sequence.specs.Measured.{group_item};
ghost use Rattle.pq_sequence.specs.SequentialResult.{basic_item, event_items, number_of};

use crate::outbox::Outbox;
use aggregate::{Group, Out};
use event_detect::Event;
use freq10s::Reading;
use pq_base::Recording;
use pq_items::Item;
use pq_sequence::{Length, event_item, item_of_length};
use std::alloc::{AllocError, Global};
use std::snapshot::Snapshot;
use ten_twelve::Span;

/// What items say besides what is measured: the numbers of the channels, and how many cycles a basic
/// interval has.
#[derive(Drop)]
pub(crate) struct Labels {
    numbers: Vec<u32>,
    cycles: u64,
    pub(crate) recording: Snapshot<Recording>,
    ghost numbered: { numbers.items ≡ recording.value.numbers },
    ghost long: { cycles ≡ cycles_of recording.value.lf },
    ghost few: { length recording.value.numbers ≤ 16 },
}

impl Labels {
    // Those of a recording.
    pub(crate) fn of(alloc: Global, recording: &Recording) -> Result<Labels, AllocError>
        ensures { IfOk result (λ labels. labels.recording.value ≡ recording.now) }
    {
        let mut numbers = Vec::with_capacity(alloc, recording.channels() as usize)?;
        for position in 0..recording.channels() {
            numbers.push(recording.number(position))?;
        }
        Ok(Labels {
            numbers,
            cycles: if recording.lf() == 50 { 10 } else { 12 },
            recording: Snapshot::of(recording),
        })
    }

    // How many channels there are.
    pub(crate) fn channels(&self) -> usize
        ensures value { result ≡ length self.now.recording.value.numbers }
        ensures few { result ≤ 16 }
    {
        self.numbers.len()
    }

    // Adds a frequency reading.
    pub(crate) fn push_reading(&self, outbox: &mut Outbox, reading: Reading, flagged: bool)
        requires { 1 ≤ outbox.old.room }
        ensures { Adds 1 outbox.old outbox.new (frequency_item reading flagged ∷ []) }
    {
        outbox.push(Item::Frequency {
            tick: reading.tick,
            start: reading.start,
            end: reading.end,
            cycles: reading.cycles,
            microhertz: reading.microhertz,
            flagged,
        });
    }

    // Adds the events that there are, of the kinds in order.
    pub(crate) fn push_events(&self, outbox: &mut Outbox, events: &[Option<Event>; 3])
        requires { 3 ≤ outbox.old.room }
        ensures { Adds 3 outbox.old outbox.new (answered_items self.now.recording.value events.now) }
    {
        let [dip, swell, interruption] = events;
        self.push_event(outbox, dip);
        self.push_event(outbox, swell);
        self.push_event(outbox, interruption);
    }

    fn push_event(&self, outbox: &mut Outbox, event: &Option<Event>)
        requires { 1 ≤ outbox.old.room }
        ensures { Adds 1 outbox.old outbox.new
            (event_items self.now.recording.value (option_to_list event.now)) }
    {
        if let Some(event) = event {
            outbox.push(event_item(self.number(event.channel), event));
        }
    }

    // Adds a basic interval, and the intervals that it completes.
    pub(crate) fn push_completed(
        &self,
        outbox: &mut Outbox,
        span: Span,
        values: &[u64],
        flagged: bool,
        out: &Out,
    )
        requires values { length self.now.recording.value.numbers ≤ length values.now }
        requires room { 4 * length self.now.recording.value.numbers ≤ outbox.old.room }
        ensures { AddsCompleted self.now.recording.value span values.now flagged out.now
            outbox.old outbox.new }
    {
        self.push_basic(outbox, span, values, flagged);
        self.push_group(outbox, Length::Short, &out.short);
        self.push_group(outbox, Length::TenMinutes, &out.ten);
        self.push_group(outbox, Length::TwoHours, &out.two);
    }

    // Adds a basic interval, one item a channel.
    fn push_basic(&self, outbox: &mut Outbox, span: Span, values: &[u64], flagged: bool)
        requires values { length self.now.recording.value.numbers ≤ length values.now }
        requires room { length self.now.recording.value.numbers ≤ outbox.old.room }
        ensures { AddsPart self.now.recording.value (part_of span values.now flagged)
            outbox.old outbox.new }
    {
        for position in 0..self.numbers.len() {
            outbox.push(self.basic_item(span, values, flagged, position));
        }
    }

    // Adds an aggregated interval of a length, if there is one.
    fn push_group(&self, outbox: &mut Outbox, long: Length, group: &Option<Group>)
        requires { length self.now.recording.value.numbers ≤ outbox.old.room }
        ensures { AddsGroups long self.now.recording.value (option_to_list group.now)
            outbox.old outbox.new }
    {
        if let Some(group) = group {
            self.push_each(outbox, long, group);
        }
    }

    // Adds an aggregated interval of a length, one item a channel.
    fn push_each(&self, outbox: &mut Outbox, long: Length, group: &Group)
        requires { length self.now.recording.value.numbers ≤ outbox.old.room }
        ensures { AddsGroup long self.now.recording.value group.now outbox.old outbox.new }
    {
        for position in 0..self.numbers.len() {
            outbox.push(self.group_item(long, group, position));
        }
    }

    // A basic interval as the item of the channel at a position.
    fn basic_item(&self, span: Span, values: &[u64], flagged: bool, position: usize) -> Item
        requires position { position < length self.now.recording.value.numbers }
        requires values { length self.now.recording.value.numbers ≤ length values.now }
        ensures { result
            ≡ basic_item self.now.recording.value (part_of span values.now flagged) position }
    {
        Item::Basic {
            channel: self.numbers[position],
            start: span.start,
            end: span.end,
            cycles: self.cycles,
            value: values[position],
            flagged,
        }
    }

    // An aggregated interval of a length as that of the channel at a position.
    fn group_item(&self, long: Length, group: &Group, position: usize) -> Item
        requires { position < length self.now.recording.value.numbers }
        ensures { result ≡ group_item long self.now.recording.value group.now position }
    {
        let value = group.values.get(position).copied().unwrap_or(0);
        item_of_length(long, self.numbers[position], group, value)
    }

    // The number of the channel at a position, and 0 past the channels.
    fn number(&self, position: u32) -> u32
        ensures { result ≡ number_of self.now.recording.value position }
    {
        self.numbers.get(position as usize).copied().unwrap_or(0)
    }
}
