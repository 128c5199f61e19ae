// Merging: the next window, basic interval or reading, one after another.
ghost use Rattle.std.specs.Prelude.{◌≡◌, ◌+◌, ◌<◌, ◌≤◌, length, Some, IsSome, OnOk};
ghost use Rattle.interval_ledger.specs.Channel.{first_starts};
ghost use Rattle.interval_ledger.specs.Earliest.{DifferAt, IsFirstLeast};
ghost use Rattle.interval_ledger.specs.Merging.{HasMerged, HasPosted, IsDue, IsMerging, IsNext, IsWithinReach, KeepsMark, MayMergeUntil, MergesItems, MergesWindows, NoneBefore, TakesWindow, count_left, due_left, first_left};

use crate::channel::{Channel, SpanValue};
use crate::first_start::{earliest, first_starts};
use crate::known::Known;
use crate::next_due::{Due, next_due};
use crate::queue::Queue;
use crate::roots::roots;
use crate::segments::Segments;
use crate::steps::Steps;
use event_detect::Window;
use freq10s::Reading;
use std::alloc::AllocError;
use std::sync::ledger::Ledger;
use ten_twelve::Span;

/// What is posted, how much of it is merged, and what is known by that.
#[derive(Drop)]
pub(crate) struct Merging {
    pub(crate) samples: u64,
    pub(crate) channels: Vec<Channel>,
    pub(crate) readings: Queue<Reading>,
    pub(crate) basics_merged: usize,
    pub(crate) readings_merged: usize,
    pub(crate) segments: Segments,
    pub(crate) known: Known,
    pub(crate) mark: u64,
}

impl Merging {
    // Merges all that ends by a place within the reaches, and the windows that begin before it. A step for
    // each window and reading, and for each channel's value of a basic interval.
    pub(crate) fn merge_until<L: Ledger>(
        &mut self,
        w: u64,
        steps: &mut Steps<L>,
    ) -> Result<(), AllocError>
        requires posted { HasPosted self.old }
        requires at { IsMerging self.old }
        requires within { IsWithinReach self.old w }
        ensures at { IsMerging self.new }
        ensures same { KeepsMark self.old self.new }
        ensures ticks { MergesItems steps.old steps.new self.old self.new }
        ensures merged { OnOk result (HasMerged self.new w) }
    {
        while let Some(due) = self.due(w) {
            self.merge_due(due, steps)?;
        }
        self.merge_windows(w, steps)
    }

    // What is due next of basic intervals and readings, up to a place.
    fn due(&self, w: u64) -> Option<Due>
        requires posted { HasPosted self.now }
        requires within { IsWithinReach self.now w }
        ensures { IsDue self.now w result }
    {
        next_due(
            &self.channels,
            self.basics_merged,
            &self.readings,
            self.readings_merged,
            w,
        )
    }

    // Merges what is due next, and the windows that begin before its end first: its flag is known then.
    fn merge_due<L: Ledger>(&mut self, due: Due, steps: &mut Steps<L>) -> Result<(), AllocError>
        requires posted { HasPosted self.old }
        requires at { IsMerging self.old }
        requires next { IsNext self.old due }
        ensures at { IsMerging self.new }
        ensures same { KeepsMark self.old self.new }
        ensures ticks { MergesItems steps.old steps.new self.old self.new }
        ensures fewer { OnOk result (due_left self.new < due_left self.old) }
    {
        self.merge_windows(due.end(), steps)?;
        match due {
            Due::Basic(first) => self.merge_basic(first, steps),
            Due::Reading(reading) => self.merge_reading(reading, steps),
        }
    }

    // Merges the basic interval that is due next.
    fn merge_basic<L: Ledger>(
        &mut self,
        first: SpanValue,
        steps: &mut Steps<L>,
    ) -> Result<(), AllocError>
        requires posted { HasPosted self.old }
        requires at { IsMerging self.old }
        requires next { IsNext self.old (Due.Basic first) }
        requires none { NoneBefore self.old first.end }
        ensures at { IsMerging self.new }
        ensures same { KeepsMark self.old self.new }
        ensures ticks { MergesItems steps.old steps.new self.old self.new }
        ensures fewer { OnOk result (due_left self.new < due_left self.old) }
    {
        let span = Span {
            start: first.start,
            end: first.end,
        };
        let front = self.segments.begins(span.start);
        let flagged = self.known.touches(span.start);
        let values = roots(&self.channels, self.basics_merged);
        self.known
            .add_basic(span, front, &values[..self.channels.len()], flagged)?;
        self.segments.pass(span.start);
        self.basics_merged = next_index(self.basics_merged, self.channels[0].values());
        tick_each(steps, self.channels.len());
        Ok(())
    }

    // Merges the reading that is due next.
    fn merge_reading<L: Ledger>(
        &mut self,
        reading: Reading,
        steps: &mut Steps<L>,
    ) -> Result<(), AllocError>
        requires posted { HasPosted self.old }
        requires at { IsMerging self.old }
        requires next { IsNext self.old (Due.Reading reading) }
        requires none { NoneBefore self.old reading.end }
        ensures at { IsMerging self.new }
        ensures same { KeepsMark self.old self.new }
        ensures ticks { MergesItems steps.old steps.new self.old self.new }
        ensures fewer { OnOk result (due_left self.new < due_left self.old) }
    {
        self.known.add_reading(reading)?;
        self.readings_merged = next_index(self.readings_merged, self.readings.count());
        steps.tick();
        Ok(())
    }

    // Merges the windows that begin before a place. The starts stand side by side, and only that of the
    // channel whose window was merged is looked up again.
    fn merge_windows<L: Ledger>(
        &mut self,
        until: u64,
        steps: &mut Steps<L>,
    ) -> Result<(), AllocError>
        requires posted { HasPosted self.old }
        requires at { IsMerging self.old }
        requires until { MayMergeUntil self.old until }
        ensures at { IsMerging self.new }
        ensures same { MergesWindows self.old self.new }
        ensures ticks { MergesItems steps.old steps.new self.old self.new }
        ensures none { OnOk result (NoneBefore self.new until) }
    {
        let mut places = first_starts(&self.channels);
        let starts = &mut places[..self.channels.len()];
        while let Some(position) = earliest(starts, until) {
            self.merge_window(position, until, steps)?;
            starts[position] = self.channels[position].first_start();
        }
        Ok(())
    }

    // Merges the first window that is left of the channel at a position, which begins first, and before a
    // place.
    fn merge_window<L: Ledger>(
        &mut self,
        position: usize,
        until: u64,
        steps: &mut Steps<L>,
    ) -> Result<(), AllocError>
        requires posted { HasPosted self.old }
        requires at { IsMerging self.old }
        requires until { MayMergeUntil self.old until }
        requires first { IsFirstLeast (first_starts self.old.channels.items) until position }
        ensures at { IsMerging self.new }
        ensures same { MergesWindows self.old self.new }
        ensures ticks { MergesItems steps.old steps.new self.old self.new }
        ensures others { OnOk result (DifferAt position (first_starts self.old.channels.items)
            (first_starts self.new.channels.items)) }
        ensures fewer { OnOk result (count_left self.new < count_left self.old) }
    {
        let Some(window) = first_left(&self.channels, position) else {
            return Ok(());
        };
        self.known.add_window(position as u32, window)?;
        take_window(&mut self.channels, position);
        steps.tick();
        Ok(())
    }
}

// The first window that is left of the channel at a position, if there is one.
fn first_left(channels: &[Channel], position: usize) -> Option<Window>
    ensures { result ≡ first_left channels.now position }
{
    channels.get(position)?.first_window()
}

// Counts it as merged.
fn take_window(channels: &mut Vec<Channel>, position: usize)
    requires inside { position < length channels.old.items }
    requires there { IsSome (first_left channels.old.items position) }
    ensures { TakesWindow channels.old.items channels.new.items position }
{
    channels[position].take_window();
}

// The index after one of so many.
fn next_index(index: usize, count: usize) -> usize
    requires { index < count }
    ensures { result ≡ index + 1 }
{
    index + 1
}

// A step for each of so many items.
fn tick_each<L: Ledger>(steps: &mut Steps<L>, count: usize)
    ensures { steps.new ≡ steps.old + count }
{
    for _ in 0..count {
        steps.tick();
    }
}
