// The text of a whole report, into one buffer.
ghost use Rattle.std.specs.Prelude.{◌≡◌, ◌≤◌, All, IfOk, IfSome, OnOk, decimal};
ghost use Rattle.pq_items.specs.ItemRange.{IsItemInRange, IsTickInRange};
ghost use Rattle.pq_report.specs.ReportText.{Pushes, before_commas, item_row, item_rows, moment_fields, row_of};
ghost use Rattle.pq_report.specs.ReportText.{rows_text, span_fields, tick_text, value_fields};
ghost use Rattle.pq_time.specs.Time.{IsClock};

use crate::kind::ItemKind;
use crate::moments::{place_moment, tick_moment};
use itoa::Buffer;
use pq_base::{OutOfMemory, Text};
use pq_items::Item;
use pq_time::Clock;
use pq_words::MOST_SAMPLES;
use std::alloc::{AllocError, Global};

const HEADER: &[u8] = b"kind,channel,start,end,from,to,tick,value,count,mark\n";

/// The header, and a row for each item.
pub fn report(alloc: Global, clock: &Clock, items: &[Item]) -> Result<Text, OutOfMemory>
    requires clock { IsClock clock.now }
    requires within { All IsItemInRange items.now }
    ensures { IfOk result (λ text. text ≡ rows_text clock.now items.now) }
{
    let mut text = Vec::from_slice(alloc, HEADER)?;
    push_rows(&mut text, clock, items)?;
    Ok(Text::new(text))
}

/// Appends the rows of items to a text. Where there is no memory, a part of them may have been appended.
pub fn push_rows(text: &mut Vec<u8>, clock: &Clock, items: &[Item]) -> Result<(), AllocError>
    requires clock { IsClock clock.now }
    requires within { All IsItemInRange items.now }
    ensures { Pushes result text.old text.new (item_rows clock.now items.now) }
{
    for item in items {
        push_row(text, clock, item)?;
    }
    Ok(())
}

// Appends the row of an item.
fn push_row(text: &mut Vec<u8>, clock: &Clock, item: &Item) -> Result<(), AllocError>
    requires clock { IsClock clock.now }
    requires within { IsItemInRange item.now }
    ensures { Pushes result text.old text.new (item_row clock.now item.now) }
{
    let kind = ItemKind::of(item);
    push_span(text, kind.word(), item.channel(), item.start(), item.end())?;
    push_moments(text, clock, item.start(), item.end(), item.tick())?;
    push_value(
        text,
        item.value(),
        item.count(),
        kind.mark_word(item.has_mark()),
    )?;
    Ok(())
}

// Appends kind, channel, start and end.
fn push_span(
    text: &mut Vec<u8>,
    kind: &str,
    channel: u32,
    start: u64,
    end: u64,
) -> Result<(), AllocError>
    ensures { Pushes result text.old text.new (before_commas (span_fields kind.now channel start end)) }
{
    text.extend_from_slice(kind.as_bytes())?;
    text.extend_from_slice(b",")?;
    push_number(text, u64::from(channel))?;
    text.extend_from_slice(b",")?;
    push_number(text, start)?;
    text.extend_from_slice(b",")?;
    push_number(text, end)?;
    text.extend_from_slice(b",")?;
    Ok(())
}

// Appends from, to and tick.
fn push_moments(
    text: &mut Vec<u8>,
    clock: &Clock,
    start: u64,
    end: u64,
    tick: Option<i64>,
) -> Result<(), AllocError>
    requires clock { IsClock clock.now }
    requires start { start ≤ MOST_SAMPLES }
    requires end { end ≤ MOST_SAMPLES }
    requires tick { IfSome tick IsTickInRange }
    ensures { Pushes result text.old text.new (before_commas (moment_fields clock.now start end tick)) }
{
    text.extend_from_slice(&place_moment(clock, start))?;
    text.extend_from_slice(b",")?;
    text.extend_from_slice(&place_moment(clock, end))?;
    text.extend_from_slice(b",")?;
    push_tick(text, tick)?;
    text.extend_from_slice(b",")?;
    Ok(())
}

// Appends value, count and mark, and the line end.
fn push_value(text: &mut Vec<u8>, value: u64, count: u64, mark: &str) -> Result<(), AllocError>
    ensures { Pushes result text.old text.new (row_of (value_fields value count mark.now)) }
{
    push_number(text, value)?;
    text.extend_from_slice(b",")?;
    push_number(text, count)?;
    text.extend_from_slice(b",")?;
    text.extend_from_slice(mark.as_bytes())?;
    text.extend_from_slice(b"\n")?;
    Ok(())
}

// Appends the moment of a tick, a UTC second, where there is one.
fn push_tick(text: &mut Vec<u8>, tick: Option<i64>) -> Result<(), AllocError>
    requires { IfSome tick IsTickInRange }
    ensures { Pushes result text.old text.new (tick_text tick) }
{
    if let Some(second) = tick {
        text.extend_from_slice(&tick_moment(second))?;
    }
    Ok(())
}

// Appends the decimal text of a number.
pub(crate) fn push_number(text: &mut Vec<u8>, number: u64) -> Result<(), AllocError>
    ensures { Pushes result text.old text.new (decimal number) }
{
    let mut buffer = Buffer::new();
    text.extend_from_slice(buffer.format(number).as_bytes())?;
    Ok(())
}
