// The item of a row, by its ten fields.
ghost use Rattle.std.specs.Prelude.{◌≡◌, ◌≤◌, ℕ, true, false, ℤ, Option, Some, IfSome};
ghost use Rattle.pq_report.specs.ReportReading.{field_list, fields_read, has_ticks, is_channel_of};
ghost use Rattle.pq_report.specs.ReportReading.{is_count_of, is_place, item_behind, item_with, number_read};
ghost use Rattle.pq_report.specs.ReportReading.{passing, span_of, tick_read};
ghost use Rattle.pq_report.specs.ReportText.{is_event};
ghost use Rattle.pq_time.specs.Time.{IsClock};

use crate::cutting::RowFields;
use crate::kind::ItemKind;
use crate::moments::place_moment;
use crate::values::{read_number, read_second};
use pq_items::Item;
use pq_time::Clock;
use pq_words::MOST_SAMPLES;

// What the first six fields say.
#[derive(Clone, Copy)]
pub(crate) struct RowSpan {
    pub(crate) kind: ItemKind,
    pub(crate) channel: u32,
    pub(crate) start: u64,
    pub(crate) end: u64,
}

// The item, or the number of the first field at fault.
#[tactic(auto, unfolding(crate::specs::ReportReading::fields_read))]
pub(crate) fn read_item(clock: &Clock, fields: &RowFields) -> Result<Item, u32>
    requires clock { IsClock clock.now }
    ensures { result ≡ fields_read clock.now (field_list fields.now) }
{
    let span = read_span(clock, fields)?;
    item_of_span(&span, fields)
}

// What the first six fields say.
#[tactic(auto, unfolding(crate::specs::ReportReading::span_read))]
fn read_span(clock: &Clock, fields: &RowFields) -> Result<RowSpan, u32>
    requires clock { IsClock clock.now }
    ensures { result ≡ span_of clock.now fields.now }
{
    let kind = ItemKind::read(fields.kind).ok_or(1_u32)?;
    let channel = read_channel(kind, fields.channel).ok_or(2_u32)?;
    let start = read_place(fields.start).ok_or(3_u32)?;
    let end = read_place(fields.end).ok_or(4_u32)?;
    if fields.from != place_moment(clock, start).as_slice() {
        return Err(5);
    }
    if fields.to != place_moment(clock, end).as_slice() {
        return Err(6);
    }
    Ok(RowSpan {
        kind,
        channel,
        start,
        end,
    })
}

// The item, by what the first six fields say and by the last four.
#[tactic(auto, unfolding(crate::specs::ReportReading::item_read))]
fn item_of_span(span: &RowSpan, fields: &RowFields) -> Result<Item, u32>
    ensures { result ≡ item_behind span.now fields.now }
{
    let tick = read_tick(span.kind, fields.tick).ok_or(7_u32)?;
    let value = read_number(fields.value).ok_or(8_u32)?;
    let count = read_count(span.kind, fields.count).ok_or(9_u32)?;
    let mark = span.kind.read_mark(fields.mark).ok_or(10_u32)?;
    Ok(item_with(*span, tick, value, count, mark))
}

// The number of a channel that an item of the kind can have.
fn read_channel(kind: ItemKind, field: &[u8]) -> Option<u32>
    ensures { result ≡ passing (is_channel_of kind) (number_read field.now) }
{
    match read_number(field) {
        Some(number) if kind.has_channel(number) => Some(number as u32),
        _ => None,
    }
}

// A place of a recording.
fn read_place(field: &[u8]) -> Option<u64>
    ensures value { result ≡ passing is_place (number_read field.now) }
    ensures within { IfSome result (λ place. place ≤ MOST_SAMPLES) }
{
    match read_number(field) {
        Some(place) if place <= MOST_SAMPLES => Some(place),
        _ => None,
    }
}

// A count that an item of the kind can have.
fn read_count(kind: ItemKind, field: &[u8]) -> Option<u64>
    ensures { result ≡ passing (is_count_of kind) (number_read field.now) }
{
    match read_number(field) {
        Some(count) if kind.has_count(count) => Some(count),
        _ => None,
    }
}

// The tick of an item of the kind; nothing where the kind has none.
fn read_tick(kind: ItemKind, field: &[u8]) -> Option<Option<i64>>
    ensures { result ≡ tick_read kind field.now }
{
    if kind.has_ticks() {
        return match read_second(field) {
            Some(second) => Some(Some(second)),
            None => None,
        };
    }
    if field.is_empty() { Some(None) } else { None }
}

// The item of these values.
fn item_with(span: RowSpan, tick: Option<i64>, value: u64, count: u64, mark: bool) -> Item
    ensures { result ≡ item_with span tick value count mark }
{
    if span.kind.is_event() {
        return event_with(span, value, mark);
    }
    record_with(span, tick.unwrap_or(0), value, count, mark)
}

// The record of these values.
fn record_with(span: RowSpan, tick: i64, value: u64, count: u64, flagged: bool) -> Item
    requires { is_event span.kind ≡ false }
    ensures { result ≡ item_with span (Some tick) value count flagged }
{
    if span.kind.has_ticks() {
        return tick_record_with(span, tick, value, count, flagged);
    }
    let RowSpan {
        kind,
        channel,
        start,
        end,
    } = span;
    match kind {
        ItemKind::Basic => Item::Basic {
            channel,
            start,
            end,
            cycles: count,
            value,
            flagged,
        },
        _ => Item::Short {
            channel,
            start,
            end,
            value,
            flagged,
        },
    }
}

// The record of a kind that begins at ticks.
fn tick_record_with(span: RowSpan, tick: i64, value: u64, count: u64, flagged: bool) -> Item
    requires { has_ticks span.kind ≡ true }
    ensures { result ≡ item_with span (Some tick) value count flagged }
{
    let RowSpan {
        kind,
        channel,
        start,
        end,
    } = span;
    match kind {
        ItemKind::Frequency => Item::Frequency {
            tick,
            start,
            end,
            cycles: count,
            microhertz: value,
            flagged,
        },
        ItemKind::Ten => Item::Ten {
            channel,
            tick,
            start,
            end,
            basics: count,
            value,
            flagged,
        },
        _ => Item::TwoHour {
            channel,
            tick,
            start,
            end,
            value,
            flagged,
        },
    }
}

// The event of these values.
fn event_with(span: RowSpan, value: u64, is_open: bool) -> Item
    requires { is_event span.kind ≡ true }
    ensures { (tick : Option ℤ) (count : ℕ) → result ≡ item_with span tick value count is_open }
{
    let RowSpan {
        kind,
        channel,
        start,
        end,
    } = span;
    match kind {
        ItemKind::Dip => Item::Dip {
            channel,
            start,
            end,
            value,
            is_open,
        },
        ItemKind::Swell => Item::Swell {
            channel,
            start,
            end,
            value,
            is_open,
        },
        _ => Item::Interruption {
            channel,
            start,
            end,
            value,
            is_open,
        },
    }
}
