// The header and the row of an item, written as comma-separated values.
ghost use Rattle.std.specs.Prelude.{◌≡◌, IfOk, IfSome, map};
ghost use Rattle.csv.specs.Writing.{default_writer, row_text};
ghost use Rattle.pq_items.specs.ItemRange.{IsItemInRange, IsTickInRange};
ghost use Rattle.pq_report.specs.ReportText.{csv_row, header, header_fields, item_row, tick_text};
ghost use Rattle.pq_time.specs.Time.{IsClock};

use crate::kind::ItemKind;
use crate::moments::{place_moment, tick_moment};
use csv::{Error, WriterBuilder};
use itoa::Buffer;
use pq_base::{OutOfMemory, Text};
use pq_items::Item;
use pq_time::Clock;
use std::alloc::Global;

/// The header row of a report.
pub fn header(alloc: Global) -> Result<Text, OutOfMemory>
    ensures { IfOk result (λ text. text ≡ header) }
{
    text_of(alloc, &field_names())
}

/// The row of an item.
pub fn row(alloc: Global, clock: &Clock, item: &Item) -> Result<Text, OutOfMemory>
    requires clock { IsClock clock.now }
    requires within { IsItemInRange item.now }
    ensures { IfOk result (λ text. text ≡ item_row clock.now item.now) }
{
    let kind = ItemKind::of(item);
    let mut channel = Buffer::new();
    let mut start = Buffer::new();
    let mut end = Buffer::new();
    let mut value = Buffer::new();
    let mut count = Buffer::new();
    let from = place_moment(clock, item.start());
    let to = place_moment(clock, item.end());
    let mut tick = [0; 30];
    let fields: [&[u8]; 10] = [
        kind.word().as_bytes(),
        channel.format(item.channel()).as_bytes(),
        start.format(item.start()).as_bytes(),
        end.format(item.end()).as_bytes(),
        &from,
        &to,
        tick_field(&mut tick, item.tick()),
        value.format(item.value()).as_bytes(),
        count.format(item.count()).as_bytes(),
        kind.mark_word(item.has_mark()).as_bytes(),
    ];
    text_of(alloc, &fields)
}

// The names of the fields.
pub(crate) fn field_names() -> [&'static [u8]; 10]
    ensures { map (λ f. f.now) result ≡ header_fields }
{
    [
        b"kind", b"channel", b"start", b"end", b"from", b"to", b"tick", b"value", b"count", b"mark",
    ]
}

// The moment of a tick, a UTC second; empty where there is none.
fn tick_field(room: &mut [u8; 30], tick: Option<i64>) -> &[u8]
    requires { IfSome tick IsTickInRange }
    ensures { result.now ≡ tick_text tick }
{
    match tick {
        Some(second) => {
            *room = tick_moment(second);
            room
        }
        None => &[],
    }
}

// The text of one row.
#[tactic(auto, unfolding(crate::specs::ReportText::csv_row))]
fn text_of(alloc: Global, fields: &[&[u8]]) -> Result<Text, OutOfMemory>
    ensures { IfOk result (λ text. text ≡ csv_row (map (λ f. f.now) fields.now)) }
{
    match row_bytes(alloc, fields) {
        Ok(bytes) => Ok(Text::new(bytes)),
        Err(_) => Err(OutOfMemory),
    }
}

fn row_bytes(alloc: Global, fields: &[&[u8]]) -> Result<Vec<u8>, Error>
    ensures { IfOk result (λ v. v.items ≡ row_text default_writer (map (λ f. f.now) fields.now)) }
{
    let mut writer = WriterBuilder::new().from_writer(Vec::new(alloc));
    writer.write_fields(fields)?;
    match writer.into_inner() {
        Ok(bytes) => Ok(bytes),
        Err(error) => Err(error.into_error()),
    }
}
