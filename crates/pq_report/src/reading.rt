// The items that a text reports.
ghost use Rattle.std.specs.Prelude.{◌≡◌, ◌≤◌, All, IfOk, length, map};
ghost use Rattle.pq_items.specs.ItemRange.{IsItemInRange};
ghost use Rattle.pq_report.specs.ReportReading.{GivesItems, fields_read, header_read, in_row, names_read};
ghost use Rattle.pq_report.specs.ReportReading.{report_read, rows_read};
ghost use Rattle.pq_time.specs.Time.{IsClock};
ghost use Rattle.pq_words.specs.Text.{parted_at};

use crate::ReportFault;
use crate::cutting::{RowFields, cut, ten_fields};
use crate::row_items::read_item;
use crate::rows::field_names;
use pq_items::Item;
use pq_time::Clock;
use std::alloc::Global;

/// The items that a text reports: its header and the rows of items in range, as `report` writes them with
/// this clock.
///
/// # Errors
///
/// [`ReportFault::Field`] with the first field that isn't the text of the table for the values before it;
/// [`ReportFault::OutOfMemory`].
#[tactic(auto, unfolding(crate::specs::ReportReading::parts_read))]
pub fn read_report(alloc: Global, clock: &Clock, bytes: &[u8]) -> Result<Vec<Item>, ReportFault>
    requires clock { IsClock clock.now }
    ensures value { GivesItems result (report_read clock.now bytes.now) }
    ensures within { IfOk result (λ items. All IsItemInRange items.items) }
{
    let Some((header, rows)) = cut(bytes, b'\n') else {
        return Err(ReportFault::Field { row: 1, field: 0 });
    };
    in_row(1, read_header(header))?;
    read_rows(alloc, clock, rows)
}

// The items of rows, the first of which is row 2 of its report.
fn read_rows(alloc: Global, clock: &Clock, bytes: &[u8]) -> Result<Vec<Item>, ReportFault>
    requires clock { IsClock clock.now }
    ensures { GivesItems result (rows_read clock.now 2 (parted_at 10 bytes.now)) }
{
    let mut items = Vec::new(alloc);
    let mut row = 2;
    let mut rest = bytes;
    while let Some((line, after)) = cut(rest, b'\n') {
        items.push(in_row(row, read_row(clock, line))?)?;
        row += 1;
        rest = after;
    }
    if !rest.is_empty() {
        return Err(ReportFault::Field { row, field: 0 });
    }
    Ok(items)
}

// Reads the header.
#[tactic(auto, unfolding(crate::specs::ReportReading::header_read))]
fn read_header(line: &[u8]) -> Result<(), u32>
    ensures { result ≡ header_read (parted_at 44 line.now) }
{
    let Some(fields) = ten_fields(line) else {
        return Err(0);
    };
    let RowFields {
        kind,
        channel,
        start,
        end,
        from,
        to,
        tick,
        value,
        count,
        mark,
    } = fields;
    first_difference(
        &field_names(),
        &[
            kind, channel, start, end, from, to, tick, value, count, mark,
        ],
    )
}

// The number of the first field that isn't its name.
fn first_difference(names: &[&[u8]], fields: &[&[u8]]) -> Result<(), u32>
    requires count { length names.now ≤ 10 }
    requires both { length names.now ≡ length fields.now }
    ensures { result ≡ names_read 1 (map (λ f. f.now) names.now) (map (λ f. f.now) fields.now) }
{
    for index in 0..names.len() {
        if fields[index] != names[index] {
            return Err(index as u32 + 1);
        }
    }
    Ok(())
}

// Reads the row of an item.
fn read_row(clock: &Clock, line: &[u8]) -> Result<Item, u32>
    requires clock { IsClock clock.now }
    ensures { result ≡ fields_read clock.now (parted_at 44 line.now) }
{
    match ten_fields(line) {
        Some(fields) => read_item(clock, &fields),
        None => Err(0),
    }
}

// The fault of a field, with the number of its row.
fn in_row<T>(row: u64, outcome: Result<T, u32>) -> Result<T, ReportFault>
    ensures { result ≡ in_row row outcome }
{
    match outcome {
        Ok(value) => Ok(value),
        Err(field) => Err(ReportFault::Field { row, field }),
    }
}
