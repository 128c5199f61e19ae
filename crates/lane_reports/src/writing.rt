// The rows of a report, those of several items at a time, to a sink.
ghost use Rattle.std.specs.Prelude.{All};
ghost use Rattle.lane_reports.specs.PrintedReport.{HandsOver};
ghost use Rattle.pq_course.specs.TopCall.{writing_of};
ghost use Rattle.pq_items.specs.ItemRange.{IsItemInRange};
ghost use Rattle.pq_report.specs.ReportText.{header, item_rows};
ghost use Rattle.pq_time.specs.Time.{IsClock};

use lane_workers::PrintFault;
use pq_base::{Failed, OutOfMemory, Sink, write_all};
use pq_items::Item;
use pq_report::{header, push_rows};
use pq_time::Clock;
use std::alloc::{AllocError, Global};

// Writes the header row.
pub(crate) fn write_header<O: Sink>(alloc: Global, out: &mut O) -> Result<(), PrintFault>
    ensures { HandsOver header (writing_of O.Sink out.old out.new) result }
{
    match header(alloc) {
        Ok(text) => write_bytes(text.bytes(), out),
        Err(OutOfMemory) => Err(PrintFault::OutOfMemory),
    }
}

// Writes the rows of items, all at once. The buffer, which holds them for that time, may have anything
// before.
pub(crate) fn write_rows<O: Sink>(
    buffer: &mut Vec<u8>,
    clock: &Clock,
    items: &[Item],
    out: &mut O,
) -> Result<(), PrintFault>
    requires clock { IsClock clock.now }
    requires within { All IsItemInRange items.now }
    ensures { HandsOver (item_rows clock.now items.now) (writing_of O.Sink out.old out.new) result }
{
    buffer.clear();
    match push_rows(buffer, clock, items) {
        Ok(()) => write_bytes(buffer.as_slice(), out),
        Err(AllocError) => Err(PrintFault::OutOfMemory),
    }
}

// Writes bytes. Where a write fails, no other is made.
fn write_bytes<O: Sink>(bytes: &[u8], out: &mut O) -> Result<(), PrintFault>
    ensures { HandsOver bytes.now (writing_of O.Sink out.old out.new) result }
{
    match write_all(out, bytes) {
        Ok(()) => Ok(()),
        Err(Failed) => Err(PrintFault::Failed),
    }
}
