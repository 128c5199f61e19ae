// A measurement: the report of a recording.
ghost use Rattle.std.specs.Prelude.{IfErr, IfOk, Ok};
ghost use Rattle.event_detect.specs.Threshold.{IsInOrder, IsInRange};
ghost use Rattle.pq_course.specs.TopCall.{call_of, reading_of};
ghost use Rattle.pq_run.specs.Measuring.{IsReportCall, IsReportRead, report_read, report_text};
ghost use Rattle.pq_run.specs.RecordingFiles.{Gives};
ghost use Rattle.status_text.specs.Refusals.{IsRefusing};

use crate::recording_files::read_recording;
use crate::settings::limits_of;
use command_words::Measuring;
use comtrade_dat::{OneThread, SideBySide, Taking};
use event_detect::Limits;
use lane_reports::lane_report;
use lane_workers::Gate;
use pq_base::{Recording, Shelf, Sink, Text};
use pq_report::report;
use pq_sequence::{clock_of, sequence};
use status_text::Status;
use std::alloc::Global;
use std::sync::Wait;
use std::thread::Threads;

/// Prints the report of a recording under settings, each row as its item is given while a worker a lane
/// measures. The channels of the dat are decoded side by side. It may wait.
pub fn print_report<R: Threads + Wait + Sync, K: Shelf, O: Sink, G: Gate + Sync>(
    rt: &R,
    alloc: Global,
    measuring: &Measuring<'_>,
    shelf: &mut K,
    out: &mut O,
    gate: &G,
) -> Status
    requires { IsInRange measuring.now.settings }
    ensures { IsReportCall measuring.now
        (call_of K.Shelf O.Sink shelf.old shelf.new out.old out.new) result }
{
    match read_measurement(alloc, &SideBySide { rt }, measuring, shelf) {
        Ok((limits, recording)) => lane_report(rt, alloc, &recording, &limits, out, gate),
        Err(status) => status,
    }
}

/// The report of a recording under settings.
pub fn measured_report<K: Shelf>(
    alloc: Global,
    measuring: &Measuring<'_>,
    shelf: &mut K,
) -> Result<Text, Status>
    requires { IsInRange measuring.now.settings }
    ensures { IsReportRead measuring.now (reading_of K.Shelf shelf.old shelf.new) result }
{
    match read_measurement(alloc, &OneThread, measuring, shelf) {
        Ok((limits, recording)) => recording_report(alloc, &recording, &limits),
        Err(status) => Err(status),
    }
}

// The limits of settings, which are judged before any file is asked for, and the recording of the files.
fn read_measurement<T: Taking, K: Shelf>(
    alloc: Global,
    taking: &T,
    measuring: &Measuring<'_>,
    shelf: &mut K,
) -> Result<(Limits, Recording), Status>
    requires ready { T.is_ready taking.now }
    requires settings { IsInRange measuring.now.settings }
    ensures read { IsReportRead measuring.now (reading_of K.Shelf shelf.old shelf.new)
        (report_read result) }
    ensures order { IfOk result (λ m. IsInOrder m.0) }
{
    let limits = limits_of(&measuring.settings)?;
    let recording = read_recording(alloc, taking, measuring, shelf)?;
    Ok((limits, recording))
}

// The report of a recording under limits. Its only error is want of memory.
fn recording_report(alloc: Global, recording: &Recording, limits: &Limits) -> Result<Text, Status>
    requires { IsInOrder limits.now }
    ensures value { Gives result (Ok (report_text recording.now limits.now)) }
    ensures refuses { IfErr result IsRefusing }
{
    let items = sequence(alloc, recording, limits)?;
    let text = report(alloc, &clock_of(recording), &items)?;
    Ok(text)
}
