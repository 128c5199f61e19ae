// The report of a recording, printed while its lanes measure.
ghost use Rattle.std.specs.Prelude.{◌≡◌};
ghost use Rattle.std.specs.Io.KnownBytes.{Appends};
ghost use Rattle.event_detect.specs.Threshold.{IsInOrder};
ghost use Rattle.lane_reports.specs.PrintedReport.{IsReportPrinted, Prints, since};
ghost use Rattle.lane_workers.specs.Running.{IsAlone, recording_of};
ghost use Rattle.pq_course.specs.TopCall.{writing_of};
ghost use Rattle.pq_report.specs.ReportText.{header};
ghost use Rattle.pq_base.specs.Recorded.{IsRecording};
ghost use Rattle.query_session.specs.Chain.{AreReady};
ghost use Rattle.query_session.specs.Session.{IsIdle, IsSessionOf};

use crate::opening::open_chain;
use crate::sink_printer::{SinkPrinter, Start};
use crate::writing::write_header;
use event_detect::Limits;
use lane_workers::{Gate, PrintFault, Printer, Ran, run_lanes};
use pq_base::{Recording, Sink};
use pq_sequence::clock_of;
use query_session::{Chain, LaneSeat, Session};
use status_text::Status;
use std::alloc::Global;
use std::marker::{Brand, PhantomData};
use std::sync::Wait;
use std::thread::Threads;

/// Prints the report of a recording: the header, and then the row of each item, as a session of a chain is
/// given it while a worker a lane measures. It may wait.
pub fn lane_report<R: Threads + Wait + Sync, O: Sink, G: Gate + Sync>(
    rt: &R,
    alloc: Global,
    recording: &Recording,
    limits: &Limits,
    out: &mut O,
    gate: &G,
) -> Status
    requires { IsInOrder limits.now }
    ensures { IsReportPrinted recording.now limits.now (writing_of O.Sink out.old out.new) result }
{
    report_from::<R, O, G, Brand>(rt, alloc, recording, limits, out, gate)
}

// Prints the report to a sink that has taken the start's bytes.
fn report_from<R: Threads + Wait + Sync, O: Sink, G: Gate + Sync, B: Start>(
    rt: &R,
    alloc: Global,
    recording: &Recording,
    limits: &Limits,
    out: &mut O,
    gate: &G,
) -> Status
    requires order { IsInOrder limits.now }
    requires before { O.taken out.old ≡ B.before }
    ensures { IsReportPrinted recording.now limits.now (writing_of O.Sink out.old out.new) result }
{
    match write_header(alloc, out) {
        Ok(()) => print_rows::<R, O, G, B>(rt, alloc, recording, limits, out, gate),
        Err(PrintFault::Failed) => Status::WriteFault {
            faults: out.faults(),
        },
        Err(PrintFault::OutOfMemory) => Status::OutOfMemory,
    }
}

// Prints the rows to a sink that has taken the header since the start.
fn print_rows<R: Threads + Wait + Sync, O: Sink, G: Gate + Sync, B: Start>(
    rt: &R,
    alloc: Global,
    recording: &Recording,
    limits: &Limits,
    out: &mut O,
    gate: &G,
) -> Status
    requires order { IsInOrder limits.now }
    requires header { Appends B.before (O.taken out.old) header }
    ensures { IsReportPrinted recording.now limits.now
        (since B.before (writing_of O.Sink out.old out.new)) result }
{
    let Ok((chain, seats, mut session)) = open_chain(alloc, recording, limits) else {
        return Status::OutOfMemory;
    };
    let mut rows = Vec::new(alloc);
    let mut printer: SinkPrinter<'_, '_, O, B> = SinkPrinter {
        clock: clock_of(recording),
        rows: &mut rows,
        out,
        start: PhantomData,
    };
    match run_printing(rt, alloc, &chain, seats, &mut session, gate, &mut printer) {
        Ran::All => Status::Done,
        Ran::Failed => Status::WriteFault {
            faults: printer.faults(),
        },
        Ran::OutOfMemory => Status::OutOfMemory,
    }
}

// Runs the lanes, and prints the row of each item.
fn run_printing<R: Threads + Wait + Sync, O: Sink, G: Gate + Sync, B: Start>(
    rt: &R,
    alloc: Global,
    chain: &Chain,
    seats: Vec<LaneSeat<'_>>,
    session: &mut Session,
    gate: &G,
    printer: &mut SinkPrinter<'_, '_, O, B>,
) -> Ran
    requires seats { AreReady chain.now seats.items }
    requires mine { IsSessionOf chain.now session.old }
    requires idle { IsIdle session.old }
    requires alone { IsAlone session.old }
    requires recording { IsRecording (recording_of session.old) }
    requires cursor { session.old.cursor ≡ 0 }
    requires header { Appends B.before (O.taken printer.old.out.now) header }
    ensures borrow { printer.new.out.ghost_name ≡ printer.old.out.ghost_name }
    ensures printed { Prints O.Sink B.before printer.old.clock session.old
        printer.old.out.now printer.new.out.now result }
{
    run_lanes(rt, alloc, chain, seats, session, gate, printer)
}
