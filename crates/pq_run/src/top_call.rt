// The top calls: each has commands of its own, and reads and writes in the same way.
ghost use Rattle.pq_course.specs.Parts.{IsRead};
ghost use Rattle.pq_course.specs.TopCall.{call_of, reading_of};
ghost use Rattle.pq_run.specs.Commands.{IsAnalyseCall, IsStillCall, still_course};

use crate::check::check;
use crate::emitting::emitted_text;
use crate::generating::print_summary;
use crate::measuring::{measured_report, print_report};
use crate::replaying::schedule_replay;
use command_words::{Command, WordsFault, read_words};
use lane_workers::Gate;
use pq_base::{Shelf, Sink, Text};
use pq_course::write_text;
use status_text::Status;
use std::alloc::Global;
use std::sync::Wait;
use std::thread::Threads;

/// Runs the command `analyse` or `generate` that the words say. It may wait.
///
/// For every recording and every interleaving of workers and queries, an analysis that finishes, which
/// answers Done to the command `analyse`, has written exactly the items of the sequential result on the
/// sample bytes, flags included, one after another, none changed or repeated: the header, and a row for each
/// item as a session is given it.
///
/// `explained`: Done only where the verdict on the words and the told files is a job, and its text was taken;
/// a refusal only where it is the verdict, and nothing was taken; a fault of the shelf or the sink only where
/// its count rose in this call; and on every answer which names were asked. `complete`: where no count rose,
/// the status is the verdict's, or want of memory. `once`: a fault is the one call that failed.
pub fn analyse<R: Threads + Wait + Sync, K: Shelf, O: Sink, G: Gate + Sync>(
    rt: &R,
    alloc: Global,
    words: &[String],
    shelf: &mut K,
    out: &mut O,
    gate: &G,
) -> Status
    ensures { IsAnalyseCall words.now
        (call_of K.Shelf O.Sink shelf.old shelf.new out.old out.new) result }
{
    match read_words(alloc, words) {
        Ok(Command::Analyse(measuring)) => print_report(rt, alloc, &measuring, shelf, out, gate),
        Ok(Command::Generate { seed }) => print_summary(rt, alloc, seed, out, gate),
        Ok(Command::Check { .. }) => Status::Usage,
        Ok(Command::Intervals(_)) => Status::Usage,
        Ok(Command::Replay { .. }) => Status::Usage,
        Ok(Command::Emit { .. }) => Status::Usage,
        Err(WordsFault::NotUnderstood) => Status::Usage,
        Err(WordsFault::OutOfMemory) => Status::OutOfMemory,
    }
}

/// Runs the command `check`, `intervals`, `replay` or `emit` that the words say. It always returns, and
/// promises what `analyse` does.
pub fn still<K: Shelf, O: Sink>(
    alloc: Global,
    words: &[String],
    shelf: &mut K,
    out: &mut O,
) -> Status
    ensures { IsStillCall words.now
        (call_of K.Shelf O.Sink shelf.old shelf.new out.old out.new) result }
{
    match still_text(alloc, words, shelf) {
        Ok(text) => write_text(text.bytes(), out),
        Err(status) => status,
    }
}

// The text of the job of a command of `still`.
fn still_text<K: Shelf>(alloc: Global, words: &[String], shelf: &mut K) -> Result<Text, Status>
    ensures { IsRead (still_course words.now) (reading_of K.Shelf shelf.old shelf.new) result }
{
    match read_words(alloc, words) {
        Ok(Command::Check { cfg }) => check(alloc, cfg, shelf),
        Ok(Command::Intervals(measuring)) => measured_report(alloc, &measuring, shelf),
        Ok(
            Command::Replay {
                measuring,
                schedule,
            },
        ) => schedule_replay(alloc, &measuring, schedule, shelf),
        Ok(Command::Emit { part, seed }) => emitted_text(alloc, part, seed),
        Ok(Command::Analyse(_)) => Err(Status::Usage),
        Ok(Command::Generate { .. }) => Err(Status::Usage),
        Err(WordsFault::NotUnderstood) => Err(Status::Usage),
        Err(WordsFault::OutOfMemory) => Err(Status::OutOfMemory),
    }
}
