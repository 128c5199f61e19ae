// The run of the program: its words, its top call, its exit code, and the line that it tells.
ghost use Rattle.std.specs.Prelude.{◌≡◌, IfErr};
ghost use Rattle.pq_run.specs.Commands.{is_for_analyse};
ghost use Rattle.pq_run.specs.Program.{IsRun, run_of};
ghost use Rattle.status_text.specs.Refusals.{IsWordsRefusal};
ghost use Rattle.command_words.specs.Commands.{words_view};

use crate::streams::Streams;
use crate::top_call::{analyse, still};
use lane_workers::Gate;
use pq_base::{Shelf, Sink};
use pq_course::tell;
use status_text::Status;
use std::alloc::Global;
use std::env;
use std::rt::Env;
use std::sync::Wait;
use std::thread::Threads;

/// The words after the program's name, or the status of words that can't be had.
pub fn words_of<R: Env + AllocGlobal>(rt: &R) -> Result<Vec<String>, Status>
    ensures { IfErr result IsWordsRefusal }
{
    let mut words = Vec::new(rt.alloc());
    for word in env::args(rt)?.skip(1) {
        words.push(word)?;
    }
    Ok(words)
}

/// Runs the words by the top call that the first of them names, and tells the sentence of a status that isn't
/// Done, with a line end. The exit code. It may wait.
pub fn run<R: Threads + Wait + Sync, K: Shelf, O: Sink, E: Sink, G: Gate + Sync>(
    rt: &R,
    alloc: Global,
    words: &[String],
    shelf: &mut K,
    streams: &mut Streams<O, E>,
    gate: &G,
) -> u8
    ensures { IsRun words.now
        (run_of K.Shelf O.Sink E.Sink shelf.old shelf.new streams.old streams.new) result }
{
    let status = if is_for_analyse(words) {
        analyse(rt, alloc, words, shelf, &mut streams.out, gate)
    } else {
        still(alloc, words, shelf, &mut streams.out)
    };
    tell(&status, &mut streams.err);
    status.code()
}

// The first word names a command of `analyse`.
fn is_for_analyse(words: &[String]) -> bool
    ensures { result ≡ is_for_analyse (words_view words.now) }
{
    match words.first() {
        Some(word) => word.as_str() == "analyse" || word.as_str() == "generate",
        None => false,
    }
}
