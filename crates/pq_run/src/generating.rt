// The command `generate`: the summary of a generated recording.
ghost use Rattle.std.specs.Prelude.{IfErr, Ok};
ghost use Rattle.lane_reports.specs.PrintedReport.{IsPrinted};
ghost use Rattle.pq_course.specs.TopCall.{writing_of};
ghost use Rattle.pq_run.specs.Generating.{generated_summary};
ghost use Rattle.pq_words.specs.FirstFault.{GivesUnless};
ghost use Rattle.status_text.specs.Refusals.{IsRefusing};
ghost use Rattle.status_text.specs.declared.status.Status.TheVariants as status;

use crate::settings::limits_of;
use command_words::usual_settings;
use lane_reports::lane_items;
use lane_workers::Gate;
use pq_base::{Sink, Text};
use pq_course::write_text;
use pq_generate::{SAMPLES, generated_recording};
use pq_report::summary;
use status_text::Status;
use std::alloc::Global;
use std::sync::Wait;
use std::thread::Threads;

// The declared voltage of a generated recording.
pub(crate) const DECLARED_MILLIVOLTS: u64 = 230_000;

/// Writes the summary of the recording that a seed makes. It may wait.
pub fn print_summary<R: Threads + Wait + Sync, O: Sink, G: Gate + Sync>(
    rt: &R,
    alloc: Global,
    seed: u64,
    out: &mut O,
    gate: &G,
) -> Status
    ensures { IsPrinted (generated_summary seed) (writing_of O.Sink out.old out.new) result }
{
    match generated_summary(rt, alloc, seed, gate) {
        Ok(text) => write_text(text.bytes(), out),
        Err(status) => status,
    }
}

// The summary of the recording that a seed makes, whose items its lanes give. Its only error is want of
// memory.
#[tactic(auto, unfolding(crate::specs::Generating::generated_summary))]
fn generated_summary<R: Threads + Wait + Sync, G: Gate + Sync>(
    rt: &R,
    alloc: Global,
    seed: u64,
    gate: &G,
) -> Result<Text, Status>
    ensures value { GivesUnless status.OutOfMemory (λ text. text) result (Ok (generated_summary seed)) }
    ensures refuses { IfErr result IsRefusing }
{
    let limits = limits_of(&usual_settings(DECLARED_MILLIVOLTS))?;
    let recording = generated_recording(alloc, seed)?;
    let items = lane_items(rt, alloc, &recording, &limits, gate)?;
    let text = summary(alloc, seed, SAMPLES, &items)?;
    Ok(text)
}
