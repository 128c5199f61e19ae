// A replay: the answers of a schedule over a recording.
ghost use Rattle.std.specs.Prelude.{◌≡◌, IfErr};
ghost use Rattle.event_detect.specs.Threshold.{IsInOrder, IsInRange};
ghost use Rattle.pq_course.specs.TopCall.{reading_of};
ghost use Rattle.pq_run.specs.RecordingFiles.{Gives};
ghost use Rattle.pq_run.specs.Replaying.{IsReplayRead, schedule_answers, schedule_refusal};
ghost use Rattle.status_text.specs.Refusals.{IsRefusing};

use crate::recording_files::read_recording;
use crate::settings::limits_of;
use command_words::Measuring;
use comtrade_dat::OneThread;
use event_detect::Limits;
use pq_base::{Recording, Shelf, Text};
use pq_course::{InputFile, read_file};
use pq_replay::{ScheduleFault, read_schedule, replay};
use status_text::Status;
use std::alloc::Global;

/// The answers of the schedule of this name over a recording under settings. The settings are judged first,
/// and the schedule is asked for last.
pub fn schedule_replay<K: Shelf>(
    alloc: Global,
    measuring: &Measuring<'_>,
    schedule: &str,
    shelf: &mut K,
) -> Result<Text, Status>
    requires { IsInRange measuring.now.settings }
    ensures { IsReplayRead measuring.now schedule.now (reading_of K.Shelf shelf.old shelf.new) result }
{
    let limits = limits_of(&measuring.settings)?;
    let recording = read_recording(alloc, &OneThread, measuring, shelf)?;
    let text = read_file(alloc, shelf, InputFile::Schedule, schedule)?;
    schedule_answers(alloc, &limits, &recording, &text)
}

// The answers of a schedule over a recording, or the schedule's refusal.
fn schedule_answers(
    alloc: Global,
    limits: &Limits,
    recording: &Recording,
    schedule: &Text,
) -> Result<Text, Status>
    requires { IsInOrder limits.now }
    ensures value { Gives result (schedule_answers limits.now recording.now schedule.now) }
    ensures refuses { IfErr result IsRefusing }
{
    let lanes = 2 * recording.channels() + 1;
    match read_schedule(alloc, schedule.bytes(), lanes) {
        Ok(lines) => {
            let text = replay(alloc, recording, limits, &lines)?;
            Ok(text)
        }
        Err(why) => Err(schedule_refusal(why)),
    }
}

fn schedule_refusal(fault: ScheduleFault) -> Status
    ensures { result ≡ schedule_refusal fault }
{
    match fault {
        ScheduleFault::Line { line } => Status::ScheduleFault { line },
        ScheduleFault::OutOfMemory => Status::OutOfMemory,
    }
}
