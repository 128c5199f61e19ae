// The answer lines of a schedule.
ghost use Rattle.std.specs.Prelude.{◌≡◌, ◌<◌, ◌^◌, length, All, IfOk};
ghost use Rattle.event_detect.specs.Threshold.{IsInOrder};
ghost use Rattle.pq_items.specs.ItemRange.{IsItemInRange};
ghost use Rattle.pq_replay.specs.AnswerLines.{joined, measured_lines, replay_text};
ghost use Rattle.pq_time.specs.Time.{IsClock};

use crate::answer_line::push_answer_line;
use crate::line::Line;
use crate::line_steps::fill_steps;
use crate::playing::play_steps;
use chain_core::{Machine, Measurement, measure};
use event_detect::Limits;
use pq_base::{OutOfMemory, Recording, Text};
use pq_sequence::clock_of;
use pq_time::Clock;
use std::alloc::Global;

/// The answer lines of a schedule over what is measured of a recording under the limits, up to the first line
/// that isn't allowed. Of the lines that [`read_schedule`](crate::read_schedule) gives for the recording's
/// lanes all are allowed.
#[tactic(auto, unfolding(crate::specs::AnswerLines::replay_text))]
pub fn replay(
    alloc: Global,
    recording: &Recording,
    limits: &Limits,
    lines: &[Line],
) -> Result<Text, OutOfMemory>
    requires { IsInOrder limits.now }
    ensures { IfOk result (λ text. text ≡ replay_text recording.now limits.now lines.now) }
{
    let measurement = measure(alloc, recording, limits)?;
    replay_over(alloc, &clock_of(recording), &measurement, lines)
}

// The same over a measurement.
fn replay_over(
    alloc: Global,
    clock: &Clock,
    measurement: &Measurement,
    lines: &[Line],
) -> Result<Text, OutOfMemory>
    requires clock { IsClock clock.now }
    requires items { All IsItemInRange measurement.now.items }
    requires lanes { length measurement.now.keys < 2 ^ 32 }
    ensures { IfOk result (λ text. text ≡ joined (measured_lines clock.now measurement.now lines.now)) }
{
    let lanes = measurement.lanes();
    let mut machine = Machine::new(alloc, lanes)?;
    let mut steps = Vec::new(alloc);
    let mut answers = Vec::new(alloc);
    let mut text = Vec::new(alloc);
    for line in lines {
        fill_steps(&mut steps, lanes as u32, *line)?;
        let is_allowed = play_steps(&mut machine, measurement, &steps, &mut answers, alloc)?;
        if !is_allowed {
            return Ok(Text::new(text));
        }
        push_answer_line(&mut text, alloc, clock, *line, &answers)?;
    }
    Ok(Text::new(text))
}
