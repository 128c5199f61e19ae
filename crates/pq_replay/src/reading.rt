// The schedule that a text says.
ghost use Rattle.std.specs.Prelude.{◌≡◌};
ghost use Rattle.pq_replay.specs.Schedule.{GivesLines, line_read, schedule_of};

use crate::cutting::first_line;
use crate::fault::ScheduleFault;
use crate::line::Line;
use crate::line_steps::fill_steps;
use crate::line_words::read_line;
use crate::passing::pass_steps;
use chain_core::{PhaseTable, Step};
use std::alloc::Global;

/// The lines of the schedule that a text says for this many lanes.
///
/// # Errors
///
/// [`ScheduleFault::Line`] with the number of the first line that is outside the grammar or not allowed;
/// [`ScheduleFault::OutOfMemory`].
#[tactic(auto, unfolding(crate::specs::Schedule::schedule_of))]
pub fn read_schedule(alloc: Global, bytes: &[u8], lanes: u32) -> Result<Vec<Line>, ScheduleFault>
    ensures { GivesLines result (schedule_of lanes bytes.now) }
{
    let mut phases = PhaseTable::new(alloc, lanes as usize)?;
    let mut steps = Vec::new(alloc);
    let mut lines = Vec::new(alloc);
    let mut number = 1;
    let mut rest = bytes;
    while let Some((text, after)) = first_line(rest) {
        let line = numbered(number, read_line(text))?;
        fill_steps(&mut steps, lanes, line)?;
        let is_allowed = pass_steps(&mut phases, alloc, &steps)?;
        if !is_allowed {
            return Err(ScheduleFault::Line { line: number });
        }
        lines.push(line)?;
        number += 1;
        rest = after;
    }
    Ok(lines)
}

// A line, or the fault of this number.
fn numbered(number: u64, line: Option<Line>) -> Result<Line, ScheduleFault>
    ensures { result ≡ line_read number line }
{
    match line {
        Some(line) => Ok(line),
        None => Err(ScheduleFault::Line { line: number }),
    }
}
