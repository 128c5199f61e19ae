// The core steps of a line.
ghost use Rattle.std.specs.Prelude.{◌≡◌, ◌++◌, OnOk};
ghost use Rattle.pq_replay.specs.Schedule.{loads, look_steps, query_steps, step_steps, steps_of};

use crate::line::Line;
use chain_core::Step;
use std::alloc::AllocError;

// Fills a list with the core steps of a line, over so many lanes.
pub(crate) fn fill_steps(steps: &mut Vec<Step>, lanes: u32, line: Line) -> Result<(), AllocError>
    ensures { OnOk result (steps.new.items ≡ steps_of lanes line) }
{
    steps.clear();
    match line {
        Line::Take { lane } => steps.push(Step::Take { lane })?,
        Line::Post { lane, most } => steps.push(Step::Post { lane, most })?,
        Line::Raise { lane } => steps.push(Step::Raise { lane })?,
        Line::Step { lane, most } => push_step(steps, lane, most)?,
        Line::Look { session } => push_look(steps, lanes, session)?,
        Line::Grab { session } => steps.push(Step::Grab { session })?,
        Line::Read { session } => steps.push(Step::Read { session })?,
        Line::Query { session } => push_query(steps, lanes, session)?,
        Line::Split { session } => steps.push(Step::Split { session })?,
        Line::Halt { session } => steps.push(Step::Halt { session })?,
    }
    Ok(())
}

// Take, post, raise.
fn push_step(steps: &mut Vec<Step>, lane: u32, most: u32) -> Result<(), AllocError>
    ensures { OnOk result (steps.new.items ≡ steps.old.items ++ step_steps lane most) }
{
    steps.push(Step::Take { lane })?;
    steps.push(Step::Post { lane, most })?;
    steps.push(Step::Raise { lane })?;
    Ok(())
}

// A load of the stop word and of each lane's word.
fn push_look(steps: &mut Vec<Step>, lanes: u32, session: u32) -> Result<(), AllocError>
    ensures { OnOk result (steps.new.items ≡ steps.old.items ++ look_steps lanes session) }
{
    steps.push(Step::LoadStop { session })?;
    push_loads(steps, lanes, session)
}

// One load of each lane, in order.
fn push_loads(steps: &mut Vec<Step>, lanes: u32, session: u32) -> Result<(), AllocError>
    ensures { OnOk result (steps.new.items ≡ steps.old.items ++ loads lanes session) }
{
    for lane in 0..lanes {
        steps.push(Step::Load { session, lane })?;
    }
    Ok(())
}

// Look, grab, read.
fn push_query(steps: &mut Vec<Step>, lanes: u32, session: u32) -> Result<(), AllocError>
    ensures { OnOk result (steps.new.items ≡ steps.old.items ++ query_steps lanes session) }
{
    push_look(steps, lanes, session)?;
    steps.push(Step::Grab { session })?;
    steps.push(Step::Read { session })?;
    Ok(())
}
