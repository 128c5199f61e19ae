// Phases along the steps of a line.
ghost use Rattle.std.specs.Prelude.{◌≡◌, IfOk};
ghost use Rattle.pq_replay.specs.Schedule.{HasPassed, Passed, event_passed, is_refused};
ghost use Rattle.pq_replay.specs.Schedule.{phases_after_steps, step_passed, take_passed};

use chain_core::{CoreEvent, PhaseTable, Step};
use std::alloc::{AllocError, Global};

// Passes to the phases after steps, as far as they go: whether each of them is allowed.
pub(crate) fn pass_steps(
    phases: &mut PhaseTable,
    alloc: Global,
    steps: &[Step],
) -> Result<bool, AllocError>
    ensures { IfOk result (λ ok. HasPassed (phases_after_steps phases.old steps.now) ok phases.new) }
{
    for step in steps {
        match pass_step(phases, alloc, *step)? {
            None => return Ok(false),
            Some(true) => return Ok(true),
            Some(false) => {}
        }
    }
    Ok(true)
}

// One step, where it is allowed: whether it is answered Halted or Busy.
#[tactic(auto, unfolding(crate::specs::Schedule::step_passed))]
fn pass_step(phases: &mut PhaseTable, alloc: Global, step: Step) -> Result<Option<bool>, AllocError>
    ensures { IfOk result (λ r. Passed (step_passed phases.old step) r phases.new) }
{
    let event = step.event();
    if !phases.has_room(event) {
        return Ok(None);
    }
    match step.taken_lane() {
        Some(lane) => pass_take(phases, alloc, lane),
        None => pass_event(phases, alloc, event),
    }
}

// A take: a load of the stop word and, unless that is halted, a try.
#[tactic(auto, unfolding(crate::specs::Schedule::take_passed))]
fn pass_take(phases: &mut PhaseTable, alloc: Global, lane: u32) -> Result<Option<bool>, AllocError>
    ensures { IfOk result (λ r. Passed (take_passed phases.old lane) r phases.new) }
{
    match pass_event(phases, alloc, CoreEvent::LaneStopLoad { lane })? {
        None => Ok(None),
        Some(true) => Ok(Some(true)),
        Some(false) => pass_event(phases, alloc, CoreEvent::LaneTry { lane }),
    }
}

// One event, where it is allowed: whether it is answered Halted or Busy.
#[tactic(auto, unfolding(crate::specs::Schedule::event_passed))]
fn pass_event(
    phases: &mut PhaseTable,
    alloc: Global,
    event: CoreEvent,
) -> Result<Option<bool>, AllocError>
    ensures { IfOk result (λ r. Passed (event_passed phases.old event) r phases.new) }
{
    if !phases.allows(event) {
        return Ok(None);
    }
    let refused = is_refused(phases, event);
    phases.pass(event, alloc)?;
    Ok(Some(refused))
}

// Whether an event is answered Halted or Busy.
fn is_refused(phases: &PhaseTable, event: CoreEvent) -> bool
    ensures { result ≡ is_refused phases.now event }
{
    match event {
        CoreEvent::LaneStopLoad { .. } | CoreEvent::SessionStopLoad { .. } => phases.is_halted(),
        CoreEvent::LaneTry { .. } | CoreEvent::SessionTry { .. } => phases.turn() != 0,
        _ => false,
    }
}
