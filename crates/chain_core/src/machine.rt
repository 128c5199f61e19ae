// The core, step by step.
ghost use Rattle.std.specs.Prelude.{◌≡◌, ◌<◌, ◌^◌, IfOk, IsTrue};
ghost use Rattle.chain_core.specs.Phases.{has_room};
ghost use Rattle.chain_core.specs.Core.{stop_answer, try_answer};

use crate::answer::Answer;
use crate::core_event::CoreEvent;
use crate::measurement::Measurement;
use crate::numbers::NumberTable;
use crate::phase_table::PhaseTable;
use crate::step::Step;
use std::alloc::{AllocError, Global};
use std::marker::Model;

/// The core of lanes and sessions, which plays steps one by one: its phases and its numbers.
#[derive(Drop)]
pub struct Machine {
    phases: PhaseTable,
    numbers: NumberTable,
}

impl Model for Machine {
    ghost use Rattle.chain_core.specs.Core.{Core};

    ghost Value = { Core };

    ghost view = { λ m. record { phases = m.phases; numbers = m.numbers } };
}

impl Machine {
    ghost use Rattle.chain_core.specs.Core.{answer_of, happens, start_core};
    ghost use Rattle.chain_core.specs.Play.{Did, takes, takes_turn};

    /// The core of so many lanes at the start, with one session.
    pub fn new(alloc: Global, lanes: usize) -> Result<Machine, AllocError>
        requires { lanes < 2 ^ 32 }
        ensures { IfOk result (λ m. m ≡ start_core lanes) }
    {
        Ok(Machine {
            phases: PhaseTable::new(alloc, lanes)?,
            numbers: NumberTable::new(alloc, lanes)?,
        })
    }

    /// Takes one step over a measurement: its answer, or `None` where it isn't allowed.
    #[tactic(auto, unfolding(crate::specs::Play::takes))]
    pub fn step(
        &mut self,
        measurement: &Measurement,
        step: Step,
        alloc: Global,
    ) -> Result<Option<Answer>, AllocError>
        ensures { IfOk result (λ a. Did (takes measurement.now self.old step) a self.new) }
    {
        let event = step.event();
        if !self.phases.has_room(event) {
            return Ok(None);
        }
        match step.taken_lane() {
            Some(lane) => self.take_turn(measurement, lane, alloc),
            None => self.happen(measurement, event, alloc),
        }
    }

    // A take: a load of the stop word and, unless that is halted, a try.
    #[tactic(auto, using(crate::proofs::TakeLaws::take_laws))]
    fn take_turn(
        &mut self,
        measurement: &Measurement,
        lane: u32,
        alloc: Global,
    ) -> Result<Option<Answer>, AllocError>
        ensures { IfOk result (λ a. Did (takes_turn measurement.now self.old lane) a self.new) }
    {
        let is_halted = self.phases.is_halted();
        match self.happen(measurement, CoreEvent::LaneStopLoad { lane }, alloc)? {
            None => Ok(None),
            Some(answer) if is_halted => Ok(Some(answer)),
            Some(_) => self.happen(measurement, CoreEvent::LaneTry { lane }, alloc),
        }
    }

    // One event: its answer, where it is allowed.
    #[tactic(auto, unfolding(crate::specs::Core::happens))]
    fn happen(
        &mut self,
        measurement: &Measurement,
        event: CoreEvent,
        alloc: Global,
    ) -> Result<Option<Answer>, AllocError>
        requires { IsTrue (has_room self.old.phases event) }
        ensures { IfOk result (λ a. Did (happens measurement.now self.old event) a self.new) }
    {
        if !self.phases.allows(event) {
            return Ok(None);
        }
        let answer = self.answer(measurement, event);
        self.numbers.change(measurement, event, alloc)?;
        self.phases.pass(event, alloc)?;
        Ok(Some(answer))
    }

    // The answer of an event that is allowed.
    fn answer(&self, measurement: &Measurement, event: CoreEvent) -> Answer
        requires { IsTrue (has_room self.now.phases event) }
        ensures { result ≡ answer_of measurement.now self.now event }
    {
        match event {
            CoreEvent::LaneStopLoad { .. } => stop_answer(self.phases.is_halted()),
            CoreEvent::LaneTry { .. } => try_answer(self.phases.turn()),
            CoreEvent::Post { lane, most } => Answer::Posted {
                count: self.numbers.posted(measurement, lane, most),
            },
            CoreEvent::Raise { lane } => Answer::Raised {
                word: self.numbers.raised(measurement, lane),
                done: self.numbers.is_done(measurement, lane),
            },
            CoreEvent::SessionStopLoad { .. } => stop_answer(self.phases.is_halted()),
            CoreEvent::SessionTry { .. } => try_answer(self.phases.turn()),
            CoreEvent::Load { lane, .. } => Answer::Loaded {
                word: self.numbers.word(lane),
            },
            CoreEvent::Read { session } => self.numbers.read_answer(measurement, session),
            CoreEvent::Split { .. } => Answer::Split {
                session: self.phases.sessions() as u32,
            },
            CoreEvent::Halt { .. } => Answer::Stopped,
        }
    }
}

// The answer of a load of the stop word.
fn stop_answer(is_halted: bool) -> Answer
    ensures { result ≡ stop_answer is_halted }
{
    if is_halted {
        Answer::Halted
    } else {
        Answer::Running
    }
}

// The answer of a try.
fn try_answer(turn: u64) -> Answer
    ensures { result ≡ try_answer turn }
{
    if turn == 0 {
        Answer::Held
    } else {
        Answer::Busy { word: turn }
    }
}
