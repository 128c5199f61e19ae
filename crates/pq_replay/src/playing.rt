// The answers of the core steps of a line.
ghost use Rattle.std.specs.Prelude.{◌≡◌, IfOk};
ghost use Rattle.pq_replay.specs.AnswerLines.{Plays, is_refusal};

use chain_core::{Answer, Machine, Measurement, Step};
use std::alloc::{AllocError, Global};

// Plays steps as far as they go and fills a list with their answers: whether each of them is allowed.
#[tactic(auto, using(crate::proofs::PlayingLaws::before_none))]
pub(crate) fn play_steps(
    machine: &mut Machine,
    measurement: &Measurement,
    steps: &[Step],
    answers: &mut Vec<Answer>,
    alloc: Global,
) -> Result<bool, AllocError>
    ensures { IfOk result (λ ok. Plays measurement.now steps.now machine.old ok answers.new.items
        machine.new) }
{
    answers.clear();
    for step in steps {
        match machine.step(measurement, *step, alloc)? {
            None => return Ok(false),
            Some(answer) => {
                answers.push(answer)?;
                if is_refusal(answer) {
                    return Ok(true);
                }
            }
        }
    }
    Ok(true)
}

// Whether a line takes no step more after an answer.
fn is_refusal(answer: Answer) -> bool
    ensures { result ≡ is_refusal answer }
{
    matches!(answer, Answer::Halted | Answer::Busy { .. })
}
