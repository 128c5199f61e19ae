// A list of steps, played from the start.
ghost use Rattle.std.specs.Prelude.{◌≡◌, ◌<◌, ◌^◌, length};
ghost use Rattle.event_detect.specs.Threshold.{IsInOrder};
ghost use Rattle.chain_core.specs.MeasuredOf.{measured_of};
ghost use Rattle.chain_core.specs.Play.{Gives, answers_of};

use crate::answer::{Answer, PlayFault};
use crate::machine::Machine;
use crate::measured::measure;
use crate::measurement::Measurement;
use crate::step::Step;
use event_detect::Limits;
use pq_base::Recording;
use std::alloc::{AllocError, AllocFailed, Global};

impl From<AllocError> for PlayFault {
    ghost use Rattle.std.specs.Prelude.{◌≡◌};
    ghost use Rattle.chain_core.specs.declared.answer.PlayFault.TheVariants as fault;

    ghost from_gives = { λ _ f. f ≡ fault.OutOfMemory };

    fn from(_error: AllocError) -> PlayFault {
        PlayFault::OutOfMemory
    }
}

impl<T: Drop> From<AllocFailed<T>> for PlayFault {
    ghost use Rattle.std.specs.Prelude.{◌≡◌};
    ghost use Rattle.chain_core.specs.declared.answer.PlayFault.TheVariants as fault;

    ghost from_gives = { λ _ f. f ≡ fault.OutOfMemory };

    fn from(_error: AllocFailed<T>) -> PlayFault {
        PlayFault::OutOfMemory
    }
}

/// The answers of steps over a measurement, or the first step that isn't allowed.
pub fn play_over(
    alloc: Global,
    measurement: &Measurement,
    steps: &[Step],
) -> Result<Vec<Answer>, PlayFault>
    requires { length measurement.now.keys < 2 ^ 32 }
    ensures { Gives result (answers_of measurement.now steps.now) }
{
    let mut machine = Machine::new(alloc, measurement.lanes())?;
    let mut answers = Vec::with_capacity(alloc, steps.len())?;
    for (index, step) in steps.iter().enumerate() {
        match machine.step(measurement, *step, alloc)? {
            Some(answer) => answers.push(answer)?,
            None => {
                return Err(PlayFault::NotAllowed {
                    index: index as u64,
                });
            }
        }
    }
    Ok(answers)
}

/// The answers of steps over what is measured of a recording under the limits, or the first step that
/// the phases don't allow.
///
/// # Errors
///
/// [`PlayFault::NotAllowed`] with the index of that step, [`PlayFault::OutOfMemory`] where memory is short.
#[tactic(auto, using(crate::proofs::LaneLemmas::few_lanes))]
pub fn play(
    alloc: Global,
    recording: &Recording,
    limits: &Limits,
    steps: &[Step],
) -> Result<Vec<Answer>, PlayFault>
    requires { IsInOrder limits.now }
    ensures { Gives result (answers_of (measured_of recording.now limits.now) steps.now) }
{
    match measure(alloc, recording, limits) {
        Ok(measurement) => play_over(alloc, &measurement, steps),
        Err(_) => Err(PlayFault::OutOfMemory),
    }
}
