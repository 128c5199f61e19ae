// The command `emit`: a file of a generated recording.
ghost use Rattle.std.specs.Prelude.{IfErr, Ok};
ghost use Rattle.pq_run.specs.Emitting.{emitted_text};
ghost use Rattle.pq_words.specs.FirstFault.{GivesUnless};
ghost use Rattle.status_text.specs.Refusals.{IsRefusing};
ghost use Rattle.status_text.specs.declared.status.Status.TheVariants as status;

use command_words::Part;
use pq_base::Text;
use pq_generate::generate;
use status_text::Status;
use std::alloc::Global;

/// The cfg or the dat of the recording that a seed makes. Its only error is want of memory.
pub fn emitted_text(alloc: Global, part: Part, seed: u64) -> Result<Text, Status>
    ensures value { GivesUnless status.OutOfMemory (λ text. text) result (Ok (emitted_text part seed)) }
    ensures refuses { IfErr result IsRefusing }
{
    let made = generate(alloc, seed)?;
    match part {
        Part::Cfg => Ok(made.cfg),
        Part::Dat => Ok(made.dat),
    }
}
