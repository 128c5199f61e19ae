// The text that is written.
ghost use Rattle.pq_course.specs.Parts.{IsWritten};
ghost use Rattle.pq_course.specs.TopCall.{writing_of};

use pq_base::{Failed, Sink, write_all};
use status_text::Status;

/// Hands the whole text over. Where a write fails, no other is made.
pub fn write_text<O: Sink>(text: &[u8], out: &mut O) -> Status
    ensures { IsWritten text.now (writing_of O.Sink out.old out.new) result }
{
    match write_all(out, text) {
        Ok(()) => Status::Done,
        Err(Failed) => Status::WriteFault {
            faults: out.faults(),
        },
    }
}
