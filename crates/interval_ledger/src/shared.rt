// A ledger as a value that lanes share.
ghost use Rattle.interval_ledger.specs.Ledger.{lanes_of, reach_of, subject_of};

use crate::ledger::Ledger;
use crate::subject::Subject;
use progress_words::Shared;

impl Shared for Ledger {
    type Name = Subject;

    ghost lanes = { lanes_of };

    ghost reach = { reach_of };

    ghost name = { subject_of };

    fn lanes(&self) -> u32 {
        self.settlement.lanes()
    }
}
