// The ledger of posted items.
ghost use Rattle.interval_ledger.specs.Settlement.{IsPosted};

use crate::settlement::Settlement;

/// What the lanes of a recording have posted, and of the sequential result what is released: the part that
/// ends by the mark. The mark is at most the reach of each lane, and at least as many items are merged as it
/// needs, at most those that are posted.
#[derive(Drop)]
pub struct Ledger {
    pub(crate) settlement: Settlement,
    ghost posted: { IsPosted settlement },
}
