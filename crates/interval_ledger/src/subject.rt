// What a ledger is about.

use event_detect::Limits;
use pq_base::Recording;

/// The name of a ledger and of all passes to it: its recording and its limits. No call makes one.
pub struct Subject {
    pub recording: Recording,
    pub limits: Limits,
}
