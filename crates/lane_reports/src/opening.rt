// A chain whose lanes may run.
ghost use Rattle.std.specs.Prelude.{IfOk};
ghost use Rattle.event_detect.specs.Threshold.{IsInOrder};
ghost use Rattle.lane_reports.specs.OpenedChain.{IsReady};
ghost use Rattle.query_session.specs.Chain.{AreReady};

use event_detect::Limits;
use pq_base::{OutOfMemory, Recording};
use query_session::{Chain, ChainOf, LaneSeat, Session};
use std::alloc::Global;

// A chain over a recording and limits, with its seats and a session.
pub(crate) fn open_chain<'r>(
    alloc: Global,
    recording: &'r Recording,
    limits: &Limits,
) -> Result<(Chain, Vec<LaneSeat<'r>>, Session), OutOfMemory>
    requires { IsInOrder limits.now }
    ensures seats { IfOk result (λ t. AreReady t.0 t.1.items) }
    ensures session { IfOk result (λ t. IsReady t.0 recording.now limits.now t.2) }
{
    let _samples = recording.len();
    ChainOf::open(alloc, recording, limits)
}
