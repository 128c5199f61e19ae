// A lane's worker.
ghost use Rattle.query_session.specs.LaneSeat.{IsSeatIdle, IsSeatOf};

use crate::beside::Job;
use crate::gate::Gate;
use interval_ledger::{Ledger, Subject};
use progress_words::Shared;
use query_session::{Chain, ChainOf, Lane, LaneSeat, SeatOf, Taken};
use std::sync::Wait;
use std::thread;

// How many items a worker posts at most before it raises its word.
const POSTED_AT_ONCE: u32 = 64;

/// The worker of a seat.
#[derive(Drop)]
pub(crate) struct WorkerOf<'a, 'r, V: Shared<Name = Subject>, R: Wait, G: Gate> {
    pub(crate) rt: &'a R,
    pub(crate) chain: &'a ChainOf<V>,
    pub(crate) seat: SeatOf<'r, V>,
    pub(crate) gate: &'a G,
    ghost mine: { IsSeatOf chain.now seat },
    ghost idle: { IsSeatIdle seat },
}

/// The worker of a lane of a chain over a ledger.
pub(crate) type Worker<'a, 'r, R, G> = WorkerOf<'a, 'r, Ledger, R, G>;

impl<'a, 'r, R: Wait, G: Gate> Job for WorkerOf<'a, 'r, Ledger, R, G> {
    fn work(self) {
        let WorkerOf {
            rt,
            chain,
            seat,
            gate,
        } = self;
        run(rt, chain, seat, gate);
    }
}

// Takes, posts and raises until all items of the lane are posted or the chain is halted.
fn run<R: Wait, G: Gate>(rt: &R, chain: &Chain, mut seat: LaneSeat<'_>, gate: &G)
    requires mine { IsSeatOf chain.now seat }
    requires idle { IsSeatIdle seat }
{
    for _ in rt.forever() {
        if !turn(chain, &mut seat, gate) {
            return;
        }
    }
}

// One try. Gives whether there is more to do.
fn turn<G: Gate>(chain: &Chain, seat: &mut LaneSeat<'_>, gate: &G) -> bool
    requires mine { IsSeatOf chain.now seat.old }
    requires idle { IsSeatIdle seat.old }
    ensures mine { IsSeatOf chain.now seat.new }
    ensures idle { IsSeatIdle seat.new }
{
    match seat.take(chain) {
        Taken::Halted => false,
        Taken::Busy { .. } => {
            thread::yield_now();
            true
        }
        Taken::Held => {
            seat.post(chain, POSTED_AT_ONCE);
            gate.pass(seat.lane(), seat.due());
            has_more(&seat.raise(chain))
        }
    }
}

// Whether a raise left items to post.
fn has_more(raised: &Lane) -> bool {
    match raised {
        Lane::More { .. } => true,
        _ => false,
    }
}
