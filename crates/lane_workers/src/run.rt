// A run: one worker for each lane in a scope, beside the caller, which prints.
ghost use Rattle.std.specs.Prelude.{◌≡◌, []};
ghost use Rattle.lane_workers.specs.Running.{CanPrint, HasPrinted, HasRun, IsAlone, recording_of};
ghost use Rattle.pq_base.specs.Recorded.{IsRecording};
ghost use Rattle.query_session.specs.Chain.{AreReady};
ghost use Rattle.query_session.specs.Session.{IsIdle, IsSessionOf};

use crate::beside::{Task, run_beside};
use crate::gate::Gate;
use crate::printer::Printer;
use crate::printing::{halted, print_all};
use crate::ran::Ran;
use crate::worker::{Worker, WorkerOf};
use query_session::{Chain, LaneSeat, Session};
use std::alloc::{AllocError, Global};
use std::sync::Wait;
use std::thread::Threads;

/// Runs one worker for each lane, and prints each item as the session is given it. Each worker posts up to 64
/// items, calls the gate with its lane and the word due, and raises its word. Where the printer fails or
/// memory is short, the session halts the chain. Returns when all workers have ended.
pub fn run_lanes<'r, R: Threads + Wait + Sync, G: Gate + Sync, P: Printer>(
    rt: &R,
    alloc: Global,
    chain: &Chain,
    seats: Vec<LaneSeat<'r>>,
    session: &mut Session,
    gate: &G,
    printer: &mut P,
) -> Ran
    requires seats { AreReady chain.now seats.items }
    requires mine { IsSessionOf chain.now session.old }
    requires idle { IsIdle session.old }
    requires alone { IsAlone session.old }
    requires recording { IsRecording (recording_of session.old) }
    requires cursor { session.old.cursor ≡ 0 }
    requires printed { P.printed printer.old [] }
    ensures mine { IsSessionOf chain.now session.new }
    ensures runs { HasRun P.Printer session.old session.new printer.old printer.new result }
{
    let Ok(workers) = hire(rt, alloc, chain, seats, gate) else {
        return halted(chain, session, Ran::OutOfMemory);
    };
    let caller = Caller {
        rt,
        alloc,
        chain,
        session,
        printer,
    };
    let (ran, session, printer) = run_beside(rt, workers, caller);
    take_back(printer);
    take_back(session);
    ran
}

// What the caller does beside the workers.
#[derive(Drop)]
struct Caller<'a, 's, 'p, R: Wait, P: Printer> {
    rt: &'a R,
    alloc: Global,
    chain: &'a Chain,
    session: &'s mut Session,
    printer: &'p mut P,
}

impl<'a, 's, 'p, R: Wait, P: Printer> Task for Caller<'a, 's, 'p, R, P> {
    type Output = (Ran, &'s mut Session, &'p mut P);

    ghost can_run = { λ t. CanPrint P.Printer t.chain.now t.session.now t.printer.now };

    ghost run_gives = { λ t r.
        (r.1.ghost_name ≡ t.session.ghost_name) × (r.2.ghost_name ≡ t.printer.ghost_name)
        × HasPrinted P.Printer t.chain.now t.session.now r.1.now t.printer.now r.2.now r.0 };

    fn run(self) -> (Ran, &'s mut Session, &'p mut P) {
        let Caller {
            rt,
            alloc,
            chain,
            session,
            printer,
        } = self;
        let ran = print_all(rt, alloc, chain, session, printer);
        (ran, session, printer)
    }
}

// A worker for each seat.
fn hire<'a, 'r, R: Wait, G: Gate>(
    rt: &'a R,
    alloc: Global,
    chain: &'a Chain,
    seats: Vec<LaneSeat<'r>>,
    gate: &'a G,
) -> Result<Vec<Worker<'a, 'r, R, G>>, AllocError>
    requires { AreReady chain.now seats.items }
{
    let mut workers = Vec::with_capacity(alloc, seats.len())?;
    for seat in seats {
        workers.push(WorkerOf {
            rt,
            chain,
            seat,
            gate,
        })?;
    }
    Ok(workers)
}

// The value behind a borrow that came back.
fn take_back<T>(x: &mut T)
    ensures { x.new ≡ x.old }
{}
