// The caller's part: it prints each item as its session is given it.
ghost use Rattle.std.specs.Prelude.{◌≡◌};
ghost use Rattle.lane_workers.specs.Running.{CanPrint, HasRun, IsPrinting, TurnGives, recording_of, run_of};
ghost use Rattle.pq_base.specs.Recorded.{IsRecording};
ghost use Rattle.progress_words.specs.PassView.{after_stop};
ghost use Rattle.query_session.specs.Session.{IsIdle, IsSessionOf, view_of};

use crate::printer::{PrintFault, Printer};
use crate::ran::Ran;
use pq_items::Item;
use query_session::{Chain, Next, Session};
use std::alloc::Global;
use std::sync::Wait;
use std::thread;

// Prints all that the session is given.
pub(crate) fn print_all<R: Wait, P: Printer>(
    rt: &R,
    alloc: Global,
    chain: &Chain,
    session: &mut Session,
    printer: &mut P,
) -> Ran
    requires { CanPrint P.Printer chain.now session.old printer.old }
    ensures mine { IsSessionOf chain.now session.new }
    ensures runs { HasRun P.Printer session.old session.new printer.old printer.new result }
{
    let mut items = Vec::new(alloc);
    for _ in rt.forever() {
        if let Some(ran) = print_next(chain, session, &mut items, printer) {
            return ran;
        }
    }
    unreachable!()
}

// Prints the items that the session is given next, or says how the run ends. The list holds them for that
// time.
fn print_next<P: Printer>(
    chain: &Chain,
    session: &mut Session,
    items: &mut Vec<Item>,
    printer: &mut P,
) -> Option<Ran>
    requires mine { IsSessionOf chain.now session.old }
    requires recording { IsRecording (recording_of session.old) }
    requires printing { IsPrinting P.Printer session.old session.old printer.old printer.old }
    ensures mine { IsSessionOf chain.now session.new }
    ensures gives { TurnGives P.Printer session.old session.new printer.old printer.new result }
{
    let next = session.next_several(chain, items);
    if let Err(fault) = printer.print(items.as_slice()) {
        return Some(broken_off(chain, session, fault));
    }
    match next {
        Next::Item(item) => match printer.print(&[item]) {
            Ok(()) => None,
            Err(fault) => Some(broken_off(chain, session, fault)),
        },
        Next::End => Some(Ran::All),
        Next::OutOfMemory => Some(halted(chain, session, Ran::OutOfMemory)),
        Next::Halted => unreachable!(),
        _ => {
            thread::yield_now();
            None
        }
    }
}

// Halts the chain, where the printer broke off.
fn broken_off(chain: &Chain, session: &mut Session, fault: PrintFault) -> Ran
    requires mine { IsSessionOf chain.now session.old }
    requires idle { IsIdle session.old }
    ensures mine { IsSessionOf chain.now session.new }
    ensures idle { IsIdle session.new }
    ensures view { view_of session.new ≡ after_stop (view_of session.old) }
    ensures value { result ≡ run_of fault }
{
    match fault {
        PrintFault::Failed => halted(chain, session, Ran::Failed),
        PrintFault::OutOfMemory => halted(chain, session, Ran::OutOfMemory),
    }
}

// Halts the chain, where the run ends so.
pub(crate) fn halted(chain: &Chain, session: &mut Session, ran: Ran) -> Ran
    requires mine { IsSessionOf chain.now session.old }
    requires idle { IsIdle session.old }
    ensures mine { IsSessionOf chain.now session.new }
    ensures idle { IsIdle session.new }
    ensures view { view_of session.new ≡ after_stop (view_of session.old) }
    ensures value { result ≡ ran }
{
    session.halt(chain);
    ran
}
