// A session waits for its next item.
ghost use Rattle.std.specs.Prelude.{◌≡◌};
ghost use Rattle.query_session.specs.Reading.{cursor_after};
ghost use Rattle.query_session.specs.Session.{IsIdle, IsSessionOf, WaitAnswers};

use crate::answer::Next;
use crate::chain::Chain;
use crate::session::SessionOf;
use interval_ledger::Ledger;
use std::sync::Wait;
use std::thread;

impl SessionOf<Ledger> {
    /// `next` again while it answers Withheld or Busy, with the thread yielded in between. It may wait for
    /// others.
    pub fn next_wait<R: Wait>(&mut self, rt: &R, chain: &Chain) -> Next
        requires mine { IsSessionOf chain.now self.old }
        requires idle { IsIdle self.old }
        ensures mine { IsSessionOf chain.now self.new }
        ensures idle { IsIdle self.new }
        ensures answers { WaitAnswers self.old self.new result }
        ensures cursor { self.new.cursor ≡ cursor_after self.old.cursor result }
    {
        for _ in rt.forever() {
            match self.next(chain) {
                Next::Withheld { .. } => thread::yield_now(),
                Next::Busy { .. } => thread::yield_now(),
                next => return next,
            }
        }
        unreachable!()
    }
}
