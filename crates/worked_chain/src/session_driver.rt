// A session, driven by lines.
ghost use Rattle.std.specs.Prelude.{IfSome};
ghost use Rattle.query_session.specs.Session.{IsHolding, IsIdle, IsLooked, IsSessionOf};
ghost use Rattle.worked_chain.specs.Drivers.{IsSessionDriverOf};

use crate::reply::Reply;
use chain_core::SessionPhase;
use pq_items::Item;
use pq_replay::Line;
use query_session::{Chain, Grab, Look, Next, Session};

/// A session, and what it is at.
#[derive(Drop)]
pub struct SessionDriver {
    pub session: Session,
    pub phase: SessionPhase,
}

impl SessionDriver {
    /// Does what a line says of this session, where the session's phase allows it. A split is no such line.
    pub fn run(&mut self, chain: &Chain, items: &[Item], line: Line) -> Reply
        requires { IsSessionDriverOf chain.now self.old }
        ensures { IsSessionDriverOf chain.now self.new }
    {
        match (self.phase, line) {
            (SessionPhase::Idle, Line::Look { .. }) => self.look(chain),
            (SessionPhase::Looked, Line::Grab { .. }) => self.grab(chain),
            (SessionPhase::Holding, Line::Read { .. }) => self.read(chain, items),
            (SessionPhase::Idle, Line::Query { .. }) => self.query(chain, items),
            (SessionPhase::Idle, Line::Halt { .. }) => self.halt(chain),
            _ => Reply::NotAllowed,
        }
    }

    /// A session that goes on from the same cursor, where this one is idle.
    pub fn split(&mut self, chain: &Chain) -> Option<SessionDriver>
        requires { IsSessionDriverOf chain.now self.old }
        ensures same { IsSessionDriverOf chain.now self.new }
        ensures other { IfSome result (IsSessionDriverOf chain.now) }
    {
        match self.phase {
            SessionPhase::Idle => Some(SessionDriver {
                session: self.session.split(chain),
                phase: SessionPhase::Idle,
            }),
            _ => None,
        }
    }

    fn look(&mut self, chain: &Chain) -> Reply
        requires mine { IsSessionOf chain.now self.old.session }
        requires idle { IsIdle self.old.session }
        ensures { IsSessionDriverOf chain.now self.new }
    {
        match self.session.look(chain) {
            Look::Halted => {
                self.phase = SessionPhase::Idle;
                Reply::Halted
            }
            Look::Seen { lane, word } => {
                self.phase = SessionPhase::Looked;
                Reply::Seen(u64::from(lane), word)
            }
        }
    }

    fn grab(&mut self, chain: &Chain) -> Reply
        requires mine { IsSessionOf chain.now self.old.session }
        requires looked { IsLooked self.old.session }
        ensures { IsSessionDriverOf chain.now self.new }
    {
        match self.session.grab(chain) {
            Grab::Held => {
                self.phase = SessionPhase::Holding;
                Reply::Held
            }
            Grab::Busy { word } => {
                self.phase = SessionPhase::Idle;
                Reply::Busy(word)
            }
        }
    }

    fn read(&mut self, chain: &Chain, items: &[Item]) -> Reply
        requires mine { IsSessionOf chain.now self.old.session }
        requires holding { IsHolding self.old.session }
        ensures { IsSessionDriverOf chain.now self.new }
    {
        let next = self.session.read(chain);
        self.phase = SessionPhase::Idle;
        reply(items, &next)
    }

    fn query(&mut self, chain: &Chain, items: &[Item]) -> Reply
        requires mine { IsSessionOf chain.now self.old.session }
        requires idle { IsIdle self.old.session }
        ensures { IsSessionDriverOf chain.now self.new }
    {
        let next = self.session.next(chain);
        self.phase = SessionPhase::Idle;
        reply(items, &next)
    }

    fn halt(&mut self, chain: &Chain) -> Reply
        requires mine { IsSessionOf chain.now self.old.session }
        requires idle { IsIdle self.old.session }
        ensures { IsSessionDriverOf chain.now self.new }
    {
        self.session.halt(chain);
        self.phase = SessionPhase::Idle;
        Reply::Stopped
    }
}

// The reply of what a session is given next.
fn reply(items: &[Item], next: &Next) -> Reply {
    match *next {
        Next::Item(ref item) => Reply::item(items, item),
        Next::Withheld { lane, word } => Reply::Withheld(lane, word),
        Next::End => Reply::End,
        Next::OutOfMemory => Reply::OutOfMemory,
        Next::Busy { word } => Reply::Busy(word),
        Next::Halted => Reply::Halted,
    }
}
