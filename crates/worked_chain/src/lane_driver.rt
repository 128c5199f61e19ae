// A lane's seat, driven by lines.
ghost use Rattle.std.specs.Prelude.{◌↔◌, IsTrue};
ghost use Rattle.query_session.specs.LaneSeat.{IsSeatHolding, IsSeatIdle, IsSeatOf, IsSeatPosted};
ghost use Rattle.worked_chain.specs.Drivers.{IsLaneDriverOf, IsMost};

use crate::reply::Reply;
use chain_core::LanePhase;
use pq_replay::Line;
use query_session::{Chain, Lane, LaneSeat, Taken};

/// A lane's seat, and what it is at.
#[derive(Drop)]
pub struct LaneDriver<'r> {
    pub seat: LaneSeat<'r>,
    pub phase: LanePhase,
}

impl<'r> LaneDriver<'r> {
    /// Does what a line says of this lane, where the lane's phase allows it.
    pub fn run(&mut self, chain: &Chain, line: Line) -> Reply
        requires { IsLaneDriverOf chain.now self.old }
        ensures { IsLaneDriverOf chain.now self.new }
    {
        match (self.phase, line) {
            (LanePhase::Idle, Line::Take { .. }) => self.take(chain),
            (LanePhase::Idle, Line::Step { most, .. }) if is_most(most) => self.step(chain, most),
            (LanePhase::Holding, Line::Post { most, .. }) if is_most(most) => self.post(
                chain, most,
            ),
            (LanePhase::Posted, Line::Raise { .. }) => self.raise(chain),
            _ => Reply::NotAllowed,
        }
    }

    fn take(&mut self, chain: &Chain) -> Reply
        requires mine { IsSeatOf chain.now self.old.seat }
        requires idle { IsSeatIdle self.old.seat }
        ensures { IsLaneDriverOf chain.now self.new }
    {
        match self.seat.take(chain) {
            Taken::Held => {
                self.phase = LanePhase::Holding;
                Reply::Held
            }
            Taken::Busy { word } => {
                self.phase = LanePhase::Idle;
                Reply::Busy(word)
            }
            Taken::Halted => {
                self.phase = LanePhase::Idle;
                Reply::Halted
            }
        }
    }

    fn post(&mut self, chain: &Chain, most: u32) -> Reply
        requires mine { IsSeatOf chain.now self.old.seat }
        requires holding { IsSeatHolding self.old.seat }
        requires most { IsMost most }
        ensures { IsLaneDriverOf chain.now self.new }
    {
        let count = self.seat.post(chain, most);
        self.phase = LanePhase::Posted;
        Reply::Posted(count)
    }

    fn raise(&mut self, chain: &Chain) -> Reply
        requires mine { IsSeatOf chain.now self.old.seat }
        requires posted { IsSeatPosted self.old.seat }
        ensures { IsLaneDriverOf chain.now self.new }
    {
        let lane = self.seat.raise(chain);
        self.phase = LanePhase::Idle;
        match lane {
            Lane::More { word, .. } => Reply::Raised(word, false),
            Lane::Done { word, .. } => Reply::Raised(word, true),
            _ => Reply::NotAllowed,
        }
    }

    fn step(&mut self, chain: &Chain, most: u32) -> Reply
        requires mine { IsSeatOf chain.now self.old.seat }
        requires idle { IsSeatIdle self.old.seat }
        requires most { IsMost most }
        ensures { IsLaneDriverOf chain.now self.new }
    {
        let lane = self.seat.step(chain, most);
        self.phase = LanePhase::Idle;
        match lane {
            Lane::More { count, word } => Reply::Stepped(count, word, false),
            Lane::Done { count, word } => Reply::Stepped(count, word, true),
            Lane::Busy { word } => Reply::Busy(word),
            Lane::Halted => Reply::Halted,
        }
    }
}

// Whether so many items may be posted at most.
fn is_most(most: u32) -> bool
    ensures { IsTrue result ↔ IsMost most }
{
    1 <= most && most <= 64
}
