// A chain's seats and sessions, driven by lines.
ghost use Rattle.std.specs.Prelude.{◌≡◌, All, IfOk, IfSome};
ghost use Rattle.query_session.specs.Chain.{AreReady};
ghost use Rattle.query_session.specs.Session.{IsIdle, IsSessionOf};
ghost use Rattle.worked_chain.specs.Drivers.{AreDriversOf, IsSessionDriverOf, IsLaneDriverOf};

use crate::lane_driver::LaneDriver;
use crate::reply::Reply;
use crate::session_driver::SessionDriver;
use chain_core::{LanePhase, SessionPhase};
use pq_items::Item;
use pq_replay::Line;
use query_session::{Chain, LaneSeat, Session};
use std::alloc::{AllocError, Global};

/// The seats and the sessions of a chain.
#[derive(Drop)]
pub struct ChainDriver<'r> {
    pub lanes: Vec<LaneDriver<'r>>,
    pub sessions: Vec<SessionDriver>,
}

impl<'r> ChainDriver<'r> {
    /// A driver of these seats and this session.
    ///
    /// # Errors
    ///
    /// [`AllocError`] where there is no memory.
    pub fn of(
        alloc: Global,
        chain: &Chain,
        seats: Vec<LaneSeat<'r>>,
        session: Session,
    ) -> Result<ChainDriver<'r>, AllocError>
        requires seats { AreReady chain.now seats.items }
        requires mine { IsSessionOf chain.now session }
        requires idle { IsIdle session }
        ensures { IfOk result (AreDriversOf chain.now) }
    {
        let lanes = idle_lanes(alloc, chain, seats)?;
        let first = SessionDriver {
            session,
            phase: SessionPhase::Idle,
        };
        let sessions = one_session(alloc, chain, first)?;
        Ok(ChainDriver { lanes, sessions })
    }

    /// Does what a line says.
    ///
    /// # Errors
    ///
    /// [`AllocError`] where there is no memory for a session more.
    pub fn run(&mut self, chain: &Chain, items: &[Item], line: Line) -> Result<Reply, AllocError>
        requires { AreDriversOf chain.now self.old }
        ensures { AreDriversOf chain.now self.new }
    {
        match line {
            Line::Take { lane } | Line::Raise { lane } => {
                Ok(run_lane(self.lanes.as_mut_slice(), chain, lane, line))
            }
            Line::Post { lane, .. } | Line::Step { lane, .. } => {
                Ok(run_lane(self.lanes.as_mut_slice(), chain, lane, line))
            }
            Line::Look { session }
            | Line::Grab { session }
            | Line::Read { session }
            | Line::Query { session }
            | Line::Halt { session } => {
                let sessions = self.sessions.as_mut_slice();
                Ok(run_session(sessions, chain, items, session, line))
            }
            Line::Split { session } => split(&mut self.sessions, chain, session),
        }
    }
}

// A driver of each seat.
fn idle_lanes<'r>(
    alloc: Global,
    chain: &Chain,
    seats: Vec<LaneSeat<'r>>,
) -> Result<Vec<LaneDriver<'r>>, AllocError>
    requires { AreReady chain.now seats.items }
    ensures { IfOk result (λ lanes. All (IsLaneDriverOf chain.now) lanes.items) }
{
    let mut lanes = Vec::with_capacity(alloc, seats.len())?;
    for seat in seats {
        lanes.push(LaneDriver {
            seat,
            phase: LanePhase::Idle,
        })?;
    }
    Ok(lanes)
}

// The first session alone.
fn one_session(
    alloc: Global,
    chain: &Chain,
    first: SessionDriver,
) -> Result<Vec<SessionDriver>, AllocError>
    requires { IsSessionDriverOf chain.now first }
    ensures { IfOk result (λ sessions. All (IsSessionDriverOf chain.now) sessions.items) }
{
    let mut sessions = Vec::new(alloc);
    sessions.push(first)?;
    Ok(sessions)
}

// Does what a line says of a lane, if it is there.
fn run_lane(lanes: &mut [LaneDriver<'_>], chain: &Chain, lane: u32, line: Line) -> Reply
    requires { All (IsLaneDriverOf chain.now) lanes.old }
    ensures { All (IsLaneDriverOf chain.now) lanes.new }
{
    let index = lane as usize;
    if index >= lanes.len() {
        return Reply::NotAllowed;
    }
    lanes[index].run(chain, line)
}

// Does what a line says of a session, if it is there.
fn run_session(
    sessions: &mut [SessionDriver],
    chain: &Chain,
    items: &[Item],
    session: u32,
    line: Line,
) -> Reply
    requires { All (IsSessionDriverOf chain.now) sessions.old }
    ensures { All (IsSessionDriverOf chain.now) sessions.new }
{
    let index = session as usize;
    if index >= sessions.len() {
        return Reply::NotAllowed;
    }
    sessions[index].run(chain, items, line)
}

// Splits a session, if it is there and idle.
fn split(
    sessions: &mut Vec<SessionDriver>,
    chain: &Chain,
    session: u32,
) -> Result<Reply, AllocError>
    requires { All (IsSessionDriverOf chain.now) sessions.old.items }
    ensures { All (IsSessionDriverOf chain.now) sessions.new.items }
{
    let count = sessions.len() as u64;
    match split_one(sessions.as_mut_slice(), chain, session) {
        Some(other) => {
            add(sessions, chain, other)?;
            Ok(Reply::Split(count))
        }
        None => Ok(Reply::NotAllowed),
    }
}

// One session more.
fn add(
    sessions: &mut Vec<SessionDriver>,
    chain: &Chain,
    other: SessionDriver,
) -> Result<(), AllocError>
    requires all { All (IsSessionDriverOf chain.now) sessions.old.items }
    requires other { IsSessionDriverOf chain.now other }
    ensures { All (IsSessionDriverOf chain.now) sessions.new.items }
{
    sessions.push(other)?;
    Ok(())
}

fn split_one(sessions: &mut [SessionDriver], chain: &Chain, session: u32) -> Option<SessionDriver>
    requires { All (IsSessionDriverOf chain.now) sessions.old }
    ensures same { All (IsSessionDriverOf chain.now) sessions.new }
    ensures other { IfSome result (IsSessionDriverOf chain.now) }
{
    let index = session as usize;
    if index >= sessions.len() {
        return None;
    }
    sessions[index].split(chain)
}
