// Phases of all lanes and sessions.
ghost use Rattle.std.specs.Prelude.{◌≡◌, ◌&&◌, nat_le, true, IfOk, OnOk};
ghost use Rattle.std.specs.List.{list_all};
ghost use Rattle.chain_core.specs.Changed.{changed_at};
ghost use Rattle.chain_core.specs.Phases.{is_allowed, looking_phase, phases_after, start_phases};

use crate::core_event::CoreEvent;
use crate::limits::MOST_SESSIONS;
use crate::phase::{LanePhase, SessionPhase};
use std::alloc::{AllocError, Global};
use std::marker::Model;

/// A session's phase, and the lanes that it has loaded since it began to look.
#[derive(Drop)]
pub struct SessionEntry {
    phase: SessionPhase,
    loaded: Vec<bool>,
}

impl Model for SessionEntry {
    ghost use Rattle.chain_core.specs.Phases.{SessionState};

    ghost Value = { SessionState };

    ghost view = { λ s. record { phase = s.phase; loaded = s.loaded.items } };
}

/// The phases of lanes and sessions.
#[derive(Drop)]
pub struct PhaseTable {
    lanes: Vec<LanePhase>,
    sessions: Vec<SessionEntry>,
    turn: u64,
    is_halted: bool,
}

impl Model for PhaseTable {
    ghost use Rattle.chain_core.specs.Phases.{Phases};

    ghost Value = { Phases };

    ghost view = { λ p. record {
      lanes = p.lanes.items;
      sessions = p.sessions.items;
      turn = p.turn;
      is_halted = p.is_halted;
    } };
}

impl SessionEntry {
    ghost use Rattle.chain_core.specs.Phases.{begins_to_look, in_phase, loads_lane, looks_further, new_session};

    // A session of so many lanes that hasn't looked yet.
    fn new(alloc: Global, lanes: usize) -> Result<SessionEntry, AllocError>
        ensures { IfOk result (λ s. s ≡ new_session lanes) }
    {
        Ok(SessionEntry {
            phase: SessionPhase::Idle,
            loaded: vec![in alloc; false; lanes]?,
        })
    }

    fn look(&mut self)
        ensures { self.new ≡ begins_to_look self.old }
    {
        self.phase = SessionPhase::Looking;
        self.loaded.fill(false);
    }

    fn load(&mut self, lane: u32)
        ensures { self.new ≡ loads_lane lane self.old.phase self.old.loaded }
    {
        if let SessionPhase::Looking = self.phase {
            self.look_further(lane);
        }
    }

    fn look_further(&mut self, lane: u32)
        ensures { self.new ≡ looks_further (changed_at self.old.loaded lane (λ _. true)) }
    {
        if let Some(loaded) = self.loaded.get_mut(lane as usize) {
            *loaded = true;
        }
        self.phase = looking_phase(&self.loaded);
    }

    fn phase(&self) -> SessionPhase
        ensures { result ≡ self.now.phase }
    {
        self.phase
    }

    fn pass(&mut self, phase: SessionPhase)
        ensures { self.new ≡ in_phase phase self.old }
    {
        self.phase = phase;
    }
}

impl PhaseTable {
    ghost use Rattle.std.specs.Prelude.{nat_lt, length};
    ghost use Rattle.chain_core.specs.declared.phase.LanePhase.TheVariants as lane_phase;
    ghost use Rattle.chain_core.specs.declared.phase.SessionPhase.TheVariants as session_phase;
    ghost use Rattle.chain_core.specs.Phases.{after_lane_try, after_session_stop_load, after_session_try, has_room, in_phase, is_holding_lane, is_holding_session, is_idle_lane, is_idle_session, is_looked_session, is_posted_lane, lane_is, loads_lane, may_load, session_is, with_lane, with_new_session, with_session, with_turn};

    /// All idle, the turn free, and one session.
    pub fn new(alloc: Global, lanes: usize) -> Result<PhaseTable, AllocError>
        ensures { IfOk result (λ p. p ≡ start_phases lanes) }
    {
        let session = SessionEntry::new(alloc, lanes)?;
        Ok(PhaseTable {
            lanes: vec![in alloc; LanePhase::Idle; lanes]?,
            sessions: vec![in alloc; session]?,
            turn: 0,
            is_halted: false,
        })
    }

    /// Whether the phases allow an event.
    pub fn allows(&self, event: CoreEvent) -> bool
        ensures { result ≡ is_allowed self.now event }
    {
        match event {
            CoreEvent::LaneStopLoad { lane } => self.is_lane_idle(lane),
            CoreEvent::LaneTry { lane } => self.is_lane_idle(lane),
            CoreEvent::Post { lane, most } => self.is_lane_holding(lane) && is_post(most),
            CoreEvent::Raise { lane } => self.is_lane_posted(lane),
            CoreEvent::SessionStopLoad { session } => self.is_session_idle(session),
            CoreEvent::SessionTry { session } => self.is_session_looked(session),
            CoreEvent::Load { session, lane } => self.may_load(session) && self.is_lane(lane),
            CoreEvent::Read { session } => self.is_session_holding(session),
            CoreEvent::Split { session } => self.is_session_idle(session),
            CoreEvent::Halt { session } => self.is_session_idle(session),
        }
    }

    /// Whether there is room for the sessions that an event makes in a list of steps.
    pub fn has_room(&self, event: CoreEvent) -> bool
        ensures { result ≡ has_room self.now event }
    {
        match event {
            CoreEvent::Split { .. } => self.sessions.len() < MOST_SESSIONS,
            _ => true,
        }
    }

    /// Passes to the phases after an event that they allow.
    pub fn pass(&mut self, event: CoreEvent, alloc: Global) -> Result<(), AllocError>
        ensures { OnOk result (self.new ≡ phases_after self.old event) }
    {
        match event {
            CoreEvent::LaneStopLoad { .. } => {}
            CoreEvent::LaneTry { lane } => self.try_lane(lane),
            CoreEvent::Post { lane, .. } => self.post(lane),
            CoreEvent::Raise { lane } => self.pass_lane(lane, LanePhase::Idle),
            CoreEvent::SessionStopLoad { session } => self.look(session),
            CoreEvent::SessionTry { session } => self.try_session(session),
            CoreEvent::Load { session, lane } => self.load(session, lane),
            CoreEvent::Read { session } => self.read(session),
            CoreEvent::Split { .. } => self.split(alloc)?,
            CoreEvent::Halt { .. } => self.is_halted = true,
        }
        Ok(())
    }

    /// Whether a halt came before.
    pub fn is_halted(&self) -> bool
        ensures { result ≡ self.now.is_halted }
    {
        self.is_halted
    }

    /// The turn word.
    pub fn turn(&self) -> u64
        ensures { result ≡ self.now.turn }
    {
        self.turn
    }

    /// How many sessions there are.
    pub fn sessions(&self) -> usize
        ensures { result ≡ length self.now.sessions }
    {
        self.sessions.len()
    }

    fn is_lane(&self, lane: u32) -> bool
        ensures { result ≡ nat_lt lane (length self.now.lanes) }
    {
        (lane as usize) < self.lanes.len()
    }

    fn is_lane_idle(&self, lane: u32) -> bool
        ensures { result ≡ lane_is is_idle_lane self.now lane }
    {
        match self.lanes.get(lane as usize) {
            Some(phase) => matches!(*phase, LanePhase::Idle),
            None => false,
        }
    }

    fn is_lane_holding(&self, lane: u32) -> bool
        ensures { result ≡ lane_is is_holding_lane self.now lane }
    {
        match self.lanes.get(lane as usize) {
            Some(phase) => matches!(*phase, LanePhase::Holding),
            None => false,
        }
    }

    fn is_lane_posted(&self, lane: u32) -> bool
        ensures { result ≡ lane_is is_posted_lane self.now lane }
    {
        match self.lanes.get(lane as usize) {
            Some(phase) => matches!(*phase, LanePhase::Posted),
            None => false,
        }
    }

    fn is_session_idle(&self, session: u32) -> bool
        ensures { result ≡ session_is is_idle_session self.now session }
    {
        match self.sessions.get(session as usize) {
            Some(entry) => matches!(entry.phase(), SessionPhase::Idle),
            None => false,
        }
    }

    fn is_session_looked(&self, session: u32) -> bool
        ensures { result ≡ session_is is_looked_session self.now session }
    {
        match self.sessions.get(session as usize) {
            Some(entry) => matches!(entry.phase(), SessionPhase::Looked),
            None => false,
        }
    }

    fn is_session_holding(&self, session: u32) -> bool
        ensures { result ≡ session_is is_holding_session self.now session }
    {
        match self.sessions.get(session as usize) {
            Some(entry) => matches!(entry.phase(), SessionPhase::Holding),
            None => false,
        }
    }

    fn may_load(&self, session: u32) -> bool
        ensures { result ≡ session_is may_load self.now session }
    {
        match self.sessions.get(session as usize) {
            Some(entry) => matches!(entry.phase(), SessionPhase::Idle | SessionPhase::Looking),
            None => false,
        }
    }

    fn pass_lane(&mut self, lane: u32, phase: LanePhase)
        ensures { self.new ≡ with_lane self.old lane phase }
    {
        if let Some(place) = self.lanes.get_mut(lane as usize) {
            *place = phase;
        }
    }

    fn pass_session(&mut self, session: u32, phase: SessionPhase)
        ensures { self.new ≡ with_session self.old session (in_phase phase) }
    {
        if let Some(entry) = self.sessions.get_mut(session as usize) {
            entry.pass(phase);
        }
    }

    fn try_lane(&mut self, lane: u32)
        ensures { self.new ≡ after_lane_try self.old lane }
    {
        if self.turn == 0 {
            self.pass_lane(lane, LanePhase::Holding);
            self.turn = u64::from(lane) + 1;
        }
    }

    fn post(&mut self, lane: u32)
        ensures { self.new ≡ with_turn (with_lane self.old lane lane_phase.Posted) 0 }
    {
        self.pass_lane(lane, LanePhase::Posted);
        self.turn = 0;
    }

    fn look(&mut self, session: u32)
        ensures { self.new ≡ after_session_stop_load self.old session }
    {
        if self.is_halted {
            return;
        }
        if let Some(entry) = self.sessions.get_mut(session as usize) {
            entry.look();
        }
    }

    fn try_session(&mut self, session: u32)
        ensures { self.new ≡ after_session_try self.old session }
    {
        if self.turn == 0 {
            self.pass_session(session, SessionPhase::Holding);
            self.turn = self.lanes.len() as u64 + 1;
        } else {
            self.pass_session(session, SessionPhase::Idle);
        }
    }

    fn load(&mut self, session: u32, lane: u32)
        ensures { self.new ≡ with_session self.old session (λ s. loads_lane lane s.phase s.loaded) }
    {
        if let Some(entry) = self.sessions.get_mut(session as usize) {
            entry.load(lane);
        }
    }

    fn read(&mut self, session: u32)
        ensures { self.new ≡ with_turn (with_session self.old session (in_phase session_phase.Idle)) 0 }
    {
        self.pass_session(session, SessionPhase::Idle);
        self.turn = 0;
    }

    fn split(&mut self, alloc: Global) -> Result<(), AllocError>
        ensures { OnOk result (self.new ≡ with_new_session self.old) }
    {
        self.sessions
            .push(SessionEntry::new(alloc, self.lanes.len())?)?;
        Ok(())
    }
}

// The phase of a looking session that has loaded these lanes.
fn looking_phase(loaded: &[bool]) -> SessionPhase
    ensures { result ≡ looking_phase loaded.now }
{
    if is_each(loaded) {
        SessionPhase::Looked
    } else {
        SessionPhase::Looking
    }
}

fn is_each(loaded: &[bool]) -> bool
    ensures { result ≡ list_all (λ b. b) loaded.now }
{
    loaded.iter().all(|loaded| *loaded)
}

// A post is of 1 to 64 items.
fn is_post(most: u32) -> bool
    ensures { result ≡ (nat_le 1 most && nat_le most 64) }
{
    1 <= most && most <= 64
}
