//! Phases of one lane and of one session.

/// What a lane is at: it holds the turn after a take, has posted after its post, and is idle after its
/// raise.
#[derive(Clone, Copy)]
pub enum LanePhase {
    Idle,
    Holding,
    Posted,
}

/// What a session is at: it looks from its load of the stop word on, has looked once it has loaded each
/// lane's word, holds the turn after a grab, and is idle after its read.
#[derive(Clone, Copy)]
pub enum SessionPhase {
    Idle,
    Looking,
    Looked,
    Holding,
}
