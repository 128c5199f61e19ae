//! Events of the core.

/// What a lane or a session does in one atomic step on one word. A load of the stop word finds whether
/// the work was halted; a try takes the turn where it is free.
#[derive(Clone, Copy)]
pub enum CoreEvent {
    LaneStopLoad { lane: u32 },
    LaneTry { lane: u32 },
    Post { lane: u32, most: u32 },
    Raise { lane: u32 },
    SessionStopLoad { session: u32 },
    SessionTry { session: u32 },
    Load { session: u32, lane: u32 },
    Read { session: u32 },
    Split { session: u32 },
    Halt { session: u32 },
}
