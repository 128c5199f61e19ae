// How a chain is made, and what is left of it.
ghost use Rattle.std.specs.Prelude.{◌≡◌, ◌<◌, ◌≢◌, IfOk, vec_len};
ghost use Rattle.event_detect.specs.Threshold.{IsInOrder};
ghost use Rattle.interval_ledger.specs.Ledger.{subject_of};
ghost use Rattle.lanes.specs.Lane.{lane_count};
ghost use Rattle.progress_words.specs.Turn.{IfStillHeld, IfValue};
ghost use Rattle.progress_words.specs.Words.{AreFreshLanes, IsNumber, lane_view, opening_of, read_view};
ghost use Rattle.query_session.specs.Chain.{AreFreshSeats, AreReady, IsFreshLaneOf, IsFreshReaderOf};
ghost use Rattle.query_session.specs.Chain.{IsFreshSession, IsOpeningOf, IsSeatFrom, IsSessionFrom};
ghost use Rattle.query_session.specs.Chain.{limits_at};

use crate::ahead::Ahead;
use crate::chain::{Chain, ChainOf};
use crate::seat::{LaneSeat, SeatOf};
use crate::seat_stage::SeatStage;
use crate::session::{Session, SessionOf};
use crate::stage::Stage;
use event_detect::Limits;
use interval_ledger::Ledger;
use lane_sources::LaneSources;
use pq_base::{OutOfMemory, Recording};
use progress_words::{Closed, LanePass, ReadPass, Words};
use std::alloc::{AllocError, Global};

impl ChainOf<Ledger> {
    /// A chain over a recording and limits, with a seat for each lane in order, and a session.
    pub fn open<'r>(
        alloc: Global,
        recording: &'r Recording,
        limits: &Limits,
    ) -> Result<(Chain, Vec<LaneSeat<'r>>, Session), OutOfMemory>
        requires { IsInOrder limits.now }
        ensures count { IfOk result (λ t. vec_len t.1 ≡ lane_count recording.now) }
        ensures seats { IfOk result (λ t. AreFreshSeats t.0 recording.now limits.now 0 t.1.items) }
        ensures ready { IfOk result (λ t. AreReady t.0 t.1.items) }
        ensures session { IfOk result (λ t. IsFreshSession t.0 recording.now limits.now t.2) }
    {
        let lanes = 2 * recording.channels() + 1;
        let sources = LaneSources::new(alloc, recording)?;
        let ledger = Ledger::open(alloc, recording, limits)?;
        let Ok((words, passes, pass)) = Words::open(alloc, ledger) else {
            return Err(OutOfMemory);
        };
        let chain = ChainOf { words, lanes };
        let seats = make_seats(alloc, &chain, &sources, passes)?;
        let session = make_session(recording, pass);
        Ok((chain, seats, session))
    }

    /// The ledger where the turn is free, else the turn word.
    pub fn close(self) -> Closed<Ledger>
        ensures value { IfValue result (λ u. subject_of u ≡ subject_of (opening_of self.words)) }
        ensures held { IfStillHeld result (IsNumber self.lanes) }
    {
        let ChainOf { words, lanes: _ } = self;
        words.close()
    }
}

// A seat for each pass.
fn make_seats<'r>(
    alloc: Global,
    chain: &Chain,
    sources: &LaneSources<'r>,
    passes: Vec<LanePass<Ledger>>,
) -> Result<Vec<LaneSeat<'r>>, AllocError>
    requires fresh { AreFreshLanes chain.now.words (opening_of chain.now.words) 0 passes.items }
    requires lanes { vec_len passes ≡ lane_count sources.now }
    requires opening { IsOpeningOf sources.now (limits_at chain.now) (opening_of chain.now.words) }
    ensures count { IfOk result (λ v. vec_len v ≡ lane_count sources.now) }
    ensures seats { IfOk result (λ v. AreFreshSeats chain.now sources.now (limits_at chain.now) 0 v.items) }
{
    let mut seats = Vec::with_capacity(alloc, passes.len())?;
    let mut lane = 0;
    for pass in passes {
        let seat = make_seat(alloc, sources, lane, pass)?;
        seats.push(seat)?;
        lane += 1;
    }
    Ok(seats)
}

// The seat of a fresh pass.
fn make_seat<'r>(
    alloc: Global,
    sources: &LaneSources<'r>,
    lane: u32,
    pass: LanePass<Ledger>,
) -> Result<LaneSeat<'r>, AllocError>
    requires fresh { IsFreshLaneOf sources.now lane (lane_view pass) }
    requires inside { lane < lane_count sources.now }
    ensures { IfOk result (λ s. IsSeatFrom pass lane s) }
{
    let ahead = Ahead::open(alloc, sources, lane)?;
    Ok(SeatOf {
        pass,
        lane,
        samples: sources.recording().len(),
        count: 0,
        ahead,
        stage: SeatStage::Idle,
    })
}

// The session of a fresh pass.
fn make_session(recording: &Recording, pass: ReadPass<Ledger>) -> Session
    requires fresh { IsFreshReaderOf recording.now (read_view pass) }
    ensures { IsSessionFrom pass result }
{
    SessionOf {
        pass,
        cursor: 0,
        samples: recording.len(),
        stage: Stage::Idle,
    }
}
