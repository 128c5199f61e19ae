// A lane's seat.
ghost use Rattle.std.specs.Prelude.{◌≡◌, ◌≤◌, ◌<◌, length, drop};
ghost use Rattle.lanes.specs.Lane.{lane_count, lane_items, reach};
ghost use Rattle.pq_base.specs.Recorded.{sample_count};
ghost use Rattle.progress_words.specs.Words.{lane_of};
ghost use Rattle.query_session.specs.Ahead.{items_left};
ghost use Rattle.query_session.specs.Bounds.{HasBounds, next_items};
ghost use Rattle.query_session.specs.SeatStage.{ledger_in, HasMeasured, IsReady, MayPost};

use crate::ahead::Ahead;
use crate::seat_stage::SeatStage;
use interval_ledger::{Ledger, Subject};
use progress_words::{LanePass, Shared};

/// A lane's pass, how many items of the lane it has given back in the ledger, and those after them.
#[derive(Drop)]
pub struct SeatOf<'r, V: Shared<Name = Subject>> {
    pub(crate) pass: LanePass<V>,
    pub(crate) lane: u32,
    pub(crate) samples: u64,
    pub(crate) count: u64,
    pub(crate) ahead: Ahead<'r>,
    pub(crate) stage: SeatStage<V>,
    ghost holds: { pass.seat.me.0.held_value ≡ ledger_in stage },
    ghost place: { (lane_of pass).lane ≡ lane },
    ghost inside: { lane < lane_count pass.seat.me.0.name.recording },
    ghost bounds: { HasBounds pass.seat.me.0.name.recording pass.seat.me.0.name.limits },
    ghost end: { samples ≡ sample_count pass.seat.me.0.name.recording },
    ghost given: { (lane_of pass).reach_given ≡ reach pass.seat.me.0.name.recording lane count },
    ghost counted: { count ≤ length (lane_items pass.seat.me.0.name.recording lane) },
    ghost low: { (lane_of pass).word ≤ (lane_of pass).reach_given },
    ghost left: { items_left ahead ≡ drop count (lane_items pass.seat.me.0.name.recording lane) },
    ghost may: { MayPost V.reach V.name stage pass.seat.me.0.name lane (lane_of pass).reach_given },
    ghost measured: { HasMeasured stage ahead (next_items pass.seat.me.0.name.recording lane count) },
    ghost ready: { IsReady stage ahead },
}

/// The seat of a lane of a chain over a ledger.
pub type LaneSeat<'r> = SeatOf<'r, Ledger>;
