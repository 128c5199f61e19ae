// A session.
ghost use Rattle.std.specs.Prelude.{◌≡◌, ◌≤◌, length};
ghost use Rattle.lanes.specs.Lane.{lane_count};
ghost use Rattle.pq_base.specs.Recorded.{sample_count};
ghost use Rattle.pq_sequence.specs.SequentialResult.{sequential};
ghost use Rattle.progress_words.specs.Words.{reader_of};
ghost use Rattle.query_session.specs.Bounds.{HasBounds};
ghost use Rattle.query_session.specs.Stage.{held_in, HasSeen, MayAdvance};

use crate::stage::Stage;
use interval_ledger::{Ledger, Subject};
use progress_words::{ReadPass, Shared};

/// A pass that reads, and how many items of the result it was given.
#[derive(Drop)]
pub struct SessionOf<V: Shared<Name = Subject>> {
    pub(crate) pass: ReadPass<V>,
    pub(crate) cursor: usize,
    pub(crate) samples: u64,
    pub(crate) stage: Stage<V>,
    ghost holds: { pass.seat.me.0.held_value ≡ held_in stage },
    ghost looked: { HasSeen stage (reader_of pass).words_read },
    ghost may: { MayAdvance V.reach V.name stage pass.seat.me.0.name (reader_of pass).words_read },
    ghost lanes: { length (reader_of pass).words_read ≡ lane_count pass.seat.me.0.name.recording },
    ghost bounds: { HasBounds pass.seat.me.0.name.recording pass.seat.me.0.name.limits },
    ghost end: { samples ≡ sample_count pass.seat.me.0.name.recording },
    ghost within: { cursor ≤ length (sequential pass.seat.me.0.name.recording pass.seat.me.0.name.limits) },
}

/// A session of a chain over a ledger.
pub type Session = SessionOf<Ledger>;
