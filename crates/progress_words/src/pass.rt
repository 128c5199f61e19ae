// The words, and the passes that step on them.
ghost use Rattle.std.specs.Prelude.{◌≡◌, ℕ, ◌+◌, ◌<◌, ◌≤◌, length};
ghost use Rattle.progress_words.specs.declared.pass_view.Role.TheVariants.{Raises, Reads};
ghost use Rattle.progress_words.specs.declared.shared.TheConstants.{MOST_LANES};
ghost use Rattle.progress_words.specs.PassView.{lane_part, reader_part, taken_slots};

use crate::shared::Shared;
use crate::table::{Board, Place};

/// The words of a value's lanes.
#[derive(Drop)]
pub struct Words<V: Shared> {
    pub(crate) board: Board<V>,
    pub(crate) count: usize,
    ghost words: { board.shared.table_id.words ≡ count + 2 },
    ghost slots: { board.shared.table_id.slots ≡ 1 },
    ghost lanes: { count ≡ board.shared.key.lanes },
    ghost few: { count ≤ MOST_LANES },
}

/// The pass of one lane, which may raise the lane's word.
#[derive(Drop)]
pub struct LanePass<V: Shared> {
    pub(crate) seat: Place<V>,
    pub(crate) lane: usize,
    ghost raises: { seat.me.0.role ≡ Raises (lane_part seat.me.0.role) },
    ghost numbered: { (lane_part seat.me.0.role).lane ≡ lane },
    ghost below: { lane + 2 < seat.table_id.words },
    ghost slots: { seat.me.1 ≡ taken_slots seat.me.0.held_value },
}

/// The pass of a reader, which may load each lane's word.
#[derive(Drop)]
pub struct ReadPass<V: Shared> {
    pub(crate) seat: Place<V>,
    ghost reads: { seat.me.0.role ≡ Reads (reader_part seat.me.0.role) },
    ghost words: { length (reader_part seat.me.0.role).words_read + 2 ≡ seat.table_id.words },
    ghost loads: { length (reader_part seat.me.0.role).loads + 2 ≡ seat.table_id.words },
    ghost slots: { seat.me.1 ≡ taken_slots seat.me.0.held_value },
}
