// The words of the lanes: raised by a lane's pass, loaded by a reader's.
ghost use Rattle.std.specs.Prelude.{◌≡◌, ℕ, ◌+◌, ◌<◌, ◌≤◌, slice_index};
ghost use Rattle.progress_words.specs.PassView.{after_raise, after_load};
ghost use Rattle.progress_words.specs.Words.{lane_view, read_view, lane_of, reader_of, IsLaneOf, IsReaderOf, lanes_of, LaneKnows, ReaderKnows};

use crate::pass::{LanePass, ReadPass, Words};
use crate::shared::Shared;
use crate::step::{Load, Raise};

impl<V: Shared> Words<V> {
    /// Raises the word of the pass's lane.
    pub fn raise(&self, pass: &mut LanePass<V>, word: u64)
        requires mine { IsLaneOf self.now pass.old }
        requires least { (lane_of pass.old).word ≤ word }
        requires within { word ≤ (lane_of pass.old).reach_given }
        ensures { LaneKnows pass.old pass.new (after_raise word) }
    {
        let shared = &self.board.shared;
        shared.store::<Raise>(&mut pass.seat, pass.lane, word);
    }

    /// Loads the word of a lane.
    pub fn load(&self, pass: &mut ReadPass<V>, lane: u32) -> u64
        requires mine { IsReaderOf self.now pass.old }
        requires lane { lane < lanes_of self.now }
        ensures view { ReaderKnows pass.old pass.new (after_load lane result) }
        ensures rises { slice_index (reader_of pass.old).words_read lane ≤ result }
    {
        let shared = &self.board.shared;
        shared.load::<Load>(&mut pass.seat, lane as usize)
    }
}
