// A reader's pass is split.
ghost use Rattle.std.specs.Prelude.{◌≡◌, None};
ghost use Rattle.progress_words.specs.PassView.{after_split, split_view};
ghost use Rattle.progress_words.specs.Words.{read_view, IsReaderOf, ReaderKnows};

use crate::pass::{ReadPass, Words};
use crate::shared::Shared;
use crate::step::SplitReader;

impl<V: Shared> Words<V> {
    /// A second pass, which has read what this one has.
    pub fn split(&self, pass: &mut ReadPass<V>) -> ReadPass<V>
        requires mine { IsReaderOf self.now pass.old }
        requires idle { (read_view pass.old).held_value ≡ None }
        ensures old { ReaderKnows pass.old pass.new after_split }
        ensures new { ReaderKnows pass.old result split_view }
    {
        let shared = &self.board.shared;
        let seat = shared.split_seat::<SplitReader>(&mut pass.seat);
        ReadPass { seat }
    }
}
