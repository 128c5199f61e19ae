// The end of the words.
ghost use Rattle.std.specs.Prelude.{◌≡◌, ◌≢◌};
ghost use Rattle.progress_words.specs.Turn.{IfValue, IfStillHeld};
ghost use Rattle.progress_words.specs.Words.{lanes_of, opening_of, IsNumber};

use crate::answer::Closed;
use crate::pass::Words;
use crate::shared::Shared;

impl<V: Shared> Words<V> {
    /// The value where the turn is free, else the turn word.
    pub fn close(self) -> Closed<V>
        ensures value { IfValue result (λ u. V.name u ≡ V.name (opening_of self)) }
        ensures held { IfStillHeld result (IsNumber (lanes_of self)) }
    {
        let Words { board, count } = self;
        let mut closed = board.close();
        let turn = closed.word(count);
        let slot = closed.take(0);
        closed.free();
        if turn != 0 {
            return Closed::Held(turn);
        }
        Closed::Value(slot.unwrap())
    }
}
