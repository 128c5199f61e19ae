// The turn, with which the value goes out and comes back.
ghost use Rattle.std.specs.Prelude.{◌≡◌, ◌≢◌, ◌+◌, ◌<◌, ℕ, [], None};
ghost use Rattle.progress_words.specs.PassView.{after_try, after_give, after_lane_give, taken_slots};
ghost use Rattle.progress_words.specs.Seat.{number_of};
ghost use Rattle.progress_words.specs.Step.{after_turn};
ghost use Rattle.progress_words.specs.Turn.{IfHeld, IfBusy, Covers, HasReachGiven, ReachesWord, ReachesReads, LaneMayGive, ReaderMayGive, MayGive};
ghost use Rattle.progress_words.specs.Words.{lane_view, read_view, lane_of, reader_of, IsLaneOf, IsReaderOf, lanes_of, LaneKnows, ReaderKnows};

use crate::answer::Take;
use crate::pass::{LanePass, ReadPass, Words};
use crate::shared::Shared;
use crate::step::{Give, Try};
use crate::table::Place;

impl<V: Shared> Words<V> {
    /// Tries the turn once.
    pub fn take_lane(&self, pass: &mut LanePass<V>) -> Take<V>
        requires mine { IsLaneOf self.now pass.old }
        requires idle { (lane_view pass.old).held_value ≡ None }
        ensures view { LaneKnows pass.old pass.new (after_try result) }
        ensures name { IfHeld result (λ u. V.name u ≡ (lane_view pass.old).name) }
        ensures own { IfHeld result (HasReachGiven V.reach (lane_of pass.old)) }
        ensures word { IfHeld result (ReachesWord V.reach (lane_of pass.old)) }
        ensures busy { IfBusy result (λ word. word ≢ 0) }
    {
        try_turn(self, &mut pass.seat, pass.lane as u64 + 1)
    }

    /// Tries the turn once.
    pub fn take_reader(&self, pass: &mut ReadPass<V>) -> Take<V>
        requires mine { IsReaderOf self.now pass.old }
        requires idle { (read_view pass.old).held_value ≡ None }
        ensures view { ReaderKnows pass.old pass.new (after_try result) }
        ensures name { IfHeld result (λ u. V.name u ≡ (read_view pass.old).name) }
        ensures reads { IfHeld result (ReachesReads V.reach (reader_of pass.old)) }
        ensures busy { IfBusy result (λ word. word ≢ 0) }
    {
        try_turn(self, &mut pass.seat, self.count as u64 + 1)
    }

    /// Gives the value back. The lane may have raised its own reach.
    pub fn give_lane(&self, pass: &mut LanePass<V>, value: V)
        requires mine { IsLaneOf self.now pass.old }
        requires may { LaneMayGive V.reach V.name (lanes_of self.now) value (lane_view pass.old) }
        ensures { LaneKnows pass.old pass.new (after_lane_give V.reach value) }
    {
        give_turn(self, &mut pass.seat, value);
    }

    /// Gives the value back, with every reach as it was.
    pub fn give_reader(&self, pass: &mut ReadPass<V>, value: V)
        requires mine { IsReaderOf self.now pass.old }
        requires may { ReaderMayGive V.reach V.name (lanes_of self.now) value (read_view pass.old) }
        ensures { ReaderKnows pass.old pass.new (after_give value) }
    {
        give_turn(self, &mut pass.seat, value);
    }
}

// Tries the turn once, for the pass with this number.
fn try_turn<V: Shared>(words: &Words<V>, seat: &mut Place<V>, number: u64) -> Take<V>
    requires mine { seat.old.table_id ≡ words.now.board.shared.table_id }
    requires idle { seat.old.me.0.held_value ≡ None }
    requires slots { seat.old.me.1 ≡ taken_slots seat.old.me.0.held_value }
    requires number { number ≡ number_of (lanes_of words.now) seat.old.me.0.role }
    ensures mine { seat.new.table_id ≡ seat.old.table_id }
    ensures view { seat.new.me.0 ≡ after_try result seat.old.me.0 }
    ensures role { seat.new.me.0.role ≡ seat.old.me.0.role }
    ensures slots { seat.new.me.1 ≡ taken_slots seat.new.me.0.held_value }
    ensures name { IfHeld result (λ u. V.name u ≡ seat.old.me.0.name) }
    ensures covers { IfHeld result (Covers V.reach seat.old.me.0.role) }
    ensures busy { IfBusy result (λ word. word ≢ 0) }
{
    let shared = &words.board.shared;
    let found = shared.compare_exchange::<Try>(seat, words.count, 0, number);
    if found != 0 {
        return Take::Busy(found);
    }
    let value = shared.exchange(seat, 0, None).unwrap();
    Take::Held(value)
}

// Lays the value into the slot and gives the turn back.
fn give_turn<V: Shared>(words: &Words<V>, seat: &mut Place<V>, value: V)
    requires mine { seat.old.table_id ≡ words.now.board.shared.table_id }
    requires slots { seat.old.me.1 ≡ taken_slots seat.old.me.0.held_value }
    requires may { MayGive V.reach V.name (lanes_of words.now) value seat.old.me.0 }
    ensures mine { seat.new.table_id ≡ seat.old.table_id }
    ensures view { seat.new.me.0 ≡ after_turn V.reach value seat.old.me.0 }
    ensures slots { seat.new.me.1 ≡ taken_slots seat.new.me.0.held_value }
{
    let shared = &words.board.shared;
    shared.exchange(seat, 0, Some(value));
    shared.store::<Give>(seat, words.count, 0);
}
