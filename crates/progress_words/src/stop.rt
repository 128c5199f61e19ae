// The stop word.
ghost use Rattle.std.specs.Prelude.{◌≡◌, ℕ, ◌+◌, true, false};
ghost use Rattle.progress_words.specs.PassView.{after_stop, after_stop_load, bit_of, IsAlone};
ghost use Rattle.progress_words.specs.Step.{FindsStop};
ghost use Rattle.progress_words.specs.Words.{lane_view, read_view, reader_of, IsLaneOf, IsReaderOf, LaneKnows, ReaderKnows};

use crate::pass::{LanePass, ReadPass, Words};
use crate::shared::Shared;
use crate::step::{LoadStop, WriteStop};
use crate::table::Place;

impl<V: Shared> Words<V> {
    /// Writes the stop word.
    pub fn stop(&self, pass: &mut ReadPass<V>)
        requires { IsReaderOf self.now pass.old }
        ensures { ReaderKnows pass.old pass.new after_stop }
    {
        let shared = &self.board.shared;
        shared.store::<WriteStop>(&mut pass.seat, self.count + 1, 1);
    }

    /// Whether this load of the stop word found 1.
    pub fn stopped_lane(&self, pass: &mut LanePass<V>) -> bool
        requires { IsLaneOf self.now pass.old }
        ensures view { LaneKnows pass.old pass.new (after_stop_load (bit_of result)) }
        ensures again { (lane_view pass.old).stop_found ≡ 1 → result ≡ true }
    {
        load_stop(self, &mut pass.seat)
    }

    /// Whether this load of the stop word found 1.
    pub fn stopped_reader(&self, pass: &mut ReadPass<V>) -> bool
        requires { IsReaderOf self.now pass.old }
        ensures view { ReaderKnows pass.old pass.new (after_stop_load (bit_of result)) }
        ensures again { (read_view pass.old).stop_found ≡ 1 → result ≡ true }
        ensures wrote { (reader_of pass.old).wrote_stop ≡ true → result ≡ true }
        ensures alone { IsAlone (reader_of pass.old) → result ≡ false }
    {
        load_stop(self, &mut pass.seat)
    }
}

// Whether one load of the stop word found 1.
fn load_stop<V: Shared>(words: &Words<V>, seat: &mut Place<V>) -> bool
    requires { seat.old.table_id ≡ words.now.board.shared.table_id }
    ensures mine { seat.new.table_id ≡ seat.old.table_id }
    ensures pass { seat.new.me ≡ (after_stop_load (bit_of result) seat.old.me.0, seat.old.me.1) }
    ensures finds { FindsStop seat.old.me.0 (bit_of result) }
{
    let shared = &words.board.shared;
    shared.load::<LoadStop>(seat, words.count + 1) == 1
}
