// A lane's seat takes the turn, posts its next items and raises its word.
ghost use Rattle.std.specs.Prelude.{◌≡◌, ◌≤◌, min};
ghost use Rattle.progress_words.specs.Words.{lane_of};
ghost use Rattle.query_session.specs.LaneSeat.{IsMeasured, IsSameSeat, IsSeatHolding, IsSeatIdle};
ghost use Rattle.query_session.specs.LaneSeat.{IsSeatOf, IsSeatPosted, Posts, Raises, Steps, Takes};

use crate::chain::Chain;
use crate::lane_answer::{Lane, Taken};
use crate::seat::SeatOf;
use crate::seat_stage::SeatStage;
use interval_ledger::Ledger;
use progress_words::Take;
use std::mem;

impl<'r> SeatOf<'r, Ledger> {
    /// Takes, posts and raises.
    pub fn step(&mut self, chain: &Chain, most: u32) -> Lane
        requires mine { IsSeatOf chain.now self.old }
        requires idle { IsSeatIdle self.old }
        requires most { (1 ≤ most) × (most ≤ 64) }
        ensures mine { IsSeatOf chain.now self.new }
        ensures idle { IsSeatIdle self.new }
        ensures steps { Steps self.old self.new most result }
    {
        match self.take(chain) {
            Taken::Halted => return Lane::Halted,
            Taken::Busy { word } => return Lane::Busy { word },
            Taken::Held => {}
        }
        self.post(chain, most);
        self.raise(chain)
    }

    /// Measures the next items, loads the stop word and, unless it is 1, tries the turn once.
    pub fn take(&mut self, chain: &Chain) -> Taken
        requires mine { IsSeatOf chain.now self.old }
        requires idle { IsSeatIdle self.old }
        ensures mine { IsSeatOf chain.now self.new }
        ensures same { IsSameSeat self.old self.new }
        ensures measured { IsMeasured self.new }
        ensures takes { Takes self.old self.new result }
    {
        self.ahead.measure();
        if chain.words.stopped_lane(&mut self.pass) {
            return Taken::Halted;
        }
        match chain.words.take_lane(&mut self.pass) {
            Take::Busy(word) => Taken::Busy { word },
            Take::Held(ledger) => {
                self.stage = SeatStage::Holding { ledger };
                Taken::Held
            }
        }
    }

    /// Posts the next items, so many or all that are left, and gives the ledger back. Answers how many.
    pub fn post(&mut self, chain: &Chain, most: u32) -> u32
        requires mine { IsSeatOf chain.now self.old }
        requires holding { IsSeatHolding self.old }
        requires most { (1 ≤ most) × (most ≤ 64) }
        ensures mine { IsSeatOf chain.now self.new }
        ensures posts { Posts self.old self.new most result }
    {
        let stage = mem::replace(&mut self.stage, SeatStage::Idle);
        let SeatStage::Holding { mut ledger } = stage else {
            unreachable!()
        };
        let count = lesser(most as usize, self.ahead.len());
        self.ahead.post(&mut ledger, self.lane, count);
        chain.words.give_lane(&mut self.pass, ledger);
        self.count += count as u64;
        let count = count as u32;
        self.stage = SeatStage::Posted { count };
        count
    }

    /// The lane's reach, to which the word is due to be raised.
    pub fn due(&self) -> u64
        requires { IsSeatPosted self.now }
        ensures { result ≡ (lane_of self.now.pass).reach_given }
    {
        self.ahead.due(self.samples)
    }

    /// Raises the word to the lane's reach.
    pub fn raise(&mut self, chain: &Chain) -> Lane
        requires mine { IsSeatOf chain.now self.old }
        requires posted { IsSeatPosted self.old }
        ensures mine { IsSeatOf chain.now self.new }
        ensures idle { IsSeatIdle self.new }
        ensures same { IsSameSeat self.old self.new }
        ensures raises { Raises self.old self.new result }
    {
        let SeatStage::Posted { count } = self.stage else {
            unreachable!()
        };
        let word = self.due();
        chain.words.raise(&mut self.pass, word);
        self.stage = SeatStage::Idle;
        if self.ahead.len() > 0 {
            return Lane::More { count, word };
        }
        Lane::Done { count, word }
    }

    /// Which lane it is.
    pub fn lane(&self) -> u32
        ensures value { result ≡ self.now.lane }
    {
        self.lane
    }
}

// The lesser of two numbers.
fn lesser(a: usize, b: usize) -> usize
    ensures { result ≡ min a b }
{
    if a < b { a } else { b }
}
