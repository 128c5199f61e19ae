// A session looks, takes the turn and reads.
ghost use Rattle.std.specs.Prelude.{◌≡◌, []};
ghost use Rattle.query_session.specs.Reading.{cursor_after};
ghost use Rattle.query_session.specs.Session.{GivesSeveral, Grabs, IsComplete, IsHolding, IsIdle, IsLooked};
ghost use Rattle.query_session.specs.Session.{IsSessionOf, Looks, NextAnswers, ReadsOnce, TakesReleased};

use crate::answer::{Grab, Look, Next};
use crate::chain::Chain;
use crate::loading::load_all;
use crate::reading::{gather, move_on, read_ledger};
use crate::session::SessionOf;
use crate::stage::Stage;
use interval_ledger::Ledger;
use pq_items::Item;
use progress_words::Take;
use std::mem;

impl SessionOf<Ledger> {
    /// Looks, tries the turn and reads.
    pub fn next(&mut self, chain: &Chain) -> Next
        requires mine { IsSessionOf chain.now self.old }
        requires idle { IsIdle self.old }
        ensures mine { IsSessionOf chain.now self.new }
        ensures idle { IsIdle self.new }
        ensures answers { NextAnswers self.old self.new result }
        ensures cursor { self.new.cursor ≡ cursor_after self.old.cursor result }
        ensures complete { IsComplete self.old self.new result }
    {
        match self.look(chain) {
            Look::Halted => return Next::Halted,
            Look::Seen { .. } => {}
        }
        match self.grab(chain) {
            Grab::Busy { word } => return Next::Busy { word },
            Grab::Held => {}
        }
        self.read(chain)
    }

    /// Looks, tries the turn, takes the items that are released already, some at most, into the list, and
    /// reads. The list has nothing else.
    pub fn next_several(&mut self, chain: &Chain, items: &mut Vec<Item>) -> Next
        requires mine { IsSessionOf chain.now self.old }
        requires idle { IsIdle self.old }
        ensures mine { IsSessionOf chain.now self.new }
        ensures idle { IsIdle self.new }
        ensures gives { GivesSeveral self.old self.new items.new.items result }
    {
        items.clear();
        match self.look(chain) {
            Look::Halted => return Next::Halted,
            Look::Seen { lane: _, word: _ } => {}
        }
        match self.grab(chain) {
            Grab::Busy { word } => return Next::Busy { word },
            Grab::Held => self.take_released(items),
        }
        self.read(chain)
    }

    /// Loads the stop word and, unless it is 1, each lane's word.
    pub fn look(&mut self, chain: &Chain) -> Look
        requires mine { IsSessionOf chain.now self.old }
        requires idle { IsIdle self.old }
        ensures mine { IsSessionOf chain.now self.new }
        ensures looks { Looks self.old self.new result }
    {
        if chain.words.stopped_reader(&mut self.pass) {
            return Look::Halted;
        }
        let (lane, word) = load_all(&chain.words, &mut self.pass, chain.lanes);
        self.stage = Stage::Looked { lane, word };
        Look::Seen { lane, word }
    }

    /// Tries the turn once.
    pub fn grab(&mut self, chain: &Chain) -> Grab
        requires mine { IsSessionOf chain.now self.old }
        requires looked { IsLooked self.old }
        ensures mine { IsSessionOf chain.now self.new }
        ensures grabs { Grabs self.old self.new result }
    {
        let Stage::Looked { lane, word } = self.stage else {
            unreachable!()
        };
        match chain.words.take_reader(&mut self.pass) {
            Take::Busy(word) => {
                self.stage = Stage::Idle;
                Grab::Busy { word }
            }
            Take::Held(ledger) => {
                self.stage = Stage::Holding { lane, word, ledger };
                Grab::Held
            }
        }
    }

    // Takes the items at the cursor that are released already, some at most.
    fn take_released(&mut self, items: &mut Vec<Item>)
        requires holding { IsHolding self.old }
        requires none { items.old.items ≡ [] }
        ensures { TakesReleased self.old self.new items.new.items }
    {
        let Stage::Holding { ledger, .. } = &self.stage else {
            unreachable!()
        };
        self.cursor = gather(ledger, self.cursor, items);
    }

    /// Advances the ledger to the word seen, reads the item at the cursor and gives the ledger back.
    pub fn read(&mut self, chain: &Chain) -> Next
        requires mine { IsSessionOf chain.now self.old }
        requires holding { IsHolding self.old }
        ensures mine { IsSessionOf chain.now self.new }
        ensures reads { ReadsOnce self.old self.new result }
    {
        let stage = mem::replace(&mut self.stage, Stage::Idle);
        let Stage::Holding {
            lane,
            word,
            mut ledger,
        } = stage
        else {
            unreachable!()
        };
        let next = read_ledger(&mut ledger, lane, word, self.samples, self.cursor);
        chain.words.give_reader(&mut self.pass, ledger);
        self.cursor = move_on(self.cursor, &next);
        next
    }
}
