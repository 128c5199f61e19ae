// A session is split, halts the chain, or looks at its words.
ghost use Rattle.std.specs.Prelude.{◌≡◌, length};
ghost use Rattle.progress_words.specs.PassView.{after_stop};
ghost use Rattle.progress_words.specs.Words.{reader_of};
ghost use Rattle.query_session.specs.Session.{IsIdle, IsSessionOf, LoadsWords, SplitsOff, view_of};

use crate::chain::Chain;
use crate::loading::load_into;
use crate::session::{Session, SessionOf};
use crate::stage::Stage;
use interval_ledger::Ledger;

impl SessionOf<Ledger> {
    /// A second session, which goes on from the same cursor.
    pub fn split(&mut self, chain: &Chain) -> Session
        requires mine { IsSessionOf chain.now self.old }
        requires idle { IsIdle self.old }
        ensures mine { IsSessionOf chain.now self.new }
        ensures idle { IsIdle self.new }
        ensures other { IsSessionOf chain.now result }
        ensures split { SplitsOff self.old self.new result }
    {
        let pass = chain.words.split(&mut self.pass);
        SessionOf {
            pass,
            cursor: self.cursor,
            samples: self.samples,
            stage: Stage::Idle,
        }
    }

    /// Writes the stop word.
    pub fn halt(&mut self, chain: &Chain)
        requires mine { IsSessionOf chain.now self.old }
        requires idle { IsIdle self.old }
        ensures mine { IsSessionOf chain.now self.new }
        ensures idle { IsIdle self.new }
        ensures view { view_of self.new ≡ after_stop (view_of self.old) }
        ensures cursor { self.new.cursor ≡ self.old.cursor }
    {
        chain.words.stop(&mut self.pass);
    }

    /// One load of each lane's word.
    pub fn words(&mut self, chain: &Chain, into: &mut [u64])
        requires mine { IsSessionOf chain.now self.old }
        requires idle { IsIdle self.old }
        requires lanes { length into.old ≡ length (reader_of self.old.pass).words_read }
        ensures mine { IsSessionOf chain.now self.new }
        ensures idle { IsIdle self.new }
        ensures words { LoadsWords self.old self.new into.new }
        ensures cursor { self.new.cursor ≡ self.old.cursor }
    {
        load_into(&chain.words, &mut self.pass, into);
    }

    /// How many items the session was given.
    pub fn cursor(&self) -> u64
        ensures value { result ≡ self.now.cursor }
    {
        self.cursor as u64
    }
}
