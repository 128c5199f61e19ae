// The numbers of the core.
ghost use Rattle.std.specs.Prelude.{◌≡◌, ◌<◌, ◌^◌, length, slice_index, IfOk, OnOk};
ghost use Rattle.chain_core.specs.Core.{mark_after, unreleased};

use crate::answer::Answer;
use crate::core_event::CoreEvent;
use crate::least_word::{least, least_lane};
use crate::measurement::Measurement;
use std::alloc::{AllocError, Global};
use std::marker::Model;

/// What a session has read.
#[derive(Drop)]
pub struct SessionView {
    cursor: u64,
    words: Vec<u64>,
}

impl Model for SessionView {
    ghost use Rattle.chain_core.specs.Core.{View};

    ghost Value = { View };

    ghost use Rattle.std.specs.Prelude.{◌<◌, ◌^◌, length};

    ghost view = { λ v. record { cursor = v.cursor; words = v.words.items } };

    ghost invariant = { λ v. length v.words.items < 2 ^ 32 };
}

/// What lanes have posted and raised, the mark, and what sessions have read.
#[derive(Drop)]
pub struct NumberTable {
    counts: Vec<u64>,
    words: Vec<u64>,
    mark: u64,
    views: Vec<SessionView>,
}

impl Model for NumberTable {
    ghost use Rattle.chain_core.specs.Core.{Numbers};

    ghost Value = { Numbers };

    ghost view = { λ n. record {
      counts = n.counts.items;
      words = n.words.items;
      mark = n.mark;
      views = n.views.items;
    } };
}

impl SessionView {
    ghost use Rattle.chain_core.specs.Core.{start_view, view_loaded, view_read};

    fn new(alloc: Global, lanes: usize) -> Result<SessionView, AllocError>
        requires { lanes < 2 ^ 32 }
        ensures { IfOk result (λ v. v ≡ start_view lanes) }
    {
        Ok(SessionView {
            cursor: 0,
            words: vec![in alloc; 0u64; lanes]?,
        })
    }

    // The same once more.
    fn copied(&self, alloc: Global) -> Result<SessionView, AllocError>
        ensures { IfOk result (λ v. v ≡ self.now) }
    {
        Ok(SessionView {
            cursor: self.cursor,
            words: self.words.to_vec(alloc)?,
        })
    }

    fn cursor(&self) -> u64
        ensures { result ≡ self.now.cursor }
    {
        self.cursor
    }

    fn words(&self) -> &[u64]
        ensures value { result.now ≡ self.now.words }
        ensures few { length result.now < 2 ^ 32 }
    {
        self.words.as_slice()
    }

    fn load(&mut self, lane: u32, word: u64)
        ensures { self.new ≡ view_loaded lane word self.old }
    {
        if let Some(place) = self.words.get_mut(lane as usize) {
            *place = word;
        }
    }

    fn read(&mut self, measurement: &Measurement, mark: u64)
        ensures { self.new ≡ view_read measurement.now mark self.old }
    {
        let mark = mark_of(mark, &self.words);
        let _count = measurement.count();
        match measurement.released(mark, self.cursor) {
            Some(_) => self.cursor += 1,
            None => {}
        }
    }
}

impl NumberTable {
    ghost use Rattle.chain_core.specs.Core.{after_load, count_after, after_post, after_raise, after_read, after_split, is_done, numbers_after, posted, raised, read_answer, start_numbers, view_of};

    /// All numbers 0, and one session.
    pub fn new(alloc: Global, lanes: usize) -> Result<NumberTable, AllocError>
        requires { lanes < 2 ^ 32 }
        ensures { IfOk result (λ n. n ≡ start_numbers lanes) }
    {
        let view = SessionView::new(alloc, lanes)?;
        Ok(NumberTable {
            counts: vec![in alloc; 0u64; lanes]?,
            words: vec![in alloc; 0u64; lanes]?,
            mark: 0,
            views: vec![in alloc; view]?,
        })
    }

    /// Changes the numbers as an event does.
    pub fn change(
        &mut self,
        measurement: &Measurement,
        event: CoreEvent,
        alloc: Global,
    ) -> Result<(), AllocError>
        ensures { OnOk result (self.new ≡ numbers_after measurement.now self.old event) }
    {
        match event {
            CoreEvent::Post { lane, most } => self.post(measurement, lane, most),
            CoreEvent::Raise { lane } => self.raise(measurement, lane),
            CoreEvent::Load { session, lane } => self.load(session, lane),
            CoreEvent::Read { session } => self.read(measurement, session),
            CoreEvent::Split { session } => self.split(alloc, session)?,
            _ => {}
        }
        Ok(())
    }

    /// How many items a post of at most so many posts.
    pub fn posted(&self, measurement: &Measurement, lane: u32, most: u32) -> u32
        ensures { result ≡ posted measurement.now self.now lane most }
    {
        let left = (measurement.keys(lane).len() as u64).saturating_sub(self.count(lane));
        u64::from(most).min(left) as u32
    }

    /// The word that a raise writes.
    pub fn raised(&self, measurement: &Measurement, lane: u32) -> u64
        ensures { result ≡ raised measurement.now self.now lane }
    {
        measurement.reach(lane, self.count(lane))
    }

    /// Whether every item of a lane is posted.
    pub fn is_done(&self, measurement: &Measurement, lane: u32) -> bool
        ensures { result ≡ is_done measurement.now self.now lane }
    {
        self.count(lane) == measurement.keys(lane).len() as u64
    }

    /// The word of a lane.
    pub fn word(&self, lane: u32) -> u64
        ensures { result ≡ slice_index self.now.words lane }
    {
        self.words.get(lane as usize).copied().unwrap_or(0)
    }

    /// The answer of a read.
    pub fn read_answer(&self, measurement: &Measurement, session: u32) -> Answer
        ensures { result ≡ read_answer measurement.now self.now.mark (view_of self.now session) }
    {
        let words = self.words_read(session);
        let mark = mark_of(self.mark, words);
        match measurement.released(mark, self.cursor(session)) {
            Some(item) => Answer::Item(item),
            None => unreleased_answer(measurement, words),
        }
    }

    fn count(&self, lane: u32) -> u64
        ensures { result ≡ slice_index self.now.counts lane }
    {
        self.counts.get(lane as usize).copied().unwrap_or(0)
    }

    fn cursor(&self, session: u32) -> u64
        ensures { result ≡ (view_of self.now session).cursor }
    {
        match self.views.get(session as usize) {
            Some(view) => view.cursor(),
            None => 0,
        }
    }

    fn words_read(&self, session: u32) -> &[u64]
        ensures value { result.now ≡ (view_of self.now session).words }
        ensures few { length result.now < 2 ^ 32 }
    {
        match self.views.get(session as usize) {
            Some(view) => view.words(),
            None => &[],
        }
    }

    fn post(&mut self, measurement: &Measurement, lane: u32, most: u32)
        ensures { self.new ≡ after_post measurement.now self.old lane most }
    {
        let count = self.count_after(measurement, lane, most);
        if let Some(place) = self.counts.get_mut(lane as usize) {
            *place = count;
        }
    }

    fn count_after(&self, measurement: &Measurement, lane: u32, most: u32) -> u64
        ensures { result ≡ count_after measurement.now self.now lane most }
    {
        let count = self.count(lane);
        let keys = measurement.keys(lane).len() as u64;
        count + u64::from(most).min(keys.saturating_sub(count))
    }

    fn raise(&mut self, measurement: &Measurement, lane: u32)
        ensures { self.new ≡ after_raise measurement.now self.old lane }
    {
        let raised = self.raised(measurement, lane);
        if let Some(word) = self.words.get_mut(lane as usize) {
            *word = raised;
        }
    }

    fn load(&mut self, session: u32, lane: u32)
        ensures { self.new ≡ after_load self.old session lane }
    {
        let word = self.word(lane);
        if let Some(view) = self.views.get_mut(session as usize) {
            view.load(lane, word);
        }
    }

    fn read(&mut self, measurement: &Measurement, session: u32)
        ensures { self.new ≡ after_read measurement.now self.old session }
    {
        let mark = mark_of(self.mark, self.words_read(session));
        if let Some(view) = self.views.get_mut(session as usize) {
            view.read(measurement, self.mark);
        }
        self.mark = mark;
    }

    fn split(&mut self, alloc: Global, session: u32) -> Result<(), AllocError>
        ensures { OnOk result (self.new ≡ after_split self.old session) }
    {
        let view = self.view(alloc, session)?;
        self.views.push(view)?;
        Ok(())
    }

    fn view(&self, alloc: Global, session: u32) -> Result<SessionView, AllocError>
        ensures { IfOk result (λ v. v ≡ view_of self.now session) }
    {
        match self.views.get(session as usize) {
            Some(view) => view.copied(alloc),
            None => SessionView::new(alloc, 0),
        }
    }
}

// The mark after a read of such words.
fn mark_of(mark: u64, words: &[u64]) -> u64
    ensures { result ≡ mark_after mark words.now }
{
    mark.max(least(words))
}

// The answer where no item is released.
fn unreleased_answer(measurement: &Measurement, words: &[u64]) -> Answer
    requires { length words.now < 2 ^ 32 }
    ensures { result ≡ unreleased measurement.now words.now }
{
    let word = least(words);
    if word == measurement.samples() {
        Answer::End
    } else {
        Answer::Withheld {
            lane: least_lane(words) as u32,
            word,
        }
    }
}
