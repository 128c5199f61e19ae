// The calls of the ledger.
ghost use Rattle.std.specs.Prelude.{◌≡◌, ◌<◌, length, max, slice_get, IfOk, OnOk, OnErr};
ghost use Rattle.event_detect.specs.Threshold.{IsInOrder};
ghost use Rattle.interval_ledger.specs.Ledger.{IsNextItem, IsReached, KeepsCounts, MergesOn, PostsOne, TicksAtMost, count_of, lanes_of, mark_of, released_of, view_of};
ghost use Rattle.interval_ledger.specs.Settlement.{nothing_posted};

use crate::ledger::Ledger;
use crate::settlement::Settlement;
use crate::steps::Steps;
use event_detect::Limits;
use lanes::LaneItem;
use pq_base::Recording;
use pq_items::Item;
use std::alloc::{AllocError, Global};
use std::sync::ledger::Ledger as Tally;

impl Ledger {
    /// A ledger of a recording under some limits, in which nothing is posted, with the mark at 0. It has room
    /// for every item of every lane, taken from bounds; no sample is read.
    ///
    /// # Errors
    ///
    /// [`AllocError`] where memory is short.
    pub fn open(alloc: Global, recording: &Recording, limits: &Limits) -> Result<Ledger, AllocError>
        requires { IsInOrder limits.now }
        ensures { IfOk result (λ l. view_of l ≡ nothing_posted recording.now limits.now) }
    {
        let settlement = Settlement::open(alloc, recording, limits)?;
        Ok(Ledger { settlement })
    }

    /// Posts the next item of a lane. It takes no memory.
    pub fn post(&mut self, lane: u32, item: LaneItem)
        requires { IsNextItem self.old lane item }
        ensures { PostsOne self.old self.new lane }
    {
        self.settlement.post(lane, item);
    }

    /// Moves the mark to a place within the reach of each lane, if it lies after the mark, and so releases
    /// what ends by it. It takes a step at most for each item that it merges, one for each that it releases,
    /// and one more.
    ///
    /// # Errors
    ///
    /// [`AllocError`] where memory is short; the mark stays, and nothing that was posted is lost.
    pub fn advance<L: Tally>(&mut self, w: u64, steps: &mut Steps<L>) -> Result<(), AllocError>
        requires { IsReached self.old w }
        ensures same { KeepsCounts self.old self.new }
        ensures merged { MergesOn self.old self.new }
        ensures ticks { TicksAtMost steps.old steps.new self.old self.new }
        ensures ok { OnOk result (mark_of self.new ≡ max (mark_of self.old) w) }
        ensures err { OnErr result (mark_of self.new ≡ mark_of self.old) }
    {
        self.settlement.advance(w, steps)
    }

    /// The place up to which the result is released.
    pub fn mark(&self) -> u64
        ensures { result ≡ mark_of self.now }
    {
        self.settlement.mark()
    }

    /// How many items are released.
    pub fn released(&self) -> usize
        ensures { result ≡ length (released_of self.now) }
    {
        self.settlement.released()
    }

    /// How many items of a lane are posted.
    pub fn count(&self, lane: u32) -> u64
        requires { lane < lanes_of self.now }
        ensures { result ≡ count_of self.now lane }
    {
        self.settlement.count(lane)
    }

    /// The released item at a place from 0, if there is one.
    pub fn item(&self, index: usize) -> Option<Item>
        ensures { result ≡ slice_get (released_of self.now) index }
    {
        self.settlement.item(index)
    }
}
