// What is posted, the mark and how much is merged, seen without the queues.
ghost use Rattle.std.specs.Prelude.{◌≡◌, ◌<◌, Some, length, max, slice_get, IfOk, OnOk, OnErr};
ghost use Rattle.event_detect.specs.Threshold.{IsInOrder};
ghost use Rattle.interval_ledger.specs.Settlement.{Advances, IsPosted, advanced_to, nothing_posted, posted_count, settled_items, with_post};
ghost use Rattle.lanes.specs.Lane.{IsWithinReaches, lane_count, lane_items};

use crate::merging::Merging;
use crate::opening::open_merging;
use crate::posting::{count, lanes, post};
use crate::steps::Steps;
use event_detect::Limits;
use lanes::LaneItem;
use pq_base::Recording;
use pq_items::Item;
use std::alloc::{AllocError, Global};
use std::marker::Model;
use std::sync::ledger::Ledger;

/// Merging, of which what is released is the cut at the mark. It is seen as what is posted, the mark, and how
/// many items are merged. It has thousands of bytes, and a ledger goes from hand to hand: so it stays in one
/// place of memory.
#[derive(Drop)]
pub(crate) struct Settlement {
    merging: Box<Merging>,
}

impl Model for Settlement {
    ghost use Rattle.interval_ledger.specs.IsLedger.{IsLedger, settlement_of};
    ghost use Rattle.interval_ledger.specs.Settlement.{SettlementView};

    ghost Value = { SettlementView };

    ghost view = { λ s. settlement_of s.merging.value };

    ghost invariant = { λ s. IsLedger s.merging.value };
}

impl Settlement {
    // Nothing is posted, and the mark is at 0.
    pub(crate) fn open(
        alloc: Global,
        recording: &Recording,
        limits: &Limits,
    ) -> Result<Settlement, AllocError>
        requires { IsInOrder limits.now }
        ensures value { IfOk result (λ s. s ≡ nothing_posted recording.now limits.now) }
        ensures posted { IfOk result IsPosted }
    {
        let merging = open_merging(alloc, recording, limits)?;
        let merging = Box::new(alloc, merging)?;
        Ok(Settlement { merging })
    }

    // Posts the next item of a lane.
    pub(crate) fn post(&mut self, lane: u32, item: LaneItem)
        requires { slice_get (lane_items self.old.recording lane) (posted_count self.old lane) ≡ Some item }
        ensures value { self.new ≡ with_post self.old lane }
        ensures posted { IsPosted self.new }
    {
        let merging = &mut *self.merging;
        post(&mut merging.channels, &mut merging.readings, lane, item);
    }

    // Moves the mark to a place, if that lies after it. A step at most for each item that is merged or
    // released by it, and one more.
    pub(crate) fn advance<L: Ledger>(
        &mut self,
        w: u64,
        steps: &mut Steps<L>,
    ) -> Result<(), AllocError>
        requires { IsWithinReaches self.old.recording self.old.counts w }
        ensures same { self.new ≡ advanced_to self.old self.new.mark self.new.merged }
        ensures posted { IsPosted self.new }
        ensures ticks { Advances steps.old steps.new self.old self.new }
        ensures ok { OnOk result (self.new.mark ≡ max self.old.mark w) }
        ensures err { OnErr result (self.new.mark ≡ self.old.mark) }
    {
        let merging = &mut *self.merging;
        merging.advance(w, steps)
    }

    pub(crate) fn mark(&self) -> u64
        ensures { result ≡ self.now.mark }
    {
        self.merging.mark
    }

    // How many items are released.
    pub(crate) fn released(&self) -> usize
        ensures { result ≡ length (settled_items self.now) }
    {
        self.merging.known.released()
    }

    // The released item at a place from 0, if there is one.
    pub(crate) fn item(&self, index: usize) -> Option<Item>
        ensures { result ≡ slice_get (settled_items self.now) index }
    {
        self.merging.known.item(index)
    }

    // How many lanes there are.
    pub(crate) fn lanes(&self) -> u32
        ensures { result ≡ lane_count self.now.recording }
    {
        let merging = &*self.merging;
        lanes(&merging.channels)
    }

    // How many items of a lane are posted.
    pub(crate) fn count(&self, lane: u32) -> u64
        requires { lane < lane_count self.now.recording }
        ensures { result ≡ posted_count self.now lane }
    {
        let merging = &*self.merging;
        count(&merging.channels, &merging.readings, lane) as u64
    }
}
