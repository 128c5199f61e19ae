// The items of a lane that are not posted: some are measured ahead of their posting.
ghost use Rattle.std.specs.Prelude.{◌≡◌, ◌≤◌, ◌<◌, [], ◌++◌, min, length, take, drop, IfOk};
ghost use Rattle.std.specs.VecDeque.{deque_capacity};
ghost use Rattle.interval_ledger.specs.Ledger.{AreNextItems, PostsMany, PostsOne, lanes_of};
ghost use Rattle.lanes.specs.Lane.{lane_count, lane_items};
ghost use Rattle.query_session.specs.Ahead.{AreKeys, IsFirstNext, items_left, reach_before};

use interval_ledger::Ledger;
use lane_sources::{LaneSource, LaneSources};
use lanes::LaneItem;
use std::alloc::{AllocError, Global};
use std::collections::VecDeque;
use std::marker::Model;

// How many items are measured at most: those of the greatest post, and the one after them.
const MEASURED: usize = 65;

/// The items of a lane from the first that isn't posted on: some are measured, and the source gives those
/// after them.
#[derive(Drop)]
pub(crate) struct Ahead<'r> {
    next: VecDeque<LaneItem>,
    source: LaneSource<'r>,
}

impl<'r> Model for Ahead<'r> {
    ghost use Rattle.std.specs.Prelude.{◌≤◌, length};
    ghost use Rattle.std.specs.VecDeque.{deque_capacity};
    ghost use Rattle.query_session.specs.Ahead.{AheadView};

    ghost Value = { AheadView };

    ghost view = { λ a. record { measured = a.next.items; unmeasured = a.source } };

    ghost invariant = { λ a. (65 ≤ deque_capacity a.next) × (length a.next.items ≤ 65) };
}

impl<'r> Ahead<'r> {
    // All of a lane's items, none measured.
    pub(crate) fn open(
        alloc: Global,
        sources: &LaneSources<'r>,
        lane: u32,
    ) -> Result<Ahead<'r>, AllocError>
        requires { lane < lane_count sources.now }
        ensures measured { IfOk result (λ a. a.measured ≡ []) }
        ensures unmeasured { IfOk result (λ a. a.unmeasured ≡ lane_items sources.now lane) }
    {
        let next = VecDeque::with_capacity(alloc, MEASURED)?;
        let source = sources.open(alloc, lane)?;
        Ok(Ahead { next, source })
    }

    // Measures the next items: 64 and the one after them, or all that are left.
    pub(crate) fn measure(&mut self)
        ensures left { items_left self.new ≡ items_left self.old }
        ensures measured { self.new.measured ≡ take 65 (items_left self.old) }
    {
        refill(&mut self.next, &mut self.source);
    }

    // How many are measured.
    pub(crate) fn len(&self) -> usize
        ensures value { result ≡ length self.now.measured }
    {
        self.next.len()
    }

    // The reach before the first of them.
    pub(crate) fn due(&self, samples: u64) -> u64
        requires { AreKeys samples self.now.measured }
        ensures { result ≡ reach_before samples self.now.measured }
    {
        match self.next.front() {
            Some(item) => item.key() - 1,
            None => samples,
        }
    }

    // Moves so many of them into the ledger.
    pub(crate) fn post(&mut self, ledger: &mut Ledger, lane: u32, count: usize)
        requires lane { lane < lanes_of ledger.old }
        requires next { AreNextItems ledger.old lane self.old.measured }
        requires few { count ≤ length self.old.measured }
        ensures posts { PostsMany ledger.old ledger.new lane count }
        ensures measured { self.new.measured ≡ drop count self.old.measured }
        ensures unmeasured { self.new.unmeasured ≡ self.old.unmeasured }
    {
        post_front(&mut self.next, ledger, lane, count);
    }
}

// Fills up what is measured, to 65 items or all that are left.
fn refill(next: &mut VecDeque<LaneItem>, source: &mut LaneSource<'_>)
    requires room { 65 ≤ deque_capacity next.old }
    requires few { length next.old.items ≤ 65 }
    ensures room { deque_capacity next.new ≡ deque_capacity next.old }
    ensures left { next.new.items ++ source.new ≡ next.old.items ++ source.old }
    ensures size { length next.new.items ≡ min 65 (length (next.old.items ++ source.old)) }
{
    for _ in next.len()..MEASURED {
        match source.next() {
            Some(item) => next.push_back_reserved(item),
            None => return,
        }
    }
}

// Moves so many from the front into the ledger.
fn post_front(next: &mut VecDeque<LaneItem>, ledger: &mut Ledger, lane: u32, count: usize)
    requires lane { lane < lanes_of ledger.old }
    requires next { AreNextItems ledger.old lane next.old.items }
    requires few { count ≤ length next.old.items }
    ensures room { deque_capacity next.new ≡ deque_capacity next.old }
    ensures posts { PostsMany ledger.old ledger.new lane count }
    ensures items { next.new.items ≡ drop count next.old.items }
{
    for _ in 0..count {
        post_first(next, ledger, lane);
    }
}

// Moves the first into the ledger.
fn post_first(next: &mut VecDeque<LaneItem>, ledger: &mut Ledger, lane: u32)
    requires next { IsFirstNext ledger.old lane next.old.items }
    requires some { 0 < length next.old.items }
    ensures room { deque_capacity next.new ≡ deque_capacity next.old }
    ensures posts { PostsOne ledger.old ledger.new lane }
    ensures items { next.new.items ≡ drop 1 next.old.items }
{
    if let Some(item) = next.pop_front() {
        ledger.post(lane, item);
    }
}
