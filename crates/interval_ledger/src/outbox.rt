// Items on their way out.
ghost use Rattle.pq_items.specs.declared.item.Item.{Item};
ghost use Rattle.std.specs.Prelude.{◌≡◌, ◌≢◌, ℕ, ◌+◌, ◌<◌, ◌≤◌, [], ◌∷◌, ◌++◌, length, take, drop, vec_len, slice_get, All, OnOk, slice_index_or};
ghost use Rattle.pq_items.specs.ItemOrder.{item_cmp};
ghost use Rattle.pq_items.specs.ItemTable.{end_of};
ghost use Rattle.pq_words.specs.Sorted.{in_order};
ghost use Rattle.interval_ledger.specs.Outbox.{Releases};

use crate::steps::Steps;
use pq_items::{Item, sort_items};
use std::alloc::{AllocError, Global};
use std::marker::Model;
use std::sync::ledger::Ledger;

/// Items that are released, in order, and after them items that are known and wait, in no order.
#[derive(Drop)]
pub struct Outbox {
    items: Vec<Item>,
    released: usize,
}

impl Model for Outbox {
    ghost use Rattle.std.specs.Prelude.{◌≤◌, ◌-◌, take, drop, vec_len, vec_capacity};
    ghost use Rattle.interval_ledger.specs.Outbox.{Outgoing};

    ghost Value = { Outgoing };

    ghost view = { λ o. record {
      released = take o.released o.items.items;
      pending = drop o.released o.items.items;
      room = vec_capacity o.items - vec_len o.items;
    } };

    ghost invariant = { λ o. o.released ≤ vec_len o.items };
}

impl Outbox {
    /// Nothing yet.
    pub fn new(alloc: Global) -> Outbox
        ensures released { result.released ≡ [] }
        ensures pending { result.pending ≡ [] }
    {
        Outbox {
            items: Vec::new(alloc),
            released: 0,
        }
    }

    /// Takes room for so many items more.
    ///
    /// # Errors
    ///
    /// [`AllocError`] where memory is short.
    pub fn reserve(&mut self, count: usize) -> Result<(), AllocError>
        ensures room { OnOk result (count ≤ self.new.room) }
        ensures released { self.new.released ≡ self.old.released }
        ensures pending { self.new.pending ≡ self.old.pending }
    {
        self.items.reserve(count)
    }

    /// Puts an item with those that wait.
    pub fn push(&mut self, item: Item)
        requires { 0 < self.old.room }
        ensures released { self.new.released ≡ self.old.released }
        ensures pending { self.new.pending ≡ self.old.pending ++ item ∷ [] }
        ensures room { self.new.room + 1 ≡ self.old.room }
    {
        self.items.push_reserved(item);
    }

    /// Releases the items that end by a place, in order, a step for each. The others go on waiting.
    pub fn release<L: Ledger>(&mut self, w: u64, steps: &mut Steps<L>)
        ensures items { Releases w self.old self.new }
        ensures cost { steps.new + length self.old.released ≡ steps.old + length self.new.released }
    {
        sort_from(&mut self.items, self.released);
        let due = due_count(&self.items[self.released..], w);
        for _ in 0..due {
            steps.tick();
        }
        self.released += due;
    }

    /// How many items are released.
    pub fn released(&self) -> usize
        ensures { result ≡ length self.now.released }
    {
        self.released
    }

    /// The released item at a place from 0, if there is one.
    pub fn item(&self, k: usize) -> Option<Item>
        ensures { result ≡ slice_get self.now.released k }
    {
        if k < self.released {
            Some(self.items[k])
        } else {
            None
        }
    }
}

// Puts the items from a place on in order.
fn sort_from(items: &mut Vec<Item>, from: usize)
    requires { from ≤ vec_len items.old }
    ensures items { items.new.items
        ≡ take from items.old.items ++ in_order item_cmp (drop from items.old.items) }
    ensures len { vec_len items.new ≡ vec_len items.old }
{
    sort_items(&mut items[from..]);
}

// How many items end by a place, up to the first that does not.
fn due_count(items: &[Item], w: u64) -> usize
    ensures within { result ≤ length items.now }
    ensures due { All (λ i. end_of i ≤ w) (take result items.now) }
    ensures later { (d : Item) → result < length items.now → w < end_of (slice_index_or items.now result d) }
{
    let mut count: usize = 0;
    for item in items {
        if item.end() > w {
            return count;
        }
        count += 1;
    }
    count
}
