// All that the core knows of a recording.
ghost use Rattle.std.specs.Prelude.{◌≡◌, ◌<◌, length, nat_le, option_and_then, slice_get, OnSome};
ghost use Rattle.std.specs.Bool.{then_some};
ghost use Rattle.pq_items.specs.ItemTable.{end_of};
ghost use Rattle.pq_sequence.specs.SequentialResult.{cut};
ghost use Rattle.chain_core.specs.Measurement.{EndInOrder};

use pq_items::Item;
use std::marker::Model;

/// The keys of one lane's items, in order.
#[derive(Drop)]
pub struct LaneKeys {
    pub keys: Vec<u64>,
}

impl Model for LaneKeys {
    ghost use Rattle.std.specs.Prelude.{List, ℕ};

    ghost Value = { List ℕ };

    ghost view = { λ k. k.keys.items };
}

/// What is measured of a recording: the keys of each lane, the sequential result, and the number of
/// samples.
#[derive(Drop)]
pub struct Measurement {
    keys: Vec<LaneKeys>,
    items: Vec<Item>,
    samples: u64,
}

impl Model for Measurement {
    ghost use Rattle.chain_core.specs.Core.{Measured};
    ghost use Rattle.chain_core.specs.Measurement.{EndInOrder};

    ghost Value = { Measured };

    ghost view = { λ m. record { keys = m.keys.items; items = m.items.items; samples = m.samples } };

    ghost invariant = { λ m. EndInOrder m.items.items };
}

impl Measurement {
    ghost use Rattle.chain_core.specs.Core.{keys_of, reach_of, released};

    /// A measurement of these parts.
    pub fn new(keys: Vec<LaneKeys>, items: Vec<Item>, samples: u64) -> Measurement
        requires { EndInOrder items.items }
        ensures { result ≡ record { keys = keys.items; items = items.items; samples = samples } }
    {
        Measurement {
            keys,
            items,
            samples,
        }
    }

    /// How many lanes there are.
    pub fn lanes(&self) -> usize
        ensures { result ≡ length self.now.keys }
    {
        self.keys.len()
    }

    /// How many samples there are.
    pub fn samples(&self) -> u64
        ensures { result ≡ self.now.samples }
    {
        self.samples
    }

    /// The keys of a lane.
    pub fn keys(&self, lane: u32) -> &[u64]
        ensures { result.now ≡ keys_of self.now lane }
    {
        match self.keys.get(lane as usize) {
            Some(lane) => lane.keys.as_slice(),
            None => &[],
        }
    }

    /// How far a lane has come of which so many items are posted.
    pub fn reach(&self, lane: u32, count: u64) -> u64
        ensures { result ≡ reach_of self.now lane count }
    {
        match self.keys(lane).get(count as usize) {
            Some(key) => key.saturating_sub(1),
            None => self.samples,
        }
    }

    /// How many items there are.
    pub fn count(&self) -> u64
        ensures { result ≡ length self.now.items }
    {
        self.items.len() as u64
    }

    /// The item that is released next for a cursor, where the mark has passed its end.
    pub fn released(&self, mark: u64, cursor: u64) -> Option<Item>
        ensures value { result ≡ released self.now mark cursor }
        ensures below { OnSome result (cursor < length self.now.items) }
    {
        released_of(self.items(), mark, cursor)
    }

    fn items(&self) -> &[Item]
        ensures value { result.now ≡ self.now.items }
        ensures order { EndInOrder result.now }
    {
        self.items.as_slice()
    }
}

// The item at a cursor, where it ends by a mark.
fn released_of(items: &[Item], mark: u64, cursor: u64) -> Option<Item>
    requires { EndInOrder items.now }
    ensures value { result ≡ slice_get (cut mark items.now) cursor }
    ensures below { OnSome result (cursor < length items.now) }
{
    let found = item_at(items, cursor);
    item_by(found, mark)
}

fn item_at(items: &[Item], cursor: u64) -> Option<Item>
    ensures { result ≡ slice_get items.now cursor }
{
    match items.get(cursor as usize) {
        Some(item) => Some(*item),
        None => None,
    }
}

// The item, where it is there and ends by a mark.
fn item_by(found: Option<Item>, mark: u64) -> Option<Item>
    ensures { result ≡ option_and_then (λ i. then_some (nat_le (end_of i) mark) i) found }
{
    match found {
        Some(item) => (item.end() <= mark).then_some(item),
        None => None,
    }
}
