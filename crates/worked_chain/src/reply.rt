// What a line of a schedule is answered.
use pq_items::Item;
use std::cmp::Ordering;

/// The answer of a line, of a chain and of the core alike.
#[derive(Clone, Copy, Debug, PartialEq, Eq)]
pub enum Reply {
    Held,
    /// The turn word that the try found.
    Busy(u64),
    Halted,
    /// How many items were posted.
    Posted(u32),
    /// The word, and whether all items are posted.
    Raised(u64, bool),
    /// How many items were posted, the word, and whether all items are posted.
    Stepped(u32, u64, bool),
    /// A load of the stop word found 0.
    Running,
    /// The word that was loaded.
    Loaded(u64),
    /// The first lane that has the least word, and this word.
    Seen(u64, u64),
    /// The item's index in the result.
    Item(u64),
    /// An item that the result doesn't have.
    Foreign,
    /// The first lane that has the least word, and this word.
    Withheld(u32, u64),
    End,
    OutOfMemory,
    /// The number of the new session.
    Split(u64),
    Stopped,
    NotAllowed,
}

impl Reply {
    // The answer of a read that gives this item.
    pub(crate) fn item(items: &[Item], given: &Item) -> Reply {
        let index = items
            .iter()
            .position(|item| item.compare(given) == Ordering::Equal);
        match index {
            Some(index) => Reply::Item(index as u64),
            None => Reply::Foreign,
        }
    }
}
