// What the calls of a session answer.
use pq_items::Item;

/// What a look finds.
#[derive(Drop)]
pub enum Look {
    /// The load of the stop word found 1.
    Halted,
    /// The least of the words that were loaded, and the first lane that has it.
    Seen { lane: u32, word: u64 },
}

/// What one try on the turn gives.
#[derive(Drop)]
pub enum Grab {
    Held,
    /// The try found that word in the turn.
    Busy { word: u64 },
}

/// What a session is given next.
#[derive(Drop)]
pub enum Next {
    /// The item at the cursor, which is one on.
    Item(Item),
    /// The item at the cursor isn't released yet: it ends after this word, the least that the session loaded.
    Withheld { lane: u32, word: u64 },
    /// Every item was given.
    End,
    OutOfMemory,
    /// The try found that word in the turn.
    Busy { word: u64 },
    /// The load of the stop word found 1.
    Halted,
}
