// What a session is at.

/// A session looks, then holds the turn with the ledger, then reads.
#[derive(Drop)]
pub enum Stage<V> {
    Idle,
    Looked { lane: u32, word: u64 },
    Holding { lane: u32, word: u64, ledger: V },
}
