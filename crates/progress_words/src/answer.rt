// What the calls on the turn answer.

/// What one try on the turn gives.
#[derive(Drop)]
pub enum Take<V> {
    /// The turn was free. The pass holds it, and has the value.
    Held(V),
    /// This try found that word in the turn.
    Busy(u64),
}

/// What is left of the words.
#[derive(Drop)]
pub enum Closed<V> {
    /// The turn was free.
    Value(V),
    /// The turn had that word. The value stays with who took it.
    Held(u64),
}
