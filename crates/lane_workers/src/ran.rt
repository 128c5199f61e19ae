// How a run ends.

/// How a run ends.
#[derive(Drop)]
pub enum Ran {
    /// The whole result is printed.
    All,
    /// The printer failed at an item, and the session has halted the chain.
    Failed,
    /// Memory was short, and the session has halted the chain.
    OutOfMemory,
}
