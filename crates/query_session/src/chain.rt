// A chain.
ghost use Rattle.std.specs.Prelude.{◌≡◌, ◌≤◌};

use interval_ledger::Ledger;
use progress_words::{Shared, Words};

/// The words of a shared value, and how many lanes it has.
#[derive(Drop)]
pub struct ChainOf<V: Shared> {
    pub(crate) words: Words<V>,
    pub(crate) lanes: u32,
    ghost all: { words.count ≡ lanes },
    ghost some: { 1 ≤ lanes },
}

/// A chain over a ledger.
pub type Chain = ChainOf<Ledger>;
