// A printer that keeps the items.
ghost use Rattle.std.specs.Prelude.{◌≡◌, true};

use crate::printer::{PrintFault, Printer};
use pq_items::Item;

/// Keeps the items that it is given. It counts no faults: it can only want memory.
#[derive(Drop)]
pub struct Collector {
    pub items: Vec<Item>,
}

impl Printer for Collector {
    type Made = ();

    ghost made = { λ _. tt };

    ghost printed = { λ c h. c.items.items ≡ h };

    ghost broke = { λ c h. c.items.items ≡ h };

    ghost count = { λ _. 0 };

    ghost counts_each = { true };

    fn print(&mut self, items: &[Item]) -> Result<(), PrintFault> {
        if self.items.extend_from_slice(items).is_err() {
            return Err(PrintFault::OutOfMemory);
        }
        Ok(())
    }

    fn faults(&self) -> u64 {
        0
    }
}
