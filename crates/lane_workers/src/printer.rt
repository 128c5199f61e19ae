// What prints the items of a run.
ghost use Rattle.std.specs.Prelude.{◌≡◌, ℕ, ◌≤◌, All, Bool, List, OnOk, OnErr, Err};
ghost use Rattle.lane_workers.specs.Printing.{BreaksAmong, Extends, is_failed};
ghost use Rattle.pq_base.specs.Causes.{CountsOnce, Rose};
ghost use Rattle.pq_items.specs.declared.item.Item.{Item};
ghost use Rattle.pq_items.specs.ItemRange.{IsItemInRange};

use pq_items::Item;

/// Why items aren't printed.
#[derive(Drop)]
pub enum PrintFault {
    /// A call of the outside failed, and the printer's count of faults rose.
    Failed,
    OutOfMemory,
}

/// Prints items one after another.
pub trait Printer {
    /// What it is made with.
    type Made;

    /// What it was made with. No call changes it.
    ghost made: { Self → Self.Made };

    /// It has printed these items.
    ghost printed: { Self → List Item → Type 0 };

    /// It broke off in these items.
    ghost broke: { Self → List Item → Type 0 };

    /// How many faults there were.
    ghost count: { Self → ℕ };

    /// Whether each fault that is counted is one call that failed.
    ghost counts_each: { Bool };

    /// Prints items that are given at once, after those before.
    fn print(&mut self, items: &[Item]) -> Result<(), PrintFault>
        requires { All IsItemInRange items.now }
        ensures made { made self.new ≡ made self.old }
        ensures count { count self.old ≤ count self.new }
        ensures printed { OnOk result (Extends (printed self.old) items.now (printed self.new)) }
        ensures broke { OnErr result (BreaksAmong (printed self.old) items.now (broke self.new)) }
        ensures failed { result ≡ Err PrintFault.Failed → Rose (count self.old) (count self.new) }
        ensures counted { CountsOnce counts_each (count self.old) (count self.new) (is_failed result) };

    /// How many faults there were.
    fn faults(&self) -> u64
        ensures { result ≡ count self.now };
}
