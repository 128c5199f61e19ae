// The indices of the files that a shelf in memory was asked, told while there is room.
ghost use Rattle.std.specs.Prelude.{◌≡◌, [], Some};
ghost use Rattle.pq_base.specs.FileIndex.{indices_after};

use std::marker::Model;

// How many of them are told.
const MOST_TOLD: usize = 16;

// The indices so far, in order; None once one more was asked than there is room for, or a file that is
// not there.
#[derive(Drop)]
pub(crate) struct AskedIndices {
    indices: [usize; MOST_TOLD],
    count: usize,
    is_told: bool,
}

impl Model for AskedIndices {
    ghost use Rattle.std.specs.Prelude.{ℕ, List, Option, Some, None, take, ◌≤◌, if◌then◌else◌};
    ghost use Rattle.pq_base.specs.declared.asked_indices.TheConstants.{MOST_TOLD};

    ghost Value = { Option (List ℕ) };

    ghost view = { λ a. if a.is_told then Some (take a.count a.indices) else None };

    ghost invariant = { λ a. a.count ≤ MOST_TOLD };
}

impl AskedIndices {
    pub(crate) fn new() -> AskedIndices
        ensures { result ≡ Some [] }
    {
        AskedIndices {
            indices: [0; MOST_TOLD],
            count: 0,
            is_told: true,
        }
    }

    pub(crate) fn push(&mut self, index: Option<usize>)
        ensures { self.new ≡ indices_after self.old index }
    {
        match index {
            Some(index) if self.count < MOST_TOLD => {
                self.indices[self.count] = index;
                self.count += 1;
            }
            _ => self.is_told = false,
        }
    }
}
