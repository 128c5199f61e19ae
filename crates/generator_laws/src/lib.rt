//! Laws about generated recordings and the reading of files, as the contracts of calls that do nothing.
#![tactic(auto)]

pub use laws::generated_files_are_read;

mod laws;
