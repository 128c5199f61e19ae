//! Worked signals, the files that record them, and runs over files in memory: what tests of whole runs are
//! made of.
#![tactic(auto)]

pub use header::HEADER;
pub use outside::{Outcome, Outside, WHOLE, run, run_analyse, strings};
pub use signal::{Signal, dat, push_head};
pub use written::{WORKED, Written, cfg, one_channel};

mod header;
mod outside;
mod signal;
mod written;
