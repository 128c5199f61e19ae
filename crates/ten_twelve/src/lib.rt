//! Runs of consecutive elements, over a whole list and element by element.
#![tactic(auto)]

pub use chopper::Chopper;
pub use laws::gives_runs;
pub use out_of_memory::OutOfMemory;
pub use span::Span;
pub use whole_list::chop;

mod chopper;
mod laws;
mod out_of_memory;
mod span;
#[cfg(test)]
mod tests;
mod unfinished;
mod whole_list;
