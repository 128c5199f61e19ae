//! What every layer stands on: files that are read and bytes that are written by traits whose faults
//! are counted, texts, numbers in text, and recordings.
#![tactic(auto)]

pub use decimal::{Scaled, read_decimal};
pub use memory_shelf::MemShelf;
pub use memory_sink::MemSink;
pub use number::{read_digits, read_number};
pub use real::{ErrSink, FileShelf, OutSink};
pub use recording::Recording;
pub use rounding::rounded_quotient;
pub use shelf::{ReadAll, Shelf, read_all};
pub use sink::{Failed, OutOfMemory, Sink, write_all};
pub use text::Text;

mod asked_indices;
mod decimal;
mod memory_shelf;
mod memory_sink;
mod number;
mod real;
mod recording;
mod rounding;
mod shelf;
mod sink;
#[cfg(test)]
mod tests;
mod text;
