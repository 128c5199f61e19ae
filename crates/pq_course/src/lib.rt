//! The parts of a top call: files that are asked for, the text that is written, the sentence that is told.
#![tactic(auto)]

pub use feeding::feed_dat;
pub use input_file::{InputFile, read_file};
pub use telling::tell;
pub use writing::write_text;

mod feeding;
mod input_file;
mod telling;
mod writing;
