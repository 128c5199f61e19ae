//! The words of the program: the command that they say, and what it is to do.
#![tactic(auto)]

pub use command::{Command, Measuring, Part, WordsFault};
pub use reading::read_words;
pub use thresholds::usual_settings;

mod channels;
mod command;
mod generated;
mod measuring;
mod number;
mod reading;
mod simple;
#[cfg(test)]
mod tests;
mod thresholds;
mod values;
