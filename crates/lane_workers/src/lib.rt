//! Workers of a chain's lanes, in threads, beside a caller that prints the items of its session.
#![tactic(auto)]

pub use collector::Collector;
pub use gate::{Gate, OpenGate};
pub use printer::{PrintFault, Printer};
pub use ran::Ran;
pub use run::run_lanes;

mod beside;
mod collector;
mod gate;
mod printer;
mod printing;
mod ran;
mod run;
#[cfg(test)]
mod tests;
mod worker;
