//! Schedules: lines that drive lanes and sessions step by step.
#![tactic(auto)]

pub use fault::ScheduleFault;
pub use laws::{cores_follow_phases, schedules_are_answered};
pub use line::Line;
pub use reading::read_schedule;
pub use replaying::replay;

mod answer_line;
mod command;
mod cutting;
mod fault;
mod laws;
mod line;
mod line_steps;
mod line_words;
mod passing;
mod playing;
mod reading;
mod replaying;
#[cfg(test)]
mod tests;
