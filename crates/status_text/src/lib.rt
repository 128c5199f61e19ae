//! What a top call answers: its status, with the exit code and the sentence that tells it.
#![tactic(auto)]

pub use laws::refuses_no_memory;
pub use sentence::{Sentence, digits, fault_text};
pub use status::Status;

mod laws;
mod refusals;
mod sentence;
mod status;
