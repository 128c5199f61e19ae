//! The top calls: from words, files and a sink to a status, and the run of the program around them.
#![tactic(auto)]

pub use comtrade_dat::DatFault;
pub use program::{run, words_of};
pub use status_text::{Status, fault_text, refuses_no_memory};
pub use streams::Streams;
pub use top_call::{analyse, still};

mod check;
mod emitting;
mod generating;
mod measuring;
mod program;
mod recording_files;
mod replaying;
mod selected_cfg;
mod settings;
mod streams;
mod top_call;
