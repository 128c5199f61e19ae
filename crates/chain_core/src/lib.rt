//! The pure machine of lanes and sessions over lists of steps.
#![tactic(auto)]

pub use answer::{Answer, PlayFault};
pub use core_event::CoreEvent;
pub use laws::{cores_are_sound, reads_are_right, sessions_are_given_the_result};
pub use least_word::{least, least_lane};
pub use limits::MOST_SESSIONS;
pub use machine::Machine;
pub use measured::measure;
pub use measurement::{LaneKeys, Measurement};
pub use phase::{LanePhase, SessionPhase};
pub use phase_table::PhaseTable;
pub use played::{play, play_over};
pub use step::Step;

mod answer;
mod core_event;
mod lane_keys;
mod laws;
mod least_word;
mod limits;
mod machine;
mod measured;
mod measurement;
mod numbers;
mod phase;
mod phase_table;
mod played;
mod step;
