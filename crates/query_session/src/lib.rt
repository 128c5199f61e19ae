//! Chains: lanes post what they measure into a ledger, and sessions read its items, over words of progress.
#![tactic(auto)]

pub use answer::{Grab, Look, Next};
pub use chain::{Chain, ChainOf};
pub use lane_answer::{Lane, Taken};
pub use law::shows_cores;
pub use seat::{LaneSeat, SeatOf};
pub use seat_stage::SeatStage;
pub use session::{Session, SessionOf};
pub use stage::Stage;

mod ahead;
mod answer;
mod chain;
mod crossing;
mod lane_answer;
mod law;
mod loading;
mod looking;
mod opening;
mod posting;
mod reading;
mod seat;
mod seat_stage;
mod session;
mod sharing;
mod stage;
mod waiting;
