//! Moments as they are written and printed, the times of samples, the places of moments and the ticks of
//! clock intervals.
#![tactic(auto)]

pub use bad_moment::BadMoment;
pub use clock::Clock;
pub use laws::{places_by_neighbours, shows_moments};
pub use moment::{read_moment, to_utc};
pub use printed::print_moment;
pub use ticks::{TEN_MINUTES, TEN_SECONDS, TWO_HOURS, Ticks};
pub use time_code::{MOST_OFFSET, read_code};

mod bad_moment;
mod clock;
mod date;
mod field;
mod laws;
mod moment;
mod printed;
#[cfg(test)]
mod tests;
mod ticks;
mod time_code;
mod time_of_day;
