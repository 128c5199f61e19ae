//! Words and limits that the definitions of several crates share.
#![tactic(auto)]

pub use limits::{
    LEAST_RATE, LEAST_SAMPLES_IN_CYCLE, MOST_MICROVOLTS, MOST_NANOSECONDS, MOST_NUMBER, MOST_RATE,
    MOST_SAMPLES, MOST_SELECTED,
};

mod limits;
