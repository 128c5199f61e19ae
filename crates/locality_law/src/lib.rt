//! The locality law: what the lanes hold up to a place tells the result up to it.
#![tactic(auto)]

pub use laws::{lanes_settle_the_cut, posted_items_settle, posted_items_settle_the_cut};

mod laws;
