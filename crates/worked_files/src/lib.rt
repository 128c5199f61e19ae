//! Worked files: tests of clocks, of configurations and of dats as they are read, and nothing else.
#![tactic(auto)]

#[cfg(test)]
mod clocks;
#[cfg(test)]
mod configurations;
#[cfg(test)]
mod dats;
