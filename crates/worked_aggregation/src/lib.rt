//! Worked recordings whose intervals are aggregated, and whose frequency is read, and summaries of generated
//! ones: tests of whole runs.
#![tactic(auto)]

#[cfg(test)]
mod aggregated;
#[cfg(test)]
mod generated;
