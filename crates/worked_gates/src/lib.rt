//! Runs of `analyse` whose workers pass a gate that waits for another worker, or for what is printed: tests
//! of what no clause can say, that lanes do run in threads and that rows are out before the lanes have ended.
#![tactic(auto)]

#[cfg(test)]
mod counting_sink;
#[cfg(test)]
mod gates;
#[cfg(test)]
mod notes;
#[cfg(test)]
mod tests;
