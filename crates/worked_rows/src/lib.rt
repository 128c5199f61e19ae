//! Worked recordings through the top call: tests of whole runs, and nothing else.
#![tactic(auto)]

#[cfg(test)]
mod intervals;
#[cfg(test)]
mod options;
#[cfg(test)]
mod reports;
#[cfg(test)]
mod several_channels;
#[cfg(test)]
mod sixty_hertz;
#[cfg(test)]
mod wide_record;
