//! The calls of the program: tests of the commands that measure nothing, of codes and sentences, and of the
//! output and the line of a run, and nothing else.
#![tactic(auto)]

#[cfg(test)]
mod check;
#[cfg(test)]
mod eight_channels;
#[cfg(test)]
mod emitted;
#[cfg(test)]
mod program;
#[cfg(test)]
mod sentences;
