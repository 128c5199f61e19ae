//! Half-cycle windows, Urms(1/2): the root over one cycle, begun anew at each half-cycle.
#![tactic(auto)]

pub use laws::{windows_lie_within, windows_rise};
pub use windows::Windows;

mod laws;
#[cfg(test)]
mod tests;
mod windows;
