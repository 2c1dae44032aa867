//! Walks of a scan chain through its Shift states: bits are shifted in or out in calls of up to 64 cycles.
#![tactic(auto)]

mod shifts;
mod streams;

pub use shifts::{shift_in, shift_out};
pub use streams::{BitSink, BitSource};

#[cfg(test)]
mod tests;
