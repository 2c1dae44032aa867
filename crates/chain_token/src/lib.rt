//! Who holds the shared chain, and who waits for it: one holder at a time, and first come, first served.
#![tactic(auto)]

mod queue;
mod token;

pub use queue::Queue;
pub use token::{Asked, Token};
