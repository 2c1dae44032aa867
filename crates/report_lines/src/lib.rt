//! What is told of sessions, connections and devices, a line each.
#![tactic(auto)]

mod connections;
mod devices;
mod ends;
#[cfg(test)]
mod tests;

pub use connections::{Connection, Standing, put_connection};
pub use devices::{put_counts, put_latch};
pub use ends::push_end;
