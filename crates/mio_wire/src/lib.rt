//! The wire over TCP sockets. It is the edge to the system: what peers sent, what is ready and which connections are there it takes from the
//! system and does not tell; it tells its ports, whether it listens, whether it came to its end, and its faults.
#![tactic(auto)]

mod door;
mod link;
mod listener;
mod results;
mod sockets;
#[cfg(test)]
mod tests;
mod wire;

pub use wire::MioWire;
