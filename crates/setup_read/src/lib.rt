//! A setup: a setup file with the BSDL files that it names, as boards and a layout.
#![tactic(auto)]

mod boards;
mod cells;
mod read;
mod setup;

pub use read::read_setup;
pub use setup::{Setup, SetupRefusal};
pub use setup_document::Place;
