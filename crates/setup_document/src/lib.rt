//! What a setup file says: a TOML document with the devices of a chain, their grants, and nets.
#![tactic(auto)]

mod document;
mod entries;
mod keys;
mod laws;
mod lists;
mod plan;
#[cfg(test)]
mod tests;

pub use document::read_document;
pub use laws::{files_are_refused, files_have_format};
pub use plan::{DeviceEntry, DocumentRefusal, Place, SetupPlan};
