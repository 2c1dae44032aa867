//! Device types out of BSDL texts (IEEE 1149.1, Annex B).
#![tactic(auto)]

mod access_fronts;
mod accesses;
mod contents;
mod laws;
mod opcodes;
mod patterns;
mod places;
mod read;
mod structure;
mod words;

pub use laws::{contents_have_parts, entity_or_refusal, files_have_parts, structure_is_refused};
pub use read::{BsdlRefusal, Entity, read_part};
