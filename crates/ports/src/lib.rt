//! A source of bytes and a sink, each in memory and over the standard streams, and a shelf of named bytes, in memory and over the
//! files of a folder.
#![tactic(auto)]

mod folder_shelf;
mod loads;
mod mem_shelf;
mod mem_sink;
mod mem_source;
mod shelf;
mod sink;
mod source;
mod std_ports;
mod streams;
#[cfg(test)]
mod tests;

pub use folder_shelf::FolderShelf;
pub use mem_shelf::MemShelf;
pub use mem_sink::MemSink;
pub use mem_source::MemSource;
pub use shelf::{Load, LoadFault, Shelf};
pub use sink::Sink;
pub use source::{PortFault, Source};
pub use std_ports::{StdSink, StdSource};
pub use streams::{fill, write_all};
