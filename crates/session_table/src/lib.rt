//! The sessions of all grants over one desk of the shared chain: what one event of a grant's session makes of them all.
#![tactic(auto)]

use client_session::End;

mod seats;
mod table;

pub use table::SessionTable;

/// The cable failed in a call.
#[derive(Clone, Copy, Debug, PartialEq, Eq)]
pub struct CableFailed;

/// A session that ended.
#[derive(Clone, Copy, Debug, PartialEq, Eq)]
pub struct Ended {
    /// Its grant, counted from 0.
    pub grant: usize,
    /// Its connection.
    pub conn: u64,
    /// How it ended.
    pub end: End,
}
