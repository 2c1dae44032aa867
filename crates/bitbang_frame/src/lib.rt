//! The letters of remote_bitbang, the protocol in which OpenOCD drives single edges of a TAP over a connection.
#![tactic(auto)]

pub mod laws;
pub mod table;
#[cfg(test)]
mod tests;

/// What a byte asks for (the remote_bitbang manual of OpenOCD).
#[derive(Clone, Copy, Debug, PartialEq, Eq)]
pub enum Letter {
    /// `0` to `7`: sets the three lines, TCK by the digit's highest bit, TMS by the next, TDI by the lowest.
    Lines { tck: bool, tms: bool, tdi: bool },
    /// `R`: asks for TDO, as `1` or `0`.
    Read,
    /// `Q`: ends the connection.
    Quit,
    /// `B` and `b`: a light on and off.
    Light(bool),
    /// `r`, `s`, `t` and `u`: sets TRST and SRST, true where the signal is asserted.
    Reset { trst: bool, srst: bool },
}

/// The byte is none of the protocol's.
#[derive(Clone, Copy, Debug, PartialEq, Eq)]
pub struct UnknownLetter {}
