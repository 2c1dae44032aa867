//! The messages of Xilinx Virtual Cable 1.0: a frame that takes the bytes of one message in any pieces, and the bytes of a message.
#![tactic(auto)]

mod bits;
pub mod encode;
pub mod frame;
mod front;
pub mod laws;
#[cfg(test)]
mod tests;
mod words;

/// A message without its vectors (XVC 1.0).
#[derive(Clone, Copy, Debug, PartialEq, Eq)]
pub enum Msg {
    /// `getinfo:`
    GetInfo,
    /// `settck:` with the period in nanoseconds.
    SetTck(u32),
    /// `shift:` with the number of cycles.
    Shift(u32),
}

/// What the bytes that are held make.
#[derive(Clone, Copy, Debug, PartialEq, Eq)]
pub enum FrameStep {
    /// The front of a message.
    More,
    /// One whole message.
    Whole(Msg),
    /// No message: at the first byte that goes on with no word for cause 1,
    /// at the number of cycles for cause 2, where it exceeds the bits of the vector.
    Refused { at: usize, cause: u8 },
}
