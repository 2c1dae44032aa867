//! The three words of XVC 1.0.

pub(crate) const GETINFO: &[u8] = b"getinfo:";

pub(crate) const SETTCK: &[u8] = b"settck:";

pub(crate) const SHIFT: &[u8] = b"shift:";
