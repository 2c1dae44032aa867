//! A frame: takes the bytes of one message in any pieces, tells what they make, and keeps a `shift:` while its cycles are made.

ghost use Rattle.std.specs.Prelude.{◌≡◌, ◌≤◌, ◌<◌, ◌+◌, ◌^◌, List, [], ◌++◌, ℕ, true, take, drop, length, slice_set, IfOk};
ghost use Rattle.scan_bits.specs.Words.{number_of, bits_of, packed};
ghost use Rattle.scan_bits.specs.Registers.{bit_at};
ghost use Rattle.xvc_frame.specs.Messages.{want, IsFramed, AreBytes};
ghost use Rattle.xvc_frame.specs.Messages.Message.{Shift};
ghost use Rattle.xvc_frame.specs.Frames.{FrameState, IsOpen, Tells, holds_shift, tms_bits, tdi_bits, reply_bytes, replaced};

use crate::FrameStep;
use crate::bits::{read_bits, write_bits};
use crate::front::{number_at, step_of, wanted};
use std::alloc::{AllocError, Global};
use std::marker::Model;

/// The bytes of one message (XVC 1.0), as far as they came. It has one buffer, and takes memory only in `new`.
#[derive(Drop)]
pub struct XvcFrame {
    vector: u32,
    bytes: Vec<u8>,
    count: usize,
}

impl Model for XvcFrame {
    ghost use Rattle.std.specs.Prelude.{take};
    ghost use Rattle.xvc_frame.specs.Frames.{FrameState, HasRoom};

    ghost Value = { FrameState };

    ghost view = { λ frame. record { vector = frame.vector; held = take frame.count frame.bytes.items } };

    ghost invariant = { λ frame. HasRoom frame.vector frame.bytes.items frame.count };
}

impl XvcFrame {
    /// A frame that holds nothing, for the vector length in bytes that is announced. An error comes where there is no memory.
    pub fn new(alloc: Global, vector: u32) -> Result<XvcFrame, AllocError>
        requires some { 1 ≤ vector }
        requires most { vector ≤ 65536 }
        ensures { IfOk result (λ frame. frame ≡ record { vector = vector; held = [] }) }
    {
        let bytes = vec![in alloc; 0; 2 * vector as usize + 26]?;
        Ok(XvcFrame {
            vector,
            bytes,
            count: 0,
        })
    }

    /// How many bytes are wanted next: the fewest that complete some message that begins with what is held, 8 where nothing is.
    /// Where no message begins with what is held, it is the number of length bytes that are still missing.
    pub fn want(&self) -> usize
        ensures value { result ≡ want self.now.vector self.now.held }
        ensures some { IsOpen self.now → 1 ≤ result }
    {
        wanted(self.vector, &self.bytes[..self.count])
    }

    /// Forgets what is held.
    pub fn clear(&mut self)
        ensures { self.new ≡ record self.old { held = [] } }
    {
        self.count = 0;
    }

    /// Takes the next bytes, at most as many as are wanted, and tells what is held then.
    pub fn take(&mut self, piece: &[u8]) -> FrameStep
        requires open { IsOpen self.old }
        requires some { 1 ≤ length piece.now }
        requires wanted { length piece.now ≤ want self.old.vector self.old.held }
        ensures held { self.new ≡ record self.old { held = self.old.held ++ piece.now } }
        ensures step { Tells self.new.vector self.new.held result }
    {
        put(&mut self.bytes, self.count, piece);
        self.count += piece.len();
        step_of(self.vector, &self.bytes[..self.count])
    }

    /// So many TMS bits of the `shift:` that is held, from a cycle on, the first lowest; the others are 0.
    pub fn tms_word(&self, at: u32, width: u32) -> u64
        requires some { 1 ≤ width }
        requires most { width ≤ 64 }
        requires within { at + width ≤ length (tms_bits self.now) }
        ensures value { result ≡ number_of (take width (drop at (tms_bits self.now))) }
        ensures bound { result < 2 ^ width }
    {
        read_bits(&self.bytes, 80 + at as usize, width)
    }

    /// So many TDI bits of the `shift:` that is held, from a cycle on, the first lowest; the others are 0.
    /// Where a TDO bit was put, it is that bit.
    pub fn tdi_word(&self, at: u32, width: u32) -> u64
        requires some { 1 ≤ width }
        requires most { width ≤ 64 }
        requires within { at + width ≤ length (tdi_bits self.now) }
        ensures value { result ≡ number_of (take width (drop at (tdi_bits self.now))) }
        ensures bound { result < 2 ^ width }
    {
        read_bits(&self.bytes, 8 * (self.count / 2 + 5) + at as usize, width)
    }

    /// Puts the lowest bits of a value, the TDO bits of so many cycles from one on, in the place of the TDI bits of these cycles.
    /// What is held is then the same `shift:` with these bits.
    pub fn put_tdo_word(&mut self, at: u32, width: u32, value: u64)
        requires some { 1 ≤ width }
        requires most { width ≤ 64 }
        requires within { at + width ≤ length (tdi_bits self.old) }
        ensures vector { self.new.vector ≡ self.old.vector }
        ensures held { IsFramed self.old.vector (Shift (tms_bits self.old) (replaced (tdi_bits self.old) at (bits_of width value))) self.new.held }
    {
        let start = 8 * (self.count / 2 + 5);
        write_bits(&mut self.bytes, start + at as usize, width, value);
    }

    /// The TMS bit of a cycle of the `shift:` that is held.
    pub fn tms(&self, at: u32) -> bool
        requires { at < length (tms_bits self.now) }
        ensures { result ≡ bit_at (tms_bits self.now) at }
    {
        self.tms_word(at, 1) == 1
    }

    /// The TDI bit of a cycle of the `shift:` that is held, or the TDO bit that was put in its place.
    pub fn tdi(&self, at: u32) -> bool
        requires { at < length (tdi_bits self.now) }
        ensures { result ≡ bit_at (tdi_bits self.now) at }
    {
        self.tdi_word(at, 1) == 1
    }

    /// Puts the TDO bit of a cycle in the place of its TDI bit. What is held is then the same `shift:` with this bit.
    pub fn put_tdo(&mut self, at: u32, bit: bool)
        requires { at < length (tdi_bits self.old) }
        ensures vector { self.new.vector ≡ self.old.vector }
        ensures held { IsFramed self.old.vector (Shift (tms_bits self.old) (slice_set (tdi_bits self.old) at bit)) self.new.held }
    {
        self.put_tdo_word(at, 1, u64::from(bit));
    }

    /// Sets the spare bits behind the last TDI bit to 0, once all TDO bits are put.
    /// The bytes of the vector are then the reply, and what is held is the same `shift:`.
    pub fn clear_spare(&mut self)
        requires { holds_shift self.old ≡ true }
        ensures vector { self.new.vector ≡ self.old.vector }
        ensures held { IsFramed self.old.vector (Shift (tms_bits self.old) (tdi_bits self.old)) self.new.held }
        ensures reply { reply_bytes self.new ≡ packed (tdi_bits self.old) }
    {
        let cycles = number_at(&self.bytes, 6) as usize;
        let start = self.count / 2 + 5;
        let spare = 8 * (self.count - start) - cycles;
        write_bits(&mut self.bytes, 8 * start + cycles, spare as u32, 0);
    }

    /// The bytes of the TDI vector: once all TDO bits are put and the spare bits are cleared, the reply.
    pub fn tdo_bytes(&self) -> &[u8]
        requires { holds_shift self.now ≡ true }
        ensures { result.now ≡ reply_bytes self.now }
    {
        &self.bytes[self.count / 2 + 5..self.count]
    }
}

/// Puts bytes in a place, with the bytes before it as they are.
fn put(bytes: &mut [u8], from: usize, piece: &[u8])
    requires { from + length piece.now ≤ length bytes.old }
    ensures taken { take (from + length piece.now) bytes.new ≡ take from bytes.old ++ piece.now }
    ensures bytes { AreBytes bytes.new }
{
    bytes[from..from + piece.len()].copy_from_slice(piece);
}
