//! A list of bits that takes no memory once it is made.
ghost use Rattle.std.specs.Prelude.{vec_len, ◌≡◌, ◌≤◌, ◌<◌, ◌+◌, ◌*◌, ◌^◌, ◌++◌, ◌∷◌, [], false, length, take, drop, replicate, slice_set, IfOk};
ghost use Rattle.scan_bits.specs.Words.{bits_of, number_of};
ghost use Rattle.scan_bits.specs.Registers.{bit_at, shifted, shifted_all, shifted_out};

use crate::rows::{append_bits, copy_bits, put_row_word, row_word};
use std::alloc::{AllocError, Global};
use std::marker::Model;

/// The greatest room that is asked of the allocator.
const GREATEST_ROOM: usize = 1 << 60;

/// A shift register's bits, or any list of bits with a greatest length, its room. Bit 0 is the one nearest TDO.
///
/// Only `with_room` and `zeros` take memory, and no call changes the room. The bits lie in words of 64 from a start
/// that moves on as bits leave, so that a shift costs the same whatever the length. At most once in as many shifts as
/// there is room for, the words in use are moved back to the front.
#[derive(Drop)]
pub struct Bits {
    words: Vec<u64>,
    start: usize,
    count: usize,
    room: usize,
}

impl Model for Bits {
    ghost use Rattle.std.specs.Prelude.{vec_len};
    ghost use Rattle.scan_bits.specs.BitLists.{BitList};
    ghost use Rattle.scan_bits.specs.Rows.{bits_of_row, window};
    ghost use Rattle.scan_bits.specs.Storage.{FitsWords};

    ghost Value = { BitList };

    ghost view = { λ b. record { bits = window (bits_of_row 64 b.words.items) b.start b.count; room = b.room } };

    ghost invariant = { λ b. FitsWords (vec_len b.words) b.start b.count b.room };
}

/// Words that are 0, enough for the room.
fn zero_words(alloc: Global, room: usize) -> Result<Vec<u64>, AllocError>
    ensures zeros { IfOk result (λ v. v.items ≡ replicate (vec_len v) 0) }
    ensures room { IfOk result (λ v. room + 128 ≤ 64 * vec_len v) }
    ensures small { IfOk result (λ v. 64 * vec_len v < 2 ^ 63) }
{
    if room > GREATEST_ROOM {
        return Err(AllocError);
    }
    Ok(vec![in alloc; 0; 2 * (room / 64) + 4]?)
}

impl Bits {
    /// No bits, with room for `room` of them. The error says that the memory is not there.
    pub fn with_room(alloc: Global, room: usize) -> Result<Bits, AllocError>
        ensures { IfOk result (λ b. b ≡ record { bits = []; room = room }) }
    {
        let words = zero_words(alloc, room)?;
        Ok(Bits {
            words,
            start: 0,
            count: 0,
            room,
        })
    }

    /// `count` bits that are 0, with room for no more. The error says that the memory is not there.
    pub fn zeros(alloc: Global, count: usize) -> Result<Bits, AllocError>
        ensures { IfOk result (λ b. b ≡ record { bits = replicate count false; room = count }) }
    {
        let words = zero_words(alloc, count)?;
        Ok(Bits {
            words,
            start: 0,
            count,
            room: count,
        })
    }

    /// How many bits there are.
    pub fn len(&self) -> usize
        ensures count { result ≡ length self.now.bits }
        ensures room { result ≤ self.now.room }
    {
        self.count
    }

    /// How many bits there is room for.
    pub fn room(&self) -> usize
        ensures room { result ≡ self.now.room }
        ensures small { result < 2 ^ 63 }
    {
        self.room
    }

    /// Forgets all bits.
    pub fn clear(&mut self)
        ensures { self.new ≡ record { bits = []; room = self.old.room } }
    {
        self.start = 0;
        self.count = 0;
    }

    /// Adds a bit behind the last.
    pub fn push(&mut self, bit: bool)
        requires { length self.old.bits < self.old.room }
        ensures { self.new ≡ record self.old { bits = self.old.bits ++ bit ∷ [] } }
    {
        self.start = append_bits(&mut self.words, self.start, self.count, 1, u64::from(bit));
        self.count += 1;
    }

    /// Adds the lowest `n` bits of `value` behind the last, the lowest first.
    pub fn push_word(&mut self, n: u32, value: u64)
        requires word { n ≤ 64 }
        requires room { length self.old.bits + n ≤ self.old.room }
        ensures { self.new ≡ record self.old { bits = self.old.bits ++ bits_of n value } }
    {
        self.start = append_bits(&mut self.words, self.start, self.count, n, value);
        self.count += n as usize;
    }

    /// Takes over the bits of another list, and keeps its own room.
    pub fn copy_from(&mut self, other: &Bits)
        requires { length other.now.bits ≤ self.old.room }
        ensures { self.new ≡ record self.old { bits = other.now.bits } }
    {
        self.start = copy_bits(&mut self.words, &other.words, other.start, other.count);
        self.count = other.count;
    }

    /// The bit at a place.
    pub fn get(&self, at: usize) -> bool
        requires { at < length self.now.bits }
        ensures { result ≡ bit_at self.now.bits at }
    {
        row_word(&self.words, self.start + at, 1) == 1
    }

    /// Puts a bit in place of the one there.
    pub fn set(&mut self, at: usize, bit: bool)
        requires { at < length self.old.bits }
        ensures { self.new ≡ record self.old { bits = slice_set self.old.bits at bit } }
    {
        put_row_word(&mut self.words, self.start + at, 1, u64::from(bit));
    }

    /// The `n` bits from `at` on, the first of them as the lowest bit of the answer.
    pub fn word(&self, at: usize, n: u32) -> u64
        requires word { n ≤ 64 }
        requires within { at + n ≤ length self.now.bits }
        ensures bits { result ≡ number_of (take n (drop at self.now.bits)) }
        ensures bound { result < 2 ^ n }
    {
        row_word(&self.words, self.start + at, n)
    }

    /// Puts the lowest `n` bits of `value` in place of the `n` bits from `at` on, the lowest first.
    pub fn put_word(&mut self, at: usize, n: u32, value: u64)
        requires word { n ≤ 64 }
        requires within { at + n ≤ length self.old.bits }
        ensures { self.new ≡ record self.old { bits = take at self.old.bits ++ bits_of n value ++ drop (at + n) self.old.bits } }
    {
        put_row_word(&mut self.words, self.start + at, n, value);
    }

    /// One shift: bit 0 leaves and is the answer, and `tdi` comes in behind the last bit.
    pub fn turn(&mut self, tdi: bool) -> bool
        requires { 1 ≤ length self.old.bits }
        ensures out { result ≡ bit_at self.old.bits 0 }
        ensures bits { self.new ≡ record self.old { bits = shifted self.old.bits tdi } }
    {
        let start = append_bits(&mut self.words, self.start, self.count, 1, u64::from(tdi));
        self.start = start + 1;
        row_word(&self.words, start, 1) == 1
    }

    /// `n` shifts with the lowest `n` bits of `tdi`, the lowest first. Bit i of the answer is what leaves in the i-th shift,
    /// counted from 0; its bits from `n` on are 0.
    pub fn turn_word(&mut self, n: u32, tdi: u64) -> u64
        requires word { (1 ≤ n) × (n ≤ 64) }
        requires some { 1 ≤ length self.old.bits }
        ensures out { result ≡ number_of (shifted_out self.old.bits (bits_of n tdi)) }
        ensures bits { self.new ≡ record self.old { bits = shifted_all self.old.bits (bits_of n tdi) } }
        ensures bound { result < 2 ^ n }
    {
        let start = append_bits(&mut self.words, self.start, self.count, n, tdi);
        self.start = start + n as usize;
        row_word(&self.words, start, n)
    }
}
