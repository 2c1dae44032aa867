//! The packed list beside a plain one, call by call.
ghost use Rattle.std.specs.Prelude.{◌≤◌, ◌<◌, ◌^◌};

use crate::Bits;
use std::alloc::{AllocError, Global};
use std::test::Fail;

/// The same list, one bit after another.
#[derive(Drop)]
struct PlainBits {
    bits: Vec<bool>,
}

impl PlainBits {
    fn get(&self, at: usize) -> bool {
        match self.bits.get(at) {
            Some(bit) => *bit,
            None => false,
        }
    }

    fn set(&mut self, at: usize, bit: bool) {
        if let Some(place) = self.bits.get_mut(at) {
            *place = bit;
        }
    }

    fn push_word(&mut self, n: u32, value: u64) -> Result<(), AllocError>
        requires { n ≤ 64 }
    {
        for i in 0..n {
            self.bits.push((value >> i) & 1 == 1)?;
        }
        Ok(())
    }

    fn turn(&mut self, tdi: bool) -> bool {
        let out = self.get(0);
        let count = self.bits.len();
        for at in 1..count {
            let next = self.get(at);
            self.set(at - 1, next);
        }
        self.set(count.saturating_sub(1), tdi);
        out
    }

    fn turn_word(&mut self, n: u32, tdi: u64) -> u64
        requires { n ≤ 64 }
    {
        let mut out = 0;
        for i in 0..n {
            out |= u64::from(self.turn((tdi >> i) & 1 == 1)) << i;
        }
        out
    }

    fn word(&self, at: usize, n: u32) -> u64
        requires word { n ≤ 64 }
        requires place { at < 2 ^ 32 }
    {
        let mut out = 0;
        for i in 0..n {
            out |= u64::from(self.get(at + i as usize)) << i;
        }
        out
    }

    fn put_word(&mut self, at: usize, n: u32, value: u64)
        requires word { n ≤ 64 }
        requires place { at < 2 ^ 32 }
    {
        for i in 0..n {
            self.set(at + i as usize, (value >> i) & 1 == 1);
        }
    }
}

/// Both lists, which have had the same calls. Each call answers whether they still say the same.
#[derive(Drop)]
struct Both {
    packed: Bits,
    plain: PlainBits,
}

impl Both {
    fn zeros(alloc: Global, count: usize) -> Result<Both, AllocError> {
        let packed = Bits::zeros(alloc, count)?;
        let bits = vec![in alloc; false; count]?;
        Ok(Both {
            packed,
            plain: PlainBits { bits },
        })
    }

    fn with_room(alloc: Global, room: usize) -> Result<Both, AllocError> {
        let packed = Bits::with_room(alloc, room)?;
        Ok(Both {
            packed,
            plain: PlainBits {
                bits: Vec::new(alloc),
            },
        })
    }

    fn are_same(&self) -> bool {
        if self.packed.len() != self.plain.bits.len() {
            return false;
        }
        for at in 0..self.packed.len() {
            if self.packed.get(at) != self.plain.get(at) {
                return false;
            }
        }
        true
    }

    fn turn(&mut self, tdi: bool) -> bool {
        self.packed.len() >= 1 && self.packed.turn(tdi) == self.plain.turn(tdi)
    }

    fn turn_word(&mut self, n: u32, tdi: u64) -> bool
        requires { (1 ≤ n) × (n ≤ 64) }
    {
        self.packed.len() >= 1 && self.packed.turn_word(n, tdi) == self.plain.turn_word(n, tdi)
    }

    fn word(&self, at: usize, n: u32) -> bool
        requires word { n ≤ 64 }
        requires place { at < 2 ^ 32 }
    {
        self.packed.len() < at + n as usize || self.packed.word(at, n) == self.plain.word(at, n)
    }

    fn put_word(&mut self, at: usize, n: u32, value: u64)
        requires word { n ≤ 64 }
        requires place { at < 2 ^ 32 }
    {
        if self.packed.len() >= at + n as usize {
            self.packed.put_word(at, n, value);
            self.plain.put_word(at, n, value);
        }
    }

    fn push(&mut self, bit: bool) -> Result<(), AllocError> {
        if self.packed.len() < self.packed.room() {
            self.packed.push(bit);
            self.plain.bits.push(bit)?;
        }
        Ok(())
    }

    fn push_word(&mut self, n: u32, value: u64) -> Result<(), AllocError>
        requires { n ≤ 64 }
    {
        if self.packed.room() - self.packed.len() >= n as usize {
            self.packed.push_word(n, value);
            self.plain.push_word(n, value)?;
        }
        Ok(())
    }

    fn clear(&mut self) {
        self.packed.clear();
        self.plain.bits.clear();
    }

    fn set(&mut self, at: usize, bit: bool) {
        if at < self.packed.len() {
            self.packed.set(at, bit);
            self.plain.set(at, bit);
        }
    }
}

/// Bits of no order.
fn mixed(seed: u64) -> u64 {
    let left = seed ^ (seed << 13);
    let right = left ^ (left >> 7);
    right ^ (right << 17)
}

/// Each call on registers of one length, while their start moves through the words.
fn compare(alloc: Global, count: usize) -> Result<bool, AllocError> {
    let mut both = Both::zeros(alloc, count)?;
    let mut copy = Both::zeros(alloc, count)?;
    let mut seed = 0x1abcd00f;
    for i in 0..150u32 {
        seed = mixed(seed);
        let n = 1 + i % 64;
        let at = i as usize % 70;
        let turned = both.turn(seed % 3 == 0) && both.turn_word(n, seed);
        both.put_word(at, n - 1, mixed(seed));
        both.set(at, seed % 5 == 0);
        let read = both.word(at, n) && both.word(0, n);
        if !turned || !read || !both.are_same() {
            return Ok(false);
        }
        if both.packed.len() <= copy.packed.room() {
            copy.packed.copy_from(&both.packed);
        }
        for at in 0..count {
            if at < copy.packed.len() && copy.packed.get(at) != both.plain.get(at) {
                return Ok(false);
            }
        }
    }
    Ok(true)
}

/// A list that grows from nothing to its room again and again, each time from another start.
fn compare_growth(alloc: Global, room: usize) -> Result<bool, AllocError> {
    let mut both = Both::with_room(alloc, room)?;
    let mut seed = 0x1abcd00f;
    for i in 0..200u32 {
        seed = mixed(seed);
        if i % 11 == 10 {
            both.clear();
        }
        both.push(seed % 3 == 0)?;
        both.push_word(i % 65, mixed(seed))?;
        let turned = both.packed.len() == 0 || both.turn_word(1 + i % 64, seed);
        if !turned || !both.are_same() || both.packed.room() != room {
            return Ok(false);
        }
    }
    Ok(true)
}

#[test]
fn packed_bits_grow_as_plain_bits(rt: HostRuntime) -> Result<(), Fail> {
    for room in [0, 1, 63, 64, 65, 128, 200, 500] {
        assert!(rt; compare_growth(rt.alloc(), room)?, "room {room}");
    }
    Ok(())
}

#[test]
fn packed_bits_are_plain_bits(rt: HostRuntime) -> Result<(), Fail> {
    for count in [1, 2, 31, 63, 64, 65, 100, 127, 128, 129, 200] {
        assert!(rt; compare(rt.alloc(), count)?, "at {count}");
    }
    Ok(())
}

#[test]
fn a_word_is_read_from_the_bit_nearest_tdo(rt: HostRuntime) -> Result<(), Fail> {
    let mut bits = Bits::with_room(rt.alloc(), 68)?;
    bits.push(true);
    bits.push(false);
    bits.push_word(2, 0b11);
    assert_eq!(rt; bits.word(0, 4), 0b1101);
    assert_eq!(rt; bits.turn_word(6, 0b10_0010), 0b10_1101);
    assert_eq!(rt; bits.word(0, 4), 0b1000);
    bits.push_word(64, u64::MAX);
    assert_eq!(rt; bits.word(4, 64), u64::MAX);
    assert_eq!(rt; bits.room(), 68);
    bits.clear();
    assert_eq!(rt; bits.len(), 0);
    Ok(())
}
