// The shift stage of a device's selected data register.
//
// A capture copies nothing: the captured bits are read where they stand until they have left. So a cycle costs the same whatever the
// length of the registers.
ghost use Rattle.std.specs.Prelude.{◌≡◌, ◌≤◌, ◌<◌, ◌+◌, ◌-◌, ◌^◌, ◌++◌, [], length, take, drop, IfOk, true, slice_get, slice_set, slice_index_or};
ghost use Rattle.scan_bits.specs.Registers.{lowest_or, shifted, shifted_all, shifted_out};
ghost use Rattle.scan_bits.specs.Words.{bits_of};
ghost use Rattle.scan_bits.specs.BitLists.{BitList};
ghost use Rattle.chain_model.specs.DataStages.{source_in, IsThere, last, staged, stage_bits, held_stage, Stands, IsStanding, SameCapture};

use scan_bits::Bits;
use std::alloc::{AllocError, Global};

// The register that a stage was captured from.
#[derive(Clone, Copy)]
pub enum Source {
    // The pins, which BOUNDARY captures.
    Pins,
    // The latch of a named register, counted from 0.
    Latch(usize),
}

// The shift stage: the last `left` bits of the register that was captured, and then the bits that came in.
#[derive(Drop)]
pub struct DataStage {
    source: Source,
    left: usize,
    came: Bits,
}

// The bit of a stage that is nearest TDO.
pub fn lowest(stage: &Bits) -> Option<bool>
    ensures { result ≡ slice_get stage.now.bits 0 }
{
    if stage.len() == 0 {
        return None;
    }
    Some(stage.get(0))
}

// A shift of a stage: its lowest bit leaves, or the one that comes in where it has none.
pub fn shift(stage: &mut Bits, tdi: bool) -> bool
    ensures out { result ≡ lowest_or tdi stage.old.bits }
    ensures bits { stage.new ≡ record stage.old { bits = shifted stage.old.bits tdi } }
{
    if stage.len() == 0 {
        return tdi;
    }
    stage.turn(tdi)
}

// A row of shifts of a stage: what leaves it, or what comes in where it has no bit.
fn shift_word(stage: &mut Bits, n: u32, tdi: u64) -> u64
    requires word { (1 ≤ n) × (n ≤ 64) }
    requires bound { tdi < 2 ^ n }
    ensures out { bits_of n result ≡ shifted_out stage.old.bits (bits_of n tdi) }
    ensures bits { stage.new ≡ record stage.old { bits = shifted_all stage.old.bits (bits_of n tdi) } }
    ensures bound { result < 2 ^ n }
{
    if stage.len() == 0 {
        return tdi;
    }
    stage.turn_word(n, tdi)
}

// The bits of two words, those of the first before those of the second.
fn joined_word(count: u32, low: u64, more: u32, high: u64) -> u64
    requires some { 1 ≤ more }
    requires few { count + more ≤ 64 }
    requires low { low < 2 ^ count }
    requires high { high < 2 ^ more }
    ensures bits { bits_of (count + more) result ≡ bits_of count low ++ bits_of more high }
    ensures bound { result < 2 ^ (count + more) }
{
    low | (high << count)
}

// Turns a list of bits by so many places: its first bits become the last.
fn rotate(bits: &mut Bits, count: usize)
    requires { count ≤ length bits.old.bits }
    ensures { bits.new ≡ record bits.old { bits = drop count bits.old.bits ++ take count bits.old.bits } }
{
    let mut left = count;
    while left > 0 {
        let n = left.min(64) as u32;
        let word = bits.word(0, n);
        bits.turn_word(n, word);
        left -= n as usize;
    }
}

// Shifts all bits of a list into a register.
pub fn shift_all(register: &mut Bits, bits: &Bits)
    requires { 1 ≤ length register.old.bits }
    ensures { register.new ≡ record register.old { bits = shifted_all register.old.bits bits.now.bits } }
{
    let count = bits.len();
    let mut at = 0;
    while at < count {
        let n = (count - at).min(64) as u32;
        register.turn_word(n, bits.word(at, n));
        at += n as usize;
    }
}

impl DataStage {
    // A stage without bits, with room for so many. The error comes where memory is wanting.
    pub fn with_room(alloc: Global, room: usize) -> Result<DataStage, AllocError>
        ensures { IfOk result (λ stage. stage ≡ held_stage [] room) }
    {
        Ok(DataStage {
            source: Source::Pins,
            left: 0,
            came: Bits::with_room(alloc, room)?,
        })
    }

    // Forgets all bits.
    pub fn clear(&mut self)
        ensures { self.new ≡ held_stage [] self.old.came.room }
    {
        self.source = Source::Pins;
        self.left = 0;
        self.came.clear();
    }

    // Takes the lowest bits of a code.
    pub fn load(&mut self, n: u32, code: u64)
        requires word { n ≤ 64 }
        requires room { n ≤ self.old.came.room }
        ensures { self.new ≡ held_stage (bits_of n code) self.old.came.room }
    {
        self.clear();
        self.came.push_word(n, code);
    }

    // Captures a register of so many bits.
    pub fn capture(&mut self, source: Source, length: usize)
        ensures { self.new ≡ record { source = source; left = length; came = record { bits = []; room = self.old.came.room } } }
    {
        self.source = source;
        self.left = length;
        self.came.clear();
    }

    // The register that was captured.
    pub fn source<'a>(&self, pins: &'a Bits, named: &'a [Bits]) -> &'a Bits
        requires { IsThere self.now.source named.now }
        ensures { result.now ≡ source_in self.now.source pins.now named.now }
    {
        match self.source {
            Source::Pins => pins,
            Source::Latch(at) => &named[at],
        }
    }

    // Whether the pins were captured.
    fn is_behind_pins(&self) -> bool
        ensures { result ≡ true → self.now.source ≡ Source.Pins }
    {
        match self.source {
            Source::Pins => true,
            Source::Latch(_) => false,
        }
    }

    // Whether the latch of this named register was captured, and bits of it are left.
    fn is_behind(&self, at: usize) -> bool
        ensures source { result ≡ true → self.now.source ≡ Source.Latch at }
        ensures left { result ≡ true → 1 ≤ self.now.left }
    {
        match self.source {
            Source::Pins => false,
            Source::Latch(place) => place == at && self.left > 0,
        }
    }

    // The bit that is nearest TDO.
    pub fn lowest(&self, source: &Bits) -> Option<bool>
        requires { Stands self.now source.now.bits }
        ensures { result ≡ slice_get (staged self.now source.now.bits) 0 }
    {
        if self.left == 0 {
            return lowest(&self.came);
        }
        Some(source.get(source.len() - self.left))
    }

    // One shift. The answer is the bit that leaves, or the one that comes in where there is none.
    pub fn shift(&mut self, source: &Bits, tdi: bool) -> bool
        requires { Stands self.old source.now.bits }
        ensures out { result ≡ lowest_or tdi (staged self.old source.now.bits) }
        ensures bits { staged self.new source.now.bits ≡ shifted (staged self.old source.now.bits) tdi }
        ensures stands { Stands self.new source.now.bits }
        ensures same { SameCapture self.old self.new }
    {
        if self.left == 0 {
            return shift(&mut self.came, tdi);
        }
        let out = source.get(source.len() - self.left);
        self.came.push(tdi);
        self.left -= 1;
        out
    }

    // So many shifts, where as many captured bits are left. The answer is what leaves.
    fn shift_captured(&mut self, source: &Bits, n: u32, tdi: u64) -> u64
        requires word { n ≤ 64 }
        requires left { n ≤ self.old.left }
        requires stands { Stands self.old source.now.bits }
        ensures out { bits_of n result ≡ shifted_out (staged self.old source.now.bits) (bits_of n tdi) }
        ensures bits { staged self.new source.now.bits ≡ shifted_all (staged self.old source.now.bits) (bits_of n tdi) }
        ensures bound { result < 2 ^ n }
        ensures left { self.new.left ≡ self.old.left - n }
        ensures stands { Stands self.new source.now.bits }
        ensures same { SameCapture self.old self.new }
    {
        let word = source.word(source.len() - self.left, n);
        self.came.push_word(n, tdi);
        self.left -= n as usize;
        word
    }

    // So many shifts. The answer is what leaves, or what comes in where there is no bit.
    pub fn shift_word(&mut self, source: &Bits, n: u32, tdi: u64) -> u64
        requires word { (1 ≤ n) × (n ≤ 64) }
        requires bound { tdi < 2 ^ n }
        requires stands { Stands self.old source.now.bits }
        ensures out { bits_of n result ≡ shifted_out (staged self.old source.now.bits) (bits_of n tdi) }
        ensures bits { staged self.new source.now.bits ≡ shifted_all (staged self.old source.now.bits) (bits_of n tdi) }
        ensures bound { result < 2 ^ n }
        ensures stands { Stands self.new source.now.bits }
        ensures same { SameCapture self.old self.new }
    {
        if self.left == 0 {
            return shift_word(&mut self.came, n, tdi);
        }
        if self.left >= n as usize {
            return self.shift_captured(source, n, tdi);
        }
        let count = self.left as u32;
        let low = self.shift_captured(source, count, tdi);
        let high = shift_word(&mut self.came, n - count, tdi >> count);
        joined_word(count, low, n - count, high)
    }

    // Adds what is left of the captured register behind what came in.
    fn take_rest(&mut self, source: &Bits)
        requires { Stands self.old source.now.bits }
        ensures { self.new ≡ record self.old { left = 0; came = record self.old.came { bits = self.old.came.bits ++ last self.old.left source.now.bits } } }
    {
        while self.left > 0 {
            let n = self.left.min(64) as u32;
            let word = source.word(source.len() - self.left, n);
            self.came.push_word(n, word);
            self.left -= n as usize;
        }
    }

    // Copies what is left of the captured register, so that the stage stands without it.
    pub fn settle(&mut self, source: &Bits)
        requires { Stands self.old source.now.bits }
        ensures { self.new ≡ record self.old { left = 0; came = record self.old.came { bits = staged self.old source.now.bits } } }
    {
        if self.left == 0 {
            return;
        }
        let count = self.came.len();
        if count == 0 && self.left == source.len() {
            self.came.copy_from(source);
            self.left = 0;
            return;
        }
        self.take_rest(source);
        rotate(&mut self.came, count);
    }

    // Puts a bit in place of the one at a place. Past the end nothing is done.
    pub fn put(&mut self, source: &Bits, at: usize, bit: bool)
        requires { Stands self.old source.now.bits }
        ensures bits { staged self.new source.now.bits ≡ slice_set (staged self.old source.now.bits) at bit }
        ensures stands { Stands self.new source.now.bits }
        ensures same { SameCapture self.old self.new }
    {
        self.settle(source);
        if at < self.came.len() {
            self.came.set(at, bit);
        }
    }

    // Update-DR of BOUNDARY: what came in since the capture is what stands behind the pins.
    pub fn update_boundary(&mut self, pins: &Bits, named: &[Bits], boundary: &mut Bits)
        requires standing { IsStanding self.old pins.now named.now }
        requires long { length (stage_bits self.old pins.now named.now) ≡ length pins.now.bits }
        requires room { length pins.now.bits ≤ boundary.old.room }
        ensures bits { shifted_all pins.now.bits boundary.new.bits ≡ stage_bits self.old pins.now named.now }
        ensures few { length boundary.new.bits ≤ length pins.now.bits }
        ensures room { boundary.new.room ≡ boundary.old.room }
        ensures same { SameCapture self.old self.new }
    {
        if !self.is_behind_pins() {
            self.settle(self.source(pins, named));
        }
        boundary.copy_from(&self.came);
    }

    // Update-DR of a named register. Where it is the one that was captured, its latch is shifted by what came in.
    pub fn update_latch(&mut self, at: usize, pins: &Bits, named: &mut [Bits])
        requires standing { IsStanding self.old pins.now named.old }
        requires there { at < length named.old }
        requires long { (latch : BitList) → length (stage_bits self.old pins.now named.old) ≡ length (slice_index_or named.old at latch).bits }
        requires room { (latch : BitList) → length (stage_bits self.old pins.now named.old) ≤ (slice_index_or named.old at latch).room }
        ensures latched { (latch : BitList) → named.new ≡ slice_set named.old at (record (slice_index_or named.old at latch) { bits = stage_bits self.old pins.now named.old }) }
        ensures same { SameCapture self.old self.new }
    {
        if self.is_behind(at) {
            shift_all(&mut named[at], &self.came);
            return;
        }
        self.settle(self.source(pins, named));
        named[at].copy_from(&self.came);
    }
}
