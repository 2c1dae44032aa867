// The bits of an instruction scan.
ghost use Rattle.std.specs.Prelude.{◌≡◌, ◌≤◌, ◌<◌, ◌++◌, ◌^◌, Some, length, slice_get, take, drop};
ghost use Rattle.scan_bits.specs.Words.{bits_of, number_of};
ghost use Rattle.scan_bits.specs.Registers.{joined};
ghost use Rattle.scan_share.specs.Codes.{AreCodes};
ghost use Rattle.scan_share.specs.Scans.{codes_of};
ghost use Rattle.scan_share.specs.Rows.{IsLoad};

use crate::pieces::Piece;
use grant_table::Layout;
use scan_walks::BitSource;
use std::marker::Model;

/// What is left of the bits of an instruction scan: the codes of a chain's devices from the last device, which is nearest TDO, to the
/// first. Contracts see the bits, the next one first.
#[derive(Drop)]
pub struct CodeBits<'a> {
    layout: &'a Layout,
    codes: &'a [u64],
    place: usize,
    code: Piece,
}

impl<'a> Model for CodeBits<'a> {
    ghost use Rattle.std.specs.Prelude.{◌++◌, take, List, Bool};
    ghost use Rattle.scan_bits.specs.Words.{bits_of};
    ghost use Rattle.scan_bits.specs.Registers.{joined};
    ghost use Rattle.scan_share.specs.Scans.{codes_of};
    ghost use Rattle.scan_share.specs.Rows.{IsLoad};

    ghost Value = { List Bool };

    ghost view = { λ c. bits_of c.code.count c.code.bits ++ joined (take c.place (codes_of c.layout.now.parts c.codes.now)) };

    ghost invariant = { λ c. IsLoad c.layout.now.parts c.codes.now c.place c.code.count c.code.bits };
}

// The code of the device at a place.
fn code_at(layout: &Layout, codes: &[u64], place: usize) -> Piece
    requires within { place < length layout.now.parts }
    requires low { place < 32 }
    requires codes { AreCodes layout.now.parts codes.now }
    ensures is { slice_get (codes_of layout.now.parts codes.now) place ≡ Some (bits_of result.count result.bits) }
    ensures bound { result.bits < 2 ^ result.count }
    ensures some { 1 ≤ result.count }
    ensures few { result.count ≤ 64 }
{
    Piece {
        count: layout.part(place).ir_len(),
        bits: codes[place],
    }
}

// The next `n` bits (1 to 64) of a scan, the first of them as the lowest bit of the word. What is left of the scan is the rest of a code, of
// at most `n` bits, and behind it the codes of the devices below a place. With the place and the rest of a code that are left then.
fn packed(layout: &Layout, codes: &[u64], place: usize, code: Piece, n: u32) -> (u64, usize, Piece)
    requires some { 1 ≤ n }
    requires few { n ≤ 64 }
    requires fits { code.count ≤ n }
    requires load { IsLoad layout.now.parts codes.now place code.count code.bits }
    requires left { n ≤ length (bits_of code.count code.bits ++ joined (take place (codes_of layout.now.parts codes.now))) }
    ensures word { result.0 ≡ number_of (take n (bits_of code.count code.bits ++ joined (take place (codes_of layout.now.parts codes.now)))) }
    ensures left { bits_of result.2.count result.2.bits ++ joined (take result.1 (codes_of layout.now.parts codes.now)) ≡ drop n (bits_of code.count code.bits ++ joined (take place (codes_of layout.now.parts codes.now))) }
    ensures load { IsLoad layout.now.parts codes.now result.1 result.2.count result.2.bits }
{
    let mut word = code.bits;
    let mut done = code.count;
    let mut below = place;
    while done < n {
        below -= 1;
        let next = code_at(layout, codes, below);
        let end = done + next.count;
        if end > n {
            let (first, rest) = next.split(n - done);
            return (word | first.bits << done, below, rest);
        }
        word |= next.bits << done;
        done = end;
    }
    (word, below, Piece { count: 0, bits: 0 })
}

impl<'a> CodeBits<'a> {
    /// All bits of the instruction scan that loads these codes.
    pub fn new(layout: &'a Layout, codes: &'a [u64]) -> CodeBits<'a>
        requires { AreCodes layout.now.parts codes.now }
        ensures { result ≡ joined (codes_of layout.now.parts codes.now) }
    {
        CodeBits {
            layout,
            codes,
            place: layout.devices(),
            code: Piece { count: 0, bits: 0 },
        }
    }
}

impl<'a> BitSource for CodeBits<'a> {
    ghost left = { λ c. c };

    fn take(&mut self, n: u32) -> u64 {
        if self.code.count > n {
            let (first, rest) = self.code.split(n);
            self.code = rest;
            return first.bits;
        }
        let (word, place, code) = packed(self.layout, self.codes, self.place, self.code, n);
        self.place = place;
        self.code = code;
        word
    }
}
