// Bits that come in pieces.
ghost use Rattle.std.specs.Prelude.{◌≡◌, ◌≤◌, ◌<◌, ◌^◌, ◌%◌, ◌+◌, ◌++◌};
ghost use Rattle.scan_bits.specs.Words.{bits_of};

/// Up to 64 bits: the lowest `count` of `bits`, the lowest first. The others are 0.
#[derive(Clone, Copy)]
pub struct Piece {
    pub count: u32,
    pub bits: u64,
}

// The lowest bits of a word, so many.
fn low_bits(word: u64, count: u32) -> u64
    requires some { 1 ≤ count }
    requires few { count ≤ 64 }
    ensures { result ≡ word % 2 ^ count }
{
    word & (u64::MAX >> (64 - count))
}

impl Piece {
    /// The first `n` bits, and those behind them.
    pub fn split(self, n: u32) -> (Piece, Piece)
        requires some { 1 ≤ n }
        requires more { n < self.count }
        requires few { self.count ≤ 64 }
        requires bound { self.bits < 2 ^ self.count }
        ensures bits { bits_of n result.0.bits ++ bits_of result.1.count result.1.bits ≡ bits_of self.count self.bits }
        ensures count { result.0.count ≡ n }
        ensures bound { result.0.bits < 2 ^ n }
        ensures rest { result.1.bits < 2 ^ result.1.count }
        ensures few { result.1.count ≤ 64 }
    {
        let first = Piece {
            count: n,
            bits: low_bits(self.bits, n),
        };
        let rest = Piece {
            count: self.count - n,
            bits: self.bits >> n,
        };
        (first, rest)
    }

    /// The bits, and the lowest `count` bits of a word behind them.
    pub fn joined(self, count: u32, word: u64) -> Piece
        requires some { 1 ≤ count }
        requires few { self.count + count ≤ 64 }
        requires bound { self.bits < 2 ^ self.count }
        ensures count { result.count ≡ self.count + count }
        ensures bits { bits_of result.count result.bits ≡ bits_of self.count self.bits ++ bits_of count word }
        ensures bound { result.bits < 2 ^ result.count }
    {
        Piece {
            count: self.count + count,
            bits: self.bits | low_bits(word, count) << self.count,
        }
    }
}
