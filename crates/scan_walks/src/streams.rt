// Bits by words of up to 64, the first bit as the lowest of its word.
ghost use Rattle.std.specs.Prelude.{◌≡◌, ◌≤◌, ◌<◌, ◌+◌, ◌-◌, ◌^◌, ◌++◌, ◌∷◌, [], ℕ, Bool, List, length, take, drop};
ghost use Rattle.scan_bits.specs.Words.{bits_of, number_of};

use scan_bits::Bits;

/// Gives bits, up to 64 at a time.
pub trait BitSource {
    /// The bits that are left, the next one first.
    ghost left: { Self → List Bool };

    /// The next `n` bits (1 to 64), the first of them as the lowest bit of the answer. They are left no more.
    fn take(&mut self, n: u32) -> u64
        requires some { 1 ≤ n }
        requires few { n ≤ 64 }
        requires left { n ≤ length (left self.old) }
        ensures word { result ≡ number_of (take n (left self.old)) }
        ensures left { left self.new ≡ drop n (left self.old) };
}

/// Takes bits, up to 64 at a time.
pub trait BitSink {
    /// What it holds once it took these bits behind those that it took so far.
    ghost holds: { Self → List Bool → List Bool };

    /// How many bits more it has room for.
    ghost room: { Self → ℕ };

    /// A mark that no call changes, such as the room of a list, or the name of a reference that it writes through.
    ghost mark: { Self → List ℕ };

    /// Takes the lowest `n` bits (1 to 64) of `word`, the lowest first. The bits of `word` from `n` on are 0.
    fn put(&mut self, n: u32, word: u64)
        requires some { 1 ≤ n }
        requires few { n ≤ 64 }
        requires bound { word < 2 ^ n }
        requires room { n ≤ room self.old }
        ensures taken { (more : List Bool) → holds self.new more ≡ holds self.old (bits_of n word ++ more) }
        ensures room { room self.new + n ≡ room self.old }
        ensures mark { mark self.new ≡ mark self.old };
}

/// A list of bits holds all bits that it took behind its own, as far as its room goes.
impl BitSink for Bits {
    ghost holds = { λ b more. b.bits ++ more };

    ghost room = { λ b. b.room - length b.bits };

    ghost mark = { λ b. b.room ∷ [] };

    fn put(&mut self, n: u32, word: u64) {
        self.push_word(n, word);
    }
}
