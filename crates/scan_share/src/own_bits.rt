// The group's bits of a read-out.
ghost use Rattle.std.specs.Prelude.{◌≡◌, ◌≤◌, ◌<◌, ◌+◌, ◌-◌, ◌/◌, ◌^◌, ◌++◌, ◌∷◌, [], Bool, List, false, length, replicate};
ghost use Rattle.scan_bits.specs.Words.{bits_of};
ghost use Rattle.scan_share.specs.Rows.{TakesOwn, own_count, chosen, woven};

use crate::pieces::Piece;
use crate::runs::{Run, ScanRuns};
use scan_bits::Bits;
use scan_walks::BitSink;

/// Takes the bits of a read-out of the whole chain, and keeps those of the group behind the bits of a list.
#[derive(Drop)]
pub struct OwnBits<'a, R: ScanRuns> {
    runs: &'a mut R,
    into: &'a mut Bits,
}

impl<'a, R: ScanRuns> OwnBits<'a, R> {
    /// What is left of the scan is to come. There is to be room for the group's bits.
    pub fn new(runs: &'a mut R, into: &'a mut Bits) -> OwnBits<'a, R>
        requires room { length into.old.bits + own_count (R.marks runs.old) ≤ into.old.room }
        ensures room { ⟦<OwnBits<'a, R> as BitSink>⟧.room result ≡ length (R.marks runs.old) }
        ensures holds { (out : List Bool) → ⟦<OwnBits<'a, R> as BitSink>⟧.holds result out ≡ into.old.bits ++ chosen (R.marks runs.old) out }
        ensures into { result.into.now ≡ into.old }
        ensures reference { result.into.ghost_name ≡ into.entry.ghost_name }
    {
        OwnBits { runs, into }
    }
}

// Bits of the group, and behind them those of a run of which `done` bits of a word are before.
fn with_run(own: Piece, run: Run, word: u64, done: u32) -> Piece
    requires few { done + run.others + run.own ≤ 64 }
    requires done { own.count ≤ done }
    requires bound { own.bits < 2 ^ own.count }
    ensures count { result.count ≡ own.count + run.own }
    ensures bits { bits_of result.count result.bits ≡ bits_of own.count own.bits ++ bits_of run.own (word / 2 ^ (done + run.others)) }
    ensures bound { result.bits < 2 ^ result.count }
{
    if run.own == 0 {
        return own;
    }
    own.joined(run.own, word >> (done + run.others))
}

// Takes the next `n` bits of a scan, which are the lowest ones of `word`. Says which of them are the group's.
fn own_of<R: ScanRuns>(runs: &mut R, n: u32, word: u64) -> Piece
    requires some { 1 ≤ n }
    requires few { n ≤ 64 }
    requires bound { word < 2 ^ n }
    requires left { n ≤ length (R.marks runs.old) }
    ensures taken { TakesOwn n word result.count result.bits (R.marks runs.old) (R.marks runs.new) }
{
    let first = runs.next(n);
    if first.own == n {
        return Piece {
            count: n,
            bits: word,
        };
    }
    let mut own = with_run(Piece { count: 0, bits: 0 }, first, word, 0);
    let mut done = first.others + first.own;
    while done < n {
        let run = runs.next(n - done);
        own = with_run(own, run, word, done);
        done += run.others + run.own;
    }
    own
}

impl<'a, R: ScanRuns> BitSink for OwnBits<'a, R> {
    ghost holds = { λ s more. s.into.now.bits ++ chosen (R.marks s.runs.now) more };

    ghost room = { λ s. length (woven (R.marks s.runs.now) (replicate (s.into.now.room - length s.into.now.bits) false)) };

    ghost mark = { λ s. s.into.ghost_name ∷ s.into.now.room ∷ [] };

    fn put(&mut self, n: u32, word: u64) {
        let own = own_of(self.runs, n, word);
        if own.count > 0 {
            self.into.push_word(own.count, own.bits);
        }
    }
}
