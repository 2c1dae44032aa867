// The bits that a write shifts in.
ghost use Rattle.std.specs.Prelude.{◌≡◌, ◌≤◌, ◌<◌, ◌^◌, ◌+◌, ◌++◌, length, take, drop};
ghost use Rattle.scan_bits.specs.Words.{bits_of, number_of};
ghost use Rattle.scan_share.specs.Rows.{woven};

use crate::pieces::Piece;
use crate::runs::ScanRuns;
use scan_bits::Bits;
use scan_walks::BitSource;

/// What is left of the bits that a write shifts in: the bits of the group's register at the group's places, and 0 for each other device,
/// which is in BYPASS.
#[derive(Drop)]
pub struct WriteBits<'a, R: ScanRuns> {
    runs: R,
    bits: &'a Bits,
    at: usize,
}

// The place so many behind another, up to the end.
fn next_place(at: usize, n: u32, end: usize) -> usize
    requires { at + n ≤ end }
    ensures { result ≡ at + n }
{
    end.min(at + n as usize)
}

impl<'a, R: ScanRuns> WriteBits<'a, R> {
    /// All bits of a write of the group's registers, bit 0 nearest TDO, by the runs of the scan.
    pub fn new(runs: R, bits: &'a Bits) -> WriteBits<'a, R>
        ensures { ⟦<WriteBits<'a, R> as BitSource>⟧.left result ≡ woven (R.marks runs) bits.now.bits }
    {
        WriteBits { runs, bits, at: 0 }
    }

    // The next bits of one run, at most `most` of them. They are left no more.
    fn next(&mut self, most: u32) -> Piece
        requires some { 1 ≤ most }
        requires few { most ≤ 64 }
        requires left { most ≤ length (woven (R.marks self.old.runs) (drop self.old.at self.old.bits.now.bits)) }
        ensures left { bits_of result.count result.bits ++ woven (R.marks self.new.runs) (drop self.new.at self.new.bits.now.bits) ≡ woven (R.marks self.old.runs) (drop self.old.at self.old.bits.now.bits) }
        ensures some { 1 ≤ result.count }
        ensures few { result.count ≤ most }
        ensures bound { result.bits < 2 ^ result.count }
    {
        let run = self.runs.next(most);
        if run.own == 0 {
            return Piece {
                count: run.others,
                bits: 0,
            };
        }
        let own = self.bits.word(self.at, run.own);
        self.at = next_place(self.at, run.own, self.bits.len());
        Piece {
            count: run.others + run.own,
            bits: own << run.others,
        }
    }

    // The next `n` bits (1 to 64) where those of the first run are taken already, and are fewer.
    #[inline(always)]
    fn take_behind(&mut self, first: Piece, n: u32) -> u64
        requires few { n ≤ 64 }
        requires fewer { first.count < n }
        requires bound { first.bits < 2 ^ first.count }
        requires left { n ≤ length (bits_of first.count first.bits ++ woven (R.marks self.old.runs) (drop self.old.at self.old.bits.now.bits)) }
        ensures word { result ≡ number_of (take n (bits_of first.count first.bits ++ woven (R.marks self.old.runs) (drop self.old.at self.old.bits.now.bits))) }
        ensures left { woven (R.marks self.new.runs) (drop self.new.at self.new.bits.now.bits) ≡ drop n (bits_of first.count first.bits ++ woven (R.marks self.old.runs) (drop self.old.at self.old.bits.now.bits)) }
    {
        let mut word = first.bits;
        let mut done = first.count;
        while done < n {
            let piece = self.next(n - done);
            word |= piece.bits << done;
            done += piece.count;
        }
        word
    }
}

impl<'a, R: ScanRuns> BitSource for WriteBits<'a, R> {
    ghost left = { λ w. woven (R.marks w.runs) (drop w.at w.bits.now.bits) };

    fn take(&mut self, n: u32) -> u64 {
        let first = self.next(n);
        if first.count == n {
            return first.bits;
        }
        self.take_behind(first, n)
    }
}
