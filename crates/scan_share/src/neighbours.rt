// The bits of a scan of data registers for a group whose devices are neighbours.
ghost use Rattle.std.specs.Prelude.{◌≡◌, ◌≤◌, ◌<◌, ◌++◌, Bool, List, length, min, replicate, true, false};
ghost use Rattle.std.specs.List.{All};
ghost use Rattle.grant_table.specs.Apart.{RisesFrom};
ghost use Rattle.scan_bits.specs.Registers.{joined};
ghost use Rattle.scan_share.specs.Scans.{group_bits, scan_length, widths_during};
ghost use Rattle.scan_share.specs.Lengths.{own_length};
ghost use Rattle.scan_share.specs.Written.{written};
ghost use Rattle.scan_share.specs.Rows.{AreNeighbours, own_codes, scan_codes, own_count, woven, chosen};

use crate::runs::{Run, ScanRuns};
use crate::scan::Scan;

/// What is left of a scan for a group of neighbours: the bits of the devices between it and TDO, its own, and those of the devices
/// between TDI and it.
#[derive(Drop)]
pub struct Neighbours {
    before: usize,
    own: usize,
    behind: usize,
}

// Whether the devices of a group are neighbours: there is no other device between the first and the last.
pub fn are_neighbours(group: &[usize]) -> bool
    requires rising { RisesFrom 0 group.now }
    requires low { All (λ place. place < 32) group.now }
    requires few { length group.now ≤ 32 }
    ensures found { result ≡ true → AreNeighbours group.now }
    ensures all { AreNeighbours group.now → result ≡ true }
{
    match (group.first(), group.last()) {
        (Some(first), Some(last)) => *last + 1 == *first + group.len(),
        _ => false,
    }
}

impl Neighbours {
    /// All bits of a scan for a group whose registers have so many bits together.
    pub fn new(scan: &Scan, own: usize) -> Neighbours
        requires neighbours { AreNeighbours scan.now.group }
        requires own { own ≡ own_length scan.now.layout scan.now.group (own_codes scan.now) }
        ensures count { length (⟦<Neighbours as ScanRuns>⟧.marks result) ≡ scan_length scan.now.layout scan.now.group (own_codes scan.now) }
        ensures own { own_count (⟦<Neighbours as ScanRuns>⟧.marks result) ≡ own_length scan.now.layout scan.now.group (own_codes scan.now) }
        ensures written { (bits : List Bool) → length bits ≡ own_length scan.now.layout scan.now.group (own_codes scan.now) → woven (⟦<Neighbours as ScanRuns>⟧.marks result) bits ≡ joined (written scan.now.layout scan.now.group (own_codes scan.now) bits) }
        ensures read { (out : List Bool) → length out ≡ scan_length scan.now.layout scan.now.group (own_codes scan.now) → chosen (⟦<Neighbours as ScanRuns>⟧.marks result) out ≡ group_bits scan.now.group (widths_during scan.now.layout.parts (scan_codes scan.now)) out }
    {
        let devices = scan.devices();
        let group = scan.group();
        let behind = group[0];
        Neighbours {
            before: devices - (behind + group.len()),
            own,
            behind,
        }
    }
}

// So many bits of a run that has `left` of them, at most `most`.
fn part_of(left: usize, most: u32) -> u32
    ensures { result ≡ min left most }
{
    left.min(most as usize) as u32
}

impl ScanRuns for Neighbours {
    ghost marks = { λ n. replicate n.before false ++ (replicate n.own true ++ replicate n.behind false) };

    fn next(&mut self, most: u32) -> Run {
        if self.before == 0 && self.own >= most as usize {
            self.own -= most as usize;
            return Run {
                others: 0,
                own: most,
            };
        }
        if self.before == 0 && self.own == 0 {
            let others = part_of(self.behind, most);
            self.behind -= others as usize;
            return Run { others, own: 0 };
        }
        let others = part_of(self.before, most);
        let own = part_of(self.own, most - others);
        self.before -= others as usize;
        self.own -= own as usize;
        Run { others, own }
    }
}
