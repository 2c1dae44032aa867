// The bits of a scan of data registers, run by run.
ghost use Rattle.std.specs.Prelude.{◌≡◌, ◌≤◌, ◌<◌, ◌+◌, ◌-◌, ◌++◌, Bool, List, Some, length, replicate, slice_get, true, false};
ghost use Rattle.std.specs.List.{slice_index_or};
ghost use Rattle.scan_bits.specs.Registers.{joined};
ghost use Rattle.scan_share.specs.Scans.{group_bits, scan_length, widths_during};
ghost use Rattle.scan_share.specs.Lengths.{own_length};
ghost use Rattle.scan_share.specs.Written.{group_widths, written};
ghost use Rattle.scan_share.specs.Rows.{IsNext, IsRow, own_codes, scan_codes, own_count, woven, chosen, marks_below, marks_left};

use crate::scan::Scan;
use std::marker::Model;

/// Bits that follow one another in a scan of data registers: those of devices in BYPASS, and behind them some of the group's own.
#[derive(Clone, Copy)]
pub struct Run {
    pub others: u32,
    pub own: u32,
}

/// What is left of a scan of data registers, run by run, from the last device, which is nearest TDO, to the first.
pub trait ScanRuns {
    /// A bit for each bit of the scan that is left, the next one first: 1 where it is the group's, 0 where it is of BYPASS in another
    /// device.
    ghost marks: { Self → List Bool };

    /// The next bits of one run, at most `most` of them. They are left no more.
    fn next(&mut self, most: u32) -> Run
        requires some { 1 ≤ most }
        requires left { 1 ≤ length (marks self.old) }
        ensures left { replicate result.others false ++ (replicate result.own true ++ marks self.new) ≡ marks self.old }
        ensures some { 1 ≤ result.others + result.own }
        ensures few { result.others + result.own ≤ most };
}

/// How far a scan came, from the last device to the first: so many devices are left, so many of the group's among them, and before those
/// so many bits of the group's own.
#[derive(Clone, Copy)]
pub struct Stand {
    pub place: usize,
    pub own: usize,
    pub bits: usize,
}

/// What is left of a scan of data registers, from the last device, which is nearest TDO, to the first. Contracts see a bit for each bit
/// of the scan that is left, the next one first: 1 where it is the group's, 0 where it is of BYPASS in another device.
#[derive(Drop)]
pub struct Runs<'a> {
    group: &'a [usize],
    widths: &'a [u32],
    stand: Stand,
}

impl<'a> Model for Runs<'a> {
    ghost use Rattle.std.specs.Prelude.{List, Bool};
    ghost use Rattle.scan_share.specs.Rows.{IsRow, marks_left};

    ghost Value = { List Bool };

    ghost view = { λ r. marks_left r.group.now r.widths.now r.stand.place r.stand.bits };

    ghost invariant = { λ r. IsRow r.group.now r.widths.now r.stand.own r.stand.place };
}

// How many devices there are up to the last of the first `own` ones of a group.
fn end_of(group: &[usize], own: usize) -> usize
    requires within { own ≤ length group.now }
    requires low { (place : _) → slice_get group.now (own - 1) ≡ Some place → place < 32 }
    ensures none { own ≡ 0 → result ≡ 0 }
    ensures some { 1 ≤ own → slice_get group.now (own - 1) ≡ Some (result - 1) }
    ensures bound { 1 ≤ own → 1 ≤ result }
{
    if own == 0 {
        return 0;
    }
    group[own - 1] + 1
}

// Behind the last of the devices that are left, which is of the group: its bits are left before those of the others.
fn own_entered(group: &[usize], widths: &[u32], stand: Stand) -> Stand
    requires row { IsRow group.now widths.now stand.own stand.place }
    requires next { IsNext group.now stand.own stand.place }
    requires used { stand.bits ≡ 0 }
    ensures same { marks_left group.now widths.now result.place result.bits ≡ marks_left group.now widths.now stand.place stand.bits }
    ensures row { IsRow group.now widths.now result.own result.place }
    ensures some { 1 ≤ result.bits }
{
    let own = stand.own - 1;
    Stand {
        place: stand.place - 1,
        own,
        bits: widths[own] as usize,
    }
}

// How many bits of other devices come next, at most `most` of them, and where they are past. Where they are fewer, the device of the
// group that follows is entered.
#[inline(always)]
fn entered(group: &[usize], widths: &[u32], stand: Stand, most: u32) -> (u32, Stand)
    requires row { IsRow group.now widths.now stand.own stand.place }
    requires some { 1 ≤ most }
    requires left { 1 ≤ length (marks_left group.now widths.now stand.place stand.bits) }
    ensures same { replicate result.0 false ++ marks_left group.now widths.now result.1.place result.1.bits ≡ marks_left group.now widths.now stand.place stand.bits }
    ensures row { IsRow group.now widths.now result.1.own result.1.place }
    ensures few { result.0 ≤ most }
    ensures some { 1 ≤ result.0 + result.1.bits }
{
    if stand.bits > 0 {
        return (0, stand);
    }
    let end = end_of(group, stand.own);
    let others = stand.place - end;
    if others >= most as usize {
        let place = stand.place - most as usize;
        return (most, Stand { place, ..stand });
    }
    let stand = Stand {
        place: end,
        ..stand
    };
    if stand.own == 0 {
        return (others as u32, stand);
    }
    (others as u32, own_entered(group, widths, stand))
}

impl<'a> Runs<'a> {
    /// All bits of a scan for a group whose registers have these widths.
    pub fn new(scan: &Scan<'a>, widths: &'a [u32]) -> Runs<'a>
        requires { widths.now ≡ group_widths scan.now.layout scan.now.group (own_codes scan.now) }
        ensures count { length result ≡ scan_length scan.now.layout scan.now.group (own_codes scan.now) }
        ensures own { own_count result ≡ own_length scan.now.layout scan.now.group (own_codes scan.now) }
        ensures written { (bits : List Bool) → length bits ≡ own_length scan.now.layout scan.now.group (own_codes scan.now) → woven result bits ≡ joined (written scan.now.layout scan.now.group (own_codes scan.now) bits) }
        ensures read { (out : List Bool) → length out ≡ scan_length scan.now.layout scan.now.group (own_codes scan.now) → chosen result out ≡ group_bits scan.now.group (widths_during scan.now.layout.parts (scan_codes scan.now)) out }
    {
        let group = scan.group();
        Runs {
            group,
            widths,
            stand: Stand {
                place: scan.devices(),
                own: group.len(),
                bits: 0,
            },
        }
    }
}

impl<'a> ScanRuns for Runs<'a> {
    ghost marks = { λ r. r };

    #[inline(always)]
    fn next(&mut self, most: u32) -> Run {
        let (others, stand) = entered(self.group, self.widths, self.stand, most);
        let own = stand.bits.min((most - others) as usize);
        self.stand = Stand {
            bits: stand.bits - own,
            ..stand
        };
        Run {
            others,
            own: own as u32,
        }
    }
}
