// How many bits a scan of data registers has.
ghost use Rattle.std.specs.Prelude.{◌≡◌, ◌≤◌, ◌<◌, ◌*◌, ◌^◌, length, take};
ghost use Rattle.std.specs.List.{All, sum_by};
ghost use Rattle.scan_share.specs.PrivateChains.{entries_at};
ghost use Rattle.scan_share.specs.Scans.{codes_of, scan_length};
ghost use Rattle.scan_share.specs.Codes.{AreCodes};
ghost use Rattle.scan_share.specs.Laws.{IsGroup};
ghost use Rattle.scan_share.specs.Rows.{AreNeighbours};
ghost use Rattle.scan_share.specs.Views.{codes_for, own_width};
ghost use Rattle.grant_table.specs.Kept.{AllParts};
ghost use Rattle.grant_table.specs.Layouts.{group_of, longest_of};
ghost use Rattle.scan_share.specs.Written.{group_widths};

use crate::members::members;
use crate::scan::Scan;
use grant_table::Layout;

/// Makes the first of these widths how many bits the registers of a group's devices have under these codes. Says how many they have
/// together.
#[inline(always)]
pub fn put_widths(layout: &Layout, group: &[usize], codes: &[u64], widths: &mut [u32]) -> usize
    requires few { length group.now ≤ 32 }
    requires within { All (λ place. place < length layout.now.parts) group.now }
    requires coded { length codes.now ≡ length group.now }
    requires room { length group.now ≤ length widths.old }
    ensures long { length widths.new ≡ length widths.old }
    ensures widths { take (length group.now) widths.new ≡ group_widths layout.now group.now (codes_of (entries_at layout.now.parts group.now) codes.now) }
    ensures sum { result ≡ sum_by (λ w. w) (group_widths layout.now group.now (codes_of (entries_at layout.now.parts group.now) codes.now)) }
    ensures bound { result ≤ 32 * 2 ^ 32 }
{
    let mut sum = 0;
    for i in 0..group.len() {
        let width = layout.part(group[i]).selected_length(codes[i]);
        widths[i] = width;
        sum += width as usize;
    }
    sum
}

/// How many bits the registers of a group's devices have together under these codes.
#[inline(always)]
pub fn own_length(layout: &Layout, group: &[usize], codes: &[u64]) -> usize
    requires few { length group.now ≤ 32 }
    requires within { All (λ place. place < length layout.now.parts) group.now }
    requires coded { length codes.now ≡ length group.now }
    ensures is { result ≡ sum_by (λ w. w) (group_widths layout.now group.now (codes_of (entries_at layout.now.parts group.now) codes.now)) }
    ensures bound { result ≤ 32 * 2 ^ 32 }
{
    let mut sum = 0;
    for i in 0..group.len() {
        sum += layout.part(group[i]).selected_length(codes[i]) as usize;
    }
    sum
}

/// The same for a group of neighbours.
#[inline(always)]
pub fn neighbours_length(layout: &Layout, group: &[usize], codes: &[u64]) -> usize
    requires few { length group.now ≤ 32 }
    requires within { All (λ place. place < length layout.now.parts) group.now }
    requires coded { length codes.now ≡ length group.now }
    requires neighbours { AreNeighbours group.now }
    ensures is { result ≡ sum_by (λ w. w) (group_widths layout.now group.now (codes_of (entries_at layout.now.parts group.now) codes.now)) }
    ensures bound { result ≤ 32 * 2 ^ 32 }
{
    let first = group[0];
    let mut sum = 0;
    for i in 0..group.len() {
        sum += layout.part(first + i).selected_length(codes[i]) as usize;
    }
    sum
}

/// How many bits a scan for a grant has: those of its devices' registers, which are `own`, and one for each other device.
pub fn scan_length(layout: &Layout, grant: usize, codes: &[u64], own: usize) -> usize
    requires grant { grant < length layout.now.grants }
    requires codes { AreCodes (entries_at layout.now.parts (group_of layout.now.grants grant)) codes.now }
    requires own { own ≡ own_width layout.now grant codes.now }
    requires few { own < 2 ^ 63 }
    ensures is { result ≡ scan_length layout.now (group_of layout.now.grants grant) (codes_for layout.now grant codes.now) }
    ensures group { IsGroup layout.now (group_of layout.now.grants grant) }
    ensures parts { AllParts layout.now.parts }
    ensures some { 1 ≤ length layout.now.parts }
    ensures few { length codes.now ≤ 32 }
{
    let group = members(layout, grant);
    own + layout.devices() - group.len()
}

/// How many bits the registers of a grant's devices have under these instruction codes, from TDI on: those that a capture gives and an
/// update takes.
pub fn own_width(layout: &Layout, grant: usize, codes: &[u64]) -> usize
    requires grant { grant < length layout.now.grants }
    requires codes { AreCodes (entries_at layout.now.parts (group_of layout.now.grants grant)) codes.now }
    ensures is { result ≡ own_width layout.now grant codes.now }
    ensures bound { result ≤ longest_of layout.now (group_of layout.now.grants grant) }
{
    let group = members(layout, grant);
    Scan::new(layout, group, codes).own_length()
}
