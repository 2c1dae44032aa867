// What a scan of the shared chain is for, device by device.
ghost use Rattle.std.specs.Prelude.{ℕ, ◌≡◌, ◌≢◌, ◌≤◌, ◌<◌, ◌+◌, ◌*◌, ◌^◌, ◌==◌, length, slice_get, take, true, false, Some, None};
ghost use Rattle.std.specs.List.{slice_index_or};
ghost use Rattle.grant_table.specs.Layouts.{first_place};
ghost use Rattle.scan_share.specs.Lengths.{own_length};
ghost use Rattle.scan_share.specs.Written.{group_widths};
ghost use Rattle.scan_share.specs.Rows.{AreNeighbours, IsScanOf, own_codes, scan_words};

use crate::codes::{Codes, put_own};
use crate::scan_length::{neighbours_length, own_length, put_widths};
use grant_table::Layout;
use std::marker::Model;

/// A group of a layout's devices, and an instruction code for each, bit 0 nearest TDO. All other devices are to be in BYPASS.
/// Contracts see the three.
#[derive(Drop)]
pub struct Scan<'a> {
    layout: &'a Layout,
    group: &'a [usize],
    codes: &'a [u64],
}

impl<'a> Model for Scan<'a> {
    ghost use Rattle.scan_share.specs.Rows.{ScanView, IsScanOf};

    ghost Value = { ScanView };

    ghost view = { λ s. record { layout = s.layout.now; group = s.group.now; codes = s.codes.now } };

    ghost invariant = { λ s. IsScanOf s.layout.now s.group.now s.codes.now };
}

impl<'a> Scan<'a> {
    /// The scan for these places of the layout, with a code for each.
    pub fn new(layout: &'a Layout, group: &'a [usize], codes: &'a [u64]) -> Scan<'a>
        requires { IsScanOf layout.now group.now codes.now }
        ensures { result ≡ record { layout = layout.now; group = group.now; codes = codes.now } }
    {
        Scan {
            layout,
            group,
            codes,
        }
    }

    /// How many devices the chain has.
    pub fn devices(&self) -> usize
        ensures is { result ≡ length self.now.layout.parts }
        ensures some { (1 ≤ result) × (result ≤ 32) }
        ensures scan { IsScanOf self.now.layout self.now.group self.now.codes }
    {
        self.layout.devices()
    }

    /// The places of the group, rising.
    pub fn group(&self) -> &'a [usize]
        ensures { result.now ≡ self.now.group }
    {
        self.group
    }

    // Whether the devices from one place up to another, none of which is of the group, have the code of BYPASS among these.
    fn are_bypassed(&self, loaded: &[u64], from: usize, to: usize) -> bool
        requires long { length loaded.now ≡ length self.now.layout.parts }
        requires within { to ≤ length loaded.now }
        requires others { (place : ℕ) → from ≤ place → place < to → first_place (λ other. other == place) self.now.group ≡ None }
        ensures same { result ≡ true → (place : ℕ) → from ≤ place → place < to → slice_get loaded.now place ≡ slice_get (scan_words self.now) place }
        ensures differ { result ≡ false → loaded.now ≢ scan_words self.now }
    {
        let _devices = self.devices();
        let bypass = self.layout.bypass_codes();
        let mut differing = 0;
        for place in from..to {
            differing |= loaded[place] ^ bypass[place];
        }
        differing == 0
    }

    // Whether these are the codes of all devices during the scan.
    fn each_is_loaded(&self, loaded: &[u64]) -> bool
        ensures same { result ≡ true → loaded.now ≡ scan_words self.now }
        ensures differ { result ≡ false → loaded.now ≢ scan_words self.now }
    {
        if loaded.len() != self.devices() {
            return false;
        }
        let codes = self.codes;
        let mut place = 0;
        for own in 0..self.group.len() {
            let next = self.group[own];
            if loaded[next] != codes[own] || !self.are_bypassed(loaded, place, next) {
                return false;
            }
            place = next + 1;
        }
        self.are_bypassed(loaded, place, loaded.len())
    }

    // Whether the devices of the group, which are neighbours from this place on, have their codes among these.
    fn own_are_loaded(&self, loaded: &[u64], first: usize) -> bool
        requires long { length loaded.now ≡ length self.now.layout.parts }
        requires neighbours { AreNeighbours self.now.group }
        requires first { first ≡ slice_index_or self.now.group 0 0 }
        ensures same { result ≡ true → (place : ℕ) → first ≤ place → place < first + length self.now.group → slice_get loaded.now place ≡ slice_get (scan_words self.now) place }
        ensures differ { result ≡ false → loaded.now ≢ scan_words self.now }
    {
        let _devices = self.devices();
        let codes = self.codes;
        let mut differing = 0;
        for i in 0..codes.len() {
            differing |= loaded[first + i] ^ codes[i];
        }
        differing == 0
    }

    // The same for a group of neighbours.
    fn neighbours_are_loaded(&self, loaded: &[u64]) -> bool
        requires neighbours { AreNeighbours self.now.group }
        ensures same { result ≡ true → loaded.now ≡ scan_words self.now }
        ensures differ { result ≡ false → loaded.now ≢ scan_words self.now }
    {
        if loaded.len() != self.devices() {
            return false;
        }
        let first = self.group[0];
        let behind = first + self.group.len();
        if !self.own_are_loaded(loaded, first) {
            return false;
        }
        if !self.are_bypassed(loaded, 0, first) {
            return false;
        }
        self.are_bypassed(loaded, behind, loaded.len())
    }

    // Makes these the codes of all devices during the scan.
    #[inline(never)]
    fn put_codes(&self, loaded: &mut Codes)
        ensures { loaded.new.items ≡ scan_words self.now }
    {
        let _devices = self.devices();
        loaded.clear();
        match loaded.try_extend_from_slice(self.layout.bypass_codes()) {
            Ok(()) => put_own(self.group, self.codes, loaded.as_mut_slice()),
            Err(_) => unreachable!(),
        }
    }

    /// Makes these the codes of all devices during the scan. Says whether they were so already.
    pub fn load(&self, loaded: &mut Codes) -> bool
        ensures is { loaded.new.items ≡ scan_words self.now }
        ensures same { result ≡ true → loaded.old.items ≡ loaded.new.items }
        ensures differ { result ≡ false → loaded.old.items ≢ loaded.new.items }
    {
        if self.each_is_loaded(loaded) {
            return true;
        }
        self.put_codes(loaded);
        false
    }

    /// The same for a group of neighbours.
    pub fn load_neighbours(&self, loaded: &mut Codes) -> bool
        requires neighbours { AreNeighbours self.now.group }
        ensures is { loaded.new.items ≡ scan_words self.now }
        ensures same { result ≡ true → loaded.old.items ≡ loaded.new.items }
        ensures differ { result ≡ false → loaded.old.items ≢ loaded.new.items }
    {
        if self.neighbours_are_loaded(loaded) {
            return true;
        }
        self.put_codes(loaded);
        false
    }

    /// Makes the first of these widths how many bits the registers have that the group's codes select. Says how many they have together.
    #[inline(always)]
    pub fn put_widths(&self, widths: &mut [u32]) -> usize
        requires room { 32 ≤ length widths.old }
        ensures long { length widths.new ≡ length widths.old }
        ensures widths { take (length self.now.group) widths.new ≡ group_widths self.now.layout self.now.group (own_codes self.now) }
        ensures sum { result ≡ own_length self.now.layout self.now.group (own_codes self.now) }
        ensures bound { result ≤ 32 * 2 ^ 32 }
    {
        let _devices = self.devices();
        put_widths(self.layout, self.group, self.codes, widths)
    }

    /// How many bits the registers have together that the group's codes select.
    #[inline(always)]
    pub fn own_length(&self) -> usize
        ensures is { result ≡ own_length self.now.layout self.now.group (own_codes self.now) }
        ensures bound { result ≤ 32 * 2 ^ 32 }
    {
        let _devices = self.devices();
        own_length(self.layout, self.group, self.codes)
    }

    /// The same for a group of neighbours.
    #[inline(always)]
    pub fn neighbours_length(&self) -> usize
        requires neighbours { AreNeighbours self.now.group }
        ensures is { result ≡ own_length self.now.layout self.now.group (own_codes self.now) }
        ensures bound { result ≤ 32 * 2 ^ 32 }
    {
        let _devices = self.devices();
        neighbours_length(self.layout, self.group, self.codes)
    }
}
