// The instruction codes of a chain's devices, as words.
ghost use Rattle.std.specs.Prelude.{◌≡◌, ◌≤◌, ◌<◌, ◌^◌, nat_lt, length, map, true};
ghost use Rattle.std.specs.List.{All};
ghost use Rattle.grant_table.specs.Kept.{AllParts};
ghost use Rattle.scan_share.specs.PrivateChains.{entries_at};
ghost use Rattle.grant_table.specs.Layouts.{group_of};
ghost use Rattle.scan_share.specs.Codes.{AreCodes, put_at, reset_word};

use crate::members::members;
use arrayvec::ArrayVec;
use grant_table::{Layout, bypass_code};
use part_model::Part;

/// Instruction codes of devices, from TDI on, bit 0 nearest TDO.
pub type Codes = ArrayVec<u64, 32>;

// The codes that Test-Logic-Reset loads.
pub fn reset_codes(layout: &Layout) -> Codes
    ensures codes { result.items ≡ map reset_word layout.now.parts }
    ensures some { 1 ≤ length layout.now.parts }
    ensures parts { AllParts layout.now.parts }
{
    let mut codes = ArrayVec::new();
    for place in 0..layout.devices() {
        codes.push(layout.part(place).reset_code());
    }
    codes
}

// Whether a word is a code of a device type: it has no bits above its instruction register's.
fn is_code(part: &Part, code: u64) -> bool
    ensures { result ≡ nat_lt code (2 ^ part.now.ir_length) }
{
    code <= bypass_code(part)
}

// Whether these words are codes of a group's devices, one for each.
fn are_group_codes(layout: &Layout, group: &[usize], codes: &[u64]) -> bool
    requires within { All (λ place. place < length layout.now.parts) group.now }
    requires counted { length codes.now ≡ length group.now }
    ensures codes { result ≡ true → AreCodes (entries_at layout.now.parts group.now) codes.now }
    ensures all { AreCodes (entries_at layout.now.parts group.now) codes.now → result ≡ true }
{
    for i in 0..group.len() {
        if !is_code(layout.part(group[i]), codes[i]) {
            return false;
        }
    }
    true
}

/// Whether these words are instruction codes of a grant's devices: one for each, and none with more bits than its device's instruction
/// register has.
pub fn are_codes(layout: &Layout, grant: usize, codes: &[u64]) -> bool
    requires { grant < length layout.now.grants }
    ensures codes { result ≡ true → AreCodes (entries_at layout.now.parts (group_of layout.now.grants grant)) codes.now }
    ensures all { AreCodes (entries_at layout.now.parts (group_of layout.now.grants grant)) codes.now → result ≡ true }
{
    let group = members(layout, grant);
    group.len() == codes.len() && are_group_codes(layout, group, codes)
}

// Puts a group's own codes at its places among those of all devices.
pub fn put_own(group: &[usize], own: &[u64], codes: &mut [u64])
    requires within { All (λ place. place < length codes.old) group.now }
    requires counted { length own.now ≡ length group.now }
    ensures { codes.new ≡ put_at group.now own.now codes.old }
{
    for i in 0..group.len() {
        codes[group[i]] = own[i];
    }
}

// Those of the codes that stand at these places.
pub fn codes_at(codes: &[u64], places: &[u8]) -> Codes
    requires { length places.now ≤ 32 }
    ensures { result.items ≡ entries_at codes.now places.now }
{
    let mut own = ArrayVec::new();
    for place in places {
        let place = usize::from(*place);
        if place < codes.len() {
            own.push(codes[place]);
        }
    }
    own
}
