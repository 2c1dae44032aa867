// The devices of a grant.
ghost use Rattle.std.specs.Prelude.{◌≡◌, ◌≤◌, ◌<◌, ◌+◌, length};
ghost use Rattle.std.specs.List.{All};
ghost use Rattle.grant_table.specs.Layouts.{group_of};
ghost use Rattle.grant_table.specs.Kept.{AllParts};
ghost use Rattle.grant_table.specs.Apart.{RisesFrom};
ghost use Rattle.grant_table.specs.Faults.{places_from};
ghost use Rattle.scan_share.specs.Laws.{IsGroup};
ghost use Rattle.scan_share.specs.PlaceMasks.{places_in};

use crate::neighbours::are_neighbours;
use arrayvec::ArrayVec;
use grant_table::Layout;

/// Places of devices, rising.
pub type Places = ArrayVec<u8, 32>;

/// Places of devices below 32, each as the bit of its number.
pub type PlaceMask = u64;

// The places of a grant's devices, and what the layout says of them.
pub fn members(layout: &Layout, grant: usize) -> &[usize]
    requires { grant < length layout.now.grants }
    ensures is { result.now ≡ group_of layout.now.grants grant }
    ensures group { IsGroup layout.now (group_of layout.now.grants grant) }
    ensures parts { AllParts layout.now.parts }
    ensures some { 1 ≤ length layout.now.parts }
    ensures rising { RisesFrom 0 result.now }
    ensures few { length result.now ≤ 32 }
    ensures within { All (λ place. place < length layout.now.parts) result.now }
    ensures low { All (λ place. place < 32) result.now }
{
    let _devices = layout.devices();
    layout.group(grant)
}

// The mask of so many places from one on.
fn row_mask(first: usize, count: usize) -> PlaceMask
    requires some { 1 ≤ count }
    requires few { first + count ≤ 32 }
    ensures { places_in result ≡ places_from first count }
{
    (u64::MAX >> (64 - count)) << first
}

// The mask of the places of a group.
pub fn mask_of(group: &[usize]) -> PlaceMask
    requires rising { RisesFrom 0 group.now }
    requires few { length group.now ≤ 32 }
    requires low { All (λ place. place < 32) group.now }
    ensures { places_in result ≡ group.now }
{
    if are_neighbours(group) {
        return row_mask(group[0], group.len());
    }
    let mut mask = 0;
    for place in group {
        mask |= 1 << *place;
    }
    mask
}

// The places of a mask.
pub fn places_of(mask: PlaceMask) -> Places
    ensures { result.items ≡ places_in mask }
{
    let mut places = ArrayVec::new();
    let mut rest = mask;
    for place in 0..32_u8 {
        if rest % 2 == 1 {
            places.push(place);
        }
        rest /= 2;
    }
    places
}
