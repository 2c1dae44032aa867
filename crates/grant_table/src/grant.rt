// Grants, as they are handed in and as a layout keeps them.
ghost use Rattle.std.specs.Prelude.{◌≡◌, ◌<◌, ◌+◌, suc, IfOk};
ghost use Rattle.std.specs.List.{filter};
ghost use Rattle.grant_table.specs.Faults.{is_one_of, places_from, shape_for};

use crate::Protocol;
use base_types::Items;
use std::alloc::{AllocError, Global};
use std::marker::Model;

/// A grant as it is handed in: the numbers of its devices, counted from 1 at TDI, in any order, its TCP port, and the protocol of its
/// clients.
#[derive(Drop)]
pub struct Grant {
    pub devices: Items<u16>,
    pub port: u16,
    pub protocol: Protocol,
}

impl Model for Grant {
    ghost use Rattle.grant_table.specs.Faults.{GrantEntry};

    ghost Value = { GrantEntry };

    ghost view = { λ grant. record { devices = grant.devices; port = grant.port; protocol = grant.protocol } };
}

// A grant as a layout keeps it: the places of its devices, counted from 0, rising.
#[derive(Drop)]
pub struct KeptGrant {
    pub group: Items<usize>,
    pub port: u16,
    pub protocol: Protocol,
}

impl Model for KeptGrant {
    ghost use Rattle.grant_table.specs.Layouts.{GrantShape};

    ghost Value = { GrantShape };

    ghost view = { λ kept. record { group = kept.group; port = kept.port; protocol = kept.protocol } };
}

// Whether a device, counted from 1, is one of these.
pub fn is_one_of(device: usize, devices: &[u16]) -> bool
    ensures { result ≡ is_one_of device devices.now }
{
    devices.iter().any(|other| usize::from(*other) == device)
}

// The places of these devices in a chain of so many, rising.
fn group_for(alloc: Global, count: usize, devices: &[u16]) -> Result<Vec<usize>, AllocError>
    ensures { IfOk result (λ group. group.items ≡ filter (λ place. is_one_of (suc place) devices.now) (places_from 0 count)) }
{
    let mut group = Vec::new(alloc);
    for place in 0..count {
        if is_one_of(place + 1, devices) {
            group.push(place)?;
        }
    }
    Ok(group)
}

// The grant as it is kept in a layout of so many devices.
pub fn kept_grant(alloc: Global, count: usize, grant: &Grant) -> Result<KeptGrant, AllocError>
    ensures { IfOk result (λ kept. kept ≡ shape_for count grant.now) }
{
    let group = group_for(alloc, count, grant.devices.as_slice())?;
    Ok(KeptGrant {
        group: Items::from_vec(group),
        port: grant.port,
        protocol: grant.protocol,
    })
}
