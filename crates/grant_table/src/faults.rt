// The first fault of grants and nets over a chain.
ghost use Rattle.std.specs.Prelude.{◌≡◌, ◌≤◌, [], ◌==◌, ◌&&◌, ◌||◌, nat_lt, true, length, OnOk};
ghost use Rattle.std.specs.List.{list_any};
ghost use Rattle.std.specs.Option.{option_map};
ghost use Rattle.grant_table.specs.Faults as faults;
ghost use Rattle.grant_table.specs.Refusals.{fault_of, fault_in, devices_of, ports_of};

use crate::grant::{Grant, is_one_of};
use part_model::Net;

/// The most devices that a chain may have.
pub const MOST_DEVICES: usize = 32;

/// The most grants that a layout may have.
pub const MOST_GRANTS: usize = 16;

/// The most nets that a layout may have.
pub const MOST_NETS: usize = 4096;

/// Why grants and nets make no layout. `grant` is the number of the grant to blame, counted from 1, and 0 where no single one is.
/// The causes, with their values: 1 a grant of no device, 0; 2 a device that was granted before, its number; 3 a device that the chain
/// has not, its number, or the port 0, 0; 4 a port of an earlier grant, the port; 5 not 1 to 32 devices or not 1 to 16 grants, the
/// count; 6 a net whose two devices are not in one grant, 7 a net to a cell that an earlier net leads to, both with the net's number
/// counted from 1; 8 more than 4,096 nets, the count.
#[derive(Clone, Copy, Debug, PartialEq, Eq)]
pub struct LayoutRefusal {
    pub cause: u8,
    pub grant: u16,
    pub value: u64,
}

/// The first fault of these grants and nets over so many devices, None exactly where they make a layout. Tried are the counts of
/// devices and of grants, then each grant in turn, then the count of nets, and then each net in turn; of a grant that it has a device,
/// then each device, that the chain has it and that it was not granted before, and then the port.
pub fn layout_fault(devices: usize, grants: &[Grant], nets: &[Net]) -> Option<LayoutRefusal>
    ensures { option_map fault_of result ≡ faults.layout_fault devices grants.now nets.now }
{
    check_layout(devices, grants, nets).err()
}

fn check_layout(devices: usize, grants: &[Grant], nets: &[Net]) -> Result<(), LayoutRefusal>
    ensures { fault_in result ≡ faults.layout_fault devices grants.now nets.now }
{
    check_count(MOST_DEVICES, devices)?;
    check_count(MOST_GRANTS, grants.len())?;
    check_grants(devices, grants)?;
    if MOST_NETS < nets.len() {
        return refuse(8, 0, nets.len() as u64);
    }
    check_nets(grants, nets)
}

fn refuse(cause: u8, grant: u16, value: u64) -> Result<(), LayoutRefusal>
    ensures { fault_in result ≡ faults.fault_if true cause grant value }
{
    Err(LayoutRefusal {
        cause,
        grant,
        value,
    })
}

// A count of devices or of grants: at least one, and so many at most.
fn check_count(most: usize, count: usize) -> Result<(), LayoutRefusal>
    ensures is { fault_in result ≡ faults.count_fault most count }
    ensures some { OnOk result ((1 ≤ count) × (count ≤ most)) }
{
    if count == 0 || most < count {
        return refuse(5, 0, count as u64);
    }
    Ok(())
}

// Each grant in turn, after those before it.
fn check_grants(count: usize, grants: &[Grant]) -> Result<(), LayoutRefusal>
    requires { length grants.now ≤ 16 }
    ensures { fault_in result ≡ faults.grants_fault count 1 [] [] grants.now }
{
    for (at, grant) in grants.iter().enumerate() {
        check_grant(count, (at + 1) as u16, &grants[..at], grant)?;
    }
    Ok(())
}

// A grant, by its number from 1, after earlier ones.
fn check_grant(
    count: usize,
    number: u16,
    earlier: &[Grant],
    grant: &Grant,
) -> Result<(), LayoutRefusal>
    ensures { fault_in result ≡ faults.grant_fault count number (devices_of earlier.now) (ports_of earlier.now) grant.now }
{
    if grant.devices.is_empty() {
        return refuse(1, number, 0);
    }
    check_devices(count, number, earlier, grant.devices.as_slice())?;
    if grant.port == 0 {
        return refuse(3, number, 0);
    }
    if has_port(grant.port, earlier) {
        return refuse(4, number, u64::from(grant.port));
    }
    Ok(())
}

// Each device of a grant in turn: the chain has it, and it stands neither before in the grant nor in an earlier one.
fn check_devices(
    count: usize,
    number: u16,
    earlier: &[Grant],
    devices: &[u16],
) -> Result<(), LayoutRefusal>
    ensures { fault_in result ≡ faults.devices_fault count number (devices_of earlier.now) devices.now }
{
    for (at, device) in devices.iter().enumerate() {
        let device = usize::from(*device);
        if is_outside(count, device) {
            return refuse(3, number, device as u64);
        }
        if was_granted(device, &devices[..at], earlier) {
            return refuse(2, number, device as u64);
        }
    }
    Ok(())
}

// Whether a chain of so many devices has not this one.
fn is_outside(count: usize, device: usize) -> bool
    ensures { result ≡ (device == 0 || nat_lt count device) }
{
    device == 0 || count < device
}

// Whether the device is among these, or in one of the grants.
fn was_granted(device: usize, devices: &[u16], grants: &[Grant]) -> bool
    ensures { result ≡ (faults.is_one_of device devices.now || list_any (λ entry. faults.is_one_of device entry.devices) grants.now) }
{
    is_one_of(device, devices) || is_granted(device, grants)
}

// Whether one of the grants has the device.
fn is_granted(device: usize, grants: &[Grant]) -> bool
    ensures { result ≡ list_any (λ entry. faults.is_one_of device entry.devices) grants.now }
{
    grants
        .iter()
        .any(|grant| is_one_of(device, grant.devices.as_slice()))
}

// Whether one of the grants has the port.
fn has_port(port: u16, grants: &[Grant]) -> bool
    ensures { result ≡ list_any (λ entry. entry.port == port) grants.now }
{
    grants.iter().any(|grant| grant.port == port)
}

// Each net in turn: it stays within a grant, and no net before it leads to the same cell.
fn check_nets(grants: &[Grant], nets: &[Net]) -> Result<(), LayoutRefusal>
    ensures { fault_in result ≡ faults.nets_fault grants.now 1 [] nets.now }
{
    for (at, net) in nets.iter().enumerate() {
        if !is_in_a_grant(net, grants) {
            return refuse(6, 0, at as u64 + 1);
        }
        if meets_one(net, &nets[..at]) {
            return refuse(7, 0, at as u64 + 1);
        }
    }
    Ok(())
}

// Whether one of the grants has both devices of the net.
fn is_in_a_grant(net: &Net, grants: &[Grant]) -> bool
    ensures { result ≡ list_any (faults.has_net net.now) grants.now }
{
    grants
        .iter()
        .any(|grant| has_net(net, grant.devices.as_slice()))
}

// Whether both devices of the net are among these.
fn has_net(net: &Net, devices: &[u16]) -> bool
    ensures { result ≡ (faults.is_one_of net.now.from_device devices.now && faults.is_one_of net.now.to_device devices.now) }
{
    is_one_of(usize::from(net.from_device), devices)
        && is_one_of(usize::from(net.to_device), devices)
}

// Whether one of these nets leads to the cell that the net leads to.
fn meets_one(net: &Net, nets: &[Net]) -> bool
    ensures { result ≡ list_any (faults.meets net.now) nets.now }
{
    nets.iter().any(|other| net.to_device == other.to_device && net.to_cell == other.to_cell)
}
