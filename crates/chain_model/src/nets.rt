// The nets between boundary cells, when the boundary registers are captured.
ghost use Rattle.std.specs.Prelude.{◌≡◌, ◌-◌, [], slice_get};
ghost use Rattle.scan_bits.specs.Registers.{bit_at};
ghost use Rattle.chain_model.specs.Chains.{ChainState, pin_by, driven_by};
ghost use Rattle.chain_model.specs.Cycles.{captured_from};
ghost use Rattle.chain_model.specs.Devices.{EachFits, net_bit, wired};

use crate::device::Device;
use crate::devices;
use part_model::Net;

// The value that a net brings: what its device drives, or else the value from outside.
fn net_value(devices: &[Device], net: Net) -> bool
    ensures { result ≡ net_bit devices.now net }
{
    let pin = match devices.get((net.to_device as usize).saturating_sub(1)) {
        None => false,
        Some(device) => device.pin(net.to_cell as usize),
    };
    match devices.get((net.from_device as usize).saturating_sub(1)) {
        None => pin,
        Some(device) => device.driven(net.from_cell as usize).unwrap_or(pin),
    }
}

// Puts the value of a net in place.
fn put_net(devices: &mut [Device], net: Net)
    ensures { devices.new ≡ wired net devices.old }
{
    if net.to_device == 0 {
        return;
    }
    let bit = net_value(devices, net);
    let place = net.to_device as usize - 1;
    if place < devices.len() {
        devices[place].put_captured(net.to_cell as usize, bit);
    }
}

// Capture-DR. Of several nets to one cell the first counts.
pub fn capture_dr(devices: &mut [Device], nets: &[Net])
    ensures act { (chain : ChainState) → chain.nets ≡ nets.now → chain.devices ≡ devices.old → devices.new ≡ captured_from chain 0 devices.old }
    ensures fits { EachFits devices.new }
{
    devices::capture_dr(devices);
    let mut at = nets.len();
    while at > 0 {
        at -= 1;
        put_net(devices, nets[at]);
    }
}
