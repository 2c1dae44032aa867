// What an edge of TCK does to the devices of a chain, by the state of the controllers.
ghost use Rattle.std.specs.Prelude.{◌≡◌, Bool};
ghost use Rattle.tap_states.specs.States.{next};
ghost use Rattle.chain_model.specs.Chains.{ChainState};
ghost use Rattle.chain_model.specs.Cycles.{on_rise, on_fall, tdo_in};
ghost use Rattle.chain_model.specs.Devices.{ScanFits};

use crate::device::Device;
use crate::{devices, nets};
use part_model::Net;
use tap_states::Tap;

// Whether a data register scan is open after a rising edge.
pub fn open_after_rise(state: Tap, scan_open: bool) -> bool
    ensures { (chain : ChainState) (tdi : Bool) → chain.scan_open ≡ scan_open → (on_rise state chain tdi).scan_open ≡ result }
{
    match state {
        Tap::CaptureDr => true,
        _ => scan_open,
    }
}

// Whether a data register scan is open after a falling edge.
pub fn open_after_fall(state: Tap, scan_open: bool) -> bool
    ensures { (chain : ChainState) → chain.scan_open ≡ scan_open → (on_fall state chain).scan_open ≡ result }
{
    match state {
        Tap::UpdateDr => false,
        _ => scan_open,
    }
}

// The rising edge at the devices.
pub fn rise_devices(devices: &mut [Device], nets: &[Net], state: Tap, scan_open: bool, tdi: bool)
    requires { ScanFits state scan_open devices.old }
    ensures act { (chain : ChainState) → chain.nets ≡ nets.now → chain.devices ≡ devices.old → (on_rise state chain tdi).devices ≡ devices.new }
    ensures fits { (chain : ChainState) (tms : Bool) → chain.scan_open ≡ scan_open → ScanFits (next state tms) (on_rise state chain tdi).scan_open devices.new }
{
    match state {
        Tap::CaptureDr => nets::capture_dr(devices, nets),
        Tap::ShiftDr => devices::shift_dr(devices, tdi),
        Tap::CaptureIr => devices::capture_ir(devices),
        Tap::ShiftIr => devices::shift_ir(devices, tdi),
        _ => {}
    }
}

// The falling edge at the devices. The answer is TDO after it.
pub fn fall_devices(devices: &mut [Device], state: Tap, scan_open: bool) -> bool
    requires { ScanFits state scan_open devices.old }
    ensures act { (chain : ChainState) → chain.scan_open ≡ scan_open → chain.devices ≡ devices.old → (on_fall state chain).devices ≡ devices.new }
    ensures tdo { result ≡ tdo_in state devices.new }
    ensures fits { (chain : ChainState) → chain.scan_open ≡ scan_open → ScanFits state (on_fall state chain).scan_open devices.new }
{
    match state {
        Tap::ShiftDr => return devices::dr_out(devices),
        Tap::ShiftIr => return devices::ir_out(devices),
        Tap::UpdateDr => {
            if scan_open {
                devices::update_dr(devices);
            }
        }
        Tap::UpdateIr => devices::update_ir(devices),
        Tap::TestLogicReset => devices::reset_codes(devices),
        _ => {}
    }
    true
}
