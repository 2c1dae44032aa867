// What an edge of TCK does to the devices of a chain, from TDI on.
ghost use Rattle.std.specs.Prelude.{◌≡◌, ◌≤◌, ◌<◌, ◌^◌, [], true, map, length};
ghost use Rattle.scan_bits.specs.Words.{bits_of};
ghost use Rattle.scan_bits.specs.Registers.{joined, lowest_or};
ghost use Rattle.chain_model.specs.Chains.{ChainState, reset_device};
ghost use Rattle.chain_model.specs.Cycles.{captured_from, shifted_dr, shifted_ir, capture_ir, update_device, update_ir, reset_code, dr_stages, ir_stages};
ghost use Rattle.chain_model.specs.Devices.{EachFits, run_dr, out_dr};

use crate::device::Device;

// Capture-DR, on a chain without nets.
pub fn capture_dr(devices: &mut [Device])
    ensures act { (chain : ChainState) → chain.nets ≡ [] → devices.new ≡ captured_from chain 0 devices.old }
    ensures fits { EachFits devices.new }
{
    for device in devices.iter_mut() {
        device.capture_dr();
    }
}

// Shift-DR.
pub fn shift_dr(devices: &mut [Device], tdi: bool)
    ensures { devices.new ≡ shifted_dr tdi devices.old }
{
    let mut bit = tdi;
    for device in devices.iter_mut() {
        bit = device.shift_dr(bit);
    }
}

// A row of cycles in Shift-DR. The answer is what leaves the last device.
pub fn shift_dr_word(devices: &mut [Device], n: u32, tdi: u64) -> u64
    requires word { (1 ≤ n) × (n ≤ 64) }
    requires bound { tdi < 2 ^ n }
    ensures after { devices.new ≡ run_dr (bits_of n tdi) devices.old }
    ensures out { bits_of n result ≡ out_dr (bits_of n tdi) devices.old }
    ensures bound { result < 2 ^ n }
{
    let mut word = tdi;
    for device in devices.iter_mut() {
        word = device.shift_dr_word(n, word);
    }
    word
}

// Whether the last data stage has a bit.
pub fn has_dr_bit(devices: &[Device]) -> bool
    ensures { result ≡ true → 1 ≤ length (joined (dr_stages devices.now)) }
{
    let count = devices.len();
    count > 0 && devices[count - 1].dr_bit().is_some()
}

// Update-DR, where a scan is open.
pub fn update_dr(devices: &mut [Device])
    requires { EachFits devices.old }
    ensures { devices.new ≡ map update_device devices.old }
{
    for device in devices.iter_mut() {
        device.update_dr();
    }
}

// Capture-IR.
pub fn capture_ir(devices: &mut [Device])
    ensures { devices.new ≡ map capture_ir devices.old }
{
    for device in devices.iter_mut() {
        device.capture_ir();
    }
}

// Shift-IR.
pub fn shift_ir(devices: &mut [Device], tdi: bool)
    ensures { devices.new ≡ shifted_ir tdi devices.old }
{
    let mut bit = tdi;
    for device in devices.iter_mut() {
        bit = device.shift_ir(bit);
    }
}

// Update-IR.
pub fn update_ir(devices: &mut [Device])
    ensures { devices.new ≡ map update_ir devices.old }
{
    for device in devices.iter_mut() {
        device.update_ir();
    }
}

// Test-Logic-Reset.
pub fn reset_codes(devices: &mut [Device])
    ensures { devices.new ≡ map reset_code devices.old }
{
    for device in devices.iter_mut() {
        device.reset_code();
    }
}

// A reset by TRST.
pub fn reset(devices: &mut [Device])
    ensures { devices.new ≡ map reset_device devices.old }
{
    for device in devices.iter_mut() {
        device.reset();
    }
}

// The lowest bit of the last data stage that has one, or 1.
pub fn dr_out(devices: &[Device]) -> bool
    ensures { result ≡ lowest_or true (joined (dr_stages devices.now)) }
{
    let mut at = devices.len();
    while at > 0 {
        at -= 1;
        if let Some(bit) = devices[at].dr_bit() {
            return bit;
        }
    }
    true
}

// The lowest bit of the last instruction stage that has one, or 1.
pub fn ir_out(devices: &[Device]) -> bool
    ensures { result ≡ lowest_or true (joined (ir_stages devices.now)) }
{
    let mut at = devices.len();
    while at > 0 {
        at -= 1;
        if let Some(bit) = devices[at].ir_bit() {
            return bit;
        }
    }
    true
}
