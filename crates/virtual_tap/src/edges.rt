// What edges of TCK do to the data register and to TDO, by the state of the controllers.
ghost use Rattle.std.specs.Prelude.{◌≡◌, ◌≤◌, ◌<◌, ◌^◌, ◌∷◌, [], true, length, replicate};
ghost use Rattle.std.specs.Option.{unwrap_or};
ghost use Rattle.tap_states.specs.States.{is_shift};
ghost use Rattle.scan_bits.specs.Words.{bits_of, number_of};
ghost use Rattle.scan_bits.specs.Registers.{joined, lowest_or};
ghost use Rattle.virtual_tap.specs.Instructions.{stages_of};
ghost use Rattle.virtual_tap.specs.Taps.{bits_shown, data_stages, ends_scan, risen_register, row_instructions, row_register, shifting, shown_out, tdo_shown, turned};

use crate::instruction_registers::InstructionRegisters;
use scan_bits::Bits;
use tap_states::Tap;

// One shift of the data register, where it is there.
fn turn(register: &mut Option<Bits>, tdi: bool)
    ensures { register.new ≡ turned true (tdi ∷ []) register.old }
{
    if let Some(bits) = register {
        if bits.len() > 0 {
            bits.turn(tdi);
        }
    }
}

// The rising edge at the data register. Where a scan is open, the capture has been made before; where none is, the register rests.
pub fn rise_register(register: &mut Option<Bits>, state: Tap, scan_open: bool, tdi: bool)
    ensures { register.new ≡ risen_register state scan_open tdi register.old }
{
    match state {
        Tap::ShiftDr => {
            if scan_open {
                turn(register, tdi);
            }
        }
        _ => {}
    }
}

// Whether the falling edge ends the scan.
pub fn ends_scan(state: Tap, scan_open: bool) -> bool
    ensures { result ≡ ends_scan state scan_open }
{
    match state {
        Tap::UpdateDr => scan_open,
        _ => false,
    }
}

// The lowest bit of the data register, or 1. With no scan open the data stages are empty.
fn lowest(register: &Option<Bits>, scan_open: bool) -> bool
    ensures { result ≡ lowest_or true (data_stages scan_open (bits_shown register.now)) }
{
    if !scan_open {
        return true;
    }
    let Some(bits) = register else {
        return true;
    };
    if bits.len() == 0 {
        return true;
    }
    bits.get(0)
}

// As many ones as a row has shifts.
fn ones(n: u32) -> u64
    requires { (1 ≤ n) × (n ≤ 64) }
    ensures is { result ≡ number_of (replicate n true) }
    ensures bound { result < 2 ^ n }
{
    u64::MAX >> (64 - n)
}

// `n` shifts of the data register, where it is there. Bit i of the answer is the register's lowest bit before the i-th of them, counted
// from 0, and 1 where it has none.
fn turn_word(register: &mut Option<Bits>, n: u32, tdi: u64) -> u64
    requires { (1 ≤ n) × (n ≤ 64) }
    ensures out { result ≡ number_of (shown_out (unwrap_or (bits_shown register.old) []) (bits_of n tdi)) }
    ensures after { register.new ≡ turned true (bits_of n tdi) register.old }
    ensures bound { result < 2 ^ n }
{
    let Some(bits) = register else {
        return ones(n);
    };
    if bits.len() == 0 {
        return ones(n);
    }
    bits.turn_word(n, tdi)
}

// `n` shifts in Shift-DR: those of the data register where a scan is open. Where none is, the data stages are empty, so that each bit of
// the answer is 1, and the register rests.
fn shift_data(register: &mut Option<Bits>, scan_open: bool, n: u32, tdi: u64) -> u64
    requires { (1 ≤ n) × (n ≤ 64) }
    ensures out { result ≡ number_of (shown_out (data_stages scan_open (bits_shown register.old)) (bits_of n tdi)) }
    ensures after { register.new ≡ turned scan_open (bits_of n tdi) register.old }
    ensures bound { result < 2 ^ n }
{
    if !scan_open {
        return ones(n);
    }
    turn_word(register, n, tdi)
}

// `n` shifts in Shift-DR or Shift-IR. Bit i of the answer is the lowest bit of the register that shifts, before the i-th of them.
pub fn shift(
    register: &mut Option<Bits>,
    instructions: &mut InstructionRegisters,
    state: Tap,
    scan_open: bool,
    n: u32,
    tdi: u64,
) -> u64
    requires count { (1 ≤ n) × (n ≤ 64) }
    requires state { is_shift state ≡ true }
    requires some { 0 < length instructions.old.registers }
    requires stages { 1 ≤ length (joined (stages_of instructions.old.registers)) }
    ensures out { result ≡ number_of (shown_out (shifting state scan_open register.old instructions.old.registers) (bits_of n tdi)) }
    ensures register { register.new ≡ row_register state scan_open (bits_of n tdi) register.old }
    ensures instructions { instructions.new ≡ record instructions.old { registers = row_instructions state (bits_of n tdi) instructions.old.registers } }
    ensures bound { result < 2 ^ n }
{
    match state {
        Tap::ShiftDr => shift_data(register, scan_open, n, tdi),
        Tap::ShiftIr => instructions.shift(n, tdi),
        _ => unreachable!(),
    }
}

// TDO.
pub fn tdo_of(
    state: Tap,
    scan_open: bool,
    register: &Option<Bits>,
    instructions: &InstructionRegisters,
) -> bool
    ensures { result ≡ tdo_shown state scan_open (bits_shown register.now) (stages_of instructions.now.registers) }
{
    match state {
        Tap::ShiftDr => lowest(register, scan_open),
        Tap::ShiftIr => instructions.lowest(),
        _ => true,
    }
}
