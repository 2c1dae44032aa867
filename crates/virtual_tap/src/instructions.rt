// The instruction registers of a group's devices, from TDI on, and the codes in force.
ghost use Rattle.std.specs.Prelude.{◌≡◌, ◌≤◌, ◌<◌, ◌^◌, true, map, length};
ghost use Rattle.scan_bits.specs.Words.{bits_of, number_of};
ghost use Rattle.scan_bits.specs.Registers.{joined, lowest_or};
ghost use Rattle.virtual_tap.specs.Instructions.{SpellCodes, captured, cleared, shifted_through, out_of, parts_of, reset_codes_of, stages_of};

use crate::instruction::InstructionRegister;

// Capture-IR.
pub fn capture(registers: &mut [InstructionRegister])
    ensures { registers.new ≡ map captured registers.old }
{
    for register in registers.iter_mut() {
        register.capture();
    }
}

// A reset by TRST.
pub fn clear(registers: &mut [InstructionRegister])
    ensures { registers.new ≡ map cleared registers.old }
{
    for register in registers.iter_mut() {
        register.clear();
    }
}

// `n` shifts. Bit i of the answer leaves the last register in the i-th of them, counted from 0.
pub fn shift(registers: &mut [InstructionRegister], n: u32, tdi: u64) -> u64
    requires { (1 ≤ n) × (n ≤ 64) }
    ensures out { 0 < length registers.old → result ≡ number_of (out_of (bits_of n tdi) registers.old) }
    ensures bound { 0 < length registers.old → result < 2 ^ n }
    ensures after { registers.new ≡ shifted_through (bits_of n tdi) registers.old }
{
    let mut word = tdi;
    for register in registers.iter_mut() {
        word = register.shift(n, word);
    }
    word
}

// The bit nearest TDO, 1 where there is no register.
pub fn lowest(registers: &[InstructionRegister]) -> bool
    ensures { result ≡ lowest_or true (joined (stages_of registers.now)) }
{
    let count = registers.len();
    if count == 0 {
        return true;
    }
    registers[count - 1].lowest()
}

// Update-IR: the stages become the codes.
pub fn update(codes: &mut [u64], registers: &[InstructionRegister])
    requires { length codes.old ≡ length registers.now }
    ensures { SpellCodes (parts_of registers.now) codes.new (stages_of registers.now) }
{
    for at in 0..codes.len() {
        codes[at] = registers[at].staged_code();
    }
}

// Test-Logic-Reset: the reset codes become the codes.
pub fn reset(codes: &mut [u64], registers: &[InstructionRegister])
    requires { length codes.old ≡ length registers.now }
    ensures { SpellCodes (parts_of registers.now) codes.new (reset_codes_of registers.now) }
{
    for at in 0..codes.len() {
        codes[at] = registers[at].reset_code();
    }
}
