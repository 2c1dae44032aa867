// The instruction registers of a group's devices, and the codes in force.
ghost use Rattle.std.specs.Prelude.{◌≡◌, true, ◌≤◌, ◌<◌, ◌^◌, ◌∷◌, [], length, map, IfOk};
ghost use Rattle.std.specs.List.{All};
ghost use Rattle.scan_bits.specs.Words.{bits_of, number_of};
ghost use Rattle.scan_bits.specs.Registers.{joined, lowest_or};
ghost use Rattle.scan_share.specs.PrivateChains.{entries_at};
ghost use Rattle.virtual_tap.specs.Instructions.{SpellCodes, ArePlans, at_power_up, captured, cleared, fallen_codes, out_of, parts_of, reset_codes_of, risen, shifted_through, stages_of};

use crate::instruction::InstructionRegister;
use crate::instructions;
use grant_table::Layout;
use std::alloc::{AllocError, Global};
use std::marker::Model;
use tap_states::Tap;

// The instruction registers from TDI on, and a code for each. A code is seen as bits, as many as its register has.
#[derive(Drop)]
pub struct InstructionRegisters {
    registers: Vec<InstructionRegister>,
    codes: Vec<u64>,
}

impl Model for InstructionRegisters {
    ghost use Rattle.scan_share.specs.Scans.{codes_of};
    ghost use Rattle.virtual_tap.specs.Instructions.{SpellCodes, GroupInstructions, parts_of};

    ghost Value = { GroupInstructions };

    ghost view = { λ i. record { registers = i.registers.items; codes = codes_of (parts_of i.registers.items) i.codes.items } };

    ghost invariant = { λ i. SpellCodes (parts_of i.registers.items) i.codes.items (codes_of (parts_of i.registers.items) i.codes.items) };
}

// The registers of the devices at these places, at power-up.
fn powered_registers(
    alloc: Global,
    layout: &Layout,
    group: &[usize],
) -> Result<Vec<InstructionRegister>, AllocError>
    requires { All (λ place. place < length layout.now.parts) group.now }
    ensures registers { IfOk result (λ all. all.items ≡ map at_power_up (entries_at layout.now.parts group.now)) }
    ensures plans { IfOk result (λ all. ArePlans (parts_of all.items)) }
{
    let mut all = Vec::new(alloc);
    for place in group {
        all.push(InstructionRegister::new(alloc, layout.part(*place))?)?;
    }
    Ok(all)
}

// The codes at power-up.
fn powered_codes(alloc: Global, registers: &[InstructionRegister]) -> Result<Vec<u64>, AllocError>
    ensures { IfOk result (λ codes. SpellCodes (parts_of registers.now) codes.items (reset_codes_of registers.now)) }
{
    let mut codes = vec![in alloc; 0; registers.len()]?;
    instructions::reset(&mut codes, registers);
    Ok(codes)
}

impl InstructionRegisters {
    // The registers of the devices at these places, at power-up. The error comes where memory is wanting.
    pub fn new(
        alloc: Global,
        layout: &Layout,
        group: &[usize],
    ) -> Result<InstructionRegisters, AllocError>
        requires { All (λ place. place < length layout.now.parts) group.now }
        ensures registers { IfOk result (λ all. all.registers ≡ map at_power_up (entries_at layout.now.parts group.now)) }
        ensures codes { IfOk result (λ all. all.codes ≡ reset_codes_of all.registers) }
        ensures plans { IfOk result (λ all. ArePlans (parts_of all.registers)) }
    {
        let registers = powered_registers(alloc, layout, group)?;
        let codes = powered_codes(alloc, &registers)?;
        Ok(InstructionRegisters { registers, codes })
    }

    // The codes in force.
    pub fn codes(&self) -> &[u64]
        ensures { SpellCodes (parts_of self.now.registers) result.now self.now.codes }
    {
        &self.codes
    }

    // The bit nearest TDO, 1 where there is no register.
    pub fn lowest(&self) -> bool
        ensures { result ≡ lowest_or true (joined (stages_of self.now.registers)) }
    {
        instructions::lowest(&self.registers)
    }

    // `n` shifts. Bit i of the answer leaves the last register in the i-th of them, counted from 0.
    pub fn shift(&mut self, n: u32, tdi: u64) -> u64
        requires { (1 ≤ n) × (n ≤ 64) }
        ensures out { 0 < length self.old.registers → result ≡ number_of (out_of (bits_of n tdi) self.old.registers) }
        ensures bound { 0 < length self.old.registers → result < 2 ^ n }
        ensures after { self.new ≡ record self.old { registers = shifted_through (bits_of n tdi) self.old.registers } }
    {
        instructions::shift(&mut self.registers, n, tdi)
    }

    // Capture-IR.
    fn capture(&mut self)
        ensures { self.new ≡ record self.old { registers = map captured self.old.registers } }
    {
        instructions::capture(&mut self.registers);
    }

    // Update-IR.
    fn update(&mut self)
        ensures { self.new ≡ record self.old { codes = stages_of self.old.registers } }
    {
        instructions::update(&mut self.codes, &self.registers);
    }

    // Test-Logic-Reset.
    fn reset_codes(&mut self)
        ensures { self.new ≡ record self.old { codes = reset_codes_of self.old.registers } }
    {
        instructions::reset(&mut self.codes, &self.registers);
    }

    // A reset of the stages by TRST.
    fn clear(&mut self)
        ensures { self.new ≡ record self.old { registers = map cleared self.old.registers } }
    {
        instructions::clear(&mut self.registers);
    }

    // The rising edge.
    pub fn rise(&mut self, state: Tap, tdi: bool)
        ensures { self.new ≡ record self.old { registers = risen state tdi self.old.registers } }
    {
        match state {
            Tap::CaptureIr => self.capture(),
            Tap::ShiftIr => {
                self.shift(1, u64::from(tdi));
            }
            _ => {}
        }
    }

    // The falling edge.
    pub fn fall(&mut self, state: Tap)
        ensures { self.new ≡ record self.old { codes = fallen_codes state self.old.registers self.old.codes } }
    {
        match state {
            Tap::UpdateIr => self.update(),
            Tap::TestLogicReset => self.reset_codes(),
            _ => {}
        }
    }

    // A reset by TRST.
    pub fn restart(&mut self)
        ensures { self.new ≡ record { registers = map cleared self.old.registers; codes = reset_codes_of self.old.registers } }
    {
        self.reset_codes();
        self.clear();
    }
}
