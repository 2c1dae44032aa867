// The instruction register of a device.
ghost use Rattle.std.specs.Prelude.{◌≡◌, ◌≤◌, ◌<◌, ◌^◌, length, IfOk};
ghost use Rattle.scan_bits.specs.Words.{bits_of, number_of};
ghost use Rattle.scan_bits.specs.Registers.{bit_at, shifted_out};
ghost use Rattle.part_model.specs.Plans.{IsPart};
ghost use Rattle.virtual_tap.specs.Instructions.{StageFits, at_power_up, captured, cleared, shifted_in};

use part_model::Part;
use scan_bits::Bits;
use std::alloc::{AllocError, Global};
use std::marker::Model;

// The shift stage of an instruction register, with the device type that says what it captures.
#[derive(Drop)]
pub struct InstructionRegister {
    part: Part,
    stage: Bits,
}

impl Model for InstructionRegister {
    ghost use Rattle.virtual_tap.specs.Instructions.{InstructionState, StageFits};

    ghost Value = { InstructionState };

    ghost view = { λ r. record { part = r.part; stage = r.stage.bits } };

    ghost invariant = { λ r. StageFits r.part r.stage.bits };
}

impl InstructionRegister {
    // The register at power-up. The error comes where memory is wanting.
    pub fn new(alloc: Global, part: &Part) -> Result<InstructionRegister, AllocError>
        ensures register { IfOk result (λ register. register ≡ at_power_up part.now) }
        ensures plan { IfOk result (λ register. IsPart register.part) }
    {
        let part = part.copy(alloc)?;
        let stage = Bits::zeros(alloc, part.ir_len() as usize)?;
        Ok(InstructionRegister { part, stage })
    }

    // Capture-IR.
    pub fn capture(&mut self)
        ensures { self.new ≡ captured self.old }
    {
        self.stage
            .put_word(0, self.part.ir_len(), self.part.capture_code());
    }

    // A reset by TRST.
    pub fn clear(&mut self)
        ensures { self.new ≡ cleared self.old }
    {
        self.stage.put_word(0, self.part.ir_len(), 0);
    }

    // `n` shifts. Bit i of the answer leaves in the i-th of them, counted from 0.
    pub fn shift(&mut self, n: u32, tdi: u64) -> u64
        requires { (1 ≤ n) × (n ≤ 64) }
        ensures out { result ≡ number_of (shifted_out self.old.stage (bits_of n tdi)) }
        ensures after { self.new ≡ shifted_in (bits_of n tdi) self.old }
        ensures bound { result < 2 ^ n }
    {
        self.stage.turn_word(n, tdi)
    }

    // The bits of the stage, as Update-IR takes them for the code.
    pub fn staged_code(&self) -> u64
        ensures is { bits_of self.now.part.ir_length result ≡ self.now.stage }
        ensures bound { result < 2 ^ self.now.part.ir_length }
    {
        self.stage.word(0, self.part.ir_len())
    }

    // The code that Test-Logic-Reset takes.
    pub fn reset_code(&self) -> u64
        ensures is { bits_of self.now.part.ir_length result ≡ self.now.part.reset_code }
        ensures bound { result < 2 ^ self.now.part.ir_length }
    {
        self.part.reset_code()
    }

    // The bit of the stage that is nearest TDO.
    pub fn lowest(&self) -> bool
        ensures is { result ≡ bit_at self.now.stage 0 }
        ensures fits { StageFits self.now.part self.now.stage }
    {
        self.stage.get(0)
    }
}
