// A device of a chain.
ghost use Rattle.std.specs.Prelude.{◌≡◌, ◌≤◌, ◌<◌, ◌^◌, [], ◌∷◌, length, ℕ, List, Bool, IfOk, Some, None, true, false, slice_get};
ghost use Rattle.scan_bits.specs.Registers.{bit_at, shifted, shifted_all, shifted_out, lowest_or};
ghost use Rattle.scan_bits.specs.Words.{bits_of};
ghost use Rattle.part_model.specs.Parts.{numbered, width, drives};
ghost use Rattle.chain_model.specs.Chains.{ChainState, latch_of, powered_device, reset_device};
ghost use Rattle.chain_model.specs.Cycles.{capture_device, update_device, capture_ir, update_ir, reset_code};
ghost use Rattle.chain_model.specs.Boards.{HasPins, placed};
ghost use Rattle.chain_model.specs.DataStages.{staged, Stands, SameCapture};
ghost use Rattle.chain_model.specs.Devices.{StageFits, put_where, wired_device};

use crate::cable::Board;
use crate::data_stage::{DataStage, lowest, shift};
use crate::registers::{
    BOUNDARY, bit_or_zero, boundary_bit, capture_register, counted_scan, latch_bit, latch_register,
    zero_latches,
};
use part_model::{Part, RegNo};
use scan_bits::Bits;
use std::alloc::{AllocError, Global};
use std::marker::Model;

// A device. Contracts see it as the device of the definitions.
#[derive(Drop)]
pub struct Device {
    part: Part,
    code: u64,
    // The data registers that the code and the reset code select.
    register: RegNo,
    reset_register: RegNo,
    ir_stage: Bits,
    dr_stage: DataStage,
    pins: Bits,
    // The latch of BOUNDARY: the pins with these bits shifted in, those of its last scan.
    boundary: Bits,
    named: Vec<Bits>,
    captures: u64,
    updates: u64,
}

impl Model for Device {
    ghost use Rattle.scan_bits.specs.Words.{bits_of};
    ghost use Rattle.chain_model.specs.Chains.{DeviceState};
    ghost use Rattle.chain_model.specs.DataStages.{stage_bits};
    ghost use Rattle.chain_model.specs.Devices.{Sizes, Selects, content_of};

    ghost Value = { DeviceState };

    ghost view = { λ d. record {
      part = d.part;
      code = bits_of d.part.ir_length d.code;
      ir_stage = d.ir_stage.bits;
      dr_stage = stage_bits d.dr_stage d.pins d.named.items;
      content = content_of d.pins.bits d.boundary.bits d.named.items d.captures d.updates;
    } };

    ghost invariant = { λ d. Sizes d.part d.ir_stage d.dr_stage d.pins d.boundary d.named.items
        × Selects d.part (bits_of d.part.ir_length d.code) d.register × Selects d.part d.part.reset_code d.reset_register };
}

// An equal list of bits.
fn copy_bits(alloc: Global, bits: &Bits) -> Result<Bits, AllocError>
    ensures { IfOk result (λ copy. copy ≡ record { bits = bits.now.bits; room = length bits.now.bits }) }
{
    let mut copy = Bits::with_room(alloc, bits.len())?;
    copy.copy_from(bits);
    Ok(copy)
}

// Puts a captured pin value in place, where the boundary register is selected. Past the end nothing is done.
fn put_captured(register: RegNo, stage: &mut DataStage, source: &Bits, cell: usize, bit: bool)
    requires { Stands stage.old source.now.bits }
    ensures bits { staged stage.new source.now.bits ≡ put_where (numbered register) cell bit (staged stage.old source.now.bits) }
    ensures stands { Stands stage.new source.now.bits }
    ensures same { SameCapture stage.old stage.new }
{
    if register == BOUNDARY {
        stage.put(source, cell, bit);
    }
}

impl Device {
    // The device of a board at power-up. The error comes where memory is wanting.
    pub fn powered(alloc: Global, board: &Board) -> Result<Device, AllocError>
        requires { HasPins board.now }
        ensures { IfOk result (λ device. device ≡ powered_device (placed board.now)) }
    {
        let part = board.part.copy(alloc)?;
        let named = zero_latches(alloc, &part)?;
        let ir_stage = Bits::zeros(alloc, part.ir_len() as usize)?;
        let dr_stage = DataStage::with_room(alloc, part.longest().max(32) as usize)?;
        let boundary = Bits::zeros(alloc, part.len_of(BOUNDARY) as usize)?;
        let pins = copy_bits(alloc, &board.pins)?;
        let code = part.reset_code();
        let register = part.select(code);
        Ok(Device {
            code,
            register,
            reset_register: register,
            part,
            ir_stage,
            dr_stage,
            pins,
            boundary,
            named,
            captures: 0,
            updates: 0,
        })
    }

    // How often a register other than BYPASS was captured.
    pub fn captures(&self) -> u64
        ensures { result ≡ self.now.content.captures }
    {
        self.captures
    }

    // How often a register other than BYPASS was updated.
    pub fn updates(&self) -> u64
        ensures { result ≡ self.now.content.updates }
    {
        self.updates
    }

    // The bit at a place of a register's latch, 0 where there is none.
    pub fn latch(&self, register: RegNo, at: usize) -> bool
        ensures { result ≡ bit_at (latch_of self.now.content (numbered register)) at }
    {
        latch_bit(register, at, &self.pins, &self.boundary, &self.named)
    }

    // The rising edge in Capture-DR, on a chain without nets.
    pub fn capture_dr(&mut self)
        ensures captured { (chain : ChainState) (place : ℕ) → chain.nets ≡ [] → self.new ≡ capture_device chain place self.old }
        ensures fits { StageFits self.new }
    {
        capture_register(
            &mut self.dr_stage,
            &self.part,
            self.register,
            &self.pins,
            &self.named,
        );
        self.captures = counted_scan(self.captures, self.register);
    }

    // The rising edge in Shift-DR. The answer is the bit that leaves.
    pub fn shift_dr(&mut self, tdi: bool) -> bool
        ensures out { result ≡ lowest_or tdi self.old.dr_stage }
        ensures after { self.new ≡ record self.old { dr_stage = shifted self.old.dr_stage tdi } }
    {
        let source = self.dr_stage.source(&self.pins, &self.named);
        self.dr_stage.shift(source, tdi)
    }

    // A row of rising edges in Shift-DR. The answer is what leaves.
    pub fn shift_dr_word(&mut self, n: u32, tdi: u64) -> u64
        requires word { (1 ≤ n) × (n ≤ 64) }
        requires bound { tdi < 2 ^ n }
        ensures out { bits_of n result ≡ shifted_out self.old.dr_stage (bits_of n tdi) }
        ensures after { self.new ≡ record self.old { dr_stage = shifted_all self.old.dr_stage (bits_of n tdi) } }
        ensures bound { result < 2 ^ n }
    {
        let source = self.dr_stage.source(&self.pins, &self.named);
        self.dr_stage.shift_word(source, n, tdi)
    }

    // The falling edge in Update-DR, where a scan is open.
    pub fn update_dr(&mut self)
        requires { StageFits self.old }
        ensures { self.new ≡ update_device self.old }
    {
        latch_register(
            &self.part,
            self.register,
            &mut self.dr_stage,
            &self.pins,
            &mut self.boundary,
            &mut self.named,
        );
        self.updates = counted_scan(self.updates, self.register);
        self.dr_stage.clear();
    }

    // The rising edge in Capture-IR.
    pub fn capture_ir(&mut self)
        ensures { self.new ≡ capture_ir self.old }
    {
        self.ir_stage.clear();
        self.ir_stage
            .push_word(self.part.ir_len(), self.part.capture_code());
    }

    // The rising edge in Shift-IR. The answer is the bit that leaves.
    pub fn shift_ir(&mut self, tdi: bool) -> bool
        ensures out { result ≡ lowest_or tdi self.old.ir_stage }
        ensures after { self.new ≡ record self.old { ir_stage = shifted self.old.ir_stage tdi } }
    {
        shift(&mut self.ir_stage, tdi)
    }

    // The falling edge in Update-IR.
    pub fn update_ir(&mut self)
        ensures { self.new ≡ update_ir self.old }
    {
        self.code = self.ir_stage.word(0, self.part.ir_len());
        self.register = self.part.select(self.code);
    }

    // The falling edge in Test-Logic-Reset.
    pub fn reset_code(&mut self)
        ensures { self.new ≡ reset_code self.old }
    {
        self.code = self.part.reset_code();
        self.register = self.reset_register;
    }

    // A reset by TRST.
    pub fn reset(&mut self)
        ensures { self.new ≡ reset_device self.old }
    {
        self.code = self.part.reset_code();
        self.register = self.reset_register;
        self.ir_stage.clear();
        self.ir_stage.push_word(self.part.ir_len(), 0);
        self.dr_stage.clear();
    }

    // The bit of the data stage that is nearest TDO.
    pub fn dr_bit(&self) -> Option<bool>
        ensures { result ≡ slice_get self.now.dr_stage 0 }
    {
        let source = self.dr_stage.source(&self.pins, &self.named);
        self.dr_stage.lowest(source)
    }

    // The bit of the instruction stage that is nearest TDO.
    pub fn ir_bit(&self) -> Option<bool>
        ensures { result ≡ slice_get self.now.ir_stage 0 }
    {
        lowest(&self.ir_stage)
    }

    // What the device drives at a boundary cell, where it drives its pins.
    pub fn driven(&self, cell: usize) -> Option<bool>
        ensures driven { drives self.now.part self.now.code ≡ true → result ≡ Some (bit_at self.now.content.boundary cell) }
        ensures none { drives self.now.part self.now.code ≡ false → result ≡ None }
    {
        if self.part.drives(self.code) {
            Some(boundary_bit(&self.pins, &self.boundary, cell))
        } else {
            None
        }
    }

    // The value at a pin from outside, 0 past the last.
    pub fn pin(&self, cell: usize) -> bool
        ensures { result ≡ bit_at self.now.content.pins cell }
    {
        bit_or_zero(&self.pins, cell)
    }

    // Puts a captured pin value in place, where the boundary register is selected. The first after a capture copies the pins.
    pub fn put_captured(&mut self, cell: usize, bit: bool)
        ensures { self.new ≡ wired_device cell bit self.old }
    {
        let source = self.dr_stage.source(&self.pins, &self.named);
        put_captured(self.register, &mut self.dr_stage, source, cell, bit);
    }
}
