// The data registers of a device, by number: what they capture, and what they keep.
ghost use Rattle.std.specs.Prelude.{◌≡◌, ◌≤◌, ◌<◌, length, map, IfOk, [], ◌∷◌, ℕ, Bool, List};
ghost use Rattle.scan_bits.specs.Registers.{bit_at, shifted_all};
ghost use Rattle.part_model.specs.Parts.{numbered, register_count, length_of};
ghost use Rattle.chain_model.specs.Chains.{ChainState, DeviceState, Content, latch_of, captured_by};
ghost use Rattle.chain_model.specs.Cycles.{counted, latched};
ghost use Rattle.chain_model.specs.DataStages.{stage_bits, IsStanding};
ghost use Rattle.chain_model.specs.Devices.{bits_in, zero_latch, stage_room, HasLatches, content_of};

use crate::data_stage::{DataStage, Source};
use part_model::{Part, RegNo};
use scan_bits::Bits;
use std::alloc::{AllocError, Global};

const BYPASS: RegNo = 0;

pub const BOUNDARY: RegNo = 1;

const IDCODE: RegNo = 2;

const USERCODE: RegNo = 3;

const FIRST_NAMED: RegNo = 4;

// A latch of zeros for each named register.
pub fn zero_latches(alloc: Global, part: &Part) -> Result<Vec<Bits>, AllocError>
    ensures { IfOk result (λ latches. latches.items ≡ map zero_latch part.now.named) }
{
    let mut latches = Vec::new(alloc);
    for register in FIRST_NAMED..part.regs() {
        latches.push(Bits::zeros(alloc, part.len_of(register) as usize)?)?;
    }
    Ok(latches)
}

// The bit at a place, 0 past the end.
pub fn bit_or_zero(bits: &Bits, at: usize) -> bool
    ensures { result ≡ bit_at bits.now.bits at }
{
    if at < bits.len() { bits.get(at) } else { false }
}

// The bit at a cell of the latch of BOUNDARY, 0 past the end.
pub fn boundary_bit(pins: &Bits, boundary: &Bits, cell: usize) -> bool
    requires { length boundary.now.bits ≤ length pins.now.bits }
    ensures { result ≡ bit_at (shifted_all pins.now.bits boundary.now.bits) cell }
{
    let pins_left = pins.len() - boundary.len();
    if cell < pins_left {
        return pins.get(boundary.len() + cell);
    }
    bit_or_zero(boundary, cell - pins_left)
}

// The bit at a place of a latch, 0 where there is none.
pub fn latch_bit(register: RegNo, at: usize, pins: &Bits, boundary: &Bits, named: &[Bits]) -> bool
    requires { length boundary.now.bits ≤ length pins.now.bits }
    ensures { (content : Content) → content.boundary ≡ shifted_all pins.now.bits boundary.now.bits → content.named ≡ map bits_in named.now
        → result ≡ bit_at (latch_of content (numbered register)) at }
{
    match register {
        BYPASS | IDCODE | USERCODE => false,
        BOUNDARY => boundary_bit(pins, boundary, at),
        _ => {
            let place = (register - FIRST_NAMED) as usize;
            if place < named.len() {
                bit_or_zero(&named[place], at)
            } else {
                false
            }
        }
    }
}

// Capture-DR of a register into the data stage, on a chain without nets.
pub fn capture_register(
    stage: &mut DataStage,
    part: &Part,
    register: RegNo,
    pins: &Bits,
    named: &[Bits],
)
    requires there { register < register_count part.now }
    requires room { stage.old.came.room ≡ stage_room part.now }
    requires pins { length pins.now.bits ≡ part.now.boundary_length }
    requires lengths { map (λ latch. length latch.bits) named.now ≡ map (λ r. r.length) part.now.named }
    ensures room { stage.new.came.room ≡ stage.old.came.room }
    ensures standing { IsStanding stage.new pins.now named.now }
    ensures long { length (stage_bits stage.new pins.now named.now) ≡ length_of part.now (numbered register) }
    ensures captured { (chain : ChainState) (place : ℕ) (device : DeviceState) → chain.nets ≡ [] → device.part ≡ part.now
        → device.content.pins ≡ pins.now.bits → device.content.named ≡ map bits_in named.now
        → stage_bits stage.new pins.now named.now ≡ captured_by chain place device (numbered register) }
{
    match register {
        BYPASS => stage.load(1, 0),
        BOUNDARY => stage.capture(Source::Pins, pins.len()),
        IDCODE => stage.load(32, u64::from(part.idcode().unwrap_or(0))),
        USERCODE => stage.load(32, u64::from(part.usercode())),
        _ => {
            let at = (register - FIRST_NAMED) as usize;
            stage.capture(Source::Latch(at), named[at].len());
        }
    }
}

// Update-DR of a register from the data stage.
pub fn latch_register(
    part: &Part,
    register: RegNo,
    stage: &mut DataStage,
    pins: &Bits,
    boundary: &mut Bits,
    named: &mut [Bits],
)
    requires there { register < register_count part.now }
    requires pins { length pins.now.bits ≡ part.now.boundary_length }
    requires standing { IsStanding stage.old pins.now named.old }
    requires long { length (stage_bits stage.old pins.now named.old) ≡ length_of part.now (numbered register) }
    requires latches { HasLatches part.now boundary.old named.old }
    ensures latches { HasLatches part.now boundary.new named.new }
    ensures latched { (captures updates : ℕ) → content_of pins.now.bits boundary.new.bits named.new captures updates
        ≡ latched (numbered register) (stage_bits stage.old pins.now named.old) (content_of pins.now.bits boundary.old.bits named.old captures updates) }
    ensures room { stage.new.came.room ≡ stage.old.came.room }
{
    if !part.has_latch(register) {
        return;
    }
    if register == BOUNDARY {
        stage.update_boundary(pins, named, boundary);
    } else {
        stage.update_latch((register - FIRST_NAMED) as usize, pins, named);
    }
}

// A count of scans: those of BYPASS are not counted.
pub fn counted_scan(count: u64, register: RegNo) -> u64
    ensures { result ≡ counted (numbered register) count }
{
    match register {
        BYPASS => count,
        _ => count.saturating_add(1),
    }
}
