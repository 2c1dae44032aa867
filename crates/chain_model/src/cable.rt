// The scan chain as its users see it: over a cable that clocks it and may fail.
ghost use Rattle.std.specs.Prelude.{◌≡◌, ◌≤◌, ◌<◌, ◌^◌, ℕ, Bool, List, length, map, IfOk, OnOk, OnErr, is_some, true, slice_get};
ghost use Rattle.std.specs.declared.option.Option.{Option};
ghost use Rattle.std.specs.Result.{IsErrOf};
ghost use Rattle.base_types.specs.Counts.{HasCause, Rose};
ghost use Rattle.base_types.specs.Tellings.{Told, Both, TakesFirst};
ghost use Rattle.scan_bits.specs.Words.{bits_of};
ghost use Rattle.scan_bits.specs.Registers.{bit_at};
ghost use Rattle.part_model.specs.Parts.{numbered};
ghost use Rattle.chain_model.specs.Chains.{ChainState, latch_of, powered, reset};
ghost use Rattle.chain_model.specs.Cycles.{clocks_of};
ghost use Rattle.chain_model.specs.Cables.{Clocked, HasDevice, empty_chain};
ghost use Rattle.chain_model.specs.Boards.{placed, EachHasPins, EachHasEnds, HasLatchBit};

use part_model::{Net, Part, RegNo};
use scan_bits::Bits;
use std::alloc::Global;

/// The cable failed, and nothing is told of the chain any more.
#[derive(Clone, Copy, Debug, PartialEq, Eq)]
pub struct CableFault;

/// Why a chain was not assembled.
#[derive(Clone, Copy, Debug, PartialEq, Eq)]
pub enum AssembleFault {
    /// Memory was wanting.
    Memory,
    /// The cable failed.
    Cable,
}

/// A device on a board: its type, and the values at its pins from outside, one for each boundary cell, the cell nearest TDO first.
#[derive(Drop)]
pub struct Board {
    pub part: Part,
    pub pins: Bits,
}

/// A cable to a scan chain.
pub trait Cable {
    /// The chain, where the cable tells it.
    ghost chain: { Self → Option ChainState };

    /// How often a call failed.
    ghost fault_count: { Self → ℕ };

    /// The bits that the next cycles will answer, where the cable tells them.
    ghost ahead: { Self → Option (List Bool) };

    /// A mark that no call changes.
    ghost mark: { Self → List ℕ };

    /// Whether the cable has TRST.
    ghost trst: { Self → Bool };

    /// Makes `n` cycles of TCK (1 to 64). Bit i of `tms` and of `tdi`, the lowest being bit 0, is sampled on the rising edge of
    /// cycle i; bit i of the answer is TDO before that edge, and the bits from `n` on are 0.
    ///
    /// The fault comes only where the count of faults rose in the call.
    fn cycles(&mut self, n: u32, tms: u64, tdi: u64) -> Result<u64, CableFault>
        requires some { 1 ≤ n }
        requires few { n ≤ 64 }
        requires devices { Told (chain self.old) HasDevice }
        ensures clocked { IfOk result (Clocked (chain self.old) (chain self.new) (clocks_of n tms tdi)) }
        ensures bound { IfOk result (λ word. word < 2 ^ n) }
        ensures devices { OnOk result (Told (chain self.new) HasDevice) }
        ensures ahead { IfOk result (λ word. TakesFirst (ahead self.old) (ahead self.new) (bits_of n word)) }
        ensures mark { mark self.new ≡ mark self.old }
        ensures trst { trst self.new ≡ trst self.old }
        ensures cause { HasCause (fault_count self.old) (fault_count self.new) result };

    /// Whether the cable has TRST, the line that resets the controllers (IEEE 1149.1).
    fn has_trst(&self) -> bool
        ensures { result ≡ trst self.now };

    /// A reset by TRST: the controllers and the instructions are those of power-up, and an open scan is gone. Latches and counts stay.
    ///
    /// The fault comes only where the count of faults rose in the call.
    fn reset(&mut self) -> Result<(), CableFault>
        requires trst { trst self.old ≡ true }
        requires devices { Told (chain self.old) HasDevice }
        ensures reset { OnOk result (Both (chain self.old) (chain self.new) (λ old new. new ≡ reset old)) }
        ensures devices { OnOk result (Told (chain self.new) HasDevice) }
        ensures ahead { ahead self.new ≡ ahead self.old }
        ensures mark { mark self.new ≡ mark self.old }
        ensures trst { trst self.new ≡ trst self.old }
        ensures cause { HasCause (fault_count self.old) (fault_count self.new) result };

    /// How often a call failed; the count stays at the last value of `u64` once that is reached.
    fn faults(&self) -> u64
        ensures { result ≡ fault_count self.now };
}

/// A cable whose chain can be assembled and looked at. Devices count from 0, from TDI on.
pub trait Bench: Cable {
    /// Puts the devices of 1 to 32 boards, the first nearest TDI, and nets between their boundary cells on an empty bench, at
    /// power-up. Of several nets to one cell the first counts. After a refusal the bench is empty.
    ///
    /// `AssembleFault::Cable` comes only where the count of faults rose in the call.
    fn assemble(
        &mut self,
        alloc: Global,
        boards: &[Board],
        nets: &[Net],
    ) -> Result<(), AssembleFault>
        requires empty { Told (Self.chain self.old) (λ old. old ≡ empty_chain) }
        requires some { 1 ≤ length boards.now }
        requires few { length boards.now ≤ 32 }
        requires pins { EachHasPins boards.now }
        requires nets { EachHasEnds boards.now nets.now }
        ensures assembled { OnOk result (Both (Self.chain self.old) (Self.chain self.new) (λ old new. new ≡ powered (map placed boards.now) nets.now)) }
        ensures emptied { OnErr result (Both (Self.chain self.old) (Self.chain self.new) (λ old new. new ≡ empty_chain)) }
        ensures ahead { Self.ahead self.new ≡ Self.ahead self.old }
        ensures mark { Self.mark self.new ≡ Self.mark self.old }
        ensures trst { Self.trst self.new ≡ Self.trst self.old }
        ensures later { Self.fault_count self.old ≤ Self.fault_count self.new }
        ensures kept { OnOk result (Self.fault_count self.new ≡ Self.fault_count self.old) }
        ensures memory { IsErrOf result AssembleFault.Memory → Self.fault_count self.new ≡ Self.fault_count self.old }
        ensures cause { IsErrOf result AssembleFault.Cable → Rose (Self.fault_count self.old) (Self.fault_count self.new) };

    /// Whether the bench tells its chain, so that its devices can be looked at.
    fn shows(&self) -> bool
        ensures { result ≡ is_some (Self.chain self.now) };

    /// How often a register of the device other than BYPASS was captured.
    fn captures(&self, device: usize) -> u64
        requires shows { is_some (Self.chain self.now) ≡ true }
        requires in_range { Told (Self.chain self.now) (λ chain. device < length chain.devices) }
        ensures { Told (Self.chain self.now) (λ chain. Told (slice_get chain.devices device) (λ state. result ≡ state.content.captures)) };

    /// How often a register of the device other than BYPASS was updated.
    fn updates(&self, device: usize) -> u64
        requires shows { is_some (Self.chain self.now) ≡ true }
        requires in_range { Told (Self.chain self.now) (λ chain. device < length chain.devices) }
        ensures { Told (Self.chain self.now) (λ chain. Told (slice_get chain.devices device) (λ state. result ≡ state.content.updates)) };

    /// Bit `at`, counted from the one nearest TDO, of the latch of a device's register: BOUNDARY or a named one.
    fn latch(&self, device: usize, reg: RegNo, at: usize) -> bool
        requires shows { is_some (Self.chain self.now) ≡ true }
        requires in_range { Told (Self.chain self.now) (λ chain. device < length chain.devices) }
        requires there { Told (Self.chain self.now) (λ chain. Told (slice_get chain.devices device) (λ state. HasLatchBit state.part reg at)) }
        ensures { Told (Self.chain self.now) (λ chain. Told (slice_get chain.devices device) (λ state. result ≡ bit_at (latch_of state.content (numbered reg)) at)) };
}
