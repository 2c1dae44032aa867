//! The scan chain: what its users see of it, and a model of it.
#![tactic(auto)]

ghost use Rattle.std.specs.Prelude.{◌≡◌, ◌+◌, ℕ, List, ◌++◌, Bool, length};
ghost use Rattle.scan_bits.specs.Registers.{joined, shifted};
ghost use Rattle.chain_model.specs.Chains.{ChainState, DeviceState};
ghost use Rattle.chain_model.specs.Cycles.{Clock, after_cycles, after_calls, answers, dr_stages, shifted_dr, ir_stages, shifted_ir};

mod cable;
mod chain;
mod circuit;
mod data_stage;
mod demo;
mod device;
mod devices;
mod edges;
mod fail_bench;
mod nets;
mod registers;
mod scan_chain;
mod tape_bench;

pub use cable::{AssembleFault, Bench, Board, Cable, CableFault};
pub use chain::Chain;
pub use demo::demo_board;
pub use fail_bench::FailBench;
pub use part_model::Net;
pub use tape_bench::TapeBench;

/// Cycles in a row are cycles in two rows.
pub fn cycles_in_two_rows()
    ensures chain { (first second : List Clock) (chain : ChainState) → after_cycles (first ++ second) chain ≡ after_cycles second (after_cycles first chain) }
    ensures answers { (first second : List Clock) (chain : ChainState) → answers (first ++ second) chain ≡ answers first chain ++ answers second (after_cycles first chain) }
{}

/// The stages of a chain shift as one register, from the last device to the first.
pub fn chain_is_one_register()
    ensures data { (devices : List DeviceState) (tdi : Bool) → joined (dr_stages (shifted_dr tdi devices)) ≡ shifted (joined (dr_stages devices)) tdi }
    ensures instruction { (devices : List DeviceState) (tdi : Bool) → joined (ir_stages (shifted_ir tdi devices)) ≡ shifted (joined (ir_stages devices)) tdi }
{}

/// Calls and then more calls are as many calls in a row, and each cycle answers as in that row.
pub fn calls_in_two_rows()
    ensures chain { (calls more : ℕ) (first second : List Clock) (chain : ChainState) → after_calls more second (after_calls calls first chain) ≡ after_calls (calls + more) (first ++ second) chain }
    ensures answers { (calls : ℕ) (first second : List Clock) (chain : ChainState) → answers (first ++ second) chain ≡ answers first chain ++ answers second (after_calls calls first chain) }
{}

/// Each cycle answers one bit.
pub fn each_cycle_answers()
    ensures { (clocks : List Clock) (chain : ChainState) → length (answers clocks chain) ≡ length clocks }
{}

/// Calls keep the number of devices.
pub fn calls_keep_devices()
    ensures { (calls : ℕ) (clocks : List Clock) (chain : ChainState) → length (after_calls calls clocks chain).devices ≡ length chain.devices }
{}

#[cfg(test)]
mod tests;
#[cfg(test)]
mod yardstick;
