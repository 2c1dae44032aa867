// A bench that is no chain: it answers from a tape.
ghost use Rattle.std.specs.Prelude.{◌≡◌, ◌≤◌, ◌<◌, ◌+◌, ◌^◌, Some, None, [], true, false, take, drop, ◌++◌, length, IfOk, OnOk, OnErr};
ghost use Rattle.std.specs.Result.{is_err};
ghost use Rattle.base_types.specs.Counts.{HasCause, raised};
ghost use Rattle.base_types.specs.Tellings.{TakesFirst};
ghost use Rattle.scan_bits.specs.Words.{bits_of, number_of};
ghost use Rattle.chain_model.specs.Tapes.{tape_fails, after_failed, after_taken};

use crate::cable::Board;
use crate::{AssembleFault, Bench, Cable, CableFault};
use base_types::FailingCalls;
use part_model::{Net, RegNo};
use scan_bits::Bits;
use std::alloc::Global;
use std::marker::Model;

/// A bench that is no chain. It answers the bits of a tape in their order, whatever it is asked.
#[derive(Drop)]
pub struct TapeBench {
    answers: Bits,
    taken: usize,
    calls: FailingCalls,
    faults: u64,
}

impl Model for TapeBench {
    ghost use Rattle.std.specs.Prelude.{◌≤◌, drop, length};
    ghost use Rattle.chain_model.specs.Tapes.{TapeView};

    ghost Value = { TapeView };

    ghost view = { λ t. record { left = drop t.taken t.answers.bits; calls = t.calls; faults = t.faults } };

    ghost invariant = { λ t. t.taken ≤ length t.answers.bits };
}

// The place so many behind another, up to the end.
fn next_place(at: usize, n: u32, end: usize) -> usize
    requires { at + n ≤ end }
    ensures { result ≡ at + n }
{
    end.min(at + n as usize)
}

impl TapeBench {
    /// A bench with these answers ahead, bit 0 first. The calls of `cycles` with these numbers fail, counted from 1, and so does each
    /// call that asks for more answers than are left.
    pub fn new(answers: Bits, fails: Vec<u64>) -> TapeBench
        ensures { result ≡ record { left = answers.bits; calls = record { fails = fails.items; made = 0 }; faults = 0 } }
    {
        TapeBench {
            answers,
            taken: 0,
            calls: FailingCalls::new(fails),
            faults: 0,
        }
    }

    // The next answers.
    fn take(&mut self, n: u32) -> u64
        requires few { n ≤ 64 }
        requires left { n ≤ length self.old.left }
        ensures word { result ≡ number_of (take n self.old.left) }
        ensures bits { self.old.left ≡ bits_of n result ++ self.new.left }
        ensures bound { result < 2 ^ n }
        ensures after { self.new ≡ record self.old { left = drop n self.old.left } }
    {
        let end = self.answers.len();
        let word = self.answers.word(self.taken, n);
        self.taken = next_place(self.taken, n, end);
        word
    }

    // How many answers are left.
    fn left(&self) -> usize
        ensures { result ≡ length self.now.left }
    {
        self.answers.len() - self.taken
    }
}

impl Cable for TapeBench {
    ghost chain = { λ _. None };

    ghost fault_count = { λ t. t.faults };

    ghost ahead = { λ t. Some t.left };

    ghost mark = { λ _. [] };

    ghost trst = { λ _. false };

    fn cycles(&mut self, n: u32, _tms: u64, _tdi: u64) -> Result<u64, CableFault>
        requires some { 1 ≤ n }
        requires few { n ≤ 64 }
        ensures bound { IfOk result (λ word. word < 2 ^ n) }
        ensures ahead { IfOk result (λ word. TakesFirst (Some self.old.left) (Some self.new.left) (bits_of n word)) }
        ensures cause { HasCause self.old.faults self.new.faults result }
        ensures fails { is_err result ≡ tape_fails self.old n }
        ensures failed { OnErr result (self.new ≡ after_failed self.old) }
        ensures taken { OnOk result (self.new ≡ after_taken self.old n) }
    {
        if self.calls.count() || self.left() < n as usize {
            self.faults = self.faults.saturating_add(1);
            return Err(CableFault);
        }
        Ok(self.take(n))
    }

    fn has_trst(&self) -> bool {
        false
    }

    // It has no TRST: the call is a fault, and takes no answer.
    fn reset(&mut self) -> Result<(), CableFault>
        ensures fails { is_err result ≡ true }
        ensures after { self.new ≡ record self.old { faults = raised self.old.faults 1 } }
        ensures cause { HasCause self.old.faults self.new.faults result }
    {
        self.faults = self.faults.saturating_add(1);
        Err(CableFault)
    }

    fn faults(&self) -> u64 {
        self.faults
    }
}

impl Bench for TapeBench {
    fn assemble(
        &mut self,
        _alloc: Global,
        _boards: &[Board],
        _nets: &[Net],
    ) -> Result<(), AssembleFault> {
        Ok(())
    }

    fn shows(&self) -> bool {
        false
    }

    // It has no device, and so no count and no latch.
    fn captures(&self, _device: usize) -> u64
        ensures { result ≡ 0 }
    {
        0
    }

    fn updates(&self, _device: usize) -> u64
        ensures { result ≡ 0 }
    {
        0
    }

    fn latch(&self, _device: usize, _reg: RegNo, _at: usize) -> bool
        ensures { result ≡ false }
    {
        false
    }
}
