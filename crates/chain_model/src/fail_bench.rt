// A bench whose calls fail where they are to.
ghost use Rattle.std.specs.Prelude.{◌≡◌, ◌⊎◌, ◌≤◌, ◌<◌, ◌^◌, None, true, false, map, length, IfOk, OnOk, OnErr};
ghost use Rattle.std.specs.Result.{is_err, IsErrOf};
ghost use Rattle.base_types.specs.Calls.{after_call};
ghost use Rattle.base_types.specs.Counts.{HasCause, Rose, raised};
ghost use Rattle.base_types.specs.Tellings.{Told, Both};
ghost use Rattle.chain_model.specs.Chains.{powered, reset};
ghost use Rattle.chain_model.specs.Cycles.{clocks_of};
ghost use Rattle.chain_model.specs.Cables.{Clocked, HasDevice, empty_chain};
ghost use Rattle.chain_model.specs.Boards.{placed, EachHasPins, EachHasEnds};
ghost use Rattle.chain_model.specs.Tapes.{until_broken, call_fails, own_faults};

use crate::cable::Board;
use crate::{AssembleFault, Bench, Cable, CableFault};
use base_types::FailingCalls;
use part_model::{Net, RegNo};
use std::alloc::Global;

/// A bench with a list of calls that fail. It tells its chain as the inner bench does until a call failed, of its own or of the inner
/// bench; from then on it tells nothing, and each call fails.
pub struct FailBench<B: Bench> {
    inner: B,
    calls: FailingCalls,
    broken: bool,
    faults: u64,
}

impl<B: Bench> FailBench<B> {
    /// The inner bench, of which the calls with these numbers fail. Calls of `cycles` and `reset` are counted together, from 1.
    pub fn new(inner: B, fails: Vec<u64>) -> FailBench<B>
        ensures inner { result.inner ≡ inner }
        ensures calls { result.calls ≡ record { fails = fails.items; made = 0 } }
        ensures whole { result.broken ≡ false }
        ensures faults { result.faults ≡ 0 }
    {
        FailBench {
            inner,
            calls: FailingCalls::new(fails),
            broken: false,
            faults: 0,
        }
    }

    /// The inner bench as it stands.
    pub fn into_inner(self) -> B
        ensures { result ≡ self.inner }
    {
        let FailBench {
            inner,
            calls: _,
            broken: _,
            faults: _,
        } = self;
        inner
    }

    // Counts a call, and answers whether it fails before the inner bench is asked.
    fn fails_now(&mut self) -> bool
        ensures fails { result ≡ call_fails self.old.broken self.old.calls }
        ensures counted { self.new.calls ≡ after_call self.old.calls }
        ensures broken { self.new.broken ≡ call_fails self.old.broken self.old.calls }
        ensures faults { self.new.faults ≡ own_faults self.old.broken self.old.calls self.old.faults }
        ensures inner { self.new.inner ≡ self.old.inner }
    {
        if !self.calls.count() && !self.broken {
            return false;
        }
        self.broken = true;
        self.faults = self.faults.saturating_add(1);
        true
    }
}

impl<B: Bench> Cable for FailBench<B> {
    ghost chain = { λ t. until_broken t.broken (B.chain t.inner) };

    ghost fault_count = { λ t. raised t.faults (B.fault_count t.inner) };

    ghost ahead = { λ _. None };

    ghost mark = { λ t. B.mark t.inner };

    ghost trst = { λ t. B.trst t.inner };

    // A listed call fails and does not reach the inner bench, and so does every call after one that failed. Any other call is the
    // inner bench's, and fails only by a fault of its own.
    fn cycles(&mut self, n: u32, tms: u64, tdi: u64) -> Result<u64, CableFault>
        requires some { 1 ≤ n }
        requires few { n ≤ 64 }
        requires devices { Told (until_broken self.old.broken (B.chain self.old.inner)) HasDevice }
        ensures clocked { IfOk result (Clocked (until_broken self.old.broken (B.chain self.old.inner)) (until_broken self.new.broken (B.chain self.new.inner)) (clocks_of n tms tdi)) }
        ensures bound { IfOk result (λ word. word < 2 ^ n) }
        ensures devices { OnOk result (Told (until_broken self.new.broken (B.chain self.new.inner)) HasDevice) }
        ensures mark { B.mark self.new.inner ≡ B.mark self.old.inner }
        ensures trst { B.trst self.new.inner ≡ B.trst self.old.inner }
        ensures cause { HasCause (raised self.old.faults (B.fault_count self.old.inner)) (raised self.new.faults (B.fault_count self.new.inner)) result }
        ensures listed { call_fails self.old.broken self.old.calls ≡ true → is_err result ≡ true }
        ensures untouched { call_fails self.old.broken self.old.calls ≡ true → self.new.inner ≡ self.old.inner }
        ensures inner { OnErr result ((call_fails self.old.broken self.old.calls ≡ true) ⊎ Rose (B.fault_count self.old.inner) (B.fault_count self.new.inner)) }
        ensures counted { self.new.calls ≡ after_call self.old.calls }
        ensures broken { self.new.broken ≡ is_err result }
        ensures faults { self.new.faults ≡ own_faults self.old.broken self.old.calls self.old.faults }
    {
        if self.fails_now() {
            return Err(CableFault);
        }
        let result = self.inner.cycles(n, tms, tdi);
        self.broken = result.is_err();
        result
    }

    fn has_trst(&self) -> bool {
        self.inner.has_trst()
    }

    // It fails as `cycles` does, and counts with it.
    fn reset(&mut self) -> Result<(), CableFault>
        requires trst { B.trst self.old.inner ≡ true }
        requires devices { Told (until_broken self.old.broken (B.chain self.old.inner)) HasDevice }
        ensures reset { OnOk result (Both (until_broken self.old.broken (B.chain self.old.inner)) (until_broken self.new.broken (B.chain self.new.inner)) (λ old new. new ≡ reset old)) }
        ensures devices { OnOk result (Told (until_broken self.new.broken (B.chain self.new.inner)) HasDevice) }
        ensures mark { B.mark self.new.inner ≡ B.mark self.old.inner }
        ensures trst { B.trst self.new.inner ≡ B.trst self.old.inner }
        ensures cause { HasCause (raised self.old.faults (B.fault_count self.old.inner)) (raised self.new.faults (B.fault_count self.new.inner)) result }
        ensures listed { call_fails self.old.broken self.old.calls ≡ true → is_err result ≡ true }
        ensures untouched { call_fails self.old.broken self.old.calls ≡ true → self.new.inner ≡ self.old.inner }
        ensures inner { OnErr result ((call_fails self.old.broken self.old.calls ≡ true) ⊎ Rose (B.fault_count self.old.inner) (B.fault_count self.new.inner)) }
        ensures counted { self.new.calls ≡ after_call self.old.calls }
        ensures broken { self.new.broken ≡ is_err result }
        ensures faults { self.new.faults ≡ own_faults self.old.broken self.old.calls self.old.faults }
    {
        if self.fails_now() {
            return Err(CableFault);
        }
        let result = self.inner.reset();
        self.broken = result.is_err();
        result
    }

    fn faults(&self) -> u64 {
        self.faults.saturating_add(self.inner.faults())
    }
}

impl<B: Bench> Bench for FailBench<B> {
    fn assemble(
        &mut self,
        alloc: Global,
        boards: &[Board],
        nets: &[Net],
    ) -> Result<(), AssembleFault>
        requires empty { Told (until_broken self.old.broken (B.chain self.old.inner)) (λ old. old ≡ empty_chain) }
        requires some { 1 ≤ length boards.now }
        requires few { length boards.now ≤ 32 }
        requires pins { EachHasPins boards.now }
        requires nets { EachHasEnds boards.now nets.now }
        ensures assembled { OnOk result (Both (until_broken self.old.broken (B.chain self.old.inner)) (until_broken self.new.broken (B.chain self.new.inner)) (λ old new. new ≡ powered (map placed boards.now) nets.now)) }
        ensures emptied { OnErr result (Both (until_broken self.old.broken (B.chain self.old.inner)) (until_broken self.new.broken (B.chain self.new.inner)) (λ old new. new ≡ empty_chain)) }
        ensures mark { B.mark self.new.inner ≡ B.mark self.old.inner }
        ensures trst { B.trst self.new.inner ≡ B.trst self.old.inner }
        ensures later { raised self.old.faults (B.fault_count self.old.inner) ≤ raised self.new.faults (B.fault_count self.new.inner) }
        ensures kept { OnOk result (raised self.new.faults (B.fault_count self.new.inner) ≡ raised self.old.faults (B.fault_count self.old.inner)) }
        ensures memory { IsErrOf result AssembleFault.Memory → raised self.new.faults (B.fault_count self.new.inner) ≡ raised self.old.faults (B.fault_count self.old.inner) }
        ensures cause { IsErrOf result AssembleFault.Cable → Rose (raised self.old.faults (B.fault_count self.old.inner)) (raised self.new.faults (B.fault_count self.new.inner)) }
        ensures after_failure { self.old.broken ≡ true → IsErrOf result AssembleFault.Cable }
        ensures inner { IsErrOf result AssembleFault.Cable → (self.old.broken ≡ true) ⊎ Rose (B.fault_count self.old.inner) (B.fault_count self.new.inner) }
        ensures calls { self.new.calls ≡ self.old.calls }
        ensures broken { self.new.broken ≡ self.old.broken }
    {
        if self.broken {
            self.faults = self.faults.saturating_add(1);
            return Err(AssembleFault::Cable);
        }
        self.inner.assemble(alloc, boards, nets)
    }

    fn shows(&self) -> bool {
        !self.broken && self.inner.shows()
    }

    fn captures(&self, device: usize) -> u64 {
        self.inner.captures(device)
    }

    fn updates(&self, device: usize) -> u64 {
        self.inner.updates(device)
    }

    fn latch(&self, device: usize, reg: RegNo, at: usize) -> bool {
        self.inner.latch(device, reg, at)
    }
}
