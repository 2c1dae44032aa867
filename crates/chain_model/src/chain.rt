// The model of a chain: it is told, and never fails.
ghost use Rattle.std.specs.Prelude.{◌≡◌, true, false, Some, None, []};
ghost use Rattle.chain_model.specs.Cycles.{rise, fall};
ghost use Rattle.chain_model.specs.Cables.{empty_chain};

use crate::cable::Board;
use crate::scan_chain::ScanChain;
use crate::{AssembleFault, Bench, Cable, CableFault};
use part_model::{Net, RegNo};
use std::alloc::Global;

/// A chain of devices that is told whole, edge by edge of TCK (IEEE 1149.1).
#[derive(Drop)]
pub struct Chain {
    pub(crate) chain: ScanChain,
    trst: bool,
}

impl Chain {
    /// A chain without devices, at power-up, that has TRST.
    pub fn empty() -> Chain
        ensures chain { result.chain ≡ empty_chain }
        ensures trst { result.trst ≡ true }
    {
        Chain {
            chain: ScanChain::empty(),
            trst: true,
        }
    }

    /// A chain without devices, at power-up, that has no TRST.
    pub fn without_trst() -> Chain
        ensures chain { result.chain ≡ empty_chain }
        ensures trst { result.trst ≡ false }
    {
        Chain {
            chain: ScanChain::empty(),
            trst: false,
        }
    }

    /// A rising edge of TCK: TMS and TDI are sampled. TDO stays, and no cycle is counted (IEEE 1149.1).
    pub fn rise(&mut self, tms: bool, tdi: bool)
        ensures chain { self.new.chain ≡ rise self.old.chain tms tdi }
        ensures trst { self.new.trst ≡ self.old.trst }
    {
        self.chain.rise(tms, tdi);
    }

    /// A falling edge of TCK: registers are updated, and TDO changes (IEEE 1149.1).
    pub fn fall(&mut self)
        ensures chain { self.new.chain ≡ fall self.old.chain }
        ensures trst { self.new.trst ≡ self.old.trst }
    {
        self.chain.fall();
    }

    /// TDO: the lowest bit of the register that shifts, and 1 where none does.
    pub fn tdo(&self) -> bool
        ensures { result ≡ self.now.chain.tdo }
    {
        self.chain.tdo()
    }
}

impl Cable for Chain {
    ghost chain = { λ c. Some c.chain };

    ghost fault_count = { λ _. 0 };

    ghost ahead = { λ _. None };

    ghost mark = { λ _. [] };

    ghost trst = { λ c. c.trst };

    fn cycles(&mut self, n: u32, tms: u64, tdi: u64) -> Result<u64, CableFault> {
        Ok(self.chain.call(n, tms, tdi))
    }

    fn has_trst(&self) -> bool {
        self.trst
    }

    fn reset(&mut self) -> Result<(), CableFault> {
        self.chain.reset();
        Ok(())
    }

    fn faults(&self) -> u64 {
        0
    }
}

impl Bench for Chain {
    fn assemble(
        &mut self,
        alloc: Global,
        boards: &[Board],
        nets: &[Net],
    ) -> Result<(), AssembleFault> {
        match self.chain.assemble(alloc, boards, nets) {
            Ok(()) => Ok(()),
            Err(_) => Err(AssembleFault::Memory),
        }
    }

    fn shows(&self) -> bool {
        true
    }

    fn captures(&self, device: usize) -> u64 {
        match self.chain.device(device) {
            None => 0,
            Some(device) => device.captures(),
        }
    }

    fn updates(&self, device: usize) -> u64 {
        match self.chain.device(device) {
            None => 0,
            Some(device) => device.updates(),
        }
    }

    fn latch(&self, device: usize, reg: RegNo, at: usize) -> bool {
        match self.chain.device(device) {
            None => false,
            Some(device) => device.latch(reg, at),
        }
    }
}
