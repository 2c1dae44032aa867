// A cable that does not tell its chain.
ghost use Rattle.std.specs.Prelude.{◌≡◌, ◌<◌, ◌+◌, ◌-◌, ◌^◌, true, min, length, if◌then◌else◌};

use chain_model::{Cable, CableFault, Chain};
use std::marker::Model;

// A chain of devices that is not told.
#[derive(Drop)]
pub struct UntoldChain {
    chain: Chain,
    faults: u64,
}

impl Model for UntoldChain {
    ghost use Rattle.std.specs.Prelude.{◌≡◌, ◌<◌, ℕ, true, length};

    ghost Value = { ℕ };

    ghost view = { λ u. u.faults };

    ghost invariant = { λ u. (0 < length u.chain.chain.devices) × (u.chain.trst ≡ true) };
}

impl UntoldChain {
    // The chain, which had no fault.
    pub fn new(chain: Chain) -> UntoldChain
        requires devices { 0 < length chain.chain.devices }
        requires trst { chain.trst ≡ true }
        ensures { result ≡ 0 }
    {
        UntoldChain { chain, faults: 0 }
    }
}

// One fault more, where there is one.
fn counted(faults: u64, failed: bool) -> u64
    ensures { result ≡ (if failed then min (faults + 1) (2 ^ 64 - 1) else faults) }
{
    if failed {
        faults.saturating_add(1)
    } else {
        faults
    }
}

impl Cable for UntoldChain {
    ghost use Rattle.std.specs.Prelude.{[], true, None};

    ghost chain = { λ _. None };

    ghost fault_count = { λ h. h };

    ghost ahead = { λ _. None };

    ghost mark = { λ _. [] };

    ghost trst = { λ _. true };

    fn cycles(&mut self, n: u32, tms: u64, tdi: u64) -> Result<u64, CableFault> {
        let word = self.chain.cycles(n, tms, tdi);
        self.faults = counted(self.faults, word.is_err());
        word
    }

    fn has_trst(&self) -> bool {
        true
    }

    fn reset(&mut self) -> Result<(), CableFault> {
        let done = self.chain.reset();
        self.faults = counted(self.faults, done.is_err());
        done
    }

    fn faults(&self) -> u64 {
        self.faults
    }
}
