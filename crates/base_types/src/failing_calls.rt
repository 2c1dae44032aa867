// Calls that are to fail, by their numbers.
ghost use Rattle.std.specs.Prelude.{◌≡◌};
ghost use Rattle.base_types.specs.Calls.{fails_at, after_call};

use std::marker::Model;

/// The numbers of the calls that are to fail, and how many calls were made. Calls count from 1. The count stays at the
/// last value of `u64` once that is reached.
#[derive(Drop)]
pub struct FailingCalls {
    fails: Vec<u64>,
    made: u64,
}

impl Model for FailingCalls {
    ghost use Rattle.base_types.specs.Calls.{CallPlan};

    ghost Value = { CallPlan };

    ghost view = { λ calls. record { fails = calls.fails.items; made = calls.made } };
}

impl FailingCalls {
    /// No call was made yet. The numbers may stand in any order, and more than once.
    pub fn new(fails: Vec<u64>) -> Self
        ensures { result ≡ record { fails = fails.items; made = 0 } }
    {
        FailingCalls { fails, made: 0 }
    }

    /// Counts a call, and answers whether it is to fail.
    pub fn count(&mut self) -> bool
        ensures counted { self.new ≡ after_call self.old }
        ensures fails { result ≡ fails_at self.old.fails self.new.made }
    {
        self.made = self.made.saturating_add(1);
        self.fails.contains(&self.made)
    }

    /// How many calls were made.
    pub fn made(&self) -> u64
        ensures { result ≡ self.now.made }
    {
        self.made
    }
}
