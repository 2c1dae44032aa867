// The grants that wait.
ghost use Rattle.std.specs.Prelude.{◌≡◌, ◌<◌, ◌↔◌, [], true, IsTrue};
ghost use Rattle.chain_token.specs.Waiting.{IsQueue, is_among, with_waiting, without, may_open};
ghost use Rattle.std.specs.declared.option.Option.TheVariants.{None};

use arrayvec::ArrayVec;
use std::marker::Model;

/// The grants that wait for the chain, in the order in which they came. Each is below 16, and none stands twice.
#[derive(Drop)]
pub struct Queue {
    grants: ArrayVec<u8, 16>,
}

impl Model for Queue {
    ghost use Rattle.std.specs.Prelude.{List, ℕ};
    ghost use Rattle.chain_token.specs.Waiting.{IsQueue};

    ghost Value = { List ℕ };

    ghost view = { λ queue. queue.grants.items };

    ghost invariant = { λ queue. IsQueue queue.grants.items };
}

impl Queue {
    /// Nobody waits.
    pub fn new() -> Queue
        ensures { result ≡ [] }
    {
        Queue {
            grants: ArrayVec::new(),
        }
    }

    /// The grants that wait, the first to be served first.
    pub fn grants(&self) -> &[u8]
        ensures list { result.now ≡ self.now }
        ensures queue { IsQueue self.now }
    {
        &self.grants
    }

    /// Whether a grant is among them.
    pub fn has(&self, grant: u8) -> bool
        ensures { result ≡ is_among grant self.now }
    {
        self.grants.contains(&grant)
    }

    /// Whether no other grant waits before this one.
    pub(crate) fn is_open_to(&self, grant: u8) -> bool
        ensures { result ≡ may_open None self.now grant }
    {
        match self.grants.first() {
            None => true,
            Some(first) => *first == grant,
        }
    }

    /// Puts a grant at the end, or leaves it where it is.
    pub(crate) fn join(&mut self, grant: u8)
        requires { grant < 16 }
        ensures { self.new ≡ with_waiting grant self.old }
    {
        if !self.has(grant) {
            self.grants.push(grant);
        }
    }

    /// Takes a grant out that nobody waits before.
    pub(crate) fn serve(&mut self, grant: u8)
        requires { may_open None self.old grant ≡ true }
        ensures { self.new ≡ without grant self.old }
    {
        if !self.grants.is_empty() {
            self.grants.remove(0);
        }
    }
}
