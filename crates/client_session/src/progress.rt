// How far a session has come in its bytes and its acts.
ghost use Rattle.std.specs.Prelude.{◌≡◌, ◌≤◌, ◌<◌, ◌^◌, ◌+◌, ◌-◌, min, length, is_some, false, true};
ghost use Rattle.chain_model.specs.Chains.{reset};
ghost use Rattle.virtual_tap.specs.Taps.{IsOfLayout};
ghost use Rattle.virtual_tap.specs.Views.{MovesAs};
ghost use Rattle.client_session.specs.Sessions.{wanted_by};
ghost use Rattle.client_session.specs.Stores.{AwaitsBytes, HasBegun, KeepsProgress, protocol_of, reply_of, unused_of};

use crate::input::Input;
use arrayvec::ArrayVec;
use grant_table::Layout;
use virtual_tap::VTap;

/// The most bytes of one session.
pub const MOST_BYTES: u64 = 1 << 62;

/// How far a session has come: its virtual TAP with the lines TCK and TRST, how many bytes were used and how many taken, those that are not
/// used yet with the acts that are left, and the replies, of which so many bytes were not given.
#[derive(Drop)]
pub struct Progress {
    pub uses_trst: bool,
    pub vector: u32,
    pub tap: VTap,
    pub tck: bool,
    pub trst: bool,
    pub used: u64,
    pub taken: u64,
    pub input: Input,
    pub said: ArrayVec<u8, 22>,
    pub pending: usize,
}

impl Progress {
    /// A session begins: the chain is as after TRST, the lines are 0, and there are no bytes.
    pub fn begin(&mut self, layout: &Layout)
        requires layout { IsOfLayout layout.now self.old.tap }
        requires shut { self.old.tap.view.scan_open ≡ false }
        requires there { is_some self.old.tap.view.register ≡ true }
        requires keeps { KeepsProgress self.old }
        ensures keeps { KeepsProgress self.new }
        ensures begun { HasBegun self.old self.new }
        ensures moved { MovesAs self.old.tap.parts reset self.old.tap.view self.new.tap.view }
    {
        self.tap.restart(layout);
        self.tck = false;
        self.trst = false;
        self.used = 0;
        self.taken = 0;
        self.input.clear();
        self.said.clear();
        self.pending = 0;
    }

    /// The reply that was not given.
    pub fn reply(&self) -> &[u8]
        requires { KeepsProgress self.now }
        ensures { result.now ≡ reply_of self.now }
    {
        let whole = self.input.replied(self.vector, &self.said);
        &whole[whole.len() - self.pending..]
    }

    /// How many bytes are wanted next: no more than are left to the most bytes of one session.
    pub fn want(&self) -> usize
        requires keeps { KeepsProgress self.now }
        requires awaits { AwaitsBytes self.now.input }
        requires few { self.now.taken < 2 ^ 62 }
        ensures value { result ≡ min (wanted_by (protocol_of self.now.input) self.now.vector (unused_of self.now.input)) (2 ^ 62 - (self.now.used + length (unused_of self.now.input))) }
        ensures some { 1 ≤ result }
    {
        self.input.want(self.vector).min(MOST_BYTES - self.taken) as usize
    }
}
