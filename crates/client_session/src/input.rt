// What a session keeps of the bytes that it took.
ghost use Rattle.std.specs.Prelude.{◌≡◌, ◌≤◌, ℕ, List, Bool, [], IfOk};
ghost use Rattle.client_session.specs.Sessions.{wanted_by};
ghost use Rattle.client_session.specs.Stores.{AwaitsBytes, IsBetween, IsEmpty, KeepsInput, WorksAt, acts_of, held_unused, protocol_of, replied, replied_in, sampled_of, unused_of};

use arrayvec::ArrayVec;
use grant_table::Protocol;
use std::alloc::{AllocError, Global};
use xvc_frame::frame::XvcFrame;

/// What is done with the message in a frame (XVC 1.0). A `shift:` in use has so many cycles.
#[derive(Clone, Copy, Debug, PartialEq, Eq)]
pub enum Work {
    /// Its bytes come.
    Taking,
    /// The cycles before this one are made, and TDO bits are in the place of their TDI bits.
    Shifting { cycles: u32, at: u32 },
    /// So too, and TDO is sampled for this cycle; its bit is not put in its place yet.
    Sampled { cycles: u32, at: u32 },
    /// All cycles are made: the TDO bits are the reply.
    Shifted,
}

/// The message of XVC that is begun or in use.
#[derive(Drop)]
pub struct Messages {
    pub frame: XvcFrame,
    pub work: Work,
}

/// A rising edge of TCK that is asked for.
#[derive(Clone, Copy, Debug, PartialEq, Eq)]
pub struct Edge {
    pub tms: bool,
    pub tdi: bool,
}

/// The letters of remote_bitbang that are not used yet, and the edge that a used one asks for.
#[derive(Drop)]
pub struct Letters {
    pub letters: ArrayVec<u8, 16>,
    pub edge: Option<Edge>,
}

/// The bytes of a session, as its protocol has them.
#[derive(Drop)]
pub enum Input {
    Xvc(Messages),
    Bitbang(Letters),
}

/// The fewest bytes of a message of XVC.
const LEAST_MESSAGE: u64 = 8;

/// The most letters of remote_bitbang that are taken at once.
const MOST_LETTERS: u64 = 16;

impl Messages {
    // Forgets a message that is begun or in use; one that is replied stays.
    fn forget(&mut self)
        ensures between { IsBetween self.new.work }
        ensures unused { held_unused self.new.work self.new.frame ≡ [] }
        ensures replied { (said : List ℕ) → replied_in self.new.work self.new.frame said ≡ replied_in self.old.work self.old.frame said }
        ensures vector { self.new.frame.vector ≡ self.old.frame.vector }
        ensures works { WorksAt self.old.work self.old.frame → WorksAt self.new.work self.new.frame }
    {
        if self.work == Work::Shifted {
            return;
        }
        self.frame.clear();
        self.work = Work::Taking;
    }
}

impl Input {
    /// No bytes of a protocol. The error comes where memory is wanting.
    pub fn empty(alloc: Global, protocol: Protocol, vector: u32) -> Result<Input, AllocError>
        requires some { 1 ≤ vector }
        requires most { vector ≤ 65536 }
        ensures protocol { IfOk result (λ input. protocol_of input ≡ protocol) }
        ensures empty { IfOk result (λ input. IsEmpty input) }
        ensures keeps { IfOk result (KeepsInput vector) }
    {
        match protocol {
            Protocol::Xvc => Ok(Input::Xvc(Messages {
                frame: XvcFrame::new(alloc, vector)?,
                work: Work::Taking,
            })),
            Protocol::Bitbang => Ok(Input::Bitbang(Letters {
                letters: ArrayVec::new(),
                edge: None,
            })),
        }
    }

    /// Forgets all bytes and acts.
    pub fn clear(&mut self)
        ensures protocol { protocol_of self.new ≡ protocol_of self.old }
        ensures empty { IsEmpty self.new }
        ensures keeps { (vector : ℕ) → KeepsInput vector self.old → KeepsInput vector self.new }
    {
        match self {
            Input::Xvc(messages) => {
                messages.frame.clear();
                messages.work = Work::Taking;
            }
            Input::Bitbang(letters) => {
                letters.letters.clear();
                letters.edge = None;
            }
        }
    }

    /// Forgets the bytes and the acts that are left; what is replied stays.
    pub fn forget(&mut self)
        ensures protocol { protocol_of self.new ≡ protocol_of self.old }
        ensures unused { unused_of self.new ≡ [] }
        ensures acts { acts_of self.new ≡ [] }
        ensures sampled { (tdo : Bool) → sampled_of self.new tdo ≡ [] }
        ensures awaits { AwaitsBytes self.new }
        ensures replied { (said : List ℕ) → replied self.new said ≡ replied self.old said }
        ensures keeps { (vector : ℕ) → KeepsInput vector self.old → KeepsInput vector self.new }
    {
        match self {
            Input::Xvc(messages) => messages.forget(),
            Input::Bitbang(letters) => {
                letters.letters.clear();
                letters.edge = None;
            }
        }
    }

    /// The bytes of which the last are the reply: those of a `shift:` that is made, or else the short ones.
    pub fn replied<'a>(&'a self, vector: u32, said: &'a [u8]) -> &'a [u8]
        requires { KeepsInput vector self.now }
        ensures { result.now ≡ replied self.now said.now }
    {
        match self {
            Input::Xvc(messages) => match messages.work {
                Work::Shifted => messages.frame.tdo_bytes(),
                _ => said,
            },
            Input::Bitbang(_) => said,
        }
    }

    /// How many bytes make a difference next, where no act is left: in XVC the fewest that complete a message.
    pub fn want(&self, vector: u32) -> u64
        requires keeps { KeepsInput vector self.now }
        requires awaits { AwaitsBytes self.now }
        ensures value { result ≡ wanted_by (protocol_of self.now) vector (unused_of self.now) }
        ensures some { 1 ≤ result }
    {
        match self {
            Input::Xvc(messages) => match messages.work {
                Work::Taking => messages.frame.want() as u64,
                _ => LEAST_MESSAGE,
            },
            Input::Bitbang(_) => MOST_LETTERS,
        }
    }
}
