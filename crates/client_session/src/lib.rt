//! The sessions of a grant: what a client's bytes ask of its private chain, what it is replied, and where it has to wait for the shared one.
#![tactic(auto)]

ghost use Rattle.std.specs.Prelude.{◌≡◌, ℕ, List, ◌∷◌, ◌++◌};
ghost use Rattle.client_session.specs.Seats.{Seat, finished, IsFinished};
ghost use Rattle.client_session.specs.Private.{Event, after_events};
ghost use Rattle.client_session.specs.Private.Event.{Took};
ghost use Rattle.client_session.specs.Sessions.{is_leaving, is_waiting, stand_after};
ghost use Rattle.client_session.specs.Laws.{NoneWaitsByItself, MessagesReplyShort, LettersReplyShort};

mod calls;
mod desk;
mod ending;
mod halt;
mod input;
mod letters;
mod lines;
mod messages;
mod progress;
mod session;
mod shift;

pub use desk::{Desk, leave, sound};
pub use session::Session;

/// How a session ended. Bytes are counted from 0, from the first of the session.
#[derive(Clone, Copy, Debug, PartialEq, Eq)]
pub enum End {
    /// The letter `Q` of remote_bitbang stood at this byte.
    Quit(u64),
    /// The bytes were refused at this byte, for this cause: 1 no word of XVC goes on so, 2 a `shift:` longer than the
    /// announced vector length, 3 no letter of remote_bitbang.
    Refused(u64, u8),
    /// The peer was gone after so many bytes, all of them used.
    Gone(u64),
    /// The peer was gone after so many bytes, within a message.
    Cut(u64),
    /// So many bytes were taken, the most of one session.
    Long(u64),
}

/// How a call of a session stopped.
#[derive(Clone, Copy, Debug, PartialEq, Eq)]
pub enum Stop {
    /// All bytes were used.
    Done,
    /// The session waits for the shared chain before a capture.
    Waits,
    /// The session ended.
    Ended(End),
}

/// How a session stands.
#[derive(Clone, Copy, Debug, PartialEq, Eq)]
pub enum Stand {
    /// No session is open.
    Free,
    /// A session is open, and takes bytes.
    Going,
    /// The session waits for the shared chain.
    Waits,
    /// The session waits, and its peer is gone.
    Leaving,
}

impl Stand {
    // Whether a session waits that is leaving.
    fn is_leaving(self) -> bool
        ensures { result ≡ is_leaving self }
    {
        matches!(self, Stand::Leaving)
    }

    // Whether a session waits whose peer is there.
    fn is_waiting(self) -> bool
        ensures { result ≡ is_waiting self }
    {
        matches!(self, Stand::Waits)
    }

    // How a session stands after a call that stopped so; its peer may be gone.
    fn after(stop: Stop, gone: bool) -> Stand
        ensures { result ≡ stand_after stop gone }
    {
        match stop {
            Stop::Done => Stand::Going,
            Stop::Waits if gone => Stand::Leaving,
            Stop::Waits => Stand::Waits,
            Stop::Ended(_) => Stand::Free,
        }
    }
}

/// A seat that has gone on until it is finished has nothing left to do.
pub fn finished_is_finished()
    ensures { (seat : Seat) → IsFinished (finished seat) }
{}

/// Where the bytes of a connection are cut makes no difference: two pieces that follow each other are as good as one.
pub fn pieces_may_be_joined()
    ensures { (seat : Seat) (conn : ℕ) (first second : List ℕ) (before after : List Event) → after_events (before ++ Took conn first ∷ Took conn second ∷ after) seat ≡ after_events (before ++ Took conn (first ++ second) ∷ after) seat }
{}

/// Where no grant waits and no other holds the chain, a grant goes on until nothing is left to do.
pub fn a_grant_by_itself_never_waits()
    ensures { NoneWaitsByItself }
{}

/// A message is replied by three bytes at most for each of its bytes, where the vector length has eight digits at most,
/// and a letter by one.
pub fn replies_are_short()
    ensures messages { MessagesReplyShort }
    ensures letters { LettersReplyShort }
{}
