// The sessions of all grants, with the desk.
ghost use Rattle.std.specs.Prelude.{◌≡◌, ◌≢◌, ◌≤◌, ◌<◌, ◌++◌, ℕ, List, [], true, false, length, map, take, drop, slice_set, IfOk, IfErr, OnOk, OnErr, if◌then◌else◌};
ghost use Rattle.std.specs.List.{slice_index_or};
ghost use Rattle.std.specs.declared.option.Option.{Option};
ghost use Rattle.std.specs.declared.option.Option.TheVariants.{None, Some};
ghost use Rattle.base_types.specs.Counts.{HasCause};
ghost use Rattle.base_types.specs.Tellings.{Told};
ghost use Rattle.chain_model.specs.Chains.{ChainState};
ghost use Rattle.scan_share.specs.Scans.{IsWhole};
ghost use Rattle.client_session.specs.declared.Stand.TheVariants.{Free, Going};
ghost use Rattle.client_session.specs.Private.{opened, received};
ghost use Rattle.client_session.specs.Sessions.{is_here, is_in_line, is_taken, view_wants};
ghost use Rattle.plays.specs.Plays.{Setting, Play, next_in_line, seat_at, start};
ghost use Rattle.session_table.specs.Tables.{FollowsOpening, FollowsPlays, KeepsTable, RepliesFronts, StandsOn, WentOn, reply_at, stand_at, view_at, with_given, with_reply};
ghost use Rattle.session_table.specs.Shown.{EachFew, FreshOn, Settles, is_out, session_end};

use crate::seats::Seats;
use crate::{CableFailed, Ended};
use chain_model::Cable;
use client_session::{Desk, Stand, leave};
use grant_table::Layout;
use scan_share::{Broken, Parked};
use std::alloc::Global;
use std::marker::Model;
use std::mem;

// The desk: out within a call, there, or lost with the cable that failed.
enum Slot<C: Cable> {
    Out,
    Free(Desk<C>),
    Broken(Broken<C>),
}

/// The sessions of all grants over one desk of the shared chain. Grants count from 0, in the order of the layout; each has one session, which
/// is free or serves a connection.
///
/// Only `new` takes memory. Once a call answered that the cable failed, the table is broken, and only the calls that tell something, `gave`,
/// `drop_reply` and `finish` may be made.
pub struct SessionTable<C: Cable> {
    seats: Seats,
    slot: Slot<C>,
    ghost there: { is_out slot ≡ false },
}

impl<C: Cable> Model for SessionTable<C> {
    ghost use Rattle.session_table.specs.Tables.{TableView};
    ghost use Rattle.session_table.specs.Fits.{TableFits};
    ghost use Rattle.session_table.specs.Shown.{cable_in, hub_of};

    ghost Value = { TableView C };

    ghost invariant = { λ t. TableFits t.seats t.slot (λ cable. C.chain cable) (λ cable. C.trst cable) };

    ghost view = { λ t. record { hub = hub_of t.seats t.slot; cable = cable_in t.slot t.there } };
}

impl<C: Cable> SessionTable<C> {
    /// A free session for each grant of the layout, over a chain at rest, for a vector length of 1 to 65,536 bytes that is announced. The letters
    /// of TRST count where `uses_trst` is true, which needs a cable with TRST. The chain is made of the layout's devices and nets.
    ///
    /// The error hands the chain back. It comes only where memory is wanting.
    pub fn new(
        alloc: Global,
        layout: Layout,
        parked: Parked<C>,
        vector: u32,
        uses_trst: bool,
    ) -> Result<SessionTable<C>, Parked<C>>
        requires some { 1 ≤ vector }
        requires most { vector ≤ 65536 }
        requires trst { uses_trst ≡ true → C.trst parked.cable ≡ true }
        requires whole { Told (C.chain parked.cable) (IsWhole layout) }
        ensures layout { IfOk result (λ table. (table.hub.layout ≡ layout) × (table.hub.vector ≡ vector) × (table.hub.uses_trst ≡ uses_trst)) }
        ensures seats { IfOk result (λ table. length table.hub.seats ≡ length layout.grants) }
        ensures free { IfOk result (λ table. (grant : ℕ) → (stand_at table.hub grant ≡ Free) × (reply_at table.hub grant ≡ [])) }
        ensures ready { IfOk result (λ table. table.hub.ready ≡ map (λ shape. false) layout.grants) }
        ensures none { IfOk result (λ table. (table.hub.holder ≡ None) × (table.hub.waiting ≡ []) × (table.hub.joins ≡ 0) × (table.hub.ended ≡ []) × (table.hub.broken ≡ false)) }
        ensures cable { IfOk result (λ table. table.cable ≡ parked.cable) }
        ensures stands { IfOk result (λ table. (setting : Setting) → FreshOn setting layout vector uses_trst (C.chain parked.cable) → StandsOn setting table.hub (λ grant. []) (C.chain parked.cable) (start setting)) }
        ensures back { IfErr result (λ back. back ≡ parked) }
    {
        match Seats::new(alloc, layout, vector, uses_trst) {
            Ok(seats) => Ok(SessionTable {
                seats,
                slot: Slot::Free(Desk::new(parked)),
            }),
            Err(_) => Err(parked),
        }
    }

    /// The layout that `new` was given.
    pub fn layout(&self) -> &Layout
        ensures { result.now ≡ self.now.hub.layout }
    {
        self.seats.layout()
    }

    /// Whether the cable failed.
    pub fn broken(&self) -> bool
        ensures { result ≡ self.now.hub.broken }
    {
        matches!(self.slot, Slot::Broken(_))
    }

    /// How often a session began to wait for the chain; the count stays at the last value of `u64` once that is reached.
    pub fn waits(&self) -> u64
        ensures { result ≡ self.now.hub.joins }
    {
        self.seats.joins()
    }

    /// Who goes on next: the first that waits for a chain that nobody holds. Over a cable that tells its chain, nobody does between two calls.
    /// Unless the cable failed, the session of that grant waits, be its peer there or gone.
    pub fn next(&self) -> Option<usize>
        ensures is { result ≡ next_in_line self.now.hub.holder self.now.hub.waiting }
        ensures line { self.now.hub.broken ≡ false → (grant : ℕ) → result ≡ Some grant → is_in_line (stand_at self.now.hub grant) ≡ true }
    {
        match &self.slot {
            Slot::Free(desk) => desk.next(),
            Slot::Broken(_) => None,
            Slot::Out => None,
        }
    }

    /// The sessions that ended since `forget_ended`, in order.
    pub fn ended(&self) -> &[Ended]
        ensures are { map session_end result.now ≡ self.now.hub.ended }
        ensures few { self.now.hub.broken ≡ false → EachFew result.now }
    {
        self.seats.ended()
    }

    /// Forgets the sessions that ended.
    pub fn forget_ended(&mut self)
        ensures { self.new ≡ record self.old { hub = record self.old.hub { ended = [] } } }
    {
        self.seats.forget_ended();
    }

    /// The connection of a grant's session and how it stands; none where the session is free.
    pub fn seat(&self, grant: usize) -> Option<(u64, Stand)>
        requires { grant < length self.now.hub.seats }
        ensures { result ≡ (if is_taken (stand_at self.now.hub grant) then Some ((view_at self.now.hub grant).conn, stand_at self.now.hub grant) else None) }
    {
        self.seats.seat(grant)
    }

    /// How many bytes make a difference to a grant's session next.
    pub fn want(&self, grant: usize) -> usize
        requires grant { grant < length self.now.hub.seats }
        requires going { stand_at self.now.hub grant ≡ Going }
        requires fit { self.now.hub.broken ≡ false }
        ensures value { result ≡ view_wants (view_at self.now.hub grant).session }
        ensures some { 1 ≤ result }
    {
        self.seats.want(grant)
    }

    /// The replies that the peer of a grant's session was not yet given; also those of a session that ended.
    pub fn reply(&self, grant: usize) -> &[u8]
        requires { grant < length self.now.hub.seats }
        ensures { result.now ≡ reply_at self.now.hub grant }
    {
        self.seats.reply(grant)
    }

    /// The peer was given the first `count` bytes of the reply.
    pub fn gave(&mut self, grant: usize, count: usize)
        requires grant { grant < length self.old.hub.seats }
        requires count { count ≤ length (reply_at self.old.hub grant) }
        ensures value { self.new ≡ record self.old { hub = with_reply grant (drop count (reply_at self.old.hub grant)) self.old.hub } }
        ensures stands { (setting : Setting) (given : ℕ → List ℕ) (chain : Option ChainState) (play : Play) → StandsOn setting self.old.hub given chain play
            → StandsOn setting self.new.hub (with_given grant (given grant ++ take count (reply_at self.old.hub grant)) given) chain play }
    {
        self.seats.gave(grant, count);
    }

    /// Throws the reply of a grant's session away.
    pub fn drop_reply(&mut self, grant: usize)
        requires { grant < length self.old.hub.seats }
        ensures value { self.new ≡ record self.old { hub = with_reply grant [] self.old.hub } }
        ensures stands { (setting : Setting) (given : ℕ → List ℕ) (chain : Option ChainState) (play : Play) → StandsOn setting self.old.hub given chain play
            → StandsOn setting self.new.hub (with_given grant (given grant ++ reply_at self.old.hub grant) given) chain play }
    {
        self.seats.drop_reply(grant);
    }

    /// Whether a grant's session is ready to be served.
    pub fn is_ready(&self, grant: usize) -> bool
        requires { grant < length self.now.hub.seats }
        ensures { result ≡ slice_index_or self.now.hub.ready grant false }
    {
        self.seats.is_ready(grant)
    }

    /// Says whether a grant's session is ready to be served.
    pub fn set_ready(&mut self, grant: usize, ready: bool)
        requires { grant < length self.old.hub.seats }
        ensures { self.new ≡ record self.old { hub = record self.old.hub { ready = slice_set self.old.hub.ready grant ready } } }
    {
        self.seats.set_ready(grant, ready);
    }

    /// A connection opened at a grant whose session is free: the session of that connection begins, and is ready.
    pub fn open(&mut self, grant: usize, conn: u64)
        requires grant { grant < length self.old.hub.seats }
        requires fit { self.old.hub.broken ≡ false }
        requires free { stand_at self.old.hub grant ≡ Free }
        requires given { reply_at self.old.hub grant ≡ [] }
        requires ended { self.old.hub.ended ≡ [] }
        ensures going { (stand_at self.new.hub grant ≡ Going) × (reply_at self.new.hub grant ≡ []) × ((view_at self.new.hub grant).conn ≡ conn) }
        ensures kept { self.new ≡ record self.old { hub = record self.old.hub { seats = slice_set self.old.hub.seats grant (view_at self.new.hub grant); ready = slice_set self.old.hub.ready grant true } } }
        ensures opened { (setting : Setting) (given : ℕ → List ℕ) (chain : Option ChainState) (play : Play) → StandsOn setting self.old.hub given chain play
            → FollowsOpening setting self.old.hub self.new.hub given chain play grant conn }
    {
        self.seats.open(grant, conn);
    }

    /// A grant's session took these bytes, as many as it wants at most, with its replies given: it goes on as its private chain does, until
    /// nothing is left to do, it waits for the shared chain, or it ends. Then, while nobody holds the chain, the first that waits goes on in the
    /// same way. Each session that the chain was handed on to is ready then, and none that ended is.
    ///
    /// The error comes only where the cable's count of faults rose in the call. The replies are then a front of the private ones.
    pub fn took(&mut self, grant: usize, piece: &[u8]) -> Result<(), CableFailed>
        requires grant { grant < length self.old.hub.seats }
        requires fit { self.old.hub.broken ≡ false }
        requires going { stand_at self.old.hub grant ≡ Going }
        requires given { reply_at self.old.hub grant ≡ [] }
        requires some { 1 ≤ length piece.now }
        requires wanted { length piece.now ≤ view_wants (view_at self.old.hub grant).session }
        ensures kept { KeepsTable self.old.hub self.new.hub }
        ensures follows { OnOk result (FollowsPlays self.old.hub self.new.hub (C.chain self.old.cable) (C.chain self.new.cable) (λ play. record { grant = grant; seat = received piece.now (seat_at play grant) })) }
        ensures failed { OnErr result (RepliesFronts self.old.hub self.new.hub (C.chain self.old.cable) (λ play. record { grant = grant; seat = received piece.now (seat_at play grant) })) }
        ensures went { OnOk result (WentOn grant false self.old.hub self.new.hub) }
        ensures fit { OnOk result (self.new.hub.broken ≡ false) }
        ensures broken { OnErr result (self.new.hub.broken ≡ true) }
        ensures mark { C.mark self.new.cable ≡ C.mark self.old.cable }
        ensures trst { C.trst self.new.cable ≡ C.trst self.old.cable }
        ensures cause { HasCause (C.fault_count self.old.cable) (C.fault_count self.new.cable) result }
    {
        match mem::replace(&mut self.slot, Slot::Out) {
            Slot::Free(desk) => {
                let taken = self.seats.took(grant, piece, desk);
                settle(&mut self.slot, taken)
            }
            Slot::Broken(_broken) => unreachable!(),
            Slot::Out => unreachable!(),
        }
    }

    /// The peer of a grant's session is gone: the session ends, or where it waits for the chain it is leaving. Then the chain is handed on as in
    /// `took`. Where the grant is first in line of a chain that nobody holds, nothing happens; over a cable that tells its chain, this never is so.
    ///
    /// The error comes only where the cable's count of faults rose in the call. The replies are then a front of the private ones.
    pub fn peer_gone(&mut self, grant: usize) -> Result<(), CableFailed>
        requires grant { grant < length self.old.hub.seats }
        requires fit { self.old.hub.broken ≡ false }
        requires here { is_here (stand_at self.old.hub grant) ≡ true }
        ensures kept { KeepsTable self.old.hub self.new.hub }
        ensures follows { OnOk result (FollowsPlays self.old.hub self.new.hub (C.chain self.old.cable) (C.chain self.new.cable) (λ play. record { grant = grant; seat = record (seat_at play grant) { gone = true } })) }
        ensures failed { OnErr result (RepliesFronts self.old.hub self.new.hub (C.chain self.old.cable) (λ play. record { grant = grant; seat = record (seat_at play grant) { gone = true } })) }
        ensures went { next_in_line self.old.hub.holder self.old.hub.waiting ≢ Some grant → OnOk result (WentOn grant true self.old.hub self.new.hub) }
        ensures fit { OnOk result (self.new.hub.broken ≡ false) }
        ensures broken { OnErr result (self.new.hub.broken ≡ true) }
        ensures mark { C.mark self.new.cable ≡ C.mark self.old.cable }
        ensures trst { C.trst self.new.cable ≡ C.trst self.old.cable }
        ensures cause { HasCause (C.fault_count self.old.cable) (C.fault_count self.new.cable) result }
    {
        match mem::replace(&mut self.slot, Slot::Out) {
            Slot::Free(desk) => {
                let gone = self.seats.peer_gone(grant, desk);
                settle(&mut self.slot, gone)
            }
            Slot::Broken(_broken) => unreachable!(),
            Slot::Out => unreachable!(),
        }
    }

    /// Hands the cable back as it stands; an open scan stays open.
    pub fn finish(self) -> C
        ensures { result ≡ self.cable }
    {
        let SessionTable { seats: _, slot } = self;
        match slot {
            Slot::Free(desk) => leave(desk),
            Slot::Broken(broken) => broken.into_cable(),
            Slot::Out => unreachable!(),
        }
    }
}

// Puts the desk back, or what is left of it.
fn settle<C: Cable>(slot: &mut Slot<C>, desk: Result<Desk<C>, Broken<C>>) -> Result<(), CableFailed>
    requires { is_out slot.old ≡ true }
    ensures { Settles desk slot.new result }
{
    match desk {
        Ok(desk) => {
            put(slot, Slot::Free(desk));
            Ok(())
        }
        Err(broken) => {
            put(slot, Slot::Broken(broken));
            Err(CableFailed {})
        }
    }
}

// Puts into an empty slot.
fn put<C: Cable>(slot: &mut Slot<C>, next: Slot<C>)
    requires { is_out slot.old ≡ true }
    ensures { slot.new ≡ next }
{
    match mem::replace(slot, next) {
        Slot::Out => (),
        Slot::Free(_desk) => unreachable!(),
        Slot::Broken(_broken) => unreachable!(),
    }
}
