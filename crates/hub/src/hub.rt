// A hub.
ghost use Rattle.std.specs.Prelude.{◌≡◌, ◌≤◌, ◌<◌, ℕ, [], true, false, not, length, map, if◌then◌else◌, IfOk, IfErr, OnOk, OnErr, Ok};
ghost use Rattle.std.specs.List.{list_any};
ghost use Rattle.std.specs.declared.option.Option.{Option};
ghost use Rattle.std.specs.declared.option.Option.TheVariants.{None, Some};
ghost use Rattle.base_types.specs.Counts.{HasCause};
ghost use Rattle.base_types.specs.Tellings.{Told, Both};
ghost use Rattle.scan_share.specs.Scans.{IsWhole};
ghost use Rattle.client_session.specs.declared.Stand.TheVariants.{Free};
ghost use Rattle.client_session.specs.Sessions.{is_taken};
ghost use Rattle.wire_port.specs.Calls.{is_end, IsWire};
ghost use Rattle.plays.specs.Plays.{Setting, start};
ghost use Rattle.plays.specs.Outcomes.{SeatsOpen};
ghost use Rattle.session_table.specs.Shown.{EachFew, FreshOn, session_end};
ghost use Rattle.session_table.specs.Tables.{StandsOn, stand_at, reply_at, view_at};
ghost use Rattle.wire_port.specs.Wires.{WireView};
ghost use Rattle.hub.specs.Resting.{Rests, RestsBut, names};
ghost use Rattle.hub.specs.Rounds.{ServesReady};
ghost use Rattle.hub.specs.Standing.{EndsFollow, HubStands, FoundNow};
ghost use Rattle.hub.specs.Served.{KeepsMade, OnlyOpened, OpensIn, ShutsAfter, ShutsFor};

use crate::HubFault;
use crate::sessions::Sessions;
use chain_model::Cable;
use client_session::Stand;
use grant_table::Layout;
use scan_share::Parked;
use session_table::{Ended, SessionTable};
use std::alloc::Global;
use std::marker::Model;
use wire_port::{Conn, Found, Wire};

/// The most bytes that are taken at once.
const BUFFER_SIZE: usize = 4096;

/// The sessions of all grants of a layout, one for each, served over a wire.
///
/// To serve a session once is this, in order. Its pending replies are given; where not all went, that is all. Where it waits for the chain,
/// that is all. Bytes are taken, as many as it wants and 4,096 at most; where none came, that is all. The session uses them, and the chain is
/// handed on to those that wait. Where the session has not ended, its replies are given. A peer that is found to be gone ends its session, or
/// makes it leave once it has the chain. A session that ended otherwise has one give of its replies, and its connection is shut.
/// Over a cable that does not tell its chain, a session that the chain is still to be handed on to is passed over; over one that tells it there is
/// none between two calls.
///
/// A session is ready after its opening, after a serving that took bytes, gave all replies and does not wait, and once the chain was handed on to
/// it. It is not ready after a serving that could not take or give all, or leaves it waiting, nor after its end.
///
/// Only `new` takes memory.
pub struct Hub<C: Cable> {
    sessions: Sessions<C>,
    buffer: Vec<u8>,
}

impl<C: Cable> Model for Hub<C> {
    ghost use Rattle.session_table.specs.Tables.{TableView};
    ghost use Rattle.hub.specs.Served.{IsHub};

    ghost Value = { TableView C };

    ghost view = { λ h. h.sessions.table };

    ghost invariant = { λ h. IsHub h.sessions.table.hub h.sessions.gone.items h.buffer.items };
}

impl<C: Cable> Hub<C> {
    /// A hub over a chain at rest, for a vector length of 1 to 65,536 bytes that is announced. All seats are free. The letters of TRST count where
    /// `uses_trst` is true, which needs a cable with TRST. The chain is made of the layout's devices and nets.
    ///
    /// The error hands the chain back. It comes only where memory is wanting.
    pub fn new(
        alloc: Global,
        layout: Layout,
        parked: Parked<C>,
        vector: u32,
        uses_trst: bool,
    ) -> Result<Hub<C>, Parked<C>>
        requires some { 1 ≤ vector }
        requires most { vector ≤ 65536 }
        requires trst { uses_trst ≡ true → C.trst parked.cable ≡ true }
        requires whole { Told (C.chain parked.cable) (IsWhole layout) }
        ensures made { IfOk result (λ new. (new.hub.layout ≡ layout) × (new.hub.vector ≡ vector) × (new.hub.uses_trst ≡ uses_trst)) }
        ensures seats { IfOk result (λ new. length new.hub.seats ≡ length layout.grants) }
        ensures free { IfOk result (λ new. (grant : ℕ) → (stand_at new.hub grant ≡ Free) × (reply_at new.hub grant ≡ [])) }
        ensures ready { IfOk result (λ new. new.hub.ready ≡ map (λ shape. false) layout.grants) }
        ensures none { IfOk result (λ new. (new.hub.holder ≡ None) × (new.hub.waiting ≡ []) × (new.hub.joins ≡ 0) × (new.hub.ended ≡ []) × (new.hub.broken ≡ false)) }
        ensures cable { IfOk result (λ new. new.cable ≡ parked.cable) }
        ensures stands { IfOk result (λ new. (setting : Setting) → FreshOn setting layout vector uses_trst (C.chain parked.cable) → StandsOn setting new.hub (λ grant. []) (C.chain parked.cable) (start setting)) }
        ensures begins { IfOk result (λ new. (setting : Setting) (wire : WireView) → FreshOn setting layout vector uses_trst (C.chain parked.cable) → IsWire wire → wire.steps ≡ [] → HubStands setting new.hub (C.chain new.cable) (Some wire)) }
        ensures back { IfErr result (λ back. back ≡ parked) }
    {
        let Ok(gone) = vec![in alloc; false; layout.grants()] else {
            return Err(parked);
        };
        let Ok(buffer) = vec![in alloc; 0; BUFFER_SIZE] else {
            return Err(parked);
        };
        match SessionTable::new(alloc, layout, parked, vector, uses_trst) {
            Ok(table) => Ok(Hub {
                sessions: Sessions { table, gone },
                buffer,
            }),
            Err(parked) => Err(parked),
        }
    }

    /// Admits or shuts a connection that opened, or serves the session of the connection that is named once. A name that no session has is
    /// passed over. `ended` then has the sessions that ended in this call.
    ///
    /// The error comes only where the cable's count of faults rose in the call; the hub is broken then.
    pub fn turn<W: Wire>(&mut self, wire: &mut W, found: Found) -> Result<(), HubFault>
        requires fit { self.old.hub.broken ≡ false }
        requires found { is_end (Ok found) ≡ false }
        requires opens { Told (W.told wire.old) (OpensIn found self.old.hub) }
        requires open { Told (W.told wire.old) (SeatsOpen self.old.hub) }
        ensures made { KeepsMade self.old.hub self.new.hub }
        ensures fit { OnOk result (self.new.hub.broken ≡ false) }
        ensures broken { OnErr result (self.new.hub.broken ≡ true) }
        ensures open { OnOk result (Told (W.told wire.new) (SeatsOpen self.new.hub)) }
        ensures shuts { OnOk result (Both (W.told wire.old) (W.told wire.new) (ShutsAfter found self.old.hub self.new.hub.ended)) }
        ensures known { OnOk result (Both (W.told wire.old) (W.told wire.new) OnlyOpened) }
        ensures rests { OnOk result (Both (W.told wire.old) (W.told wire.new) (λ before now. RestsBut (names found) self.old.hub before → Rests self.new.hub now)) }
        ensures stands { OnOk result ((setting : Setting) (before : Option WireView) → FoundNow found before (W.told wire.old) → HubStands setting self.old.hub (C.chain self.old.cable) before → HubStands setting self.new.hub (C.chain self.new.cable) (W.told wire.new)) }
        ensures ends { OnOk result ((setting : Setting) (before : Option WireView) → FoundNow found before (W.told wire.old) → HubStands setting self.old.hub (C.chain self.old.cable) before → EndsFollow setting before (W.told wire.new) self.new.hub.ended) }
        ensures door { W.door wire.new ≡ W.door wire.old }
        ensures faults { W.fault_count wire.new ≡ W.fault_count wire.old }
        ensures mark { C.mark self.new.cable ≡ C.mark self.old.cable }
        ensures trst { C.trst self.new.cable ≡ C.trst self.old.cable }
        ensures cause { HasCause (C.fault_count self.old.cable) (C.fault_count self.new.cable) result }
    {
        self.sessions.turn(wire, found, &mut self.buffer)
    }

    /// Serves each session once that is ready when its turn comes, in the order of grants: then bytes were taken from its connection, or it has
    /// nothing more to do now. `ended` then has the sessions that ended in this call.
    ///
    /// The error comes only where the cable's count of faults rose in the call; the hub is broken then.
    pub fn rest<W: Wire>(&mut self, wire: &mut W) -> Result<(), HubFault>
        requires fit { self.old.hub.broken ≡ false }
        requires open { Told (W.told wire.old) (SeatsOpen self.old.hub) }
        ensures made { KeepsMade self.old.hub self.new.hub }
        ensures fit { OnOk result (self.new.hub.broken ≡ false) }
        ensures broken { OnErr result (self.new.hub.broken ≡ true) }
        ensures open { OnOk result (Told (W.told wire.new) (SeatsOpen self.new.hub)) }
        ensures shuts { OnOk result (Both (W.told wire.old) (W.told wire.new) (ShutsFor [] self.new.hub.ended)) }
        ensures known { OnOk result (Both (W.told wire.old) (W.told wire.new) OnlyOpened) }
        ensures rests { OnOk result (Both (W.told wire.old) (W.told wire.new) (λ before now. Rests self.old.hub before → Rests self.new.hub now)) }
        ensures serves { OnOk result (Both (W.told wire.old) (W.told wire.new) (ServesReady self.old.hub self.new.hub)) }
        ensures stands { OnOk result ((setting : Setting) → HubStands setting self.old.hub (C.chain self.old.cable) (W.told wire.old) → HubStands setting self.new.hub (C.chain self.new.cable) (W.told wire.new)) }
        ensures ends { OnOk result ((setting : Setting) → HubStands setting self.old.hub (C.chain self.old.cable) (W.told wire.old) → EndsFollow setting (W.told wire.old) (W.told wire.new) self.new.hub.ended) }
        ensures door { W.door wire.new ≡ W.door wire.old }
        ensures faults { W.fault_count wire.new ≡ W.fault_count wire.old }
        ensures mark { C.mark self.new.cable ≡ C.mark self.old.cable }
        ensures trst { C.trst self.new.cable ≡ C.trst self.old.cable }
        ensures cause { HasCause (C.fault_count self.old.cable) (C.fault_count self.new.cable) result }
    {
        self.sessions.round(wire, &mut self.buffer)
    }

    /// Whether no session is ready.
    pub fn idle(&self) -> bool
        ensures { result ≡ not (list_any (λ ready. ready) self.now.hub.ready) }
    {
        self.sessions.none_ready()
    }

    /// Whether the cable failed.
    pub fn broken(&self) -> bool
        ensures { result ≡ self.now.hub.broken }
    {
        self.sessions.table.broken()
    }

    /// How often a session began to wait for the chain; the count stays at the last value of `u64` once that is reached.
    pub fn waits(&self) -> u64
        ensures { result ≡ self.now.hub.joins }
    {
        self.sessions.table.waits()
    }

    /// The sessions that ended in the last `turn` or `rest`, in order.
    pub fn ended(&self) -> &[Ended]
        ensures are { map session_end result.now ≡ self.now.hub.ended }
        ensures few { self.now.hub.broken ≡ false → EachFew result.now }
    {
        self.sessions.table.ended()
    }

    /// The connection of a grant's session and how it stands; none where the seat is free.
    pub fn seat(&self, grant: usize) -> Option<(Conn, Stand)>
        requires { grant < length self.now.hub.layout.grants }
        ensures { result ≡ (if is_taken (stand_at self.now.hub grant) then Some ((view_at self.now.hub grant).conn, stand_at self.now.hub grant) else None) }
    {
        self.sessions.table.seat(grant)
    }

    /// The layout that `new` was given.
    pub fn layout(&self) -> &Layout
        ensures { result.now ≡ self.now.hub.layout }
    {
        self.sessions.table.layout()
    }

    /// Hands the cable back as it stands; an open scan stays open.
    pub fn finish(self) -> C
        ensures { result ≡ self.cable }
    {
        let Hub {
            sessions,
            buffer: _,
        } = self;
        sessions.finish()
    }
}
