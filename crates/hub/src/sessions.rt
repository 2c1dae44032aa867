// The sessions of all grants, served over a wire.
ghost use Rattle.std.specs.Prelude.{◌≡◌, ◌≢◌, ◌<◌, ◌+◌, ◌==◌, ℕ, [], ◌∷◌, true, false, not, length, drop, slice_set, OnOk, OnErr};
ghost use Rattle.std.specs.List.{list_any};
ghost use Rattle.std.specs.declared.option.Option.{Option};
ghost use Rattle.std.specs.declared.option.Option.TheVariants.{None, Some};
ghost use Rattle.base_types.specs.Counts.{HasCause};
ghost use Rattle.base_types.specs.Tellings.{Told, Both};
ghost use Rattle.client_session.specs.declared.Stand.TheVariants.{Free, Going};
ghost use Rattle.client_session.specs.Sessions.{is_here};
ghost use Rattle.plays.specs.Outcomes.{SeatsOpen};
ghost use Rattle.session_table.specs.Shown.{session_end};
ghost use Rattle.session_table.specs.Tables.{stand_at, view_at};
ghost use Rattle.wire_port.specs.declared.wire.Found.TheVariants.{Opened};
ghost use Rattle.grant_table.specs.Layouts.{first_place};
ghost use Rattle.hub.specs.Standing.{KeepsPlay, FollowsEvent, FoundNow, StandsOnBut, EndsFollow, KeepsEnds};
ghost use Rattle.wire_port.specs.Wires.{WireView};
ghost use Rattle.wire_port.specs.Calls.{IsWire};
ghost use Rattle.plays.specs.Plays.{Setting};
ghost use Rattle.grant_table.specs.Layouts.{grant_of};
ghost use Rattle.hub.specs.Served.{HasBegun, OpensIn, OpensNow, ShutsAfter, ShutsFor, admitted_at, serves_conn, AreWhole, AreCalm, ConnsAreOpen, KeepsMade, OnlyOpened};
ghost use Rattle.hub.specs.Resting.{Rests, RestsBut, names};
ghost use Rattle.hub.specs.Rounds.{ServesNext, ServesReady};

use crate::HubFault;
use chain_model::Cable;
use client_session::{End, Stand};
use session_table::{Ended, SessionTable};
use wire_port::{Conn, Found, Given, Taken, Wire};

/// The sessions, and for each grant whether the peer of its last session is gone.
pub struct Sessions<C: Cable> {
    pub table: SessionTable<C>,
    pub gone: Vec<bool>,
}

impl<C: Cable> Sessions<C> {
    // Whether a grant's session is open and its peer is there.
    pub fn is_here(&self, grant: usize) -> bool
        requires { grant < length self.now.table.hub.seats }
        ensures { result ≡ is_here (stand_at self.now.table.hub grant) }
    {
        match self.table.seat(grant) {
            Some((_, stand)) => matches!(stand, Stand::Going | Stand::Waits),
            None => false,
        }
    }

    // Whether a grant's session is open and does not wait.
    pub fn is_going(&self, grant: usize) -> bool
        requires { grant < length self.now.table.hub.seats }
        ensures yes { result ≡ true → stand_at self.now.table.hub grant ≡ Going }
        ensures no { result ≡ false → stand_at self.now.table.hub grant ≢ Going }
    {
        match self.table.seat(grant) {
            Some((_, stand)) => matches!(stand, Stand::Going),
            None => false,
        }
    }

    // How many sessions ended since the list was emptied.
    pub fn ended_count(&self) -> usize
        ensures { result ≡ length self.now.table.hub.ended }
    {
        self.table.ended().len()
    }

    // The session that ended at a place of the list.
    #[tactic(auto, using(crate::proofs::SeatLists::ended_next))]
    pub fn ended_at(&self, at: usize) -> Ended
        requires { at < length self.now.table.hub.ended }
        ensures { drop at self.now.table.hub.ended ≡ session_end result ∷ drop (at + 1) self.now.table.hub.ended }
    {
        self.table.ended()[at]
    }

    // A grant's session is served once, where it is ready.
    #[tactic(auto, using(crate::proofs::Resting::comes_rests_ok, crate::proofs::Resting::rests_none))]
    fn serve_ready<W: Wire>(
        &mut self,
        wire: &mut W,
        grant: usize,
        buffer: &mut [u8],
    ) -> Result<(), HubFault>
        requires whole { AreWhole self.old.table.hub self.old.gone.items }
        requires calm { AreCalm self.old.table.hub self.old.gone.items }
        requires conns { Told (W.told wire.old) (ConnsAreOpen self.old.table.hub self.old.gone.items []) }
        requires grant { grant < length self.old.table.hub.seats }
        requires some { 0 < length buffer.old }
        ensures whole { AreWhole self.new.table.hub self.new.gone.items }
        ensures made { KeepsMade self.old.table.hub self.new.table.hub }
        ensures calm { OnOk result (AreCalm self.new.table.hub self.new.gone.items) }
        ensures broken { OnErr result (self.new.table.hub.broken ≡ true) }
        ensures conns { OnOk result (Told (W.told wire.new) (ConnsAreOpen self.new.table.hub self.new.gone.items [])) }
        ensures door { W.door wire.new ≡ W.door wire.old }
        ensures faults { W.fault_count wire.new ≡ W.fault_count wire.old }
        ensures mark { C.mark self.new.table.cable ≡ C.mark self.old.table.cable }
        ensures trst { C.trst self.new.table.cable ≡ C.trst self.old.table.cable }
        ensures cause { HasCause (C.fault_count self.old.table.cable) (C.fault_count self.new.table.cable) result }
        ensures shuts { OnOk result (Both (W.told wire.old) (W.told wire.new) (ShutsFor self.old.table.hub.ended self.new.table.hub.ended)) }
        ensures known { OnOk result (Both (W.told wire.old) (W.told wire.new) OnlyOpened) }
        ensures rests { OnOk result (Both (W.told wire.old) (W.told wire.new) (λ before now. Rests self.old.table.hub before → Rests self.new.table.hub now)) }
        ensures serves { OnOk result (Both (W.told wire.old) (W.told wire.new) (ServesNext grant self.old.table.hub self.new.table.hub)) }
        ensures stands { OnOk result (KeepsPlay self.old.table.hub self.new.table.hub (C.chain self.old.table.cable) (C.chain self.new.table.cable) (W.told wire.old) (W.told wire.new)) }
        ensures ends { OnOk result (KeepsEnds self.old.table.hub self.new.table.hub (C.chain self.old.table.cable) (W.told wire.old) (W.told wire.new)) }
    {
        if self.table.is_ready(grant) {
            return self.serve(wire, grant, buffer);
        }
        Ok(())
    }

    // Each session is served once that is ready when its turn comes, in the order of grants.
    #[tactic(auto, using(crate::proofs::Shutting::shuts_none, crate::proofs::Shutting::shuts_then, crate::proofs::OnTheWire::known_same, crate::proofs::OnTheWire::known_then, crate::proofs::Resting::rests_none, crate::proofs::Rounds::below_none))]
    fn rest<W: Wire>(&mut self, wire: &mut W, buffer: &mut [u8]) -> Result<(), HubFault>
        requires whole { AreWhole self.old.table.hub self.old.gone.items }
        requires calm { AreCalm self.old.table.hub self.old.gone.items }
        requires conns { Told (W.told wire.old) (ConnsAreOpen self.old.table.hub self.old.gone.items []) }
        requires some { 0 < length buffer.old }
        ensures whole { AreWhole self.new.table.hub self.new.gone.items }
        ensures made { KeepsMade self.old.table.hub self.new.table.hub }
        ensures calm { OnOk result (AreCalm self.new.table.hub self.new.gone.items) }
        ensures broken { OnErr result (self.new.table.hub.broken ≡ true) }
        ensures conns { OnOk result (Told (W.told wire.new) (ConnsAreOpen self.new.table.hub self.new.gone.items [])) }
        ensures door { W.door wire.new ≡ W.door wire.old }
        ensures faults { W.fault_count wire.new ≡ W.fault_count wire.old }
        ensures mark { C.mark self.new.table.cable ≡ C.mark self.old.table.cable }
        ensures trst { C.trst self.new.table.cable ≡ C.trst self.old.table.cable }
        ensures cause { HasCause (C.fault_count self.old.table.cable) (C.fault_count self.new.table.cable) result }
        ensures shuts { OnOk result (Both (W.told wire.old) (W.told wire.new) (ShutsFor self.old.table.hub.ended self.new.table.hub.ended)) }
        ensures known { OnOk result (Both (W.told wire.old) (W.told wire.new) OnlyOpened) }
        ensures rests { OnOk result (Both (W.told wire.old) (W.told wire.new) (λ before now. Rests self.old.table.hub before → Rests self.new.table.hub now)) }
        ensures serves { OnOk result (Both (W.told wire.old) (W.told wire.new) (ServesReady self.old.table.hub self.new.table.hub)) }
        ensures stands { OnOk result (KeepsPlay self.old.table.hub self.new.table.hub (C.chain self.old.table.cable) (C.chain self.new.table.cable) (W.told wire.old) (W.told wire.new)) }
        ensures ends { OnOk result (KeepsEnds self.old.table.hub self.new.table.hub (C.chain self.old.table.cable) (W.told wire.old) (W.told wire.new)) }
    {
        for grant in 0..self.table.layout().grants() {
            self.serve_ready(wire, grant, buffer)?;
        }
        Ok(())
    }

    // Whether a grant's open session has the connection.
    fn has_conn(&self, grant: usize, conn: Conn) -> bool
        requires { grant < length self.now.table.hub.seats }
        ensures { result ≡ serves_conn conn (view_at self.now.table.hub grant) }
    {
        match self.table.seat(grant) {
            Some((other, _)) => other == conn,
            None => false,
        }
    }

    // The grant whose open session has the connection.
    #[tactic(auto, using(crate::proofs::Places::place_found, crate::proofs::Places::place_more, crate::proofs::Places::place_none))]
    fn grant_with(&self, conn: Conn) -> Option<usize>
        requires { AreWhole self.now.table.hub self.now.gone.items }
        ensures { result ≡ first_place (serves_conn conn) self.now.table.hub.seats }
    {
        for grant in 0..self.gone.len() {
            if self.has_conn(grant, conn) {
                return Some(grant);
            }
        }
        None
    }

    /// The open session of a connection is served once, where there is one.
    #[tactic(auto, using(crate::proofs::Places::place_below))]
    pub fn serve_conn<W: Wire>(
        &mut self,
        wire: &mut W,
        conn: Conn,
        buffer: &mut [u8],
    ) -> Result<(), HubFault>
        requires whole { AreWhole self.old.table.hub self.old.gone.items }
        requires calm { AreCalm self.old.table.hub self.old.gone.items }
        requires conns { Told (W.told wire.old) (ConnsAreOpen self.old.table.hub self.old.gone.items []) }
        requires some { 0 < length buffer.old }
        ensures whole { AreWhole self.new.table.hub self.new.gone.items }
        ensures made { KeepsMade self.old.table.hub self.new.table.hub }
        ensures calm { OnOk result (AreCalm self.new.table.hub self.new.gone.items) }
        ensures broken { OnErr result (self.new.table.hub.broken ≡ true) }
        ensures conns { OnOk result (Told (W.told wire.new) (ConnsAreOpen self.new.table.hub self.new.gone.items [])) }
        ensures door { W.door wire.new ≡ W.door wire.old }
        ensures faults { W.fault_count wire.new ≡ W.fault_count wire.old }
        ensures mark { C.mark self.new.table.cable ≡ C.mark self.old.table.cable }
        ensures trst { C.trst self.new.table.cable ≡ C.trst self.old.table.cable }
        ensures cause { HasCause (C.fault_count self.old.table.cable) (C.fault_count self.new.table.cable) result }
        ensures shuts { OnOk result (Both (W.told wire.old) (W.told wire.new) (ShutsFor self.old.table.hub.ended self.new.table.hub.ended)) }
        ensures known { OnOk result (Both (W.told wire.old) (W.told wire.new) OnlyOpened) }
        ensures rests { OnOk result (Both (W.told wire.old) (W.told wire.new) (λ before now. RestsBut (λ other. conn == other) self.old.table.hub before → Rests self.new.table.hub now)) }
        ensures stands { OnOk result (KeepsPlay self.old.table.hub self.new.table.hub (C.chain self.old.table.cable) (C.chain self.new.table.cable) (W.told wire.old) (W.told wire.new)) }
        ensures ends { OnOk result (KeepsEnds self.old.table.hub self.new.table.hub (C.chain self.old.table.cable) (W.told wire.old) (W.told wire.new)) }
    {
        match self.grant_with(conn) {
            Some(grant) => self.serve(wire, grant, buffer),
            None => Ok(()),
        }
    }

    // The grant that has the port, where its session is free.
    #[tactic(auto, using(crate::proofs::Places::granted_below))]
    fn free_grant(&self, port: u16) -> Option<usize>
        requires { AreWhole self.now.table.hub self.now.gone.items }
        ensures { result ≡ admitted_at self.now.table.hub port }
    {
        let grant = self.table.layout().grant_of(port)?;
        if self.table.seat(grant).is_some() {
            return None;
        }
        Some(grant)
    }

    // A session begins at a grant that is free.
    fn begin(&mut self, grant: usize, conn: Conn)
        requires whole { AreWhole self.old.table.hub self.old.gone.items }
        requires calm { AreCalm self.old.table.hub self.old.gone.items }
        requires grant { grant < length self.old.table.hub.seats }
        requires free { stand_at self.old.table.hub grant ≡ Free }
        requires ended { self.old.table.hub.ended ≡ [] }
        ensures whole { AreWhole self.new.table.hub self.new.gone.items }
        ensures made { KeepsMade self.old.table.hub self.new.table.hub }
        ensures calm { AreCalm self.new.table.hub self.new.gone.items }
        ensures begun { HasBegun grant conn self.old.table.hub self.new.table.hub }
        ensures ready { self.new.table.hub.ready ≡ slice_set self.old.table.hub.ready grant true }
        ensures gone { self.new.gone.items ≡ slice_set self.old.gone.items grant false }
        ensures cable { self.new.table.cable ≡ self.old.table.cable }
        ensures ended { self.new.table.hub.ended ≡ self.old.table.hub.ended }
        ensures stands { (port : ℕ) (wire : Option WireView) → Told wire IsWire → grant_of self.old.table.hub.layout port ≡ Some grant → FollowsEvent (FoundNow (Opened conn port)) self.old.table.hub self.new.table.hub (C.chain self.old.table.cable) (C.chain self.new.table.cable) wire wire }
        ensures ends { (port : ℕ) (wire : Option WireView) → Told wire IsWire → grant_of self.old.table.hub.layout port ≡ Some grant → (before : Option WireView) → FoundNow (Opened conn port) before wire → KeepsEnds self.old.table.hub self.new.table.hub (C.chain self.old.table.cable) before wire }
    {
        self.gone[grant] = false;
        self.table.open(grant, conn);
    }

    /// A connection opened at a port: it is admitted where the port's grant has a free session, and shut otherwise.
    pub fn admit<W: Wire>(&mut self, wire: &mut W, conn: Conn, port: u16)
        requires whole { AreWhole self.old.table.hub self.old.gone.items }
        requires calm { AreCalm self.old.table.hub self.old.gone.items }
        requires conns { Told (W.told wire.old) (ConnsAreOpen self.old.table.hub self.old.gone.items []) }
        requires ended { self.old.table.hub.ended ≡ [] }
        requires opens { Told (W.told wire.old) (OpensNow conn port self.old.table.hub) }
        ensures whole { AreWhole self.new.table.hub self.new.gone.items }
        ensures made { KeepsMade self.old.table.hub self.new.table.hub }
        ensures calm { AreCalm self.new.table.hub self.new.gone.items }
        ensures conns { Told (W.told wire.new) (ConnsAreOpen self.new.table.hub self.new.gone.items []) }
        ensures door { W.door wire.new ≡ W.door wire.old }
        ensures faults { W.fault_count wire.new ≡ W.fault_count wire.old }
        ensures cable { self.new.table.cable ≡ self.old.table.cable }
        ensures ended { self.new.table.hub.ended ≡ self.old.table.hub.ended }
        ensures shuts { Both (W.told wire.old) (W.told wire.new) (ShutsAfter (Opened conn port) self.old.table.hub []) }
        ensures known { Both (W.told wire.old) (W.told wire.new) OnlyOpened }
        ensures rests { Both (W.told wire.old) (W.told wire.new) (λ before now. RestsBut (names (Opened conn port)) self.old.table.hub before → Rests self.new.table.hub now) }
        ensures stands { FollowsEvent (FoundNow (Opened conn port)) self.old.table.hub self.new.table.hub (C.chain self.old.table.cable) (C.chain self.new.table.cable) (W.told wire.old) (W.told wire.new) }
        ensures ends { (before : Option WireView) → FoundNow (Opened conn port) before (W.told wire.old) → KeepsEnds self.old.table.hub self.new.table.hub (C.chain self.old.table.cable) before (W.told wire.new) }
    {
        match self.free_grant(port) {
            Some(grant) => self.begin(grant, conn),
            None => wire.shut(conn),
        }
    }

    // What was found is attended to.
    fn attend<W: Wire>(
        &mut self,
        wire: &mut W,
        found: Found,
        buffer: &mut [u8],
    ) -> Result<(), HubFault>
        requires whole { AreWhole self.old.table.hub self.old.gone.items }
        requires calm { AreCalm self.old.table.hub self.old.gone.items }
        requires conns { Told (W.told wire.old) (ConnsAreOpen self.old.table.hub self.old.gone.items []) }
        requires some { 0 < length buffer.old }
        requires ended { self.old.table.hub.ended ≡ [] }
        requires opens { Told (W.told wire.old) (OpensIn found self.old.table.hub) }
        ensures whole { AreWhole self.new.table.hub self.new.gone.items }
        ensures made { KeepsMade self.old.table.hub self.new.table.hub }
        ensures calm { OnOk result (AreCalm self.new.table.hub self.new.gone.items) }
        ensures broken { OnErr result (self.new.table.hub.broken ≡ true) }
        ensures conns { OnOk result (Told (W.told wire.new) (ConnsAreOpen self.new.table.hub self.new.gone.items [])) }
        ensures door { W.door wire.new ≡ W.door wire.old }
        ensures faults { W.fault_count wire.new ≡ W.fault_count wire.old }
        ensures mark { C.mark self.new.table.cable ≡ C.mark self.old.table.cable }
        ensures trst { C.trst self.new.table.cable ≡ C.trst self.old.table.cable }
        ensures cause { HasCause (C.fault_count self.old.table.cable) (C.fault_count self.new.table.cable) result }
        ensures shuts { OnOk result (Both (W.told wire.old) (W.told wire.new) (ShutsAfter found self.old.table.hub self.new.table.hub.ended)) }
        ensures known { OnOk result (Both (W.told wire.old) (W.told wire.new) OnlyOpened) }
        ensures rests { OnOk result (Both (W.told wire.old) (W.told wire.new) (λ before now. RestsBut (names found) self.old.table.hub before → Rests self.new.table.hub now)) }
        ensures stands { OnOk result (FollowsEvent (FoundNow found) self.old.table.hub self.new.table.hub (C.chain self.old.table.cable) (C.chain self.new.table.cable) (W.told wire.old) (W.told wire.new)) }
        ensures ends { OnOk result ((before : Option WireView) → FoundNow found before (W.told wire.old) → KeepsEnds self.old.table.hub self.new.table.hub (C.chain self.old.table.cable) before (W.told wire.new)) }
    {
        match found {
            Found::Opened(conn, port) => {
                self.admit(wire, conn, port);
                Ok(())
            }
            Found::Ready(conn) => self.serve_conn(wire, conn, buffer),
            Found::Room(conn) => self.serve_conn(wire, conn, buffer),
            Found::Nothing => Ok(()),
            Found::End => Ok(()),
        }
    }

    /// What was found is attended to: a connection that opened is admitted or shut, the session of one that is named is served once.
    #[tactic(auto, using(crate::proofs::Between::told_conns, crate::proofs::Between::told_seats))]
    pub fn turn<W: Wire>(
        &mut self,
        wire: &mut W,
        found: Found,
        buffer: &mut [u8],
    ) -> Result<(), HubFault>
        requires whole { AreWhole self.old.table.hub self.old.gone.items }
        requires calm { AreCalm self.old.table.hub self.old.gone.items }
        requires open { Told (W.told wire.old) (SeatsOpen self.old.table.hub) }
        requires some { 0 < length buffer.old }
        requires opens { Told (W.told wire.old) (OpensIn found self.old.table.hub) }
        ensures whole { AreWhole self.new.table.hub self.new.gone.items }
        ensures made { KeepsMade self.old.table.hub self.new.table.hub }
        ensures calm { OnOk result (AreCalm self.new.table.hub self.new.gone.items) }
        ensures broken { OnErr result (self.new.table.hub.broken ≡ true) }
        ensures open { OnOk result (Told (W.told wire.new) (SeatsOpen self.new.table.hub)) }
        ensures door { W.door wire.new ≡ W.door wire.old }
        ensures faults { W.fault_count wire.new ≡ W.fault_count wire.old }
        ensures mark { C.mark self.new.table.cable ≡ C.mark self.old.table.cable }
        ensures trst { C.trst self.new.table.cable ≡ C.trst self.old.table.cable }
        ensures cause { HasCause (C.fault_count self.old.table.cable) (C.fault_count self.new.table.cable) result }
        ensures shuts { OnOk result (Both (W.told wire.old) (W.told wire.new) (ShutsAfter found self.old.table.hub self.new.table.hub.ended)) }
        ensures known { OnOk result (Both (W.told wire.old) (W.told wire.new) OnlyOpened) }
        ensures rests { OnOk result (Both (W.told wire.old) (W.told wire.new) (λ before now. RestsBut (names found) self.old.table.hub before → Rests self.new.table.hub now)) }
        ensures stands { OnOk result (FollowsEvent (FoundNow found) self.old.table.hub self.new.table.hub (C.chain self.old.table.cable) (C.chain self.new.table.cable) (W.told wire.old) (W.told wire.new)) }
        ensures ends { OnOk result ((setting : Setting) (before : Option WireView) → FoundNow found before (W.told wire.old) → StandsOnBut setting [] self.old.table.hub (C.chain self.old.table.cable) before → EndsFollow setting before (W.told wire.new) self.new.table.hub.ended) }
    {
        self.table.forget_ended();
        self.attend(wire, found, buffer)
    }

    /// Each session is served once that is ready when its turn comes, in the order of grants.
    #[tactic(auto, using(crate::proofs::Between::told_conns, crate::proofs::Between::told_seats))]
    pub fn round<W: Wire>(&mut self, wire: &mut W, buffer: &mut [u8]) -> Result<(), HubFault>
        requires whole { AreWhole self.old.table.hub self.old.gone.items }
        requires calm { AreCalm self.old.table.hub self.old.gone.items }
        requires open { Told (W.told wire.old) (SeatsOpen self.old.table.hub) }
        requires some { 0 < length buffer.old }
        ensures whole { AreWhole self.new.table.hub self.new.gone.items }
        ensures made { KeepsMade self.old.table.hub self.new.table.hub }
        ensures calm { OnOk result (AreCalm self.new.table.hub self.new.gone.items) }
        ensures broken { OnErr result (self.new.table.hub.broken ≡ true) }
        ensures open { OnOk result (Told (W.told wire.new) (SeatsOpen self.new.table.hub)) }
        ensures door { W.door wire.new ≡ W.door wire.old }
        ensures faults { W.fault_count wire.new ≡ W.fault_count wire.old }
        ensures mark { C.mark self.new.table.cable ≡ C.mark self.old.table.cable }
        ensures trst { C.trst self.new.table.cable ≡ C.trst self.old.table.cable }
        ensures cause { HasCause (C.fault_count self.old.table.cable) (C.fault_count self.new.table.cable) result }
        ensures shuts { OnOk result (Both (W.told wire.old) (W.told wire.new) (ShutsFor [] self.new.table.hub.ended)) }
        ensures known { OnOk result (Both (W.told wire.old) (W.told wire.new) OnlyOpened) }
        ensures rests { OnOk result (Both (W.told wire.old) (W.told wire.new) (λ before now. Rests self.old.table.hub before → Rests self.new.table.hub now)) }
        ensures serves { OnOk result (Both (W.told wire.old) (W.told wire.new) (ServesReady self.old.table.hub self.new.table.hub)) }
        ensures stands { OnOk result (KeepsPlay self.old.table.hub self.new.table.hub (C.chain self.old.table.cable) (C.chain self.new.table.cable) (W.told wire.old) (W.told wire.new)) }
        ensures ends { OnOk result ((setting : Setting) → StandsOnBut setting [] self.old.table.hub (C.chain self.old.table.cable) (W.told wire.old) → EndsFollow setting (W.told wire.old) (W.told wire.new) self.new.table.hub.ended) }
    {
        self.table.forget_ended();
        self.rest(wire, buffer)
    }

    /// Whether no session is ready.
    pub fn none_ready(&self) -> bool
        requires { AreWhole self.now.table.hub self.now.gone.items }
        ensures { result ≡ not (list_any (λ ready. ready) self.now.table.hub.ready) }
    {
        for grant in 0..self.gone.len() {
            if self.table.is_ready(grant) {
                return false;
            }
        }
        true
    }

    /// The cable as it stands.
    pub fn finish(self) -> C
        ensures { result ≡ self.table.cable }
    {
        let Sessions { table, gone: _ } = self;
        table.finish()
    }
}
