// One session is served once.
ghost use Rattle.std.specs.Prelude.{◌≡◌, ◌≢◌, ◌≤◌, ◌<◌, ℕ, [], true, false, not, length, take, slice_set, IfOk, OnOk, OnErr};
ghost use Rattle.std.specs.List.{slice_index_or};
ghost use Rattle.std.specs.declared.option.Option.{Option};
ghost use Rattle.std.specs.declared.option.Option.TheVariants.{Some};
ghost use Rattle.base_types.specs.Counts.{HasCause};
ghost use Rattle.base_types.specs.Tellings.{Told, Both};
ghost use Rattle.client_session.specs.declared.Stand.TheVariants.{Going};
ghost use Rattle.client_session.specs.Sessions.{is_here, is_leaving, is_taken, view_wants};
ghost use Rattle.session_table.specs.Tables.{stand_at, reply_at, view_at};
ghost use Rattle.hub.specs.Standing.{KeepsPlay, FollowsEvent, TookNow, GoneNow, KeepsEnds};
ghost use Rattle.wire_port.specs.Wires.{WireView};
ghost use Rattle.wire_port.specs.Offers.{Answer};
ghost use Rattle.wire_port.specs.Calls.{after_give};
ghost use Rattle.hub.specs.Served.{ShutsFor, AreWhole, AreCalm, ConnsAreOpen, KeepsMade, OnlyOpened, SameSessions, conn_at, is_gone, next_of};
ghost use Rattle.hub.specs.Resting.{ComesToRest, HasNoMore, OthersStay};
ghost use Rattle.hub.specs.Rounds.{HasDone, ServesOne};

use crate::HubFault;
use crate::sessions::Sessions;
use chain_model::Cable;
use wire_port::{Conn, Given, Taken, Wire};

impl<C: Cable> Sessions<C> {
    // The peer of a grant's session is gone, as its flag says by now.
    fn peer_gone<W: Wire>(&mut self, wire: &mut W, grant: usize) -> Result<(), HubFault>
        requires whole { AreWhole self.old.table.hub self.old.gone.items }
        requires grant { grant < length self.old.table.hub.seats }
        requires rests { next_of self.old.table.hub ≢ Some grant }
        requires fit { self.old.table.hub.broken ≡ false }
        requires here { is_here (stand_at self.old.table.hub grant) ≡ true }
        requires own { is_gone self.old.gone.items grant ≡ true }
        requires others { (other : ℕ) → other ≢ grant → is_taken (stand_at self.old.table.hub other) ≡ true → is_leaving (stand_at self.old.table.hub other) ≡ is_gone self.old.gone.items other }
        requires conns { Told (W.told wire.old) (ConnsAreOpen self.old.table.hub self.old.gone.items []) }
        ensures whole { AreWhole self.new.table.hub self.new.gone.items }
        ensures made { KeepsMade self.old.table.hub self.new.table.hub }
        ensures calm { OnOk result (AreCalm self.new.table.hub self.new.gone.items) }
        ensures broken { OnErr result (self.new.table.hub.broken ≡ true) }
        ensures conns { OnOk result (Told (W.told wire.new) (ConnsAreOpen self.new.table.hub self.new.gone.items [])) }
        ensures door { W.door wire.new ≡ W.door wire.old }
        ensures faults { W.fault_count wire.new ≡ W.fault_count wire.old }
        ensures mark { C.mark self.new.table.cable ≡ C.mark self.old.table.cable }
        ensures trst { C.trst self.new.table.cable ≡ C.trst self.old.table.cable }
        ensures cause { HasCause (C.fault_count self.old.table.cable) (C.fault_count self.new.table.cable) result }
        ensures shuts { OnOk result (Both (W.told wire.old) (W.told wire.new) (ShutsFor self.old.table.hub.ended self.new.table.hub.ended)) }
        ensures known { OnOk result (Both (W.told wire.old) (W.told wire.new) OnlyOpened) }
        ensures others { OnOk result (Both (W.told wire.old) (W.told wire.new) (OthersStay grant self.old.table.hub self.new.table.hub)) }
        ensures away { OnOk result (is_here (stand_at self.new.table.hub grant) ≡ false) }
        ensures stands { OnOk result (FollowsEvent (GoneNow (conn_at self.old.table.hub grant)) self.old.table.hub self.new.table.hub (C.chain self.old.table.cable) (C.chain self.new.table.cable) (W.told wire.old) (W.told wire.new)) }
        ensures ends { OnOk result ((before : Option WireView) → GoneNow (conn_at self.old.table.hub grant) before (W.told wire.old) → KeepsEnds self.old.table.hub self.new.table.hub (C.chain self.old.table.cable) before (W.told wire.new)) }
    {
        let earlier = self.ended_count();
        self.table.peer_gone(grant)?;
        self.settle(wire, earlier);
        self.table.set_ready(grant, false);
        Ok(())
    }

    // A grant's session takes bytes.
    fn took<W: Wire>(&mut self, wire: &mut W, grant: usize, piece: &[u8]) -> Result<(), HubFault>
        requires whole { AreWhole self.old.table.hub self.old.gone.items }
        requires calm { AreCalm self.old.table.hub self.old.gone.items }
        requires grant { grant < length self.old.table.hub.seats }
        requires going { stand_at self.old.table.hub grant ≡ Going }
        requires given { reply_at self.old.table.hub grant ≡ [] }
        requires some { 1 ≤ length piece.now }
        requires wanted { length piece.now ≤ view_wants (view_at self.old.table.hub grant).session }
        requires conns { Told (W.told wire.old) (ConnsAreOpen self.old.table.hub self.old.gone.items []) }
        ensures whole { AreWhole self.new.table.hub self.new.gone.items }
        ensures made { KeepsMade self.old.table.hub self.new.table.hub }
        ensures calm { OnOk result (AreCalm self.new.table.hub self.new.gone.items) }
        ensures broken { OnErr result (self.new.table.hub.broken ≡ true) }
        ensures conns { OnOk result (Told (W.told wire.new) (ConnsAreOpen self.new.table.hub self.new.gone.items [])) }
        ensures door { W.door wire.new ≡ W.door wire.old }
        ensures faults { W.fault_count wire.new ≡ W.fault_count wire.old }
        ensures mark { C.mark self.new.table.cable ≡ C.mark self.old.table.cable }
        ensures trst { C.trst self.new.table.cable ≡ C.trst self.old.table.cable }
        ensures cause { HasCause (C.fault_count self.old.table.cable) (C.fault_count self.new.table.cable) result }
        ensures shuts { OnOk result (Both (W.told wire.old) (W.told wire.new) (ShutsFor self.old.table.hub.ended self.new.table.hub.ended)) }
        ensures known { OnOk result (Both (W.told wire.old) (W.told wire.new) OnlyOpened) }
        ensures others { OnOk result (Both (W.told wire.old) (W.told wire.new) (OthersStay grant self.old.table.hub self.new.table.hub)) }
        ensures stands { OnOk result (FollowsEvent (TookNow (conn_at self.old.table.hub grant) piece.now) self.old.table.hub self.new.table.hub (C.chain self.old.table.cable) (C.chain self.new.table.cable) (W.told wire.old) (W.told wire.new)) }
        ensures ends { OnOk result ((before : Option WireView) → TookNow (conn_at self.old.table.hub grant) piece.now before (W.told wire.old) → KeepsEnds self.old.table.hub self.new.table.hub (C.chain self.old.table.cable) before (W.told wire.new)) }
    {
        let earlier = self.ended_count();
        self.table.took(grant, piece)?;
        self.settle(wire, earlier);
        Ok(())
    }

    // The peer of a grant's session is found to be gone.
    #[tactic(auto, using(crate::proofs::AfterCalls::flags_whole, crate::proofs::OnTheWire::flag_own, crate::proofs::OnTheWire::flag_other))]
    fn lose<W: Wire>(&mut self, wire: &mut W, grant: usize) -> Result<(), HubFault>
        requires whole { AreWhole self.old.table.hub self.old.gone.items }
        requires calm { AreCalm self.old.table.hub self.old.gone.items }
        requires grant { grant < length self.old.table.hub.seats }
        requires rests { next_of self.old.table.hub ≢ Some grant }
        requires here { is_here (stand_at self.old.table.hub grant) ≡ true }
        requires conns { Told (W.told wire.old) (ConnsAreOpen self.old.table.hub (slice_set self.old.gone.items grant true) []) }
        ensures whole { AreWhole self.new.table.hub self.new.gone.items }
        ensures made { KeepsMade self.old.table.hub self.new.table.hub }
        ensures calm { OnOk result (AreCalm self.new.table.hub self.new.gone.items) }
        ensures broken { OnErr result (self.new.table.hub.broken ≡ true) }
        ensures conns { OnOk result (Told (W.told wire.new) (ConnsAreOpen self.new.table.hub self.new.gone.items [])) }
        ensures door { W.door wire.new ≡ W.door wire.old }
        ensures faults { W.fault_count wire.new ≡ W.fault_count wire.old }
        ensures mark { C.mark self.new.table.cable ≡ C.mark self.old.table.cable }
        ensures trst { C.trst self.new.table.cable ≡ C.trst self.old.table.cable }
        ensures cause { HasCause (C.fault_count self.old.table.cable) (C.fault_count self.new.table.cable) result }
        ensures shuts { OnOk result (Both (W.told wire.old) (W.told wire.new) (ShutsFor self.old.table.hub.ended self.new.table.hub.ended)) }
        ensures known { OnOk result (Both (W.told wire.old) (W.told wire.new) OnlyOpened) }
        ensures others { OnOk result (Both (W.told wire.old) (W.told wire.new) (OthersStay grant self.old.table.hub self.new.table.hub)) }
        ensures away { OnOk result (is_here (stand_at self.new.table.hub grant) ≡ false) }
        ensures stands { OnOk result (FollowsEvent (GoneNow (conn_at self.old.table.hub grant)) self.old.table.hub self.new.table.hub (C.chain self.old.table.cable) (C.chain self.new.table.cable) (W.told wire.old) (W.told wire.new)) }
        ensures ends { OnOk result ((before : Option WireView) → GoneNow (conn_at self.old.table.hub grant) before (W.told wire.old) → KeepsEnds self.old.table.hub self.new.table.hub (C.chain self.old.table.cable) before (W.told wire.new)) }
    {
        self.gone[grant] = true;
        self.peer_gone(wire, grant)
    }

    // The peer was given so many bytes of the reply: whether these were all. Where not, the session is not ready.
    fn gave(&mut self, grant: usize, count: usize) -> bool
        requires whole { AreWhole self.old.table.hub self.old.gone.items }
        requires calm { AreCalm self.old.table.hub self.old.gone.items }
        requires grant { grant < length self.old.table.hub.seats }
        requires count { count ≤ length (reply_at self.old.table.hub grant) }
        ensures whole { AreWhole self.new.table.hub self.new.gone.items }
        ensures made { KeepsMade self.old.table.hub self.new.table.hub }
        ensures calm { AreCalm self.new.table.hub self.new.gone.items }
        ensures same { SameSessions self.old.table.hub self.new.table.hub }
        ensures all { result ≡ true → reply_at self.new.table.hub grant ≡ [] }
        ensures gone { self.new.gone ≡ self.old.gone }
        ensures cable { self.new.table.cable ≡ self.old.table.cable }
        ensures ended { self.new.table.hub.ended ≡ self.old.table.hub.ended }
        ensures part { result ≡ false → count < length (reply_at self.old.table.hub grant) }
        ensures unready { result ≡ false → slice_index_or self.new.table.hub.ready grant false ≡ false }
        ensures ready { (other : ℕ) → other ≢ grant → slice_index_or self.new.table.hub.ready other false ≡ slice_index_or self.old.table.hub.ready other false }
        ensures stands { (before now : WireView) → now ≡ after_give (conn_at self.old.table.hub grant) (length (reply_at self.old.table.hub grant)) (Answer.Bytes (take count (reply_at self.old.table.hub grant))) before → 0 < length (reply_at self.old.table.hub grant) → ConnsAreOpen self.old.table.hub self.old.gone.items [] before
            → KeepsPlay self.old.table.hub self.new.table.hub (C.chain self.old.table.cable) (C.chain self.new.table.cable) (Some before) (Some now) }
    {
        self.table.gave(grant, count);
        let all = self.table.reply(grant).is_empty();
        if !all {
            self.table.set_ready(grant, false);
        }
        all
    }

    // One give of the pending reply, unless the chain is about to be handed on to the session: whether all of it went. Where not, the session is not
    // ready.
    fn give<W: Wire>(&mut self, wire: &mut W, grant: usize, conn: Conn) -> Result<bool, HubFault>
        requires whole { AreWhole self.old.table.hub self.old.gone.items }
        requires calm { AreCalm self.old.table.hub self.old.gone.items }
        requires grant { grant < length self.old.table.hub.seats }
        requires conns { Told (W.told wire.old) (ConnsAreOpen self.old.table.hub self.old.gone.items []) }
        requires taken { is_taken (stand_at self.old.table.hub grant) ≡ true }
        requires conn { conn ≡ conn_at self.old.table.hub grant }
        ensures whole { AreWhole self.new.table.hub self.new.gone.items }
        ensures made { KeepsMade self.old.table.hub self.new.table.hub }
        ensures calm { OnOk result (AreCalm self.new.table.hub self.new.gone.items) }
        ensures broken { OnErr result (self.new.table.hub.broken ≡ true) }
        ensures conns { OnOk result (Told (W.told wire.new) (ConnsAreOpen self.new.table.hub self.new.gone.items [])) }
        ensures door { W.door wire.new ≡ W.door wire.old }
        ensures faults { W.fault_count wire.new ≡ W.fault_count wire.old }
        ensures mark { C.mark self.new.table.cable ≡ C.mark self.old.table.cable }
        ensures trst { C.trst self.new.table.cable ≡ C.trst self.old.table.cable }
        ensures cause { HasCause (C.fault_count self.old.table.cable) (C.fault_count self.new.table.cable) result }
        ensures all { IfOk result (λ all. all ≡ true → (SameSessions self.old.table.hub self.new.table.hub) × (reply_at self.new.table.hub grant ≡ [])) }
        ensures rests { IfOk result (λ all. all ≡ true → next_of self.old.table.hub ≢ Some grant) }
        ensures shuts { OnOk result (Both (W.told wire.old) (W.told wire.new) (ShutsFor self.old.table.hub.ended self.new.table.hub.ended)) }
        ensures known { OnOk result (Both (W.told wire.old) (W.told wire.new) OnlyOpened) }
        ensures others { OnOk result (Both (W.told wire.old) (W.told wire.new) (OthersStay grant self.old.table.hub self.new.table.hub)) }
        ensures short { IfOk result (λ all. all ≡ false → Told (W.told wire.new) (HasNoMore self.new.table.hub grant)) }
        ensures done { IfOk result (λ all. all ≡ false → stand_at self.old.table.hub grant ≡ Going → HasDone self.new.table.hub grant) }
        ensures stands { OnOk result (KeepsPlay self.old.table.hub self.new.table.hub (C.chain self.old.table.cable) (C.chain self.new.table.cable) (W.told wire.old) (W.told wire.new)) }
        ensures ends { OnOk result (KeepsEnds self.old.table.hub self.new.table.hub (C.chain self.old.table.cable) (W.told wire.old) (W.told wire.new)) }
    {
        if self.table.next() == Some(grant) {
            self.table.set_ready(grant, false);
            return Ok(false);
        }
        let piece = self.table.reply(grant);
        if piece.is_empty() {
            return Ok(true);
        }
        match wire.give(conn, piece) {
            Given::Bytes(count) => Ok(self.gave(grant, count)),
            Given::NotNow => {
                self.table.set_ready(grant, false);
                Ok(false)
            }
            Given::Gone => {
                self.lose(wire, grant)?;
                Ok(false)
            }
        }
    }

    // After bytes were taken: where the session has not ended its replies are given, and it is ready where all went and it does not wait.
    fn give_more<W: Wire>(&mut self, wire: &mut W, grant: usize) -> Result<(), HubFault>
        requires whole { AreWhole self.old.table.hub self.old.gone.items }
        requires calm { AreCalm self.old.table.hub self.old.gone.items }
        requires grant { grant < length self.old.table.hub.seats }
        requires conns { Told (W.told wire.old) (ConnsAreOpen self.old.table.hub self.old.gone.items []) }
        ensures whole { AreWhole self.new.table.hub self.new.gone.items }
        ensures made { KeepsMade self.old.table.hub self.new.table.hub }
        ensures calm { OnOk result (AreCalm self.new.table.hub self.new.gone.items) }
        ensures broken { OnErr result (self.new.table.hub.broken ≡ true) }
        ensures conns { OnOk result (Told (W.told wire.new) (ConnsAreOpen self.new.table.hub self.new.gone.items [])) }
        ensures door { W.door wire.new ≡ W.door wire.old }
        ensures faults { W.fault_count wire.new ≡ W.fault_count wire.old }
        ensures mark { C.mark self.new.table.cable ≡ C.mark self.old.table.cable }
        ensures trst { C.trst self.new.table.cable ≡ C.trst self.old.table.cable }
        ensures cause { HasCause (C.fault_count self.old.table.cable) (C.fault_count self.new.table.cable) result }
        ensures shuts { OnOk result (Both (W.told wire.old) (W.told wire.new) (ShutsFor self.old.table.hub.ended self.new.table.hub.ended)) }
        ensures known { OnOk result (Both (W.told wire.old) (W.told wire.new) OnlyOpened) }
        ensures at_rest { OnOk result (Both (W.told wire.old) (W.told wire.new) (ComesToRest grant self.old.table.hub self.new.table.hub)) }
        ensures stands { OnOk result (KeepsPlay self.old.table.hub self.new.table.hub (C.chain self.old.table.cable) (C.chain self.new.table.cable) (W.told wire.old) (W.told wire.new)) }
        ensures ends { OnOk result (KeepsEnds self.old.table.hub self.new.table.hub (C.chain self.old.table.cable) (W.told wire.old) (W.told wire.new)) }
    {
        let Some((conn, _)) = self.table.seat(grant) else {
            return Ok(());
        };
        let all = self.give(wire, grant, conn)?;
        let ready = all && self.is_going(grant);
        self.table.set_ready(grant, ready);
        Ok(())
    }

    // The session takes the bytes that came, and its replies are given.
    fn use_bytes<W: Wire>(
        &mut self,
        wire: &mut W,
        grant: usize,
        piece: &[u8],
    ) -> Result<(), HubFault>
        requires whole { AreWhole self.old.table.hub self.old.gone.items }
        requires calm { AreCalm self.old.table.hub self.old.gone.items }
        requires grant { grant < length self.old.table.hub.seats }
        requires conns { Told (W.told wire.old) (ConnsAreOpen self.old.table.hub self.old.gone.items []) }
        requires going { stand_at self.old.table.hub grant ≡ Going }
        requires given { reply_at self.old.table.hub grant ≡ [] }
        requires some { 1 ≤ length piece.now }
        requires wanted { length piece.now ≤ view_wants (view_at self.old.table.hub grant).session }
        ensures whole { AreWhole self.new.table.hub self.new.gone.items }
        ensures made { KeepsMade self.old.table.hub self.new.table.hub }
        ensures calm { OnOk result (AreCalm self.new.table.hub self.new.gone.items) }
        ensures broken { OnErr result (self.new.table.hub.broken ≡ true) }
        ensures conns { OnOk result (Told (W.told wire.new) (ConnsAreOpen self.new.table.hub self.new.gone.items [])) }
        ensures door { W.door wire.new ≡ W.door wire.old }
        ensures faults { W.fault_count wire.new ≡ W.fault_count wire.old }
        ensures mark { C.mark self.new.table.cable ≡ C.mark self.old.table.cable }
        ensures trst { C.trst self.new.table.cable ≡ C.trst self.old.table.cable }
        ensures cause { HasCause (C.fault_count self.old.table.cable) (C.fault_count self.new.table.cable) result }
        ensures shuts { OnOk result (Both (W.told wire.old) (W.told wire.new) (ShutsFor self.old.table.hub.ended self.new.table.hub.ended)) }
        ensures known { OnOk result (Both (W.told wire.old) (W.told wire.new) OnlyOpened) }
        ensures at_rest { OnOk result (Both (W.told wire.old) (W.told wire.new) (ComesToRest grant self.old.table.hub self.new.table.hub)) }
        ensures stands { OnOk result (FollowsEvent (TookNow (conn_at self.old.table.hub grant) piece.now) self.old.table.hub self.new.table.hub (C.chain self.old.table.cable) (C.chain self.new.table.cable) (W.told wire.old) (W.told wire.new)) }
        ensures ends { OnOk result ((before : Option WireView) → TookNow (conn_at self.old.table.hub grant) piece.now before (W.told wire.old) → KeepsEnds self.old.table.hub self.new.table.hub (C.chain self.old.table.cable) before (W.told wire.new)) }
    {
        self.took(wire, grant, piece)?;
        self.give_more(wire, grant)
    }

    // One take of as many bytes as the piece holds.
    fn take_piece<W: Wire>(
        &mut self,
        wire: &mut W,
        grant: usize,
        conn: Conn,
        piece: &mut [u8],
    ) -> Result<(), HubFault>
        requires whole { AreWhole self.old.table.hub self.old.gone.items }
        requires calm { AreCalm self.old.table.hub self.old.gone.items }
        requires grant { grant < length self.old.table.hub.seats }
        requires rests { next_of self.old.table.hub ≢ Some grant }
        requires conns { Told (W.told wire.old) (ConnsAreOpen self.old.table.hub self.old.gone.items []) }
        requires going { stand_at self.old.table.hub grant ≡ Going }
        requires given { reply_at self.old.table.hub grant ≡ [] }
        requires conn { conn ≡ conn_at self.old.table.hub grant }
        requires some { 0 < length piece.old }
        requires wanted { length piece.old ≤ view_wants (view_at self.old.table.hub grant).session }
        ensures whole { AreWhole self.new.table.hub self.new.gone.items }
        ensures made { KeepsMade self.old.table.hub self.new.table.hub }
        ensures calm { OnOk result (AreCalm self.new.table.hub self.new.gone.items) }
        ensures broken { OnErr result (self.new.table.hub.broken ≡ true) }
        ensures conns { OnOk result (Told (W.told wire.new) (ConnsAreOpen self.new.table.hub self.new.gone.items [])) }
        ensures door { W.door wire.new ≡ W.door wire.old }
        ensures faults { W.fault_count wire.new ≡ W.fault_count wire.old }
        ensures mark { C.mark self.new.table.cable ≡ C.mark self.old.table.cable }
        ensures trst { C.trst self.new.table.cable ≡ C.trst self.old.table.cable }
        ensures cause { HasCause (C.fault_count self.old.table.cable) (C.fault_count self.new.table.cable) result }
        ensures shuts { OnOk result (Both (W.told wire.old) (W.told wire.new) (ShutsFor self.old.table.hub.ended self.new.table.hub.ended)) }
        ensures known { OnOk result (Both (W.told wire.old) (W.told wire.new) OnlyOpened) }
        ensures at_rest { OnOk result (Both (W.told wire.old) (W.told wire.new) (ComesToRest grant self.old.table.hub self.new.table.hub)) }
        ensures served { OnOk result (Both (W.told wire.old) (W.told wire.new) (ServesOne grant self.old.table.hub self.new.table.hub)) }
        ensures stands { OnOk result (KeepsPlay self.old.table.hub self.new.table.hub (C.chain self.old.table.cable) (C.chain self.new.table.cable) (W.told wire.old) (W.told wire.new)) }
        ensures ends { OnOk result (KeepsEnds self.old.table.hub self.new.table.hub (C.chain self.old.table.cable) (W.told wire.old) (W.told wire.new)) }
    {
        match wire.take(conn, piece) {
            Taken::Bytes(count) => self.use_bytes(wire, grant, &piece[..count]),
            Taken::NotNow => {
                self.table.set_ready(grant, false);
                Ok(())
            }
            Taken::Gone => self.lose(wire, grant),
        }
    }

    // One take of as many bytes as the session wants, or as the buffer holds.
    fn take<W: Wire>(
        &mut self,
        wire: &mut W,
        grant: usize,
        conn: Conn,
        buffer: &mut [u8],
    ) -> Result<(), HubFault>
        requires whole { AreWhole self.old.table.hub self.old.gone.items }
        requires calm { AreCalm self.old.table.hub self.old.gone.items }
        requires grant { grant < length self.old.table.hub.seats }
        requires rests { next_of self.old.table.hub ≢ Some grant }
        requires conns { Told (W.told wire.old) (ConnsAreOpen self.old.table.hub self.old.gone.items []) }
        requires going { stand_at self.old.table.hub grant ≡ Going }
        requires given { reply_at self.old.table.hub grant ≡ [] }
        requires conn { conn ≡ conn_at self.old.table.hub grant }
        requires some { 0 < length buffer.old }
        ensures whole { AreWhole self.new.table.hub self.new.gone.items }
        ensures made { KeepsMade self.old.table.hub self.new.table.hub }
        ensures calm { OnOk result (AreCalm self.new.table.hub self.new.gone.items) }
        ensures broken { OnErr result (self.new.table.hub.broken ≡ true) }
        ensures conns { OnOk result (Told (W.told wire.new) (ConnsAreOpen self.new.table.hub self.new.gone.items [])) }
        ensures door { W.door wire.new ≡ W.door wire.old }
        ensures faults { W.fault_count wire.new ≡ W.fault_count wire.old }
        ensures mark { C.mark self.new.table.cable ≡ C.mark self.old.table.cable }
        ensures trst { C.trst self.new.table.cable ≡ C.trst self.old.table.cable }
        ensures cause { HasCause (C.fault_count self.old.table.cable) (C.fault_count self.new.table.cable) result }
        ensures shuts { OnOk result (Both (W.told wire.old) (W.told wire.new) (ShutsFor self.old.table.hub.ended self.new.table.hub.ended)) }
        ensures known { OnOk result (Both (W.told wire.old) (W.told wire.new) OnlyOpened) }
        ensures at_rest { OnOk result (Both (W.told wire.old) (W.told wire.new) (ComesToRest grant self.old.table.hub self.new.table.hub)) }
        ensures served { OnOk result (Both (W.told wire.old) (W.told wire.new) (ServesOne grant self.old.table.hub self.new.table.hub)) }
        ensures stands { OnOk result (KeepsPlay self.old.table.hub self.new.table.hub (C.chain self.old.table.cable) (C.chain self.new.table.cable) (W.told wire.old) (W.told wire.new)) }
        ensures ends { OnOk result (KeepsEnds self.old.table.hub self.new.table.hub (C.chain self.old.table.cable) (W.told wire.old) (W.told wire.new)) }
    {
        let want = self.table.want(grant).min(buffer.len());
        self.take_piece(wire, grant, conn, &mut buffer[..want])
    }

    // After the pending replies were given: bytes are taken, where the session does not wait; where it does, it is not ready.
    fn go_on<W: Wire>(
        &mut self,
        wire: &mut W,
        grant: usize,
        conn: Conn,
        buffer: &mut [u8],
    ) -> Result<(), HubFault>
        requires whole { AreWhole self.old.table.hub self.old.gone.items }
        requires calm { AreCalm self.old.table.hub self.old.gone.items }
        requires grant { grant < length self.old.table.hub.seats }
        requires rests { next_of self.old.table.hub ≢ Some grant }
        requires conns { Told (W.told wire.old) (ConnsAreOpen self.old.table.hub self.old.gone.items []) }
        requires given { reply_at self.old.table.hub grant ≡ [] }
        requires conn { conn ≡ conn_at self.old.table.hub grant }
        requires some { 0 < length buffer.old }
        ensures whole { AreWhole self.new.table.hub self.new.gone.items }
        ensures made { KeepsMade self.old.table.hub self.new.table.hub }
        ensures calm { OnOk result (AreCalm self.new.table.hub self.new.gone.items) }
        ensures broken { OnErr result (self.new.table.hub.broken ≡ true) }
        ensures conns { OnOk result (Told (W.told wire.new) (ConnsAreOpen self.new.table.hub self.new.gone.items [])) }
        ensures door { W.door wire.new ≡ W.door wire.old }
        ensures faults { W.fault_count wire.new ≡ W.fault_count wire.old }
        ensures mark { C.mark self.new.table.cable ≡ C.mark self.old.table.cable }
        ensures trst { C.trst self.new.table.cable ≡ C.trst self.old.table.cable }
        ensures cause { HasCause (C.fault_count self.old.table.cable) (C.fault_count self.new.table.cable) result }
        ensures shuts { OnOk result (Both (W.told wire.old) (W.told wire.new) (ShutsFor self.old.table.hub.ended self.new.table.hub.ended)) }
        ensures known { OnOk result (Both (W.told wire.old) (W.told wire.new) OnlyOpened) }
        ensures at_rest { OnOk result (Both (W.told wire.old) (W.told wire.new) (ComesToRest grant self.old.table.hub self.new.table.hub)) }
        ensures served { OnOk result (Both (W.told wire.old) (W.told wire.new) (ServesOne grant self.old.table.hub self.new.table.hub)) }
        ensures stands { OnOk result (KeepsPlay self.old.table.hub self.new.table.hub (C.chain self.old.table.cable) (C.chain self.new.table.cable) (W.told wire.old) (W.told wire.new)) }
        ensures ends { OnOk result (KeepsEnds self.old.table.hub self.new.table.hub (C.chain self.old.table.cable) (W.told wire.old) (W.told wire.new)) }
    {
        if self.is_going(grant) {
            return self.take(wire, grant, conn, buffer);
        }
        self.table.set_ready(grant, false);
        Ok(())
    }

    /// A grant's session is served once, where one is open: its pending replies are given; then it takes bytes and uses them, and the chain is
    /// handed on; then its replies are given.
    pub fn serve<W: Wire>(
        &mut self,
        wire: &mut W,
        grant: usize,
        buffer: &mut [u8],
    ) -> Result<(), HubFault>
        requires whole { AreWhole self.old.table.hub self.old.gone.items }
        requires calm { AreCalm self.old.table.hub self.old.gone.items }
        requires grant { grant < length self.old.table.hub.seats }
        requires conns { Told (W.told wire.old) (ConnsAreOpen self.old.table.hub self.old.gone.items []) }
        requires some { 0 < length buffer.old }
        ensures whole { AreWhole self.new.table.hub self.new.gone.items }
        ensures made { KeepsMade self.old.table.hub self.new.table.hub }
        ensures calm { OnOk result (AreCalm self.new.table.hub self.new.gone.items) }
        ensures broken { OnErr result (self.new.table.hub.broken ≡ true) }
        ensures conns { OnOk result (Told (W.told wire.new) (ConnsAreOpen self.new.table.hub self.new.gone.items [])) }
        ensures door { W.door wire.new ≡ W.door wire.old }
        ensures faults { W.fault_count wire.new ≡ W.fault_count wire.old }
        ensures mark { C.mark self.new.table.cable ≡ C.mark self.old.table.cable }
        ensures trst { C.trst self.new.table.cable ≡ C.trst self.old.table.cable }
        ensures cause { HasCause (C.fault_count self.old.table.cable) (C.fault_count self.new.table.cable) result }
        ensures shuts { OnOk result (Both (W.told wire.old) (W.told wire.new) (ShutsFor self.old.table.hub.ended self.new.table.hub.ended)) }
        ensures known { OnOk result (Both (W.told wire.old) (W.told wire.new) OnlyOpened) }
        ensures at_rest { OnOk result (Both (W.told wire.old) (W.told wire.new) (ComesToRest grant self.old.table.hub self.new.table.hub)) }
        ensures served { OnOk result (Both (W.told wire.old) (W.told wire.new) (ServesOne grant self.old.table.hub self.new.table.hub)) }
        ensures stands { OnOk result (KeepsPlay self.old.table.hub self.new.table.hub (C.chain self.old.table.cable) (C.chain self.new.table.cable) (W.told wire.old) (W.told wire.new)) }
        ensures ends { OnOk result (KeepsEnds self.old.table.hub self.new.table.hub (C.chain self.old.table.cable) (W.told wire.old) (W.told wire.new)) }
    {
        let Some((conn, _)) = self.table.seat(grant) else {
            return Ok(());
        };
        if !self.give(wire, grant, conn)? {
            return Ok(());
        }
        self.go_on(wire, grant, conn, buffer)
    }
}
