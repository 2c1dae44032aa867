// Sessions that ended are let go, and replies that nobody is there for are thrown away.
ghost use Rattle.std.specs.Prelude.{◌≡◌, ◌<◌, List, [], ◌∷◌, false, not, length, map, drop, slice_set};
ghost use Rattle.std.specs.declared.option.Option.TheVariants.{Some};
ghost use Rattle.base_types.specs.Tellings.{Told, Both};
ghost use Rattle.plays.specs.Schedule.{is_drop, with_ready};
ghost use Rattle.session_table.specs.Shown.{session_end};
ghost use Rattle.session_table.specs.Tables.{reply_at, view_at};
ghost use Rattle.wire_port.specs.Calls.{IsOpen, CanBeShut};
ghost use Rattle.hub.specs.Standing.{LastGave, LastGaveShut, StandsOnBut, EndsFollow};
ghost use Rattle.wire_port.specs.Wires.{WireView};
ghost use Rattle.plays.specs.Plays.{Setting, SessionEnd};
ghost use Rattle.hub.specs.Served.{HasShut, ShutsFor, AreWhole, AreFlagged, AreLeft, ConnIsOpen, ConnsAreOpen, OnlyOf, OnlyOpened, grants_of, is_gone, quieted, ready_as, settled, with_seats};
ghost use Rattle.hub.specs.Resting.{KeepsRest};

use crate::sessions::Sessions;
use chain_model::Cable;
use client_session::End;
use session_table::Ended;
use wire_port::{Conn, Wire};

// The peer was gone when the session ended.
fn is_drop(end: End) -> bool
    ensures { result ≡ is_drop end }
{
    matches!(end, End::Gone(_) | End::Cut(_))
}

impl<C: Cable> Sessions<C> {
    // The reply of a grant's session is thrown away where its peer is not there.
    #[tactic(auto, using(crate::proofs::SeatLists::here_as_was, crate::proofs::SeatLists::away_quiet))]
    fn quiet_one(&mut self, grant: usize)
        requires { grant < length self.old.table.hub.seats }
        ensures seats { self.new.table ≡ with_seats (slice_set self.old.table.hub.seats grant (quieted (view_at self.old.table.hub grant))) self.old.table }
        ensures gone { self.new.gone ≡ self.old.gone }
        ensures stands { (setting : Setting) (wire : WireView) → AreFlagged self.old.table.hub self.old.gone.items → ConnsAreOpen self.old.table.hub self.old.gone.items [] wire
            → StandsOnBut setting [] self.old.table.hub (C.chain self.old.table.cable) (Some wire) → StandsOnBut setting [] self.new.table.hub (C.chain self.new.table.cable) (Some wire) }
    {
        if !self.is_here(grant) {
            self.table.drop_reply(grant);
        }
    }

    // The replies of all whose peer is not there are thrown away.
    #[tactic(auto, using(crate::proofs::SeatLists::quiet_first, crate::proofs::SeatLists::quiet_more, crate::proofs::SeatLists::quiet_done))]
    fn quiet(&mut self)
        requires { AreWhole self.old.table.hub self.old.gone.items }
        ensures seats { self.new.table ≡ with_seats (map quieted self.old.table.hub.seats) self.old.table }
        ensures gone { self.new.gone ≡ self.old.gone }
        ensures stands { (setting : Setting) (wire : WireView) → AreFlagged self.old.table.hub self.old.gone.items → ConnsAreOpen self.old.table.hub self.old.gone.items [] wire
            → StandsOnBut setting [] self.old.table.hub (C.chain self.old.table.cable) (Some wire) → StandsOnBut setting [] self.new.table.hub (C.chain self.new.table.cable) (Some wire) }
    {
        for grant in 0..self.gone.len() {
            self.quiet_one(grant);
        }
    }

    // One give of what is left of the reply to a session that ended.
    #[tactic(auto, using(crate::proofs::OnTheWire::given_only, crate::proofs::OnTheWire::given_shut, crate::proofs::OnTheWire::both_same, crate::proofs::LettingGo::told_no_reply))]
    fn give_last<W: Wire>(&self, wire: &mut W, grant: usize, conn: Conn)
        requires grant { grant < length self.now.table.hub.seats }
        requires open { Told (W.told wire.old) (IsOpen conn) }
        ensures only { Both (W.told wire.old) (W.told wire.new) (OnlyOf conn) }
        ensures can { Told (W.told wire.new) (CanBeShut conn) }
        ensures door { W.door wire.new ≡ W.door wire.old }
        ensures faults { W.fault_count wire.new ≡ W.fault_count wire.old }
        ensures shuts { Both (W.told wire.old) (W.told wire.new) (ShutsFor [] []) }
        ensures gave { Both (W.told wire.old) (W.told wire.new) (LastGave conn (reply_at self.now.table.hub grant)) }
    {
        let piece = self.table.reply(grant);
        if !piece.is_empty() {
            let _given = wire.give(conn, piece);
        }
    }

    // The same, where the peer is there.
    #[tactic(auto, using(crate::proofs::OnTheWire::both_same, crate::proofs::LettingGo::told_no_peer))]
    fn give_left<W: Wire>(&self, wire: &mut W, grant: usize, conn: Conn)
        requires grant { grant < length self.now.table.hub.seats }
        requires flags { grant < length self.now.gone.items }
        requires open { Told (W.told wire.old) (λ wire. ConnIsOpen wire conn (is_gone self.now.gone.items grant)) }
        ensures only { Both (W.told wire.old) (W.told wire.new) (OnlyOf conn) }
        ensures can { Told (W.told wire.new) (CanBeShut conn) }
        ensures door { W.door wire.new ≡ W.door wire.old }
        ensures faults { W.fault_count wire.new ≡ W.fault_count wire.old }
        ensures shuts { Both (W.told wire.old) (W.told wire.new) (ShutsFor [] []) }
        ensures gave { Both (W.told wire.old) (W.told wire.new) (LastGave conn (reply_at self.now.table.hub grant)) }
    {
        if !self.gone[grant] {
            self.give_last(wire, grant, conn);
        }
    }

    // The connection of a session that ended is shut, after one give of its reply where the peer is there.
    #[tactic(auto, using(crate::proofs::OnTheWire::both_then, crate::proofs::OnTheWire::shut_only, crate::proofs::LettingGo::told_shut))]
    fn shut<W: Wire>(&self, wire: &mut W, grant: usize, conn: Conn)
        requires grant { grant < length self.now.table.hub.seats }
        requires flags { grant < length self.now.gone.items }
        requires open { Told (W.told wire.old) (λ wire. ConnIsOpen wire conn (is_gone self.now.gone.items grant)) }
        ensures only { Both (W.told wire.old) (W.told wire.new) (OnlyOf conn) }
        ensures door { W.door wire.new ≡ W.door wire.old }
        ensures faults { W.fault_count wire.new ≡ W.fault_count wire.old }
        ensures shuts { Both (W.told wire.old) (W.told wire.new) (HasShut conn) }
        ensures gave { Both (W.told wire.old) (W.told wire.new) (LastGaveShut conn (reply_at self.now.table.hub grant)) }
    {
        self.give_left(wire, grant, conn);
        wire.shut(conn);
    }

    // A session that ended is not ready. Where it did not end by a drop, its connection is shut.
    #[tactic(auto, using(crate::proofs::OnTheWire::both_same, crate::proofs::OnTheWire::known_same, crate::proofs::OnTheWire::known_open))]
    fn let_go<W: Wire>(&mut self, wire: &mut W, ended: Ended)
        requires grant { ended.grant < length self.old.table.hub.seats }
        requires flags { ended.grant < length self.old.gone.items }
        requires open { Told (W.told wire.old) (λ wire. ConnIsOpen wire ended.conn (is_gone self.old.gone.items ended.grant)) }
        ensures ready { self.new.table ≡ ready_as (slice_set self.old.table.hub.ready ended.grant false) self.old.table }
        ensures gone { self.new.gone ≡ self.old.gone }
        ensures only { Both (W.told wire.old) (W.told wire.new) (OnlyOf ended.conn) }
        ensures door { W.door wire.new ≡ W.door wire.old }
        ensures faults { W.fault_count wire.new ≡ W.fault_count wire.old }
        ensures shuts { Both (W.told wire.old) (W.told wire.new) (ShutsFor [] (session_end ended ∷ [])) }
        ensures known { Both (W.told wire.old) (W.told wire.new) OnlyOpened }
        ensures stands { (setting : Setting) (left : List SessionEnd) → AreLeft self.old.table.hub (session_end ended ∷ left) → Told (W.told wire.old) (ConnsAreOpen self.old.table.hub self.old.gone.items (session_end ended ∷ left))
            → StandsOnBut setting (session_end ended ∷ left) self.old.table.hub (C.chain self.old.table.cable) (W.told wire.old) → StandsOnBut setting left self.new.table.hub (C.chain self.new.table.cable) (W.told wire.new) }
        ensures ends { (setting : Setting) (left : List SessionEnd) → AreLeft self.old.table.hub (session_end ended ∷ left) → Told (W.told wire.old) (ConnsAreOpen self.old.table.hub self.old.gone.items (session_end ended ∷ left))
            → StandsOnBut setting (session_end ended ∷ left) self.old.table.hub (C.chain self.old.table.cable) (W.told wire.old) → EndsFollow setting (W.told wire.old) (W.told wire.new) [] }
    {
        self.table.set_ready(ended.grant, false);
        if !is_drop(ended.end) {
            self.shut(wire, ended.grant, ended.conn);
        }
    }

    // The sessions that ended from a place of the list on are let go, in order.
    #[tactic(auto, using(crate::proofs::SeatLists::lets_first, crate::proofs::SeatLists::lets_done, crate::proofs::Shutting::due_first, crate::proofs::OnTheWire::known_same))]
    fn let_all_go<W: Wire>(&mut self, wire: &mut W, earlier: usize)
        requires flags { AreWhole self.old.table.hub self.old.gone.items }
        requires left { AreLeft self.old.table.hub (drop earlier self.old.table.hub.ended) }
        requires conns { Told (W.told wire.old) (ConnsAreOpen self.old.table.hub self.old.gone.items (drop earlier self.old.table.hub.ended)) }
        ensures ready { self.new.table ≡ ready_as (with_ready false (grants_of (drop earlier self.old.table.hub.ended)) self.old.table.hub.ready) self.old.table }
        ensures gone { self.new.gone ≡ self.old.gone }
        ensures conns { Told (W.told wire.new) (ConnsAreOpen self.old.table.hub self.old.gone.items []) }
        ensures door { W.door wire.new ≡ W.door wire.old }
        ensures faults { W.fault_count wire.new ≡ W.fault_count wire.old }
        ensures shuts { Both (W.told wire.old) (W.told wire.new) (ShutsFor [] (drop earlier self.old.table.hub.ended)) }
        ensures known { Both (W.told wire.old) (W.told wire.new) OnlyOpened }
        ensures rests { Both (W.told wire.old) (W.told wire.new) (KeepsRest self.old.table.hub self.new.table.hub) }
        ensures stands { (setting : Setting) → StandsOnBut setting (drop earlier self.old.table.hub.ended) self.old.table.hub (C.chain self.old.table.cable) (W.told wire.old) → StandsOnBut setting [] self.new.table.hub (C.chain self.new.table.cable) (W.told wire.new) }
        ensures ends { (setting : Setting) → StandsOnBut setting (drop earlier self.old.table.hub.ended) self.old.table.hub (C.chain self.old.table.cable) (W.told wire.old) → EndsFollow setting (W.told wire.old) (W.told wire.new) [] }
    {
        for at in earlier..self.ended_count() {
            let ended = self.ended_at(at);
            self.let_go(wire, ended);
        }
    }

    // After a call of the table: those that ended in it are let go, and the replies of those whose peer is not there are thrown away.
    #[tactic(auto, using(crate::proofs::AfterCalls::told_settled, crate::proofs::AfterCalls::ready_whole))]
    pub fn settle<W: Wire>(&mut self, wire: &mut W, earlier: usize)
        requires flags { AreWhole self.old.table.hub self.old.gone.items }
        requires left { AreLeft self.old.table.hub (drop earlier self.old.table.hub.ended) }
        requires conns { Told (W.told wire.old) (ConnsAreOpen self.old.table.hub self.old.gone.items (drop earlier self.old.table.hub.ended)) }
        ensures table { self.new.table ≡ settled earlier self.old.table }
        ensures gone { self.new.gone ≡ self.old.gone }
        ensures conns { Told (W.told wire.new) (ConnsAreOpen (settled earlier self.old.table).hub self.old.gone.items []) }
        ensures door { W.door wire.new ≡ W.door wire.old }
        ensures faults { W.fault_count wire.new ≡ W.fault_count wire.old }
        ensures shuts { Both (W.told wire.old) (W.told wire.new) (ShutsFor [] (drop earlier self.old.table.hub.ended)) }
        ensures known { Both (W.told wire.old) (W.told wire.new) OnlyOpened }
        ensures rests { Both (W.told wire.old) (W.told wire.new) (KeepsRest self.old.table.hub self.new.table.hub) }
        ensures stands { (setting : Setting) → AreFlagged self.old.table.hub self.old.gone.items → StandsOnBut setting (drop earlier self.old.table.hub.ended) self.old.table.hub (C.chain self.old.table.cable) (W.told wire.old) → StandsOnBut setting [] self.new.table.hub (C.chain self.new.table.cable) (W.told wire.new) }
        ensures ends { (setting : Setting) → StandsOnBut setting (drop earlier self.old.table.hub.ended) self.old.table.hub (C.chain self.old.table.cable) (W.told wire.old) → EndsFollow setting (W.told wire.old) (W.told wire.new) [] }
    {
        self.let_all_go(wire, earlier);
        self.quiet();
    }
}
