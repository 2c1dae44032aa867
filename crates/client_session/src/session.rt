// A session.
ghost use Rattle.std.specs.Prelude.{◌≡◌, ◌≢◌, ◌≤◌, ◌<◌, ◌+◌, ◌^◌, ℕ, List, Bool, [], true, false, length, drop, map, slice_get, Some, IfOk, IfErr, OnOk, OnErr};
ghost use Rattle.base_types.specs.Counts.{HasCause};
ghost use Rattle.base_types.specs.Tellings.{Told};
ghost use Rattle.std.specs.Option.{option_map};
ghost use Rattle.part_model.specs.Parts.{DeviceType};
ghost use Rattle.chain_model.specs.Chains.{Placed};
ghost use Rattle.grant_table.specs.Layouts.{group_of};
ghost use Rattle.scan_share.specs.PrivateChains.{entries_at, private_chain};
ghost use Rattle.scan_share.specs.Scans.{IsWhole, types_of};
ghost use Rattle.chain_token.specs.Tokens.{holder, waiting};
ghost use Rattle.chain_token.specs.Waiting.{is_among, may_open};
ghost use Rattle.client_session.specs.declared.Stand.TheVariants.{Free, Going, Waits};
ghost use Rattle.client_session.specs.declared.Stop.TheVariants as stops;
ghost use Rattle.client_session.specs.Seats.{Seat, gone_end};
ghost use Rattle.client_session.specs.Private.{free_seat, opened, received};
ghost use Rattle.client_session.specs.Turns.{Turn};
ghost use Rattle.client_session.specs.Desks.{IsBlocked, IsDesk, KeepsOthers, cable_of, cable_then};
ghost use Rattle.client_session.specs.Calls.{CameOn, ServedBy, TakesOn};
ghost use Rattle.client_session.specs.Ends.{StopsBy, view_end};
ghost use Rattle.client_session.specs.Sessions.{RepliedBefore, Shows, Steers, is_here, is_in_line, is_leaving, session_wants, stand_after, view_taken, view_wants};
ghost use Rattle.client_session.specs.Stores.{IsOfLayout, KeepsSession};

use crate::desk::{Desk, sound};
use crate::halt::Halt;
use crate::input::Input;
use crate::progress::Progress;
use crate::{Stand, Stop};
use arrayvec::ArrayVec;
use chain_model::Cable;
use grant_table::Layout;
use scan_share::Broken;
use std::alloc::{AllocError, Global};
use std::marker::Model;
use virtual_tap::VTap;

/// The sessions of a grant, one after another: the bytes that were taken and not used, the acts that are left, the virtual TAP, and the
/// replies that the peer was not yet given. Between two sessions it is free.
///
/// The layout that calls are given is the one that `new` was given. Only `new` takes memory. Once a cable has failed in a call, the session
/// is spent, and only `reply`, `gave`, `drop_reply` and `stand` may be called.
#[derive(Drop)]
pub struct Session {
    progress: Progress,
    stand: Stand,
    spent: bool,
}

impl Model for Session {
    ghost use Rattle.client_session.specs.Stores.{SessionState, IsSession, view_of};

    ghost Value = { SessionState };

    ghost view = { λ s. record { grant = s.progress.tap.grant; parts = s.progress.tap.parts; view = view_of s.progress s.stand s.spent } };

    ghost invariant = { λ s. IsSession s.progress s.stand s.spent };
}

impl Session {
    /// The session of a grant, free, for a vector length in bytes that is announced. The letters of TRST count where `uses_trst` is true.
    /// The error comes where memory is wanting.
    pub fn new(
        alloc: Global,
        layout: &Layout,
        grant: usize,
        vector: u32,
        uses_trst: bool,
    ) -> Result<Session, AllocError>
        requires grant { grant < length layout.now.grants }
        requires some { 1 ≤ vector }
        requires most { vector ≤ 65536 }
        ensures grant { IfOk result (λ session. session.grant ≡ grant) }
        ensures parts { IfOk result (λ session. session.parts ≡ entries_at layout.now.parts (group_of layout.now.grants grant)) }
        ensures protocol { IfOk result (λ session. option_map (λ shape. shape.protocol) (slice_get layout.now.grants grant) ≡ Some session.view.protocol) }
        ensures free { IfOk result (λ session. (session.view.stand ≡ Free) × (session.view.reply ≡ []) × (session.view.spent ≡ false)) }
        ensures trst { IfOk result (λ session. session.view.uses_trst ≡ uses_trst) }
        ensures vector { IfOk result (λ session. session.view.vector ≡ vector) }
        ensures shows { IfOk result (λ session. (boards : List Placed) → map (λ (board : Placed). board.part) boards ≡ layout.now.parts
            → Shows session.view false (free_seat session.view.protocol uses_trst vector (private_chain boards (group_of layout.now.grants grant) layout.now.nets)) []) }
    {
        let tap = VTap::new(alloc, layout, grant)?;
        let input = Input::empty(alloc, layout.protocol(grant), vector)?;
        Ok(Session {
            progress: Progress {
                uses_trst,
                vector,
                tap,
                tck: false,
                trst: false,
                used: 0,
                taken: 0,
                input,
                said: ArrayVec::new(),
                pending: 0,
            },
            stand: Stand::Free,
            spent: false,
        })
    }

    /// The number of the grant.
    pub fn grant(&self) -> usize
        ensures { result ≡ self.now.grant }
    {
        self.progress.tap.grant()
    }

    /// A session begins: the chain is as after TRST, and the session is going.
    pub fn open(&mut self, layout: &Layout)
        requires layout { IsOfLayout layout.now self.old }
        requires free { self.old.view.stand ≡ Free }
        requires given { self.old.view.reply ≡ [] }
        requires fit { self.old.view.spent ≡ false }
        ensures kept { KeepsSession self.old self.new }
        ensures going { (self.new.view.stand ≡ Going) × (self.new.view.reply ≡ []) × (self.new.view.spent ≡ false) }
        ensures closed { self.old.view.tap.scan_open ≡ false }
        ensures shut { self.new.view.tap.scan_open ≡ false }
        ensures shown { (conn : ℕ) (seat : Seat) (given : List ℕ) → types_of seat.chain ≡ self.old.parts → Shows self.old.view false seat given → Shows self.new.view false (opened conn seat) [] }
    {
        self.progress.begin(layout);
        self.stand = Stand::Going;
    }

    /// How the session stands.
    pub fn stand(&self) -> Stand
        ensures { result ≡ self.now.view.stand }
    {
        self.stand
    }

    /// How many bytes make a difference to the session next, at most 2^62 in all: in XVC the fewest that complete a message, in
    /// remote_bitbang 16.
    pub fn want(&self) -> usize
        requires going { self.now.view.stand ≡ Going }
        requires fit { self.now.view.spent ≡ false }
        ensures shown { (waits : Bool) (seat : Seat) (given : List ℕ) → Shows self.now.view waits seat given → result ≡ session_wants seat }
        ensures steered { (parts : List DeviceType) (waits : Bool) (seat : Seat) → Steers parts self.now.view waits seat → result ≡ session_wants seat }
        ensures value { result ≡ view_wants self.now.view }
        ensures some { 1 ≤ result }
    {
        self.progress.want()
    }

    /// The peer's next bytes came, as many as are wanted at most, with its replies given: they are used, and the session goes on until
    /// nothing is left to do, it has to wait for the shared chain, or it ends. What it does is what the private chain of its grant does.
    /// Over every cable it waits only where another grant is before it, and else stops where its bytes have it stop.
    ///
    /// `Broken` comes only where the cable's count of faults rose in the call. The replies are then a front of the private ones.
    pub fn feed<C: Cable>(
        &mut self,
        piece: &[u8],
        desk: Desk<C>,
        layout: &Layout,
    ) -> Result<(Stop, Desk<C>), Broken<C>>
        requires layout { IsOfLayout layout.now self.old }
        requires grant { self.old.grant < length layout.now.grants }
        requires fit { self.old.view.spent ≡ false }
        requires desk { IsDesk layout.now self.old.grant self.old.view.tap desk }
        requires whole { Told (C.chain (cable_of desk.side)) (IsWhole layout.now) }
        requires trst { self.old.view.uses_trst ≡ true → C.trst (cable_of desk.side) ≡ true }
        requires line { is_among self.old.grant (waiting desk) ≡ false }
        requires going { self.old.view.stand ≡ Going }
        requires given { self.old.view.reply ≡ [] }
        requires some { 1 ≤ length piece.now }
        requires wanted { length piece.now ≤ view_wants self.old.view }
        ensures kept { KeepsSession self.old self.new }
        ensures came { IfOk result (λ pair. (given : List ℕ) (turn : Turn) → Shows self.old.view false turn.seat given
            → ServedBy layout.now self.old.grant desk (C.chain (cable_of desk.side)) turn
            → CameOn layout.now self.old.grant self.new.view given desk pair.1 (C.chain (cable_of desk.side)) (C.chain (cable_of pair.1.side)) (record turn { seat = received piece.now turn.seat }) pair.0) }
        ensures failed { IfErr result (λ broken. (given : List ℕ) (turn : Turn) → Shows self.old.view false turn.seat given
            → ServedBy layout.now self.old.grant desk (C.chain (cable_of desk.side)) turn → RepliedBefore self.new.view given (record turn { seat = received piece.now turn.seat }).seat) }
        ensures stands { IfOk result (λ pair. self.new.view.stand ≡ stand_after pair.0 (false)) }
        ensures stops { IfOk result (λ pair. StopsBy (view_end self.old.view piece.now) false (view_taken self.old.view + length piece.now) pair.0) }
        ensures fit { OnOk result (self.new.view.spent ≡ false) }
        ensures spent { OnErr result (self.new.view.spent ≡ true) }
        ensures desk { IfOk result (λ pair. IsDesk layout.now self.new.grant self.new.view.tap pair.1) }
        ensures line { IfOk result (λ pair. is_among self.new.grant (waiting pair.1) ≡ is_in_line self.new.view.stand) }
        ensures blocked { IfOk result (λ pair. pair.0 ≡ stops.Waits → IsBlocked self.new.grant pair.1) }
        ensures taken { IfOk result (λ pair. TakesOn pair.0 (view_taken self.old.view + length piece.now) (view_taken self.new.view)) }
        ensures others { IfOk result (λ pair. KeepsOthers self.old.grant desk pair.1) }
        ensures whole { IfOk result (λ pair. Told (C.chain (cable_of pair.1.side)) (IsWhole layout.now)) }
        ensures mark { C.mark (cable_then result) ≡ C.mark (cable_of desk.side) }
        ensures trst { C.trst (cable_then result) ≡ C.trst (cable_of desk.side) }
        ensures cause { HasCause (C.fault_count (cable_of desk.side)) (C.fault_count (cable_then result)) result }
    {
        let grant = self.progress.tap.grant();
        sound(layout, grant);
        match self.progress.feed(piece, grant, desk, layout) {
            Ok((stop, desk)) => {
                self.stand = Stand::after(stop, false);
                Ok((stop, desk))
            }
            Err(broken) => {
                self.spent = true;
                Err(broken)
            }
        }
    }

    /// The wait is over, for the chain is free and the grant the first that waits for it: the session goes on as in `feed`.
    ///
    /// `Broken` comes only where the cable's count of faults rose in the call. The replies are then a front of the private ones.
    pub fn resume<C: Cable>(
        &mut self,
        desk: Desk<C>,
        layout: &Layout,
    ) -> Result<(Stop, Desk<C>), Broken<C>>
        requires layout { IsOfLayout layout.now self.old }
        requires grant { self.old.grant < length layout.now.grants }
        requires fit { self.old.view.spent ≡ false }
        requires desk { IsDesk layout.now self.old.grant self.old.view.tap desk }
        requires whole { Told (C.chain (cable_of desk.side)) (IsWhole layout.now) }
        requires trst { self.old.view.uses_trst ≡ true → C.trst (cable_of desk.side) ≡ true }
        requires waits { is_in_line self.old.view.stand ≡ true }
        requires first { may_open (holder desk) (waiting desk) self.old.grant ≡ true }
        ensures kept { KeepsSession self.old self.new }
        ensures came { IfOk result (λ pair. (given : List ℕ) (turn : Turn) → Shows self.old.view true turn.seat given
            → ServedBy layout.now self.old.grant desk (C.chain (cable_of desk.side)) turn
            → CameOn layout.now self.old.grant self.new.view given desk pair.1 (C.chain (cable_of desk.side)) (C.chain (cable_of pair.1.side)) turn pair.0) }
        ensures failed { IfErr result (λ broken. (given : List ℕ) (turn : Turn) → Shows self.old.view true turn.seat given
            → ServedBy layout.now self.old.grant desk (C.chain (cable_of desk.side)) turn → RepliedBefore self.new.view given turn.seat) }
        ensures stands { IfOk result (λ pair. self.new.view.stand ≡ stand_after pair.0 (is_leaving self.old.view.stand)) }
        ensures here { OnOk result (self.new.view.stand ≡ Going → is_leaving self.old.view.stand ≡ false) }
        ensures stops { IfOk result (λ pair. StopsBy (view_end self.old.view []) (is_leaving self.old.view.stand) (view_taken self.old.view) pair.0) }
        ensures fit { OnOk result (self.new.view.spent ≡ false) }
        ensures spent { OnErr result (self.new.view.spent ≡ true) }
        ensures desk { IfOk result (λ pair. IsDesk layout.now self.new.grant self.new.view.tap pair.1) }
        ensures line { IfOk result (λ pair. is_among self.new.grant (waiting pair.1) ≡ is_in_line self.new.view.stand) }
        ensures blocked { IfOk result (λ pair. pair.0 ≡ stops.Waits → IsBlocked self.new.grant pair.1) }
        ensures others { IfOk result (λ pair. KeepsOthers self.old.grant desk pair.1) }
        ensures whole { IfOk result (λ pair. Told (C.chain (cable_of pair.1.side)) (IsWhole layout.now)) }
        ensures mark { C.mark (cable_then result) ≡ C.mark (cable_of desk.side) }
        ensures trst { C.trst (cable_then result) ≡ C.trst (cable_of desk.side) }
        ensures cause { HasCause (C.fault_count (cable_of desk.side)) (C.fault_count (cable_then result)) result }
    {
        let grant = self.progress.tap.grant();
        sound(layout, grant);
        let gone = self.stand.is_leaving();
        match self.progress.resume(gone, grant, desk, layout) {
            Ok((stop, desk)) => {
                self.stand = Stand::after(stop, gone);
                Ok((stop, desk))
            }
            Err(broken) => {
                self.spent = true;
                Err(broken)
            }
        }
    }

    /// The peer is gone: a session that waits for bytes ends, and one that waits for the chain is leaving.
    ///
    /// `Broken` comes only where the cable's count of faults rose in the call. The replies are then a front of the private ones.
    pub fn gone<C: Cable>(
        &mut self,
        desk: Desk<C>,
        layout: &Layout,
    ) -> Result<(Stop, Desk<C>), Broken<C>>
        requires layout { IsOfLayout layout.now self.old }
        requires grant { self.old.grant < length layout.now.grants }
        requires fit { self.old.view.spent ≡ false }
        requires desk { IsDesk layout.now self.old.grant self.old.view.tap desk }
        requires whole { Told (C.chain (cable_of desk.side)) (IsWhole layout.now) }
        requires trst { self.old.view.uses_trst ≡ true → C.trst (cable_of desk.side) ≡ true }
        requires here { is_here self.old.view.stand ≡ true }
        requires line { is_among self.old.grant (waiting desk) ≡ is_in_line self.old.view.stand }
        requires rests { self.old.view.stand ≡ Waits → may_open (holder desk) (waiting desk) self.old.grant ≡ false }
        ensures kept { KeepsSession self.old self.new }
        ensures came { IfOk result (λ pair. (given : List ℕ) (turn : Turn) → Shows self.old.view (is_in_line self.old.view.stand) turn.seat given
            → ServedBy layout.now self.old.grant desk (C.chain (cable_of desk.side)) turn
            → CameOn layout.now self.old.grant self.new.view given desk pair.1 (C.chain (cable_of desk.side)) (C.chain (cable_of pair.1.side)) (record turn { seat = record turn.seat { gone = true } }) pair.0) }
        ensures failed { IfErr result (λ broken. (given : List ℕ) (turn : Turn) → Shows self.old.view (is_in_line self.old.view.stand) turn.seat given
            → ServedBy layout.now self.old.grant desk (C.chain (cable_of desk.side)) turn → RepliedBefore self.new.view given (record turn { seat = record turn.seat { gone = true } }).seat) }
        ensures stands { IfOk result (λ pair. self.new.view.stand ≡ stand_after pair.0 (true)) }
        ensures left { OnOk result (self.new.view.stand ≢ Going) }
        ensures fit { OnOk result (self.new.view.spent ≡ false) }
        ensures spent { OnErr result (self.new.view.spent ≡ true) }
        ensures desk { IfOk result (λ pair. IsDesk layout.now self.new.grant self.new.view.tap pair.1) }
        ensures line { IfOk result (λ pair. is_among self.new.grant (waiting pair.1) ≡ is_in_line self.new.view.stand) }
        ensures ends { IfOk result (λ pair. self.old.view.stand ≡ Going → pair.0 ≡ stops.Ended (gone_end self.old.view.used self.old.view.unused)) }
        ensures others { IfOk result (λ pair. KeepsOthers self.old.grant desk pair.1) }
        ensures whole { IfOk result (λ pair. Told (C.chain (cable_of pair.1.side)) (IsWhole layout.now)) }
        ensures mark { C.mark (cable_then result) ≡ C.mark (cable_of desk.side) }
        ensures trst { C.trst (cable_then result) ≡ C.trst (cable_of desk.side) }
        ensures cause { HasCause (C.fault_count (cable_of desk.side)) (C.fault_count (cable_then result)) result }
    {
        let grant = self.progress.tap.grant();
        sound(layout, grant);
        if self.stand.is_waiting() {
            self.stand = Stand::Leaving;
            return Ok((Stop::Waits, desk));
        }
        match self.progress.settle(Halt::Rests, true, grant, desk, layout) {
            Ok((stop, desk)) => {
                self.stand = Stand::after(stop, true);
                Ok((stop, desk))
            }
            Err(broken) => {
                self.spent = true;
                Err(broken)
            }
        }
    }

    /// The replies that the peer was not yet given, the first byte first.
    pub fn reply(&self) -> &[u8]
        ensures { result.now ≡ self.now.view.reply }
    {
        self.progress.reply()
    }

    /// The peer was given the first `count` bytes of the reply.
    pub fn gave(&mut self, count: usize)
        requires { count ≤ length self.old.view.reply }
        ensures { self.new ≡ record self.old { view = record self.old.view { reply = drop count self.old.view.reply } } }
    {
        self.progress.pending -= count;
    }

    /// Throws the reply away.
    pub fn drop_reply(&mut self)
        ensures { self.new ≡ record self.old { view = record self.old.view { reply = [] } } }
    {
        self.progress.pending = 0;
    }
}
