// The sessions of all grants, apart from the desk.
ghost use Rattle.std.specs.Prelude.{◌≡◌, ◌≢◌, ◌≤◌, ◌<◌, ◌++◌, ℕ, List, [], true, false, length, map, drop, replicate, slice_set, Some, None, IfOk, IfErr, OnOk, OnErr, if◌then◌else◌, vec_capacity};
ghost use Rattle.std.specs.List.{slice_index_or};
ghost use Rattle.base_types.specs.Counts.{HasCause};
ghost use Rattle.base_types.specs.Tellings.{Told};
ghost use Rattle.grant_table.specs.Apart.{KeepsApart};
ghost use Rattle.grant_table.specs.Faults.{IsLayout};
ghost use Rattle.grant_table.specs.Kept.{AllParts};
ghost use Rattle.scan_share.specs.Scans.{IsWhole};
ghost use Rattle.chain_token.specs.Tokens.{holder, waiting};
ghost use Rattle.chain_token.specs.Waiting.{may_open, next_in_line};
ghost use Rattle.client_session.specs.declared.Stand.TheVariants.{Free, Going};
ghost use Rattle.client_session.specs.Private.{received};
ghost use Rattle.client_session.specs.Turns.{Turn};
ghost use Rattle.client_session.specs.Desks.{cable_after, cable_of, cable_then};
ghost use Rattle.client_session.specs.Calls.{CameOn, ServedBy};
ghost use Rattle.client_session.specs.Sessions.{RepliedBefore, Shows, is_here, is_in_line, is_leaving, is_taken, stand_after, view_wants};
ghost use Rattle.session_table.specs.AtDesk.{AreFree, Begins, EachIsFree, EachReady, KeepsSeats, LineWent, MayServe, NotesStop, NothingElse, OneWent, OnlyReady, OnlySession, OthersStay, Replies, SeatsFit, SeatsWent, SetsReady, ShowsOpened, WentAtDesk, ends_by, entry, joins_by, session_at, stands_at};
ghost use Rattle.session_table.specs.Going.{AttendsOn, Fronts, GoneOn, HandedOn, MovedOn, PassedOn};
ghost use Rattle.session_table.specs.Tables.{IsCalm};
ghost use Rattle.plays.specs.Schedule.{with_ready};
ghost use Rattle.plays.specs.Plays.{Setting, Play, all_steps_left, go, seat_at, with_seat};

use crate::Ended;
use chain_model::Cable;
use client_session::{Desk, Session, Stand, Stop};
use grant_table::Layout;
use scan_share::Broken;
use std::alloc::{AllocError, Global};

/// A grant's session, and the connection that it serves.
#[derive(Drop)]
pub struct Seat {
    session: Session,
    conn: u64,
}

/// The sessions of all grants, what they were made with, which are ready to be served, how often one began to wait, and those that ended.
#[derive(Drop)]
pub struct Seats {
    layout: Layout,
    vector: u32,
    uses_trst: bool,
    list: Vec<Seat>,
    ready: Vec<bool>,
    joins: u64,
    ended: Vec<Ended>,
}

/// The most grants of a layout.
const MOST_GRANTS: usize = 16;

/// More turns than all sessions together can have left.
const MOST_TURNS: u128 = 1 << 80;

impl Seats {
    /// A free session for each grant. The error comes where memory is wanting.
    pub fn new(
        alloc: Global,
        layout: Layout,
        vector: u32,
        uses_trst: bool,
    ) -> Result<Seats, AllocError>
        requires some { 1 ≤ vector }
        requires most { vector ≤ 65536 }
        ensures { IfOk result (λ seats. AreFree layout vector uses_trst seats) }
    {
        let list = free_seats(alloc, &layout, vector, uses_trst)?;
        let ready = none_ready(alloc, layout.grants())?;
        let ended = Vec::with_capacity(alloc, MOST_GRANTS)?;
        Ok(Seats {
            layout,
            vector,
            uses_trst,
            list,
            ready,
            joins: 0,
            ended,
        })
    }

    /// The layout that they were made for.
    pub fn layout(&self) -> &Layout
        ensures { result.now ≡ self.now.layout }
    {
        &self.layout
    }

    /// How often one began to wait.
    pub fn joins(&self) -> u64
        ensures { result ≡ self.now.joins }
    {
        self.joins
    }

    /// Those that ended.
    pub fn ended(&self) -> &[Ended]
        ensures { result.now ≡ self.now.ended.items }
    {
        &self.ended
    }

    /// Forgets those that ended.
    pub fn forget_ended(&mut self)
        ensures only { NothingElse self.old self.new }
        ensures ended { self.new.ended.items ≡ [] }
        ensures list { self.new.list ≡ self.old.list }
        ensures ready { self.new.ready ≡ self.old.ready }
        ensures room { vec_capacity self.new.ended ≡ vec_capacity self.old.ended }
    {
        self.ended.clear();
    }

    /// The connection of a grant's session and how it stands, where one is open.
    pub fn seat(&self, grant: usize) -> Option<(u64, Stand)>
        requires { grant < length self.now.list.items }
        ensures { result ≡ (if is_taken (stands_at self.now grant) then Some ((entry self.now grant).conn, stands_at self.now grant) else None) }
    {
        let seat = &self.list[grant];
        match seat.session.stand() {
            Stand::Free => None,
            stand => Some((seat.conn, stand)),
        }
    }

    /// How many bytes make a difference to a grant's session next.
    pub fn want(&self, grant: usize) -> usize
        requires grant { grant < length self.now.list.items }
        requires going { stands_at self.now grant ≡ Going }
        requires fit { (session_at self.now grant).spent ≡ false }
        ensures value { result ≡ view_wants (session_at self.now grant) }
        ensures some { 1 ≤ result }
    {
        self.list[grant].session.want()
    }

    /// The replies that the peer of a grant's session was not yet given.
    pub fn reply(&self, grant: usize) -> &[u8]
        requires { grant < length self.now.list.items }
        ensures { result.now ≡ (session_at self.now grant).reply }
    {
        self.list[grant].session.reply()
    }

    /// The peer of a grant's session was given so many bytes of the reply.
    pub fn gave(&mut self, grant: usize, count: usize)
        requires grant { grant < length self.old.list.items }
        requires count { count ≤ length (session_at self.old grant).reply }
        ensures { Replies grant (drop count (session_at self.old grant).reply) self.old self.new }
    {
        self.list[grant].session.gave(count);
    }

    /// Throws the reply of a grant's session away.
    pub fn drop_reply(&mut self, grant: usize)
        requires { grant < length self.old.list.items }
        ensures { Replies grant [] self.old self.new }
    {
        self.list[grant].session.drop_reply();
    }

    /// Whether a grant's session is ready to be served.
    pub fn is_ready(&self, grant: usize) -> bool
        requires { grant < length self.now.ready.items }
        ensures { result ≡ slice_index_or self.now.ready.items grant false }
    {
        self.ready[grant]
    }

    /// Says whether a grant's session is ready to be served.
    pub fn set_ready(&mut self, grant: usize, ready: bool)
        requires { grant < length self.old.ready.items }
        ensures { SetsReady grant ready self.old self.new }
    {
        self.ready[grant] = ready;
    }

    /// A session of a connection begins, and is ready.
    pub fn open(&mut self, grant: usize, conn: u64)
        requires grant { grant < length self.old.list.items }
        requires fits { SeatsFit self.old }
        requires free { stands_at self.old grant ≡ Free }
        requires given { (session_at self.old grant).reply ≡ [] }
        requires fit { (session_at self.old grant).spent ≡ false }
        ensures begins { Begins grant conn self.old self.new }
        ensures shown { ShowsOpened grant conn self.old self.new }
    {
        let seat = &mut self.list[grant];
        seat.session.open(&self.layout);
        seat.conn = conn;
        self.ready[grant] = true;
    }

    // Whether a grant's session waits for the chain.
    fn is_in_line(&self, grant: usize) -> bool
        requires { grant < length self.now.list.items }
        ensures { result ≡ is_in_line (stands_at self.now grant) }
    {
        matches!(
            self.list[grant].session.stand(),
            Stand::Waits | Stand::Leaving
        )
    }

    // A grant that begins to wait is counted.
    fn count_join(&mut self, waited: bool, stop: Stop)
        ensures joins { self.new.joins ≡ joins_by waited stop self.old.joins }
        ensures rest { self.new ≡ record self.old { joins = self.new.joins } }
    {
        if !waited && stop == Stop::Waits {
            self.joins = self.joins.saturating_add(1);
        }
    }

    // A session that ended is noted.
    fn note_end(&mut self, grant: usize, stop: Stop)
        requires grant { grant < length self.old.list.items }
        requires few { length self.old.ended.items < 16 }
        requires room { 16 ≤ vec_capacity self.old.ended }
        ensures ended { self.new.ended.items ≡ self.old.ended.items ++ ends_by grant (entry self.old grant).conn stop }
        ensures room { 16 ≤ vec_capacity self.new.ended }
        ensures rest { self.new ≡ record self.old { ended = self.new.ended } }
    {
        if let Stop::Ended(end) = stop {
            let conn = self.list[grant].conn;
            self.ended.push_reserved(Ended { grant, conn, end });
        }
    }

    // It is noted how a call of a grant's session stopped.
    fn note(&mut self, grant: usize, waited: bool, stop: Stop)
        requires grant { grant < length self.old.list.items }
        requires few { length self.old.ended.items < 16 }
        requires room { 16 ≤ vec_capacity self.old.ended }
        ensures { NotesStop grant waited stop self.old self.new }
    {
        self.count_join(waited, stop);
        self.note_end(grant, stop);
    }

    // A grant's session takes bytes, and goes on as far as it may.
    fn feed_session<C: Cable>(
        &mut self,
        grant: usize,
        piece: &[u8],
        desk: Desk<C>,
    ) -> Result<(Stop, Desk<C>), Broken<C>>
        requires may { MayServe self.old desk (C.chain (cable_of desk.side)) (C.trst (cable_of desk.side)) }
        requires grant { grant < length self.old.list.items }
        requires going { stands_at self.old grant ≡ Going }
        requires given { (session_at self.old grant).reply ≡ [] }
        requires some { 1 ≤ length piece.now }
        requires wanted { length piece.now ≤ view_wants (session_at self.old grant) }
        ensures went { IfOk result (λ pair. WentAtDesk grant self.old self.new desk pair.1) }
        ensures stands { IfOk result (λ pair. stands_at self.new grant ≡ stand_after pair.0 false) }
        ensures came { IfOk result (λ pair. (given : List ℕ) (turn : Turn) → Shows (session_at self.old grant) false turn.seat given
            → ServedBy self.old.layout grant desk (C.chain (cable_of desk.side)) turn
            → CameOn self.old.layout grant (session_at self.new grant) given desk pair.1 (C.chain (cable_of desk.side)) (C.chain (cable_of pair.1.side)) (record turn { seat = received piece.now turn.seat }) pair.0) }
        ensures only { OnErr result (OnlySession grant self.old self.new) }
        ensures failed { IfErr result (λ broken. (given : List ℕ) (turn : Turn) → Shows (session_at self.old grant) false turn.seat given
            → ServedBy self.old.layout grant desk (C.chain (cable_of desk.side)) turn → RepliedBefore (session_at self.new grant) given (received piece.now turn.seat)) }
        ensures whole { IfOk result (λ pair. Told (C.chain (cable_of pair.1.side)) (IsWhole self.old.layout)) }
        ensures mark { C.mark (cable_then result) ≡ C.mark (cable_of desk.side) }
        ensures trst { C.trst (cable_then result) ≡ C.trst (cable_of desk.side) }
        ensures cause { HasCause (C.fault_count (cable_of desk.side)) (C.fault_count (cable_then result)) result }
    {
        let session = &mut self.list[grant].session;
        let (stop, desk) = session.feed(piece, desk, &self.layout)?;
        Ok((stop, desk))
    }

    // The session of a grant that is first in line goes on as far as it may.
    fn resume_session<C: Cable>(
        &mut self,
        grant: usize,
        desk: Desk<C>,
    ) -> Result<(Stop, Desk<C>), Broken<C>>
        requires may { MayServe self.old desk (C.chain (cable_of desk.side)) (C.trst (cable_of desk.side)) }
        requires grant { grant < length self.old.list.items }
        requires waits { is_in_line (stands_at self.old grant) ≡ true }
        requires first { may_open (holder desk) (waiting desk) grant ≡ true }
        ensures went { IfOk result (λ pair. WentAtDesk grant self.old self.new desk pair.1) }
        ensures stands { IfOk result (λ pair. stands_at self.new grant ≡ stand_after pair.0 (is_leaving (stands_at self.old grant))) }
        ensures here { OnOk result (stands_at self.new grant ≡ Going → is_leaving (stands_at self.old grant) ≡ false) }
        ensures came { IfOk result (λ pair. (given : List ℕ) (turn : Turn) → Shows (session_at self.old grant) true turn.seat given
            → ServedBy self.old.layout grant desk (C.chain (cable_of desk.side)) turn
            → CameOn self.old.layout grant (session_at self.new grant) given desk pair.1 (C.chain (cable_of desk.side)) (C.chain (cable_of pair.1.side)) turn pair.0) }
        ensures only { OnErr result (OnlySession grant self.old self.new) }
        ensures failed { IfErr result (λ broken. (given : List ℕ) (turn : Turn) → Shows (session_at self.old grant) true turn.seat given
            → ServedBy self.old.layout grant desk (C.chain (cable_of desk.side)) turn → RepliedBefore (session_at self.new grant) given turn.seat) }
        ensures whole { IfOk result (λ pair. Told (C.chain (cable_of pair.1.side)) (IsWhole self.old.layout)) }
        ensures mark { C.mark (cable_then result) ≡ C.mark (cable_of desk.side) }
        ensures trst { C.trst (cable_then result) ≡ C.trst (cable_of desk.side) }
        ensures cause { HasCause (C.fault_count (cable_of desk.side)) (C.fault_count (cable_then result)) result }
    {
        let session = &mut self.list[grant].session;
        let (stop, desk) = session.resume(desk, &self.layout)?;
        Ok((stop, desk))
    }

    // The peer of a grant's session is gone.
    fn drop_session<C: Cable>(
        &mut self,
        grant: usize,
        desk: Desk<C>,
    ) -> Result<(Stop, Desk<C>), Broken<C>>
        requires may { MayServe self.old desk (C.chain (cable_of desk.side)) (C.trst (cable_of desk.side)) }
        requires grant { grant < length self.old.list.items }
        requires here { is_here (stands_at self.old grant) ≡ true }
        requires rests { next_in_line (holder desk) (waiting desk) ≢ Some grant }
        ensures went { IfOk result (λ pair. WentAtDesk grant self.old self.new desk pair.1) }
        ensures stands { IfOk result (λ pair. stands_at self.new grant ≡ stand_after pair.0 true) }
        ensures left { OnOk result (stands_at self.new grant ≢ Going) }
        ensures came { IfOk result (λ pair. (given : List ℕ) (turn : Turn) → Shows (session_at self.old grant) (is_in_line (stands_at self.old grant)) turn.seat given
            → ServedBy self.old.layout grant desk (C.chain (cable_of desk.side)) turn
            → CameOn self.old.layout grant (session_at self.new grant) given desk pair.1 (C.chain (cable_of desk.side)) (C.chain (cable_of pair.1.side)) (record turn { seat = record turn.seat { gone = true } }) pair.0) }
        ensures only { OnErr result (OnlySession grant self.old self.new) }
        ensures failed { IfErr result (λ broken. (given : List ℕ) (turn : Turn) → Shows (session_at self.old grant) (is_in_line (stands_at self.old grant)) turn.seat given
            → ServedBy self.old.layout grant desk (C.chain (cable_of desk.side)) turn → RepliedBefore (session_at self.new grant) given (record turn.seat { gone = true })) }
        ensures whole { IfOk result (λ pair. Told (C.chain (cable_of pair.1.side)) (IsWhole self.old.layout)) }
        ensures mark { C.mark (cable_then result) ≡ C.mark (cable_of desk.side) }
        ensures trst { C.trst (cable_then result) ≡ C.trst (cable_of desk.side) }
        ensures cause { HasCause (C.fault_count (cable_of desk.side)) (C.fault_count (cable_then result)) result }
    {
        let session = &mut self.list[grant].session;
        let (stop, desk) = session.gone(desk, &self.layout)?;
        Ok((stop, desk))
    }

    // A grant's session takes bytes; what came of it is noted.
    fn feed<C: Cable>(
        &mut self,
        grant: usize,
        piece: &[u8],
        desk: Desk<C>,
    ) -> Result<Desk<C>, Broken<C>>
        requires may { MayServe self.old desk (C.chain (cable_of desk.side)) (C.trst (cable_of desk.side)) }
        requires grant { grant < length self.old.list.items }
        requires going { stands_at self.old grant ≡ Going }
        requires given { (session_at self.old grant).reply ≡ [] }
        requires some { 1 ≤ length piece.now }
        requires wanted { length piece.now ≤ view_wants (session_at self.old grant) }
        ensures may { IfOk result (λ next. MayServe self.new next (C.chain (cable_of next.side)) (C.trst (cable_of next.side))) }
        ensures kept { KeepsSeats self.old self.new }
        ensures ready { self.new.ready ≡ self.old.ready }
        ensures went { OnOk result (OneWent grant false self.old self.new) }
        ensures played { IfOk result (λ next. (setting : Setting) (given : ℕ → List ℕ) (play : Play) → AttendsOn setting self.old desk given (C.chain (cable_of desk.side)) play
            → GoneOn setting self.old self.new next given (C.chain (cable_of next.side)) play (go setting grant (with_seat grant (received piece.now (seat_at play grant)) play))) }
        ensures failed { OnErr result ((setting : Setting) (given : ℕ → List ℕ) (play : Play) → AttendsOn setting self.old desk given (C.chain (cable_of desk.side)) play
            → Fronts self.new given (with_seat grant (received piece.now (seat_at play grant)) play)) }
        ensures mark { C.mark (cable_after result) ≡ C.mark (cable_of desk.side) }
        ensures trst { C.trst (cable_after result) ≡ C.trst (cable_of desk.side) }
        ensures cause { HasCause (C.fault_count (cable_of desk.side)) (C.fault_count (cable_after result)) result }
    {
        let (stop, desk) = self.feed_session(grant, piece, desk)?;
        self.note(grant, false, stop);
        Ok(desk)
    }

    // The first in line goes on; what came of it is noted.
    fn resume<C: Cable>(&mut self, grant: usize, desk: Desk<C>) -> Result<Desk<C>, Broken<C>>
        requires may { MayServe self.old desk (C.chain (cable_of desk.side)) (C.trst (cable_of desk.side)) }
        requires grant { grant < length self.old.list.items }
        requires waits { is_in_line (stands_at self.old grant) ≡ true }
        requires first { may_open (holder desk) (waiting desk) grant ≡ true }
        ensures may { IfOk result (λ next. MayServe self.new next (C.chain (cable_of next.side)) (C.trst (cable_of next.side))) }
        ensures kept { KeepsSeats self.old self.new }
        ensures ready { self.new.ready ≡ self.old.ready }
        ensures went { OnOk result (LineWent self.old self.new) }
        ensures others { OnOk result (OthersStay grant self.old self.new) }
        ensures played { IfOk result (λ next. (setting : Setting) (given : ℕ → List ℕ) (play : Play) → AttendsOn setting self.old desk given (C.chain (cable_of desk.side)) play → IsCalm play
            → GoneOn setting self.old self.new next given (C.chain (cable_of next.side)) play (go setting grant play)) }
        ensures failed { OnErr result ((setting : Setting) (given : ℕ → List ℕ) (play : Play) → AttendsOn setting self.old desk given (C.chain (cable_of desk.side)) play → Fronts self.new given play) }
        ensures mark { C.mark (cable_after result) ≡ C.mark (cable_of desk.side) }
        ensures trst { C.trst (cable_after result) ≡ C.trst (cable_of desk.side) }
        ensures cause { HasCause (C.fault_count (cable_of desk.side)) (C.fault_count (cable_after result)) result }
    {
        let (stop, desk) = self.resume_session(grant, desk)?;
        self.note(grant, false, stop);
        Ok(desk)
    }

    // The peer of a grant's session is gone; what came of it is noted.
    fn drop_peer<C: Cable>(&mut self, grant: usize, desk: Desk<C>) -> Result<Desk<C>, Broken<C>>
        requires may { MayServe self.old desk (C.chain (cable_of desk.side)) (C.trst (cable_of desk.side)) }
        requires grant { grant < length self.old.list.items }
        requires here { is_here (stands_at self.old grant) ≡ true }
        requires rests { next_in_line (holder desk) (waiting desk) ≢ Some grant }
        ensures may { IfOk result (λ next. MayServe self.new next (C.chain (cable_of next.side)) (C.trst (cable_of next.side))) }
        ensures kept { KeepsSeats self.old self.new }
        ensures ready { self.new.ready ≡ self.old.ready }
        ensures went { OnOk result (OneWent grant true self.old self.new) }
        ensures played { IfOk result (λ next. (setting : Setting) (given : ℕ → List ℕ) (play : Play) → AttendsOn setting self.old desk given (C.chain (cable_of desk.side)) play → IsCalm play
            → GoneOn setting self.old self.new next given (C.chain (cable_of next.side)) play (go setting grant (with_seat grant (record (seat_at play grant) { gone = true }) play))) }
        ensures failed { OnErr result ((setting : Setting) (given : ℕ → List ℕ) (play : Play) → AttendsOn setting self.old desk given (C.chain (cable_of desk.side)) play
            → Fronts self.new given (with_seat grant (record (seat_at play grant) { gone = true }) play)) }
        ensures mark { C.mark (cable_after result) ≡ C.mark (cable_of desk.side) }
        ensures trst { C.trst (cable_after result) ≡ C.trst (cable_of desk.side) }
        ensures cause { HasCause (C.fault_count (cable_of desk.side)) (C.fault_count (cable_after result)) result }
    {
        let waited = self.is_in_line(grant);
        let (stop, desk) = self.drop_session(grant, desk)?;
        self.note(grant, waited, stop);
        Ok(desk)
    }

    // The chain is handed on to a grant, which is ready then.
    fn hand_to<C: Cable>(&mut self, grant: usize, desk: Desk<C>) -> Result<Desk<C>, Broken<C>>
        requires may { MayServe self.old desk (C.chain (cable_of desk.side)) (C.trst (cable_of desk.side)) }
        requires next { next_in_line (holder desk) (waiting desk) ≡ Some grant }
        ensures may { IfOk result (λ next. MayServe self.new next (C.chain (cable_of next.side)) (C.trst (cable_of next.side))) }
        ensures kept { KeepsSeats self.old self.new }
        ensures went { OnOk result (LineWent self.old self.new) }
        ensures ready { OnOk result (EachReady self.old self.new) }
        ensures played { IfOk result (λ next. (setting : Setting) (given : ℕ → List ℕ) (play : Play) → AttendsOn setting self.old desk given (C.chain (cable_of desk.side)) play → IsCalm play
            → HandedOn setting self.old self.new next given (C.chain (cable_of next.side)) play 1) }
        ensures failed { OnErr result ((setting : Setting) (given : ℕ → List ℕ) (play : Play) → AttendsOn setting self.old desk given (C.chain (cable_of desk.side)) play → Fronts self.new given play) }
        ensures mark { C.mark (cable_after result) ≡ C.mark (cable_of desk.side) }
        ensures trst { C.trst (cable_after result) ≡ C.trst (cable_of desk.side) }
        ensures cause { HasCause (C.fault_count (cable_of desk.side)) (C.fault_count (cable_after result)) result }
    {
        let desk = self.resume(grant, desk)?;
        self.set_ready(grant, true);
        Ok(desk)
    }

    // While nobody holds the chain, the first in line goes on.
    fn hand_on<C: Cable>(&mut self, desk: Desk<C>) -> Result<Desk<C>, Broken<C>>
        requires may { MayServe self.old desk (C.chain (cable_of desk.side)) (C.trst (cable_of desk.side)) }
        ensures may { IfOk result (λ next. MayServe self.new next (C.chain (cable_of next.side)) (C.trst (cable_of next.side))) }
        ensures kept { KeepsSeats self.old self.new }
        ensures went { OnOk result (LineWent self.old self.new) }
        ensures ready { OnOk result (EachReady self.old self.new) }
        ensures played { IfOk result (λ next. (setting : Setting) (given : ℕ → List ℕ) (play : Play) → AttendsOn setting self.old desk given (C.chain (cable_of desk.side)) play → IsCalm play
            → HandedOn setting self.old self.new next given (C.chain (cable_of next.side)) play (all_steps_left play.seats)) }
        ensures failed { OnErr result ((setting : Setting) (given : ℕ → List ℕ) (play : Play) → AttendsOn setting self.old desk given (C.chain (cable_of desk.side)) play → IsCalm play → Fronts self.new given play) }
        ensures mark { C.mark (cable_after result) ≡ C.mark (cable_of desk.side) }
        ensures trst { C.trst (cable_after result) ≡ C.trst (cable_of desk.side) }
        ensures cause { HasCause (C.fault_count (cable_of desk.side)) (C.fault_count (cable_after result)) result }
    {
        let mut desk = desk;
        for _ in 0..MOST_TURNS {
            let Some(grant) = desk.next() else {
                return Ok(desk);
            };
            desk = self.hand_to(grant, desk)?;
        }
        Ok(desk)
    }

    // Those that ended since so many had are not ready.
    fn rest_ended(&mut self, earlier: usize)
        requires { earlier ≤ length self.old.ended.items }
        ensures only { OnlyReady self.old self.new }
        ensures ready { self.new.ready.items ≡ with_ready false (map (λ ended. ended.grant) (drop earlier self.old.ended.items)) self.old.ready.items }
    {
        unready(&mut self.ready, &self.ended[earlier..]);
    }

    // While nobody holds the chain, the first in line goes on; then those that ended since so many had are not ready.
    fn pass_on<C: Cable>(&mut self, earlier: usize, desk: Desk<C>) -> Result<Desk<C>, Broken<C>>
        requires may { MayServe self.old desk (C.chain (cable_of desk.side)) (C.trst (cable_of desk.side)) }
        requires earlier { earlier ≤ length self.old.ended.items }
        ensures may { IfOk result (λ next. MayServe self.new next (C.chain (cable_of next.side)) (C.trst (cable_of next.side))) }
        ensures kept { KeepsSeats self.old self.new }
        ensures went { OnOk result (LineWent self.old self.new) }
        ensures ready { OnOk result (EachReady self.old self.new) }
        ensures played { IfOk result (λ next. (setting : Setting) (given : ℕ → List ℕ) (play : Play) → AttendsOn setting self.old desk given (C.chain (cable_of desk.side)) play → IsCalm play
            → PassedOn setting self.old self.new next given (C.chain (cable_of next.side)) play earlier) }
        ensures failed { OnErr result ((setting : Setting) (given : ℕ → List ℕ) (play : Play) → AttendsOn setting self.old desk given (C.chain (cable_of desk.side)) play → IsCalm play → Fronts self.new given play) }
        ensures mark { C.mark (cable_after result) ≡ C.mark (cable_of desk.side) }
        ensures trst { C.trst (cable_after result) ≡ C.trst (cable_of desk.side) }
        ensures cause { HasCause (C.fault_count (cable_of desk.side)) (C.fault_count (cable_after result)) result }
    {
        let desk = self.hand_on(desk)?;
        self.rest_ended(earlier);
        Ok(desk)
    }

    /// A grant's session takes bytes, and then the chain is handed on.
    ///
    /// `Broken` comes only where the cable's count of faults rose in the call.
    pub fn took<C: Cable>(
        &mut self,
        grant: usize,
        piece: &[u8],
        desk: Desk<C>,
    ) -> Result<Desk<C>, Broken<C>>
        requires may { MayServe self.old desk (C.chain (cable_of desk.side)) (C.trst (cable_of desk.side)) }
        requires grant { grant < length self.old.list.items }
        requires going { stands_at self.old grant ≡ Going }
        requires given { (session_at self.old grant).reply ≡ [] }
        requires some { 1 ≤ length piece.now }
        requires wanted { length piece.now ≤ view_wants (session_at self.old grant) }
        ensures may { IfOk result (λ next. MayServe self.new next (C.chain (cable_of next.side)) (C.trst (cable_of next.side))) }
        ensures kept { KeepsSeats self.old self.new }
        ensures went { OnOk result (SeatsWent grant false self.old self.new) }
        ensures played { IfOk result (λ next. (setting : Setting) (given : ℕ → List ℕ) (play : Play) → AttendsOn setting self.old desk given (C.chain (cable_of desk.side)) play → IsCalm play → next_in_line play.holder play.waiting ≡ None
            → MovedOn setting self.old self.new next given (C.chain (cable_of next.side)) play (record { grant = grant; seat = received piece.now (seat_at play grant) })) }
        ensures failed { OnErr result ((setting : Setting) (given : ℕ → List ℕ) (play : Play) → AttendsOn setting self.old desk given (C.chain (cable_of desk.side)) play → IsCalm play
            → Fronts self.new given (with_seat grant (received piece.now (seat_at play grant)) play)) }
        ensures mark { C.mark (cable_after result) ≡ C.mark (cable_of desk.side) }
        ensures trst { C.trst (cable_after result) ≡ C.trst (cable_of desk.side) }
        ensures cause { HasCause (C.fault_count (cable_of desk.side)) (C.fault_count (cable_after result)) result }
    {
        let earlier = self.ended.len();
        let fed = self.feed(grant, piece, desk)?;
        let desk = self.pass_on(earlier, fed)?;
        Ok(desk)
    }

    // The peer of a grant's session is gone, which is not to go on next; then the chain is handed on.
    fn drop_and_pass<C: Cable>(&mut self, grant: usize, desk: Desk<C>) -> Result<Desk<C>, Broken<C>>
        requires may { MayServe self.old desk (C.chain (cable_of desk.side)) (C.trst (cable_of desk.side)) }
        requires grant { grant < length self.old.list.items }
        requires here { is_here (stands_at self.old grant) ≡ true }
        requires rests { next_in_line (holder desk) (waiting desk) ≢ Some grant }
        ensures may { IfOk result (λ next. MayServe self.new next (C.chain (cable_of next.side)) (C.trst (cable_of next.side))) }
        ensures kept { KeepsSeats self.old self.new }
        ensures went { OnOk result (SeatsWent grant true self.old self.new) }
        ensures played { IfOk result (λ next. (setting : Setting) (given : ℕ → List ℕ) (play : Play) → AttendsOn setting self.old desk given (C.chain (cable_of desk.side)) play → IsCalm play → next_in_line play.holder play.waiting ≡ None
            → MovedOn setting self.old self.new next given (C.chain (cable_of next.side)) play (record { grant = grant; seat = record (seat_at play grant) { gone = true } })) }
        ensures failed { OnErr result ((setting : Setting) (given : ℕ → List ℕ) (play : Play) → AttendsOn setting self.old desk given (C.chain (cable_of desk.side)) play → IsCalm play
            → Fronts self.new given (with_seat grant (record (seat_at play grant) { gone = true }) play)) }
        ensures mark { C.mark (cable_after result) ≡ C.mark (cable_of desk.side) }
        ensures trst { C.trst (cable_after result) ≡ C.trst (cable_of desk.side) }
        ensures cause { HasCause (C.fault_count (cable_of desk.side)) (C.fault_count (cable_after result)) result }
    {
        let earlier = self.ended.len();
        let left = self.drop_peer(grant, desk)?;
        let desk = self.pass_on(earlier, left)?;
        Ok(desk)
    }

    /// The peer of a grant's session is gone, and then the chain is handed on. Where the grant is to go on next, nothing happens; over a cable that
    /// tells its chain, this never is so between two calls.
    ///
    /// `Broken` comes only where the cable's count of faults rose in the call.
    pub fn peer_gone<C: Cable>(&mut self, grant: usize, desk: Desk<C>) -> Result<Desk<C>, Broken<C>>
        requires may { MayServe self.old desk (C.chain (cable_of desk.side)) (C.trst (cable_of desk.side)) }
        requires grant { grant < length self.old.list.items }
        requires here { is_here (stands_at self.old grant) ≡ true }
        ensures may { IfOk result (λ next. MayServe self.new next (C.chain (cable_of next.side)) (C.trst (cable_of next.side))) }
        ensures kept { KeepsSeats self.old self.new }
        ensures went { next_in_line (holder desk) (waiting desk) ≢ Some grant → OnOk result (SeatsWent grant true self.old self.new) }
        ensures played { IfOk result (λ next. (setting : Setting) (given : ℕ → List ℕ) (play : Play) → AttendsOn setting self.old desk given (C.chain (cable_of desk.side)) play → IsCalm play → next_in_line play.holder play.waiting ≡ None
            → MovedOn setting self.old self.new next given (C.chain (cable_of next.side)) play (record { grant = grant; seat = record (seat_at play grant) { gone = true } })) }
        ensures failed { OnErr result ((setting : Setting) (given : ℕ → List ℕ) (play : Play) → AttendsOn setting self.old desk given (C.chain (cable_of desk.side)) play → IsCalm play
            → Fronts self.new given (with_seat grant (record (seat_at play grant) { gone = true }) play)) }
        ensures mark { C.mark (cable_after result) ≡ C.mark (cable_of desk.side) }
        ensures trst { C.trst (cable_after result) ≡ C.trst (cable_of desk.side) }
        ensures cause { HasCause (C.fault_count (cable_of desk.side)) (C.fault_count (cable_after result)) result }
    {
        if desk.next() == Some(grant) {
            return Ok(desk);
        }
        self.drop_and_pass(grant, desk)
    }
}

// A free session for each grant of a layout.
fn free_seats(
    alloc: Global,
    layout: &Layout,
    vector: u32,
    uses_trst: bool,
) -> Result<Vec<Seat>, AllocError>
    requires some { 1 ≤ vector }
    requires most { vector ≤ 65536 }
    ensures layout { IsLayout layout.now }
    ensures apart { KeepsApart layout.now }
    ensures parts { AllParts layout.now.parts }
    ensures count { IfOk result (λ list. length list.items ≡ length layout.now.grants) }
    ensures few { length layout.now.grants ≤ 16 }
    ensures each { IfOk result (λ list. EachIsFree layout.now vector uses_trst list.items) }
{
    let _devices = layout.devices();
    let count = layout.grants();
    let mut list = Vec::with_capacity(alloc, count)?;
    for grant in 0..count {
        let session = Session::new(alloc, layout, grant, vector, uses_trst)?;
        list.push_reserved(Seat { session, conn: 0 });
    }
    Ok(list)
}

// No session is ready, of so many.
fn none_ready(alloc: Global, count: usize) -> Result<Vec<bool>, AllocError>
    ensures { IfOk result (λ ready. ready.items ≡ replicate count false) }
{
    let mut ready = Vec::with_capacity(alloc, count)?;
    for _ in 0..count {
        ready.push_reserved(false);
    }
    Ok(ready)
}

// A grant's session is not ready.
fn unset(ready: &mut [bool], grant: usize)
    ensures { ready.new ≡ slice_set ready.old grant false }
{
    if grant < ready.len() {
        ready[grant] = false;
    }
}

// These sessions are not ready.
fn unready(ready: &mut [bool], ended: &[Ended])
    ensures { ready.new ≡ with_ready false (map (λ one. one.grant) ended.now) ready.old }
{
    for one in ended.iter() {
        unset(ready, one.grant);
    }
}
