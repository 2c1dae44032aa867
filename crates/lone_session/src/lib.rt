//! One session of a grant that is by itself, served from an input to an output over the shared chain.
#![tactic(auto)]

ghost use Rattle.std.specs.Prelude.{◌≡◌, ◌≤◌, ◌<◌, ◌+◌, ◌++◌, ℕ, List, [], false, length, None, Some, IfOk, IfErr, IfSome, IfNone, OnOk, OnErr};
ghost use Rattle.std.specs.declared.option.Option.{Option};
ghost use Rattle.std.specs.Io.KnownBytes.{Appends, Consumes};
ghost use Rattle.ports.specs.Streams.{AppendsFront};
ghost use Rattle.base_types.specs.Counts.{HasCause};
ghost use Rattle.client_session.specs.declared.Stand.TheVariants.{Free};
ghost use Rattle.client_session.specs.declared.Stop.TheVariants.{Done};
ghost use Rattle.client_session.specs.Seats.{IsFinished, gone_end, replies_now};
ghost use Rattle.client_session.specs.Turns.{Turn};
ghost use Rattle.client_session.specs.Laws.{IsByItself};
ghost use Rattle.client_session.specs.Sessions.{DeskView, IsPrefix, Shows, stand_after, view_wants};
ghost use Rattle.client_session.specs.Stores.{KeepsSession};
ghost use Rattle.client_session.specs.Desks.{IsSound, cable_of, cable_then};
ghost use Rattle.client_session.specs.Calls.{ServedBy};
ghost use Rattle.lone_session.specs.Serving.{EndsAt, HasCauses, ServedBetween, WasCutOff, after_bytes};
ghost use Rattle.lone_session.specs.Steps.{Closed, EndsItself, FedTo, GoesOn, IsReady, NeverWaits, Reached, TakesMore, TurnCauses, TurnedTo};

use chain_model::Cable;
use client_session::{Desk, End, Session, Stop, sound};
use grant_table::Layout;
use ports::{PortFault, Sink, Source, write_all};
use scan_share::Broken;

/// How the bytes of an input came to their end.
#[derive(Clone, Copy, Debug, PartialEq, Eq)]
pub enum Served {
    /// The session ended so.
    Ended(End),
    /// A read failed, and the session was ended as where its peer is gone.
    ReadFault,
    /// A write failed, and the session was ended as where its peer is gone, unless it had ended.
    WriteFault,
}

// The session uses bytes that came.
fn feed<C: Cable>(
    session: &mut Session,
    piece: &[u8],
    desk: Desk<C>,
    layout: &Layout,
) -> Result<(Stop, Desk<C>), Broken<C>>
    requires ready { IsReady layout.now session.old desk (C.chain (cable_of desk.side)) (C.trst (cable_of desk.side)) }
    requires sound { IsSound layout.now session.old.grant }
    requires some { 1 ≤ length piece.now }
    requires wanted { length piece.now ≤ view_wants session.old.view }
    ensures kept { KeepsSession session.old session.new }
    ensures fit { OnOk result (session.new.view.spent ≡ false) }
    ensures stands { IfOk result (λ pair. session.new.view.stand ≡ stand_after pair.0 false) }
    ensures moves { IfOk result (λ pair. NeverWaits pair.0) }
    ensures itself { IfOk result (λ pair. EndsItself pair.0) }
    ensures taken { IfOk result (λ pair. pair.0 ≡ Done → TakesMore session.old.view session.new.view) }
    ensures ready { IfOk result (λ pair. pair.0 ≡ Done → IsReady layout.now (record session.new { view = record session.new.view { reply = [] } }) pair.1 (C.chain (cable_of pair.1.side)) (C.trst (cable_of pair.1.side))) }
    ensures fed { IfOk result (λ pair. (old_desk : DeskView) (start : Turn) (taken replies : List ℕ) → Reached layout.now session.old.grant session.old.view old_desk desk (C.chain (cable_of desk.side)) start taken replies
        → FedTo pair.0 layout.now session.old.grant session.new.view old_desk pair.1 (C.chain (cable_of pair.1.side)) start (taken ++ piece.now) (replies ++ session.new.view.reply)) }
    ensures failed { IfErr result (λ broken. (old_desk : DeskView) (start : Turn) (taken replies : List ℕ) → Reached layout.now session.old.grant session.old.view old_desk desk (C.chain (cable_of desk.side)) start taken replies
        → IsPrefix replies (replies_now (after_bytes (taken ++ piece.now) start.seat))) }
    ensures mark { C.mark (cable_then result) ≡ C.mark (cable_of desk.side) }
    ensures trst { C.trst (cable_then result) ≡ C.trst (cable_of desk.side) }
    ensures cause { HasCause (C.fault_count (cable_of desk.side)) (C.fault_count (cable_then result)) result }
{
    let (stop, desk) = session.feed(piece, desk, layout)?;
    Ok((stop, desk))
}

// The session's peer is gone. It answers how the session ended.
fn drop_peer<C: Cable>(
    session: &mut Session,
    desk: Desk<C>,
    layout: &Layout,
) -> Result<(End, Desk<C>), Broken<C>>
    requires ready { IsReady layout.now session.old desk (C.chain (cable_of desk.side)) (C.trst (cable_of desk.side)) }
    requires sound { IsSound layout.now session.old.grant }
    ensures kept { KeepsSession session.old session.new }
    ensures fit { OnOk result (session.new.view.spent ≡ false) }
    ensures free { OnOk result (session.new.view.stand ≡ Free) }
    ensures value { IfOk result (λ pair. pair.0 ≡ gone_end session.old.view.used session.old.view.unused) }
    ensures dropped { IfOk result (λ pair. (old_desk : DeskView) (start : Turn) (taken replies : List ℕ) → Reached layout.now session.old.grant session.old.view old_desk desk (C.chain (cable_of desk.side)) start taken replies
        → Closed layout.now session.old.grant old_desk pair.1 (C.chain (cable_of pair.1.side)) start taken replies pair.0) }
    ensures mark { C.mark (cable_then result) ≡ C.mark (cable_of desk.side) }
    ensures trst { C.trst (cable_then result) ≡ C.trst (cable_of desk.side) }
    ensures cause { HasCause (C.fault_count (cable_of desk.side)) (C.fault_count (cable_then result)) result }
{
    let (stop, desk) = session.gone(desk, layout)?;
    match stop {
        Stop::Ended(end) => Ok((end, desk)),
        _ => unreachable!(),
    }
}

// Writes the session's reply, and forgets it.
fn give<O: Sink>(session: &mut Session, out: &mut O) -> Result<(), PortFault>
    ensures session { session.new ≡ record session.old { view = record session.old.view { reply = [] } } }
    ensures whole { OnOk result (Appends (O.sent out.old) (O.sent out.new) session.old.view.reply) }
    ensures front { OnErr result (AppendsFront (O.sent out.old) (O.sent out.new) session.old.view.reply) }
    ensures cause { HasCause (O.fault_count out.old) (O.fault_count out.new) result }
{
    let written = write_all(out, session.reply());
    session.drop_reply();
    written
}

// The session uses bytes that came from the input, and its replies go out. It answers how the input's bytes came to their end, where they did.
fn answer<C: Cable, O: Sink>(
    session: &mut Session,
    piece: &[u8],
    desk: Desk<C>,
    layout: &Layout,
    out: &mut O,
) -> Result<(Option<Served>, Desk<C>), Broken<C>>
    requires ready { IsReady layout.now session.old desk (C.chain (cable_of desk.side)) (C.trst (cable_of desk.side)) }
    requires sound { IsSound layout.now session.old.grant }
    requires some { 1 ≤ length piece.now }
    requires wanted { length piece.now ≤ view_wants session.old.view }
    ensures kept { KeepsSession session.old session.new }
    ensures fit { OnOk result (session.new.view.spent ≡ false) }
    ensures stands { IfOk result (λ pair. IfSome pair.0 (λ served. session.new.view.stand ≡ Free)) }
    ensures ends { IfOk result (λ pair. IfSome pair.0 (λ served. (rest : Option (List ℕ)) → EndsAt served rest)) }
    ensures taken { IfOk result (λ pair. IfNone pair.0 (TakesMore session.old.view session.new.view)) }
    ensures ready { IfOk result (λ pair. IfNone pair.0 (IsReady layout.now session.new pair.1 (C.chain (cable_of pair.1.side)) (C.trst (cable_of pair.1.side)))) }
    ensures went { IfOk result (λ pair. (left between rest sent : Option (List ℕ)) (old_desk : DeskView) (start : Turn) → Consumes between rest piece.now
        → GoesOn layout.now session.old.grant session.old.view left between sent (O.sent out.old) old_desk desk (C.chain (cable_of desk.side)) start
        → TurnedTo pair.0 layout.now session.old.grant session.new.view left rest sent (O.sent out.new) old_desk pair.1 (C.chain (cable_of pair.1.side)) start) }
    ensures failed { IfErr result (λ broken. (left between rest sent : Option (List ℕ)) (old_desk : DeskView) (start : Turn) → Consumes between rest piece.now
        → GoesOn layout.now session.old.grant session.old.view left between sent (O.sent out.old) old_desk desk (C.chain (cable_of desk.side)) start
        → WasCutOff left rest sent (O.sent out.new) start.seat) }
    ensures mark { C.mark (cable_then result) ≡ C.mark (cable_of desk.side) }
    ensures trst { C.trst (cable_then result) ≡ C.trst (cable_of desk.side) }
    ensures causes { TurnCauses result 0 0 (C.fault_count (cable_of desk.side)) (C.fault_count (cable_then result)) (O.fault_count out.old) (O.fault_count out.new) }
{
    let (stop, desk) = feed(session, piece, desk, layout)?;
    let written = give(session, out);
    match stop {
        Stop::Waits => unreachable!(),
        Stop::Ended(end) => {
            if written.is_err() {
                return Ok((Some(Served::WriteFault), desk));
            }
            Ok((Some(Served::Ended(end)), desk))
        }
        Stop::Done => {
            if written.is_ok() {
                return Ok((None, desk));
            }
            let (_end, desk) = drop_peer(session, desk, layout)?;
            Ok((Some(Served::WriteFault), desk))
        }
    }
}

// One turn: takes the bytes that the session wants next, uses them, and gives their replies. It answers how the input's bytes came to their
// end, where they did.
fn turn<C: Cable, I: Source, O: Sink>(
    session: &mut Session,
    desk: Desk<C>,
    layout: &Layout,
    buffer: &mut [u8],
    input: &mut I,
    out: &mut O,
) -> Result<(Option<Served>, Desk<C>), Broken<C>>
    requires ready { IsReady layout.now session.old desk (C.chain (cable_of desk.side)) (C.trst (cable_of desk.side)) }
    requires sound { IsSound layout.now session.old.grant }
    requires buffer { 0 < length buffer.old }
    ensures buffer { length buffer.new ≡ length buffer.old }
    ensures kept { KeepsSession session.old session.new }
    ensures fit { OnOk result (session.new.view.spent ≡ false) }
    ensures stands { IfOk result (λ pair. IfSome pair.0 (λ served. session.new.view.stand ≡ Free)) }
    ensures ends { IfOk result (λ pair. IfSome pair.0 (λ served. EndsAt served (I.left input.new))) }
    ensures taken { IfOk result (λ pair. IfNone pair.0 (TakesMore session.old.view session.new.view)) }
    ensures ready { IfOk result (λ pair. IfNone pair.0 (IsReady layout.now session.new pair.1 (C.chain (cable_of pair.1.side)) (C.trst (cable_of pair.1.side)))) }
    ensures went { IfOk result (λ pair. (left sent : Option (List ℕ)) (old_desk : DeskView) (start : Turn)
        → GoesOn layout.now session.old.grant session.old.view left (I.left input.old) sent (O.sent out.old) old_desk desk (C.chain (cable_of desk.side)) start
        → TurnedTo pair.0 layout.now session.old.grant session.new.view left (I.left input.new) sent (O.sent out.new) old_desk pair.1 (C.chain (cable_of pair.1.side)) start) }
    ensures failed { IfErr result (λ broken. (left sent : Option (List ℕ)) (old_desk : DeskView) (start : Turn)
        → GoesOn layout.now session.old.grant session.old.view left (I.left input.old) sent (O.sent out.old) old_desk desk (C.chain (cable_of desk.side)) start
        → WasCutOff left (I.left input.new) sent (O.sent out.new) start.seat) }
    ensures mark { C.mark (cable_then result) ≡ C.mark (cable_of desk.side) }
    ensures trst { C.trst (cable_then result) ≡ C.trst (cable_of desk.side) }
    ensures causes { TurnCauses result (I.fault_count input.old) (I.fault_count input.new) (C.fault_count (cable_of desk.side)) (C.fault_count (cable_then result)) (O.fault_count out.old) (O.fault_count out.new) }
{
    let most = session.want().min(buffer.len());
    let Ok(count) = input.read(&mut buffer[..most]) else {
        let (_end, desk) = drop_peer(session, desk, layout)?;
        return Ok((Some(Served::ReadFault), desk));
    };
    if count == 0 {
        let (end, desk) = drop_peer(session, desk, layout)?;
        return Ok((Some(Served::Ended(end)), desk));
    }
    let (served, desk) = answer(session, &buffer[..count], desk, layout, out)?;
    Ok((served, desk))
}

/// Serves a session from an input to an output, until it ends, the input ends, or a read or a write fails; then it has ended, and is free.
/// It was opened and waits for bytes, its replies were given, and nobody else is at the desk. At most as many bytes are read at a time as
/// the session wants and the buffer holds. The buffer is not empty.
///
/// `Gone` and `Cut` are answered only where the input is at its end.
///
/// Where the cable tells its chain and the grant is by itself, the session is what its grant's private chain makes of the bytes that were
/// taken: its replies went out, all of them where no write failed, and all other devices hold what they held.
///
/// `Broken` comes only where the cable's count of faults rose. The replies that went out are then a front of the private ones.
pub fn serve<C: Cable, I: Source, O: Sink>(
    session: &mut Session,
    desk: Desk<C>,
    layout: &Layout,
    buffer: &mut [u8],
    input: &mut I,
    out: &mut O,
) -> Result<(Served, Desk<C>), Broken<C>>
    requires ready { IsReady layout.now session.old desk (C.chain (cable_of desk.side)) (C.trst (cable_of desk.side)) }
    requires buffer { 0 < length buffer.old }
    ensures kept { KeepsSession session.old session.new }
    ensures fit { OnOk result (session.new.view.spent ≡ false) }
    ensures stands { OnOk result (session.new.view.stand ≡ Free) }
    ensures ends { IfOk result (λ pair. EndsAt pair.0 (I.left input.new)) }
    ensures served { IfOk result (λ pair. (turn : Turn) → Shows session.old.view false turn.seat [] → IsFinished turn.seat
        → ServedBy layout.now session.old.grant desk (C.chain (cable_of desk.side)) turn → IsByItself session.old.grant turn
        → ServedBetween layout.now session.old.grant pair.0 (I.left input.old) (I.left input.new) (O.sent out.old) (O.sent out.new) desk pair.1 (C.chain (cable_of desk.side)) (C.chain (cable_of pair.1.side)) turn) }
    ensures failed { IfErr result (λ broken. (turn : Turn) → Shows session.old.view false turn.seat [] → IsFinished turn.seat
        → ServedBy layout.now session.old.grant desk (C.chain (cable_of desk.side)) turn → IsByItself session.old.grant turn
        → WasCutOff (I.left input.old) (I.left input.new) (O.sent out.old) (O.sent out.new) turn.seat) }
    ensures mark { C.mark (cable_then result) ≡ C.mark (cable_of desk.side) }
    ensures trst { C.trst (cable_then result) ≡ C.trst (cable_of desk.side) }
    ensures causes { HasCauses result (I.fault_count input.old) (I.fault_count input.new) (C.fault_count (cable_of desk.side)) (C.fault_count (cable_then result)) (O.fault_count out.old) (O.fault_count out.new) }
{
    sound(layout, session.grant());
    let mut desk = desk;
    loop {
        let (served, next) = turn(session, desk, layout, buffer, input, out)?;
        desk = next;
        if let Some(served) = served {
            return Ok((served, desk));
        }
    }
}
