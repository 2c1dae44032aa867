// What a session does at the desk with the shared chain.
ghost use Rattle.std.specs.Prelude.{◌≡◌, ◌<◌, IfOk, true, false, length, is_some};
ghost use Rattle.base_types.specs.Counts.{HasCause};
ghost use Rattle.base_types.specs.Tellings.{Told};
ghost use Rattle.tap_states.specs.declared.Tap.TheVariants.{TestLogicReset};
ghost use Rattle.scan_share.specs.Scans.{IsWhole};
ghost use Rattle.chain_token.specs.Tokens.{waiting};
ghost use Rattle.virtual_tap.specs.Taps.{IsOfLayout};
ghost use Rattle.virtual_tap.specs.Views.{at_capture};
ghost use Rattle.client_session.specs.Turns.{Turn};
ghost use Rattle.client_session.specs.Sessions.{DeskView};
ghost use Rattle.client_session.specs.Going.{EndsNext, ResetsNext};
ghost use Rattle.client_session.specs.Desks.{AbandonsScan, Attends, Closed, IsDesk, IsSound, KeepsOthers, Opened, StepsTo, cable_after, cable_of};

use chain_model::Cable;
use chain_token::{Asked, Queue, Token};
use grant_table::Layout;
use scan_share::{Broken, Open, Parked};
use virtual_tap::VTap;

/// The desk: the shared chain, free or with a grant's open scan, and the grants that wait for it.
pub type Desk<C> = Token<Parked<C>, Open<C>>;

/// Leaves the desk as it stands, and hands the cable back; an open scan stays open.
pub fn leave<C: Cable>(desk: Desk<C>) -> C
    ensures { result ≡ cable_of desk.side }
{
    if desk.held_by().is_some() {
        let (held, _queue) = desk.release();
        return held.leave();
    }
    let next = desk.next().unwrap_or(0);
    match desk.ask(next) {
        Asked::Yours(parked, _queue) => parked.into_cable(),
        Asked::Wait(_desk) => unreachable!(),
    }
}

/// What always holds of a layout and a grant of it, for a caller's proofs; it does nothing.
pub fn sound(layout: &Layout, grant: usize)
    requires { grant < length layout.now.grants }
    ensures { IsSound layout.now grant }
{
    let _devices = layout.devices();
    let _grants = layout.grants();
}

/// Captures for a grant on the free chain, and opens the scan of its virtual TAP with the captured bits.
pub fn capture<C: Cable>(
    tap: &mut VTap,
    grant: usize,
    parked: Parked<C>,
    queue: Queue,
    layout: &Layout,
) -> Result<Desk<C>, Broken<C>>
    requires layout { IsOfLayout layout.now tap.old }
    requires grant { tap.old.grant ≡ grant }
    requires sound { IsSound layout.now grant }
    requires capture { at_capture tap.old.view ≡ true }
    requires there { is_some tap.old.view.register ≡ true }
    requires whole { Told (C.chain parked.cable) (IsWhole layout.now) }
    ensures opened { IfOk result (λ desk. Opened layout.now grant queue tap.old tap.new desk (C.chain parked.cable) (C.chain (cable_of desk.side))) }
    ensures there { IfOk result (λ desk. is_some tap.new.view.register ≡ true) }
    ensures whole { IfOk result (λ desk. Told (C.chain (cable_of desk.side)) (IsWhole layout.now)) }
    ensures same { (tap.new.grant ≡ tap.old.grant) × (tap.new.parts ≡ tap.old.parts) }
    ensures mark { C.mark (cable_after result) ≡ C.mark parked.cable }
    ensures trst { C.trst (cable_after result) ≡ C.trst parked.cable }
    ensures cause { HasCause (C.fault_count parked.cable) (C.fault_count (cable_after result)) result }
{
    let mut register = tap.take_register();
    match parked.capture(layout, grant, tap.codes(), &mut register) {
        Ok(held) => {
            tap.open_scan(layout, register);
            Ok(Token::hold(held, grant, queue))
        }
        Err(broken) => Err(broken),
    }
}

/// Updates from the register of the grant's virtual TAP, whose scan is then closed, and leaves the chain free.
pub fn update<C: Cable>(
    tap: &mut VTap,
    grant: usize,
    desk: Desk<C>,
    layout: &Layout,
) -> Result<Desk<C>, Broken<C>>
    requires layout { IsOfLayout layout.now tap.old }
    requires grant { tap.old.grant ≡ grant }
    requires sound { IsSound layout.now grant }
    requires scan { tap.old.view.scan_open ≡ true }
    requires desk { IsDesk layout.now grant tap.old.view desk }
    requires whole { Told (C.chain (cable_of desk.side)) (IsWhole layout.now) }
    ensures closed { IfOk result (λ next. Closed layout.now grant (waiting desk) tap.old tap.new next (C.chain (cable_of desk.side)) (C.chain (cable_of next.side))) }
    ensures whole { IfOk result (λ next. Told (C.chain (cable_of next.side)) (IsWhole layout.now)) }
    ensures same { (tap.new.grant ≡ tap.old.grant) × (tap.new.parts ≡ tap.old.parts) }
    ensures others { IfOk result (KeepsOthers grant desk) }
    ensures mark { C.mark (cable_after result) ≡ C.mark (cable_of desk.side) }
    ensures trst { C.trst (cable_after result) ≡ C.trst (cable_of desk.side) }
    ensures cause { HasCause (C.fault_count (cable_of desk.side)) (C.fault_count (cable_after result)) result }
{
    let (held, queue) = desk.release();
    match held.update(layout, grant, tap.codes(), tap.register()) {
        Ok(parked) => {
            tap.close_scan();
            Ok(Token::free(parked, queue))
        }
        Err(broken) => Err(broken),
    }
}

/// Closes a grant's chain as the end of a session does: an open scan is updated, and the chain of the virtual TAP is reset.
///
/// `Broken` comes only where the cable's count of faults rose in the call.
pub fn close<C: Cable>(
    tap: &mut VTap,
    grant: usize,
    desk: Desk<C>,
    layout: &Layout,
) -> Result<Desk<C>, Broken<C>>
    requires layout { IsOfLayout layout.now tap.old }
    requires grant { tap.old.grant ≡ grant }
    requires sound { IsSound layout.now grant }
    requires there { is_some tap.old.view.register ≡ true }
    requires desk { IsDesk layout.now grant tap.old.view desk }
    requires whole { Told (C.chain (cable_of desk.side)) (IsWhole layout.now) }
    ensures went { IfOk result (λ next. (base_desk : DeskView) (base turn : Turn) → IsWhole layout.now base_desk.chain
        → Attends layout.now grant base_desk base (EndsNext tap.old grant) desk (C.chain (cable_of desk.side)) turn
        → StepsTo layout.now grant tap.new base_desk base next (C.chain (cable_of next.side)) turn) }
    ensures shut { IfOk result (λ next. tap.new.view.scan_open ≡ false) }
    ensures state { IfOk result (λ next. tap.new.view.state ≡ TestLogicReset) }
    ensures there { IfOk result (λ next. is_some tap.new.view.register ≡ true) }
    ensures desk { IfOk result (IsDesk layout.now grant tap.new.view) }
    ensures whole { IfOk result (λ next. Told (C.chain (cable_of next.side)) (IsWhole layout.now)) }
    ensures waits { IfOk result (λ next. waiting next ≡ waiting desk) }
    ensures same { (tap.new.grant ≡ tap.old.grant) × (tap.new.parts ≡ tap.old.parts) }
    ensures others { IfOk result (KeepsOthers grant desk) }
    ensures mark { C.mark (cable_after result) ≡ C.mark (cable_of desk.side) }
    ensures trst { C.trst (cable_after result) ≡ C.trst (cable_of desk.side) }
    ensures cause { HasCause (C.fault_count (cable_of desk.side)) (C.fault_count (cable_after result)) result }
{
    if !tap.scan_open() {
        tap.restart(layout);
        return Ok(desk);
    }
    let next = update(tap, grant, desk, layout)?;
    tap.restart(layout);
    Ok(next)
}

// Ends the scan that is open by a reset of the shared chain: nothing is updated.
fn abandon<C: Cable>(
    tap: &mut VTap,
    grant: usize,
    desk: Desk<C>,
    layout: &Layout,
) -> Result<Desk<C>, Broken<C>>
    requires scan { tap.old.view.scan_open ≡ true }
    requires desk { IsDesk layout.now grant tap.old.view desk }
    requires whole { Told (C.chain (cable_of desk.side)) (IsWhole layout.now) }
    requires trst { C.trst (cable_of desk.side) ≡ true }
    ensures abandoned { IfOk result (λ next. AbandonsScan layout.now (waiting desk) tap.old tap.new next (C.chain (cable_of desk.side)) (C.chain (cable_of next.side))) }
    ensures desk { IfOk result (IsDesk layout.now grant tap.new.view) }
    ensures whole { IfOk result (λ next. Told (C.chain (cable_of next.side)) (IsWhole layout.now)) }
    ensures same { (tap.new.grant ≡ tap.old.grant) × (tap.new.parts ≡ tap.old.parts) }
    ensures others { IfOk result (KeepsOthers grant desk) }
    ensures mark { C.mark (cable_after result) ≡ C.mark (cable_of desk.side) }
    ensures trst { C.trst (cable_after result) ≡ C.trst (cable_of desk.side) }
    ensures cause { HasCause (C.fault_count (cable_of desk.side)) (C.fault_count (cable_after result)) result }
{
    let (held, queue) = desk.release();
    match held.abandon(layout) {
        Ok(parked) => {
            tap.close_scan();
            Ok(Token::free(parked, queue))
        }
        Err(broken) => Err(broken),
    }
}

/// Resets a grant's chain as TRST does: an open scan is ended without an update.
///
/// `Broken` comes only where the cable's count of faults rose in the call.
pub fn reset<C: Cable>(
    tap: &mut VTap,
    grant: usize,
    desk: Desk<C>,
    layout: &Layout,
) -> Result<Desk<C>, Broken<C>>
    requires layout { IsOfLayout layout.now tap.old }
    requires sound { IsSound layout.now grant }
    requires there { is_some tap.old.view.register ≡ true }
    requires desk { IsDesk layout.now grant tap.old.view desk }
    requires whole { Told (C.chain (cable_of desk.side)) (IsWhole layout.now) }
    requires trst { C.trst (cable_of desk.side) ≡ true }
    ensures went { IfOk result (λ next. (base_desk : DeskView) (base turn : Turn) → IsWhole layout.now base_desk.chain
        → Attends layout.now grant base_desk base (ResetsNext tap.old grant) desk (C.chain (cable_of desk.side)) turn
        → StepsTo layout.now grant tap.new base_desk base next (C.chain (cable_of next.side)) turn) }
    ensures shut { IfOk result (λ next. tap.new.view.scan_open ≡ false) }
    ensures state { IfOk result (λ next. tap.new.view.state ≡ TestLogicReset) }
    ensures there { IfOk result (λ next. is_some tap.new.view.register ≡ true) }
    ensures desk { IfOk result (IsDesk layout.now grant tap.new.view) }
    ensures whole { IfOk result (λ next. Told (C.chain (cable_of next.side)) (IsWhole layout.now)) }
    ensures waits { IfOk result (λ next. waiting next ≡ waiting desk) }
    ensures same { (tap.new.grant ≡ tap.old.grant) × (tap.new.parts ≡ tap.old.parts) }
    ensures others { IfOk result (KeepsOthers grant desk) }
    ensures mark { C.mark (cable_after result) ≡ C.mark (cable_of desk.side) }
    ensures trst { C.trst (cable_after result) ≡ C.trst (cable_of desk.side) }
    ensures cause { HasCause (C.fault_count (cable_of desk.side)) (C.fault_count (cable_after result)) result }
{
    if !tap.scan_open() {
        tap.restart(layout);
        return Ok(desk);
    }
    let next = abandon(tap, grant, desk, layout)?;
    tap.restart(layout);
    Ok(next)
}
