// The cycles of a `shift:` on a virtual TAP.
ghost use Rattle.std.specs.Prelude.{◌≡◌, ◌≤◌, ◌<◌, ℕ, false, true, length, is_some, IfOk};
ghost use Rattle.base_types.specs.Counts.{HasCause};
ghost use Rattle.base_types.specs.Tellings.{Told};
ghost use Rattle.tap_states.specs.States.{is_capture_dr, next};
ghost use Rattle.scan_bits.specs.Registers.{bit_at};
ghost use Rattle.chain_model.specs.Chains.{ChainState};
ghost use Rattle.chain_model.specs.Cycles.{rise, fall};
ghost use Rattle.scan_share.specs.Scans.{IsWhole, types_of};
ghost use Rattle.chain_token.specs.Tokens.{holder, waiting};
ghost use Rattle.chain_token.specs.Waiting.{is_among, may_open};
ghost use Rattle.xvc_frame.specs.Frames.{tms_bits, tdi_bits};
ghost use Rattle.virtual_tap.specs.Taps.{IsOfLayout, KeepsTap, ScansAt, at_update};
ghost use Rattle.virtual_tap.specs.Views.{MovesAs, StandsFor, at_capture};
ghost use Rattle.client_session.specs.Turns.{Turn};
ghost use Rattle.client_session.specs.Sessions.{DeskView};
ghost use Rattle.client_session.specs.Stores.{HoldsShift};
ghost use Rattle.client_session.specs.Desks.{Attends, Entered, IsDesk, IsSound, KeepsOthers, LegTo, LegWithin, MayWait, StopsAt, StopsWell, WaitsBlocked, cable_after, cable_of, cable_then};
ghost use Rattle.client_session.specs.Messaging.{waits_after};
ghost use Rattle.client_session.specs.Going.{GoesTo, IsToClose, Leads, PausesWell, PutsBit, SampledAt, ShiftsAt, WalksTo, closed_if};

use crate::desk::{Desk, capture, update};
use chain_model::Cable;
use chain_token::{Asked, Queue};
use grant_table::Layout;
use scan_share::{Broken, Parked};
use virtual_tap::VTap;
use xvc_frame::frame::XvcFrame;

/// Where a walk through the cycles of a `shift:` pauses.
#[derive(Clone, Copy, Debug, PartialEq, Eq)]
pub enum Pause {
    /// All cycles are made.
    Made,
    /// The rise of this cycle captures.
    Capture(u32),
    /// The fall before this cycle ended the scan, which is still to be closed.
    Update(u32),
}

// A cycle of TCK that does not capture. True where its fall ends the scan: the register then holds what is to be latched, and the scan is
// still to be closed.
fn cycle(tap: &mut VTap, layout: &Layout, tms: bool, tdi: bool) -> bool
    requires layout { IsOfLayout layout.now tap.old }
    requires low { ScansAt false tap.old.view }
    requires capture { at_capture tap.old.view ≡ false }
    ensures kept { KeepsTap tap.old tap.new }
    ensures scan { tap.new.view.scan_open ≡ tap.old.view.scan_open }
    ensures codes { tap.old.view.scan_open ≡ true → tap.new.view.codes ≡ tap.old.view.codes }
    ensures ends { result ≡ at_update tap.new.view }
    ensures low { ScansAt false (closed_if result tap.new.view) }
    ensures moved { MovesAs tap.old.parts (λ chain. fall (rise chain tms tdi)) tap.old.view (closed_if result tap.new.view) }
    ensures closing { result ≡ true → (chain : ChainState) → types_of chain ≡ tap.old.parts → StandsFor tap.old.view chain → IsToClose tap.new.view (rise chain tms tdi) }
{
    tap.rise(layout, tms, tdi);
    tap.fall(layout)
}

// The rest of the cycle that opened a scan: its rise leaves Capture-DR, and its fall.
fn captured_cycle(tap: &mut VTap, layout: &Layout, tms: bool, tdi: bool)
    requires layout { IsOfLayout layout.now tap.old }
    requires state { is_capture_dr tap.old.view.state ≡ true }
    requires scan { tap.old.view.scan_open ≡ true }
    ensures kept { KeepsTap tap.old tap.new }
    ensures scan { tap.new.view.scan_open ≡ true }
    ensures codes { tap.new.view.codes ≡ tap.old.view.codes }
    ensures low { ScansAt false tap.new.view }
    ensures moved { (chain : ChainState) → types_of chain ≡ tap.old.parts → StandsFor (record tap.old.view { state = next tap.old.view.state tms }) chain → StandsFor tap.new.view (fall chain) }
{
    tap.rise(layout, tms, tdi);
    tap.fall(layout);
}

// Puts the TDO bit of a cycle in the place of its TDI bit.
fn put_bit(frame: &mut XvcFrame, at: u32, bit: bool)
    requires held { HoldsShift frame.old (length (tdi_bits frame.old)) }
    requires within { at < length (tdi_bits frame.old) }
    ensures bit { PutsBit at bit frame.old frame.new }
    ensures held { HoldsShift frame.new (length (tdi_bits frame.old)) }
{
    frame.put_tdo(at, bit);
}

// The cycle of a `shift:` at this place, whose TDO bit takes the place of its TDI bit.
fn shift_cycle(frame: &mut XvcFrame, tap: &mut VTap, layout: &Layout, at: u32) -> bool
    requires layout { IsOfLayout layout.now tap.old }
    requires low { ScansAt false tap.old.view }
    requires capture { at_capture tap.old.view ≡ false }
    requires held { HoldsShift frame.old (length (tdi_bits frame.old)) }
    requires within { at < length (tdi_bits frame.old) }
    ensures bit { PutsBit at tap.old.view.tdo frame.old frame.new }
    ensures held { HoldsShift frame.new (length (tdi_bits frame.old)) }
    ensures kept { KeepsTap tap.old tap.new }
    ensures scan { tap.new.view.scan_open ≡ tap.old.view.scan_open }
    ensures codes { tap.old.view.scan_open ≡ true → tap.new.view.codes ≡ tap.old.view.codes }
    ensures ends { result ≡ at_update tap.new.view }
    ensures low { ScansAt false (closed_if result tap.new.view) }
    ensures moved { MovesAs tap.old.parts (λ chain. fall (rise chain (bit_at (tms_bits frame.old) at) (bit_at (tdi_bits frame.old) at))) tap.old.view (closed_if result tap.new.view) }
    ensures closing { result ≡ true → (chain : ChainState) → types_of chain ≡ tap.old.parts → StandsFor tap.old.view chain
        → IsToClose tap.new.view (rise chain (bit_at (tms_bits frame.old) at) (bit_at (tdi_bits frame.old) at)) }
{
    let tms = frame.tms(at);
    let tdi = frame.tdi(at);
    put_bit(frame, at, tap.tdo());
    cycle(tap, layout, tms, tdi)
}

/// What a leg of the way through a `shift:` came to.
#[derive(Clone, Copy, Debug, PartialEq, Eq)]
pub enum Leg {
    /// All cycles are made.
    Made,
    /// The cycles before this one are made, and the desk was asked.
    On(u32),
    /// The session waits before the rise of this cycle.
    Waits(u32),
}

/// Makes the cycles of a `shift:` from this one on, as far as they neither open nor close a scan.
pub fn walk(frame: &mut XvcFrame, tap: &mut VTap, layout: &Layout, cycles: u32, from: u32) -> Pause
    requires layout { IsOfLayout layout.now tap.old }
    requires low { ScansAt false tap.old.view }
    requires held { HoldsShift frame.old cycles }
    requires within { from ≤ cycles }
    ensures vector { frame.new.vector ≡ frame.old.vector }
    ensures held { HoldsShift frame.new cycles }
    ensures kept { KeepsTap tap.old tap.new }
    ensures scan { tap.new.view.scan_open ≡ tap.old.view.scan_open }
    ensures codes { tap.old.view.scan_open ≡ true → tap.new.view.codes ≡ tap.old.view.codes }
    ensures pauses { PausesWell result tap.new from cycles }
    ensures went { (grant : ℕ) (turn : Turn) → ShiftsAt frame.old tap.old from grant turn → Leads layout.now grant (WalksTo result frame.new tap.new cycles grant) turn }
{
    let mut at = from;
    while at < cycles {
        if tap.at_capture() {
            return Pause::Capture(at);
        }
        let ends = shift_cycle(frame, tap, layout, at);
        at += 1;
        if ends {
            return Pause::Update(at);
        }
    }
    Pause::Made
}

// Captures on the free chain, and makes the cycle that this opens a scan in.
fn enter<C: Cable>(
    frame: &mut XvcFrame,
    tap: &mut VTap,
    grant: usize,
    parked: Parked<C>,
    queue: Queue,
    layout: &Layout,
    at: u32,
) -> Result<Desk<C>, Broken<C>>
    requires layout { IsOfLayout layout.now tap.old }
    requires grant { tap.old.grant ≡ grant }
    requires sound { IsSound layout.now grant }
    requires capture { at_capture tap.old.view ≡ true }
    requires there { is_some tap.old.view.register ≡ true }
    requires held { HoldsShift frame.old (length (tdi_bits frame.old)) }
    requires within { at < length (tdi_bits frame.old) }
    requires whole { Told (C.chain parked.cable) (IsWhole layout.now) }
    ensures entered { IfOk result (λ desk. Entered layout.now grant at queue frame.old frame.new tap.old tap.new desk (C.chain parked.cable) (C.chain (cable_of desk.side))) }
    ensures kept { IfOk result (λ desk. is_some tap.new.view.register ≡ true) }
    ensures low { IfOk result (λ desk. ScansAt false tap.new.view) }
    ensures desk { IfOk result (IsDesk layout.now grant tap.new.view) }
    ensures whole { IfOk result (λ desk. Told (C.chain (cable_of desk.side)) (IsWhole layout.now)) }
    ensures vector { frame.new.vector ≡ frame.old.vector }
    ensures held { HoldsShift frame.new (length (tdi_bits frame.old)) }
    ensures same { (tap.new.grant ≡ tap.old.grant) × (tap.new.parts ≡ tap.old.parts) }
    ensures mark { C.mark (cable_after result) ≡ C.mark parked.cable }
    ensures trst { C.trst (cable_after result) ≡ C.trst parked.cable }
    ensures cause { HasCause (C.fault_count parked.cable) (C.fault_count (cable_after result)) result }
{
    let desk = capture(tap, grant, parked, queue, layout)?;
    let tms = frame.tms(at);
    let tdi = frame.tdi(at);
    put_bit(frame, at, tap.tdo());
    captured_cycle(tap, layout, tms, tdi);
    Ok(desk)
}

/// A leg of the way through a `shift:` from a cycle on: to where the desk is asked next, or to the end.
///
/// `Broken` comes only where the cable's count of faults rose in the call.
pub fn next_leg<C: Cable>(
    frame: &mut XvcFrame,
    tap: &mut VTap,
    grant: usize,
    desk: Desk<C>,
    layout: &Layout,
    cycles: u32,
    from: u32,
) -> Result<(Leg, Desk<C>), Broken<C>>
    requires layout { IsOfLayout layout.now tap.old }
    requires grant { tap.old.grant ≡ grant }
    requires sound { IsSound layout.now grant }
    requires low { ScansAt false tap.old.view }
    requires there { is_some tap.old.view.register ≡ true }
    requires held { HoldsShift frame.old cycles }
    requires within { from ≤ cycles }
    requires desk { IsDesk layout.now grant tap.old.view desk }
    requires whole { Told (C.chain (cable_of desk.side)) (IsWhole layout.now) }
    ensures went { IfOk result (λ pair. (base_desk : DeskView) (base turn : Turn) → IsWhole layout.now base_desk.chain
        → Attends layout.now grant base_desk base (ShiftsAt frame.old tap.old from grant) desk (C.chain (cable_of desk.side)) turn
        → GoesTo layout.now grant (Attends layout.now grant base_desk base (LegTo pair.0 layout.now frame.new tap.new cycles grant) pair.1 (C.chain (cable_of pair.1.side))) turn) }
    ensures within { IfOk result (λ pair. LegWithin pair.0 tap.new from cycles) }
    ensures waits { IfOk result (λ pair. MayWait pair.0 grant (waiting pair.1)) }
    ensures blocked { IfOk result (λ pair. WaitsBlocked (waits_after pair.0) grant pair.1) }
    ensures there { IfOk result (λ pair. is_some tap.new.view.register ≡ true) }
    ensures low { IfOk result (λ pair. ScansAt false tap.new.view) }
    ensures desk { IfOk result (λ pair. IsDesk layout.now grant tap.new.view pair.1) }
    ensures others { IfOk result (λ pair. KeepsOthers grant desk pair.1) }
    ensures line { IfOk result (λ pair. is_among grant (waiting desk) ≡ false → is_among grant (waiting pair.1) ≡ waits_after pair.0) }
    ensures whole { IfOk result (λ pair. Told (C.chain (cable_of pair.1.side)) (IsWhole layout.now)) }
    ensures vector { frame.new.vector ≡ frame.old.vector }
    ensures held { HoldsShift frame.new cycles }
    ensures same { (tap.new.grant ≡ tap.old.grant) × (tap.new.parts ≡ tap.old.parts) }
    ensures mark { C.mark (cable_then result) ≡ C.mark (cable_of desk.side) }
    ensures trst { C.trst (cable_then result) ≡ C.trst (cable_of desk.side) }
    ensures cause { HasCause (C.fault_count (cable_of desk.side)) (C.fault_count (cable_then result)) result }
{
    match walk(frame, tap, layout, cycles, from) {
        Pause::Made => Ok((Leg::Made, desk)),
        Pause::Update(at) => {
            let desk = update(tap, grant, desk, layout)?;
            Ok((Leg::On(at), desk))
        }
        Pause::Capture(at) => match desk.ask(grant) {
            Asked::Wait(desk) => Ok((Leg::Waits(at), desk)),
            Asked::Yours(parked, queue) => {
                let desk = enter(frame, tap, grant, parked, queue, layout, at)?;
                Ok((Leg::On(at + 1), desk))
            }
        },
    }
}

/// Goes on through a `shift:` from a cycle on. The answer is None where all cycles are made, and else the cycle before whose rise the session
/// waits.
///
/// `Broken` comes only where the cable's count of faults rose in the call.
pub fn shift_on<C: Cable>(
    frame: &mut XvcFrame,
    tap: &mut VTap,
    grant: usize,
    desk: Desk<C>,
    layout: &Layout,
    cycles: u32,
    from: u32,
) -> Result<(Option<u32>, Desk<C>), Broken<C>>
    requires layout { IsOfLayout layout.now tap.old }
    requires grant { tap.old.grant ≡ grant }
    requires sound { IsSound layout.now grant }
    requires low { ScansAt false tap.old.view }
    requires there { is_some tap.old.view.register ≡ true }
    requires held { HoldsShift frame.old cycles }
    requires within { from ≤ cycles }
    requires desk { IsDesk layout.now grant tap.old.view desk }
    requires whole { Told (C.chain (cable_of desk.side)) (IsWhole layout.now) }
    ensures went { IfOk result (λ pair. (base_desk : DeskView) (base turn : Turn) → IsWhole layout.now base_desk.chain
        → Attends layout.now grant base_desk base (ShiftsAt frame.old tap.old from grant) desk (C.chain (cable_of desk.side)) turn
        → GoesTo layout.now grant (Attends layout.now grant base_desk base (StopsAt pair.0 layout.now frame.new tap.new cycles grant) pair.1 (C.chain (cable_of pair.1.side))) turn) }
    ensures stops { IfOk result (λ pair. StopsWell pair.0 tap.new cycles grant (waiting pair.1)) }
    ensures blocked { IfOk result (λ pair. WaitsBlocked (is_some pair.0) grant pair.1) }
    ensures there { IfOk result (λ pair. is_some tap.new.view.register ≡ true) }
    ensures low { IfOk result (λ pair. ScansAt false tap.new.view) }
    ensures desk { IfOk result (λ pair. IsDesk layout.now grant tap.new.view pair.1) }
    ensures others { IfOk result (λ pair. KeepsOthers grant desk pair.1) }
    ensures line { IfOk result (λ pair. is_among grant (waiting desk) ≡ false → is_among grant (waiting pair.1) ≡ is_some pair.0) }
    ensures whole { IfOk result (λ pair. Told (C.chain (cable_of pair.1.side)) (IsWhole layout.now)) }
    ensures vector { frame.new.vector ≡ frame.old.vector }
    ensures held { HoldsShift frame.new cycles }
    ensures same { (tap.new.grant ≡ tap.old.grant) × (tap.new.parts ≡ tap.old.parts) }
    ensures mark { C.mark (cable_then result) ≡ C.mark (cable_of desk.side) }
    ensures trst { C.trst (cable_then result) ≡ C.trst (cable_of desk.side) }
    ensures cause { HasCause (C.fault_count (cable_of desk.side)) (C.fault_count (cable_then result)) result }
{
    let mut desk = desk;
    let mut at = from;
    loop {
        let (leg, next) = next_leg(frame, tap, grant, desk, layout, cycles, at)?;
        desk = next;
        match leg {
            Leg::Made => return Ok((None, desk)),
            Leg::Waits(cycle) => return Ok((Some(cycle), desk)),
            Leg::On(cycle) => at = cycle,
        }
    }
}

/// Goes on through a `shift:` from the rise before which the session waited, where the chain is now the grant's.
///
/// `Broken` comes only where the cable's count of faults rose in the call.
pub fn resume_shift<C: Cable>(
    frame: &mut XvcFrame,
    tap: &mut VTap,
    grant: usize,
    desk: Desk<C>,
    layout: &Layout,
    cycles: u32,
    at: u32,
) -> Result<(Option<u32>, Desk<C>), Broken<C>>
    requires layout { IsOfLayout layout.now tap.old }
    requires grant { tap.old.grant ≡ grant }
    requires sound { IsSound layout.now grant }
    requires capture { at_capture tap.old.view ≡ true }
    requires there { is_some tap.old.view.register ≡ true }
    requires held { HoldsShift frame.old cycles }
    requires within { at < cycles }
    requires desk { IsDesk layout.now grant tap.old.view desk }
    requires first { may_open (holder desk) (waiting desk) grant ≡ true }
    requires whole { Told (C.chain (cable_of desk.side)) (IsWhole layout.now) }
    ensures went { IfOk result (λ pair. (base_desk : DeskView) (base turn : Turn) → IsWhole layout.now base_desk.chain
        → Attends layout.now grant base_desk base (SampledAt frame.old tap.old at grant) desk (C.chain (cable_of desk.side)) turn
        → GoesTo layout.now grant (Attends layout.now grant base_desk base (StopsAt pair.0 layout.now frame.new tap.new cycles grant) pair.1 (C.chain (cable_of pair.1.side))) turn) }
    ensures stops { IfOk result (λ pair. StopsWell pair.0 tap.new cycles grant (waiting pair.1)) }
    ensures blocked { IfOk result (λ pair. WaitsBlocked (is_some pair.0) grant pair.1) }
    ensures there { IfOk result (λ pair. is_some tap.new.view.register ≡ true) }
    ensures low { IfOk result (λ pair. ScansAt false tap.new.view) }
    ensures desk { IfOk result (λ pair. IsDesk layout.now grant tap.new.view pair.1) }
    ensures others { IfOk result (λ pair. KeepsOthers grant desk pair.1) }
    ensures line { IfOk result (λ pair. is_among grant (waiting pair.1) ≡ is_some pair.0) }
    ensures whole { IfOk result (λ pair. Told (C.chain (cable_of pair.1.side)) (IsWhole layout.now)) }
    ensures vector { frame.new.vector ≡ frame.old.vector }
    ensures held { HoldsShift frame.new cycles }
    ensures same { (tap.new.grant ≡ tap.old.grant) × (tap.new.parts ≡ tap.old.parts) }
    ensures mark { C.mark (cable_then result) ≡ C.mark (cable_of desk.side) }
    ensures trst { C.trst (cable_then result) ≡ C.trst (cable_of desk.side) }
    ensures cause { HasCause (C.fault_count (cable_of desk.side)) (C.fault_count (cable_then result)) result }
{
    match desk.ask(grant) {
        Asked::Wait(_desk) => unreachable!(),
        Asked::Yours(parked, queue) => {
            let desk = enter(frame, tap, grant, parked, queue, layout, at)?;
            let (stop, desk) = shift_on(frame, tap, grant, desk, layout, cycles, at + 1)?;
            Ok((stop, desk))
        }
    }
}
