// The lines TCK, TMS, TDI and TRST of a session of remote_bitbang.
ghost use Rattle.std.specs.Prelude.{◌≡◌, ℕ, List, [], ◌∷◌, Bool, false, true, not, ◌&&◌, is_some, IfOk};
ghost use Rattle.base_types.specs.Counts.{HasCause};
ghost use Rattle.base_types.specs.Tellings.{Told};
ghost use Rattle.scan_share.specs.Scans.{IsWhole};
ghost use Rattle.chain_token.specs.Tokens.{holder, waiting};
ghost use Rattle.chain_token.specs.Waiting.{is_among, may_open};
ghost use Rattle.grant_table.specs.declared.Protocol.TheVariants.{Bitbang};
ghost use Rattle.virtual_tap.specs.Taps.{IsOfLayout, ScansAt};
ghost use Rattle.virtual_tap.specs.Views.{at_capture};
ghost use Rattle.client_session.specs.Acts.Act.{SetLines, SetTrst};
ghost use Rattle.client_session.specs.Turns.{Turn};
ghost use Rattle.client_session.specs.Sessions.{DeskView};
ghost use Rattle.client_session.specs.Stores.{AwaitsCapture, AwaitsChain, KeepsProgress, acts_of, protocol_of};
ghost use Rattle.client_session.specs.Desks.{Attends, IsDesk, IsSound, KeepsOthers, WaitsBlocked, cable_after, cable_of, cable_then};
ghost use Rattle.client_session.specs.Calls.{ComesTo, IsToAct, KeepsLetters, KeepsSettings, LinesTo, LinesWell, MayGoOn, ShowsSeat};
ghost use Rattle.client_session.specs.Edges.{EdgesTo, MakesEdge, SameLetters};

use crate::desk::{Desk, capture, reset, update};
use crate::input::{Edge, Input};
use crate::progress::Progress;
use chain_model::Cable;
use chain_token::Asked;
use grant_table::Layout;
use scan_share::Broken;
use virtual_tap::VTap;

// Keeps a rising edge that a letter asks for.
fn keep_edge(input: &mut Input, edge: Edge)
    requires protocol { protocol_of input.old ≡ Bitbang }
    ensures same { SameLetters input.old input.new }
    ensures acts { acts_of input.new ≡ SetLines true edge.tms edge.tdi ∷ [] }
    ensures awaits { AwaitsChain input.new }
{
    match input {
        Input::Bitbang(letters) => letters.edge = Some(edge),
        Input::Xvc(_) => unreachable!(),
    }
}

// Takes the edge that was kept.
fn take_edge(input: &mut Input) -> Edge
    requires protocol { protocol_of input.old ≡ Bitbang }
    requires awaits { AwaitsChain input.old }
    ensures same { SameLetters input.old input.new }
    ensures kept { acts_of input.old ≡ SetLines true result.tms result.tdi ∷ [] }
    ensures none { acts_of input.new ≡ [] }
{
    match input {
        Input::Bitbang(letters) => match letters.edge.take() {
            Some(edge) => edge,
            None => unreachable!(),
        },
        Input::Xvc(_) => unreachable!(),
    }
}

// The rise that leaves Capture-DR. It is made where the chain is the grant's, and else the grant waits before it: then the answer is true.
fn rise_at_capture<C: Cable>(
    tap: &mut VTap,
    tms: bool,
    tdi: bool,
    grant: usize,
    desk: Desk<C>,
    layout: &Layout,
) -> Result<(bool, Desk<C>), Broken<C>>
    requires layout { IsOfLayout layout.now tap.old }
    requires grant { tap.old.grant ≡ grant }
    requires sound { IsSound layout.now grant }
    requires capture { at_capture tap.old.view ≡ true }
    requires there { is_some tap.old.view.register ≡ true }
    requires desk { IsDesk layout.now grant tap.old.view desk }
    requires whole { Told (C.chain (cable_of desk.side)) (IsWhole layout.now) }
    ensures went { IfOk result (λ pair. (base_desk : DeskView) (base turn : Turn) → IsWhole layout.now base_desk.chain
        → Attends layout.now grant base_desk base (MakesEdge true tms tdi tap.old grant) desk (C.chain (cable_of desk.side)) turn
        → EdgesTo pair.0 layout.now grant tap.new base_desk base pair.1 (C.chain (cable_of pair.1.side)) turn) }
    ensures waits { IfOk result (λ pair. pair.0 ≡ true → tap.new ≡ tap.old) }
    ensures first { may_open (holder desk) (waiting desk) grant ≡ true → IfOk result (λ pair. pair.0 ≡ false) }
    ensures line { IfOk result (λ pair. is_among grant (waiting pair.1) ≡ pair.0) }
    ensures blocked { IfOk result (λ pair. WaitsBlocked pair.0 grant pair.1) }
    ensures scans { IfOk result (λ pair. ScansAt (not pair.0) tap.new.view) }
    ensures there { IfOk result (λ pair. is_some tap.new.view.register ≡ true) }
    ensures desk { IfOk result (λ pair. IsDesk layout.now grant tap.new.view pair.1) }
    ensures others { IfOk result (λ pair. KeepsOthers grant desk pair.1) }
    ensures whole { IfOk result (λ pair. Told (C.chain (cable_of pair.1.side)) (IsWhole layout.now)) }
    ensures same { (tap.new.grant ≡ tap.old.grant) × (tap.new.parts ≡ tap.old.parts) }
    ensures mark { C.mark (cable_then result) ≡ C.mark (cable_of desk.side) }
    ensures trst { C.trst (cable_then result) ≡ C.trst (cable_of desk.side) }
    ensures cause { HasCause (C.fault_count (cable_of desk.side)) (C.fault_count (cable_then result)) result }
{
    match desk.ask(grant) {
        Asked::Wait(desk) => Ok((true, desk)),
        Asked::Yours(parked, queue) => {
            let desk = capture(tap, grant, parked, queue, layout)?;
            tap.rise(layout, tms, tdi);
            Ok((false, desk))
        }
    }
}

// A fall, with the update where it ends a scan.
fn fall<C: Cable>(
    tap: &mut VTap,
    grant: usize,
    desk: Desk<C>,
    layout: &Layout,
) -> Result<Desk<C>, Broken<C>>
    requires layout { IsOfLayout layout.now tap.old }
    requires grant { tap.old.grant ≡ grant }
    requires sound { IsSound layout.now grant }
    requires high { ScansAt true tap.old.view }
    requires there { is_some tap.old.view.register ≡ true }
    requires desk { IsDesk layout.now grant tap.old.view desk }
    requires whole { Told (C.chain (cable_of desk.side)) (IsWhole layout.now) }
    ensures went { IfOk result (λ next. (tms tdi : Bool) (base_desk : DeskView) (base turn : Turn) → IsWhole layout.now base_desk.chain
        → Attends layout.now grant base_desk base (MakesEdge false tms tdi tap.old grant) desk (C.chain (cable_of desk.side)) turn
        → EdgesTo false layout.now grant tap.new base_desk base next (C.chain (cable_of next.side)) turn) }
    ensures low { IfOk result (λ next. ScansAt false tap.new.view) }
    ensures line { IfOk result (λ next. waiting next ≡ waiting desk) }
    ensures there { IfOk result (λ next. is_some tap.new.view.register ≡ true) }
    ensures desk { IfOk result (IsDesk layout.now grant tap.new.view) }
    ensures others { IfOk result (KeepsOthers grant desk) }
    ensures whole { IfOk result (λ next. Told (C.chain (cable_of next.side)) (IsWhole layout.now)) }
    ensures same { (tap.new.grant ≡ tap.old.grant) × (tap.new.parts ≡ tap.old.parts) }
    ensures mark { C.mark (cable_after result) ≡ C.mark (cable_of desk.side) }
    ensures trst { C.trst (cable_after result) ≡ C.trst (cable_of desk.side) }
    ensures cause { HasCause (C.fault_count (cable_of desk.side)) (C.fault_count (cable_after result)) result }
{
    if !tap.fall(layout) {
        return Ok(desk);
    }
    let next = update(tap, grant, desk, layout)?;
    Ok(next)
}

// An edge of TCK to this level. True where the grant waits before it, which is then a rise that captures.
fn make_edge<C: Cable>(
    tap: &mut VTap,
    tck: bool,
    tms: bool,
    tdi: bool,
    grant: usize,
    desk: Desk<C>,
    layout: &Layout,
) -> Result<(bool, Desk<C>), Broken<C>>
    requires layout { IsOfLayout layout.now tap.old }
    requires grant { tap.old.grant ≡ grant }
    requires sound { IsSound layout.now grant }
    requires scans { ScansAt (not tck) tap.old.view }
    requires there { is_some tap.old.view.register ≡ true }
    requires desk { IsDesk layout.now grant tap.old.view desk }
    requires whole { Told (C.chain (cable_of desk.side)) (IsWhole layout.now) }
    requires line { is_among grant (waiting desk) ≡ false }
    ensures went { IfOk result (λ pair. (base_desk : DeskView) (base turn : Turn) → IsWhole layout.now base_desk.chain
        → Attends layout.now grant base_desk base (MakesEdge tck tms tdi tap.old grant) desk (C.chain (cable_of desk.side)) turn
        → EdgesTo pair.0 layout.now grant tap.new base_desk base pair.1 (C.chain (cable_of pair.1.side)) turn) }
    ensures waits { IfOk result (λ pair. pair.0 ≡ true → (tck ≡ true) × (at_capture tap.old.view ≡ true) × (tap.new ≡ tap.old)) }
    ensures line { IfOk result (λ pair. is_among grant (waiting pair.1) ≡ pair.0) }
    ensures blocked { IfOk result (λ pair. WaitsBlocked pair.0 grant pair.1) }
    ensures scans { IfOk result (λ pair. ScansAt (not pair.0 && tck) tap.new.view) }
    ensures there { IfOk result (λ pair. is_some tap.new.view.register ≡ true) }
    ensures desk { IfOk result (λ pair. IsDesk layout.now grant tap.new.view pair.1) }
    ensures others { IfOk result (λ pair. KeepsOthers grant desk pair.1) }
    ensures whole { IfOk result (λ pair. Told (C.chain (cable_of pair.1.side)) (IsWhole layout.now)) }
    ensures same { (tap.new.grant ≡ tap.old.grant) × (tap.new.parts ≡ tap.old.parts) }
    ensures mark { C.mark (cable_then result) ≡ C.mark (cable_of desk.side) }
    ensures trst { C.trst (cable_then result) ≡ C.trst (cable_of desk.side) }
    ensures cause { HasCause (C.fault_count (cable_of desk.side)) (C.fault_count (cable_then result)) result }
{
    if !tck {
        let desk = fall(tap, grant, desk, layout)?;
        return Ok((false, desk));
    }
    if tap.at_capture() {
        let (waits, desk) = rise_at_capture(tap, tms, tdi, grant, desk, layout)?;
        return Ok((waits, desk));
    }
    tap.rise(layout, tms, tdi);
    Ok((false, desk))
}

impl Progress {
    /// Sets the lines TCK, TMS and TDI: where TCK goes from 0 to 1 it is a rising edge, and from 1 to 0 a falling edge. While TRST is 1 no edge
    /// acts. The answer is true where the session waits before the rise, which captures: the edge is then kept, and TCK is still 0.
    ///
    /// `Broken` comes only where the cable's count of faults rose in the call.
    pub fn set_lines<C: Cable>(
        &mut self,
        tck: bool,
        tms: bool,
        tdi: bool,
        grant: usize,
        desk: Desk<C>,
        layout: &Layout,
    ) -> Result<(bool, Desk<C>), Broken<C>>
        requires layout { IsOfLayout layout.now self.old.tap }
        requires grant { self.old.tap.grant ≡ grant }
        requires sound { IsSound layout.now grant }
        requires keeps { KeepsProgress self.old }
        requires fit { MayGoOn self.old }
        requires desk { IsDesk layout.now grant self.old.tap.view desk }
        requires whole { Told (C.chain (cable_of desk.side)) (IsWhole layout.now) }
        requires line { is_among grant (waiting desk) ≡ false }
        requires trst { self.old.uses_trst ≡ true → C.trst (cable_of desk.side) ≡ true }
        requires protocol { protocol_of self.old.input ≡ Bitbang }
        requires none { acts_of self.old.input ≡ [] }
        ensures went { IfOk result (λ pair. (given : List ℕ) (base_desk : DeskView) (base turn : Turn) → IsWhole layout.now base_desk.chain
            → Attends layout.now grant base_desk base (IsToAct (SetLines tck tms tdi) self.old grant given) desk (C.chain (cable_of desk.side)) turn
            → ComesTo layout.now grant (Attends layout.now grant base_desk base (LinesTo pair.0 layout.now self.new grant given) pair.1 (C.chain (cable_of pair.1.side))) turn) }
        ensures waits { IfOk result (λ pair. LinesWell pair.0 self.new) }
        ensures line { IfOk result (λ pair. is_among grant (waiting pair.1) ≡ pair.0) }
        ensures blocked { IfOk result (λ pair. WaitsBlocked pair.0 grant pair.1) }
        ensures keeps { KeepsProgress self.new }
        ensures same { KeepsSettings self.old self.new }
        ensures letters { KeepsLetters self.old self.new }
        ensures fit { IfOk result (λ pair. MayGoOn self.new) }
        ensures desk { IfOk result (λ pair. IsDesk layout.now grant self.new.tap.view pair.1) }
        ensures others { IfOk result (λ pair. KeepsOthers grant desk pair.1) }
        ensures whole { IfOk result (λ pair. Told (C.chain (cable_of pair.1.side)) (IsWhole layout.now)) }
        ensures mark { C.mark (cable_then result) ≡ C.mark (cable_of desk.side) }
        ensures trst { C.trst (cable_then result) ≡ C.trst (cable_of desk.side) }
        ensures cause { HasCause (C.fault_count (cable_of desk.side)) (C.fault_count (cable_then result)) result }
    {
        if self.trst || self.tck == tck {
            self.tck = tck;
            return Ok((false, desk));
        }
        let (waits, desk) = make_edge(&mut self.tap, tck, tms, tdi, grant, desk, layout)?;
        if waits {
            keep_edge(&mut self.input, Edge { tms, tdi });
            return Ok((true, desk));
        }
        self.tck = tck;
        Ok((false, desk))
    }

    /// Makes the rise before which the session waited, where the chain is now the grant's.
    ///
    /// `Broken` comes only where the cable's count of faults rose in the call.
    pub fn resume_lines<C: Cable>(
        &mut self,
        grant: usize,
        desk: Desk<C>,
        layout: &Layout,
    ) -> Result<Desk<C>, Broken<C>>
        requires layout { IsOfLayout layout.now self.old.tap }
        requires grant { self.old.tap.grant ≡ grant }
        requires sound { IsSound layout.now grant }
        requires keeps { KeepsProgress self.old }
        requires fit { MayGoOn self.old }
        requires desk { IsDesk layout.now grant self.old.tap.view desk }
        requires whole { Told (C.chain (cable_of desk.side)) (IsWhole layout.now) }
        requires trst { self.old.uses_trst ≡ true → C.trst (cable_of desk.side) ≡ true }
        requires protocol { protocol_of self.old.input ≡ Bitbang }
        requires waits { AwaitsCapture self.old }
        requires first { may_open (holder desk) (waiting desk) grant ≡ true }
        ensures went { IfOk result (λ next. (given : List ℕ) (base_desk : DeskView) (base turn : Turn) → IsWhole layout.now base_desk.chain
            → Attends layout.now grant base_desk base (ShowsSeat self.old grant given) desk (C.chain (cable_of desk.side)) turn
            → ComesTo layout.now grant (Attends layout.now grant base_desk base (ShowsSeat self.new grant given) next (C.chain (cable_of next.side))) turn) }
        ensures none { IfOk result (λ next. acts_of self.new.input ≡ []) }
        ensures line { IfOk result (λ next. is_among grant (waiting next) ≡ false) }
        ensures keeps { KeepsProgress self.new }
        ensures same { KeepsSettings self.old self.new }
        ensures letters { KeepsLetters self.old self.new }
        ensures fit { IfOk result (λ next. MayGoOn self.new) }
        ensures desk { IfOk result (λ next. IsDesk layout.now grant self.new.tap.view next) }
        ensures others { IfOk result (λ next. KeepsOthers grant desk next) }
        ensures whole { IfOk result (λ next. Told (C.chain (cable_of next.side)) (IsWhole layout.now)) }
        ensures mark { C.mark (cable_after result) ≡ C.mark (cable_of desk.side) }
        ensures trst { C.trst (cable_after result) ≡ C.trst (cable_of desk.side) }
        ensures cause { HasCause (C.fault_count (cable_of desk.side)) (C.fault_count (cable_after result)) result }
    {
        let edge = take_edge(&mut self.input);
        let (_waits, desk) = rise_at_capture(
            &mut self.tap,
            edge.tms,
            edge.tdi,
            grant,
            desk,
            layout,
        )?;
        self.tck = true;
        Ok(desk)
    }

    /// Sets the line TRST: where it goes from 0 to 1 the chain is reset.
    ///
    /// `Broken` comes only where the cable's count of faults rose in the call.
    pub fn set_trst<C: Cable>(
        &mut self,
        level: bool,
        grant: usize,
        desk: Desk<C>,
        layout: &Layout,
    ) -> Result<Desk<C>, Broken<C>>
        requires layout { IsOfLayout layout.now self.old.tap }
        requires grant { self.old.tap.grant ≡ grant }
        requires sound { IsSound layout.now grant }
        requires keeps { KeepsProgress self.old }
        requires fit { MayGoOn self.old }
        requires desk { IsDesk layout.now grant self.old.tap.view desk }
        requires whole { Told (C.chain (cable_of desk.side)) (IsWhole layout.now) }
        requires line { is_among grant (waiting desk) ≡ false }
        requires protocol { protocol_of self.old.input ≡ Bitbang }
        requires none { acts_of self.old.input ≡ [] }
        requires trst { C.trst (cable_of desk.side) ≡ true }
        ensures went { IfOk result (λ next. (given : List ℕ) (base_desk : DeskView) (base turn : Turn) → IsWhole layout.now base_desk.chain
            → Attends layout.now grant base_desk base (IsToAct (SetTrst level) self.old grant given) desk (C.chain (cable_of desk.side)) turn
            → ComesTo layout.now grant (Attends layout.now grant base_desk base (ShowsSeat self.new grant given) next (C.chain (cable_of next.side))) turn) }
        ensures none { IfOk result (λ next. acts_of self.new.input ≡ []) }
        ensures line { IfOk result (λ next. waiting next ≡ waiting desk) }
        ensures keeps { KeepsProgress self.new }
        ensures same { KeepsSettings self.old self.new }
        ensures letters { KeepsLetters self.old self.new }
        ensures fit { IfOk result (λ next. MayGoOn self.new) }
        ensures desk { IfOk result (λ next. IsDesk layout.now grant self.new.tap.view next) }
        ensures others { IfOk result (λ next. KeepsOthers grant desk next) }
        ensures whole { IfOk result (λ next. Told (C.chain (cable_of next.side)) (IsWhole layout.now)) }
        ensures mark { C.mark (cable_after result) ≡ C.mark (cable_of desk.side) }
        ensures trst { C.trst (cable_after result) ≡ C.trst (cable_of desk.side) }
        ensures cause { HasCause (C.fault_count (cable_of desk.side)) (C.fault_count (cable_after result)) result }
    {
        if !level || self.trst {
            self.trst = level;
            return Ok(desk);
        }
        let desk = reset(&mut self.tap, grant, desk, layout)?;
        self.trst = level;
        Ok(desk)
    }
}
