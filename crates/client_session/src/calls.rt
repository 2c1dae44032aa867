// The calls of a session, on its progress: its bytes are used, or its wait is over, and it goes on to where the call stops.
ghost use Rattle.std.specs.Prelude.{◌≡◌, ◌≤◌, ◌<◌, ◌+◌, ◌++◌, ◌^◌, ℕ, List, true, false, [], is_some, length, IfOk, IfErr};
ghost use Rattle.base_types.specs.Counts.{HasCause};
ghost use Rattle.base_types.specs.Tellings.{Told};
ghost use Rattle.scan_share.specs.Scans.{IsWhole};
ghost use Rattle.chain_token.specs.Tokens.{holder, waiting};
ghost use Rattle.chain_token.specs.Waiting.{is_among, may_open};
ghost use Rattle.virtual_tap.specs.Taps.{IsOfLayout};
ghost use Rattle.client_session.specs.declared.halt.Halt.TheVariants.{Rests};
ghost use Rattle.client_session.specs.Turns.{Turn};
ghost use Rattle.client_session.specs.Sessions.{DeskView, is_in_line, stand_after, wanted_by};
ghost use Rattle.client_session.specs.declared.Stand.{Stand};
ghost use Rattle.client_session.specs.Stores.{AwaitsBytes, AwaitsCapture, KeepsProgress, StandsSo, protocol_of, unused_of, view_of};
ghost use Rattle.client_session.specs.Desks.{Attends, IsDesk, IsSound, KeepsOthers, WaitsBlocked, cable_of, cable_then};
ghost use Rattle.client_session.specs.Ends.{HaltsBy, StopsBy, bytes_end};
ghost use Rattle.client_session.specs.Calls.{ComesTo, HaltsAt, HaltsWell, HasReplied, KeepsSettings, MayGoOn, ShowsFed, ShowsSeat, StopsThere, TakesOn, is_waiting};

use crate::Stop;
use crate::desk::Desk;
use crate::halt::Halt;
use crate::input::Input;
use crate::progress::Progress;
use chain_model::Cable;
use grant_table::Layout;
use scan_share::Broken;

impl Progress {
    // Uses bytes that came, by the protocol.
    fn take<C: Cable>(
        &mut self,
        piece: &[u8],
        grant: usize,
        desk: Desk<C>,
        layout: &Layout,
    ) -> Result<(Halt, Desk<C>), Broken<C>>
        requires layout { IsOfLayout layout.now self.old.tap }
        requires grant { self.old.tap.grant ≡ grant }
        requires sound { IsSound layout.now grant }
        requires keeps { KeepsProgress self.old }
        requires fit { MayGoOn self.old }
        requires desk { IsDesk layout.now grant self.old.tap.view desk }
        requires whole { Told (C.chain (cable_of desk.side)) (IsWhole layout.now) }
        requires trst { self.old.uses_trst ≡ true → C.trst (cable_of desk.side) ≡ true }
        requires line { is_among grant (waiting desk) ≡ false }
        requires awaits { AwaitsBytes self.old.input }
        requires given { self.old.pending ≡ 0 }
        requires some { 1 ≤ length piece.now }
        requires wanted { length piece.now ≤ wanted_by (protocol_of self.old.input) self.old.vector (unused_of self.old.input) }
        requires few { self.old.taken + length piece.now ≤ 2 ^ 62 }
        ensures keeps { KeepsProgress self.new }
        ensures same { KeepsSettings self.old self.new }
        ensures taken { self.new.taken ≡ self.old.taken + length piece.now }
        ensures fit { IfOk result (λ pair. MayGoOn self.new) }
        ensures halts { IfOk result (λ pair. HaltsWell pair.0 self.new) }
        ensures ends { IfOk result (λ pair. HaltsBy (bytes_end (protocol_of self.old.input) self.old.vector self.old.used (unused_of self.old.input ++ piece.now)) pair.0) }
        ensures desk { IfOk result (λ pair. IsDesk layout.now grant self.new.tap.view pair.1) }
        ensures line { IfOk result (λ pair. is_among grant (waiting pair.1) ≡ is_waiting pair.0) }
        ensures blocked { IfOk result (λ pair. WaitsBlocked (is_waiting pair.0) grant pair.1) }
        ensures others { IfOk result (λ pair. KeepsOthers grant desk pair.1) }
        ensures whole { IfOk result (λ pair. Told (C.chain (cable_of pair.1.side)) (IsWhole layout.now)) }
        ensures mark { C.mark (cable_then result) ≡ C.mark (cable_of desk.side) }
        ensures trst { C.trst (cable_then result) ≡ C.trst (cable_of desk.side) }
        ensures cause { HasCause (C.fault_count (cable_of desk.side)) (C.fault_count (cable_then result)) result }
        ensures went { IfOk result (λ pair. (given : List ℕ) (base_desk : DeskView) (base turn : Turn) → IsWhole layout.now base_desk.chain
            → Attends layout.now grant base_desk base (ShowsFed self.old piece.now grant given) desk (C.chain (cable_of desk.side)) turn
            → ComesTo layout.now grant (Attends layout.now grant base_desk base (HaltsAt pair.0 layout.now self.new grant given) pair.1 (C.chain (cable_of pair.1.side))) turn) }
        ensures failed { IfErr result (λ broken. (given : List ℕ) (base_desk : DeskView) (base turn : Turn) → IsWhole layout.now base_desk.chain
            → Attends layout.now grant base_desk base (ShowsFed self.old piece.now grant given) desk (C.chain (cable_of desk.side)) turn
            → ComesTo layout.now grant (HasReplied self.new given) turn) }
    {
        match self.input {
            Input::Xvc(_) => self.take_message(piece, grant, desk, layout),
            Input::Bitbang(_) => self.take_letters(piece, grant, desk, layout),
        }
    }

    // Makes the rise that was waited for, and uses the bytes that are left, by the protocol.
    fn go_on<C: Cable>(
        &mut self,
        grant: usize,
        desk: Desk<C>,
        layout: &Layout,
    ) -> Result<(Halt, Desk<C>), Broken<C>>
        requires layout { IsOfLayout layout.now self.old.tap }
        requires grant { self.old.tap.grant ≡ grant }
        requires sound { IsSound layout.now grant }
        requires keeps { KeepsProgress self.old }
        requires fit { MayGoOn self.old }
        requires desk { IsDesk layout.now grant self.old.tap.view desk }
        requires whole { Told (C.chain (cable_of desk.side)) (IsWhole layout.now) }
        requires trst { self.old.uses_trst ≡ true → C.trst (cable_of desk.side) ≡ true }
        requires waits { AwaitsCapture self.old }
        requires first { may_open (holder desk) (waiting desk) grant ≡ true }
        ensures keeps { KeepsProgress self.new }
        ensures same { KeepsSettings self.old self.new }
        ensures taken { self.new.taken ≡ self.old.taken }
        ensures fit { IfOk result (λ pair. MayGoOn self.new) }
        ensures halts { IfOk result (λ pair. HaltsWell pair.0 self.new) }
        ensures ends { IfOk result (λ pair. HaltsBy (bytes_end (protocol_of self.old.input) self.old.vector self.old.used (unused_of self.old.input)) pair.0) }
        ensures unused { IfOk result (λ pair. pair.0 ≡ Rests → unused_of self.new.input ≡ []) }
        ensures desk { IfOk result (λ pair. IsDesk layout.now grant self.new.tap.view pair.1) }
        ensures line { IfOk result (λ pair. is_among grant (waiting pair.1) ≡ is_waiting pair.0) }
        ensures blocked { IfOk result (λ pair. WaitsBlocked (is_waiting pair.0) grant pair.1) }
        ensures others { IfOk result (λ pair. KeepsOthers grant desk pair.1) }
        ensures whole { IfOk result (λ pair. Told (C.chain (cable_of pair.1.side)) (IsWhole layout.now)) }
        ensures mark { C.mark (cable_then result) ≡ C.mark (cable_of desk.side) }
        ensures trst { C.trst (cable_then result) ≡ C.trst (cable_of desk.side) }
        ensures cause { HasCause (C.fault_count (cable_of desk.side)) (C.fault_count (cable_then result)) result }
        ensures went { IfOk result (λ pair. (given : List ℕ) (base_desk : DeskView) (base turn : Turn) → IsWhole layout.now base_desk.chain
            → Attends layout.now grant base_desk base (ShowsSeat self.old grant given) desk (C.chain (cable_of desk.side)) turn
            → ComesTo layout.now grant (Attends layout.now grant base_desk base (HaltsAt pair.0 layout.now self.new grant given) pair.1 (C.chain (cable_of pair.1.side))) turn) }
        ensures failed { IfErr result (λ broken. (given : List ℕ) (base_desk : DeskView) (base turn : Turn) → IsWhole layout.now base_desk.chain
            → Attends layout.now grant base_desk base (ShowsSeat self.old grant given) desk (C.chain (cable_of desk.side)) turn
            → ComesTo layout.now grant (HasReplied self.new given) turn) }
    {
        match self.input {
            Input::Xvc(_) => self.resume_message(grant, desk, layout),
            Input::Bitbang(_) => self.resume_letters(grant, desk, layout),
        }
    }

    /// Uses bytes that came, and goes on to where the session goes on no further.
    ///
    /// `Broken` comes only where the cable's count of faults rose in the call.
    pub fn feed<C: Cable>(
        &mut self,
        piece: &[u8],
        grant: usize,
        desk: Desk<C>,
        layout: &Layout,
    ) -> Result<(Stop, Desk<C>), Broken<C>>
        requires layout { IsOfLayout layout.now self.old.tap }
        requires grant { self.old.tap.grant ≡ grant }
        requires sound { IsSound layout.now grant }
        requires keeps { KeepsProgress self.old }
        requires fit { MayGoOn self.old }
        requires desk { IsDesk layout.now grant self.old.tap.view desk }
        requires whole { Told (C.chain (cable_of desk.side)) (IsWhole layout.now) }
        requires trst { self.old.uses_trst ≡ true → C.trst (cable_of desk.side) ≡ true }
        requires line { is_among grant (waiting desk) ≡ false }
        requires awaits { AwaitsBytes self.old.input }
        requires given { self.old.pending ≡ 0 }
        requires some { 1 ≤ length piece.now }
        requires wanted { length piece.now ≤ wanted_by (protocol_of self.old.input) self.old.vector (unused_of self.old.input) }
        requires few { self.old.taken + length piece.now ≤ 2 ^ 62 }
        ensures keeps { KeepsProgress self.new }
        ensures same { KeepsSettings self.old self.new }
        ensures taken { IfOk result (λ pair. TakesOn pair.0 (self.old.taken + length piece.now) self.new.taken) }
        ensures there { IfOk result (λ pair. is_some self.new.tap.view.register ≡ true) }
        ensures stands { IfOk result (λ pair. StandsSo (stand_after pair.0 false) self.new) }
        ensures stops { IfOk result (λ pair. StopsBy (bytes_end (protocol_of self.old.input) self.old.vector self.old.used (unused_of self.old.input ++ piece.now)) false (self.old.used + length (unused_of self.old.input) + length piece.now) pair.0) }
        ensures desk { IfOk result (λ pair. IsDesk layout.now grant self.new.tap.view pair.1) }
        ensures line { IfOk result (λ pair. is_among grant (waiting pair.1) ≡ is_in_line (stand_after pair.0 false)) }
        ensures blocked { IfOk result (λ pair. WaitsBlocked (is_in_line (stand_after pair.0 false)) grant pair.1) }
        ensures others { IfOk result (λ pair. KeepsOthers grant desk pair.1) }
        ensures whole { IfOk result (λ pair. Told (C.chain (cable_of pair.1.side)) (IsWhole layout.now)) }
        ensures mark { C.mark (cable_then result) ≡ C.mark (cable_of desk.side) }
        ensures trst { C.trst (cable_then result) ≡ C.trst (cable_of desk.side) }
        ensures cause { HasCause (C.fault_count (cable_of desk.side)) (C.fault_count (cable_then result)) result }
        ensures went { IfOk result (λ pair. (given : List ℕ) (base_desk : DeskView) (base turn : Turn) → IsWhole layout.now base_desk.chain → turn.seat.gone ≡ false
            → Attends layout.now grant base_desk base (ShowsFed self.old piece.now grant given) desk (C.chain (cable_of desk.side)) turn
            → StopsThere layout.now grant base_desk base (view_of self.new (stand_after pair.0 false) false) given pair.0 pair.1 (C.chain (cable_of pair.1.side)) turn) }
        ensures failed { IfErr result (λ broken. (given : List ℕ) (base_desk : DeskView) (base turn : Turn) → IsWhole layout.now base_desk.chain
            → Attends layout.now grant base_desk base (ShowsFed self.old piece.now grant given) desk (C.chain (cable_of desk.side)) turn
            → ComesTo layout.now grant (HasReplied self.new given) turn) }
    {
        let (halt, desk) = self.take(piece, grant, desk, layout)?;
        let (stop, desk) = self.settle(halt, false, grant, desk, layout)?;
        Ok((stop, desk))
    }

    /// Goes on where the session waited, for the chain is the grant's now; its peer may be gone.
    ///
    /// `Broken` comes only where the cable's count of faults rose in the call.
    pub fn resume<C: Cable>(
        &mut self,
        gone: bool,
        grant: usize,
        desk: Desk<C>,
        layout: &Layout,
    ) -> Result<(Stop, Desk<C>), Broken<C>>
        requires layout { IsOfLayout layout.now self.old.tap }
        requires grant { self.old.tap.grant ≡ grant }
        requires sound { IsSound layout.now grant }
        requires keeps { KeepsProgress self.old }
        requires fit { MayGoOn self.old }
        requires desk { IsDesk layout.now grant self.old.tap.view desk }
        requires whole { Told (C.chain (cable_of desk.side)) (IsWhole layout.now) }
        requires trst { self.old.uses_trst ≡ true → C.trst (cable_of desk.side) ≡ true }
        requires waits { AwaitsCapture self.old }
        requires first { may_open (holder desk) (waiting desk) grant ≡ true }
        ensures keeps { KeepsProgress self.new }
        ensures same { KeepsSettings self.old self.new }
        ensures there { IfOk result (λ pair. is_some self.new.tap.view.register ≡ true) }
        ensures stands { IfOk result (λ pair. StandsSo (stand_after pair.0 gone) self.new) }
        ensures here { IfOk result (λ pair. stand_after pair.0 gone ≡ Stand.Going → gone ≡ false) }
        ensures stops { IfOk result (λ pair. StopsBy (bytes_end (protocol_of self.old.input) self.old.vector self.old.used (unused_of self.old.input)) gone (self.old.used + length (unused_of self.old.input)) pair.0) }
        ensures desk { IfOk result (λ pair. IsDesk layout.now grant self.new.tap.view pair.1) }
        ensures line { IfOk result (λ pair. is_among grant (waiting pair.1) ≡ is_in_line (stand_after pair.0 gone)) }
        ensures blocked { IfOk result (λ pair. WaitsBlocked (is_in_line (stand_after pair.0 gone)) grant pair.1) }
        ensures others { IfOk result (λ pair. KeepsOthers grant desk pair.1) }
        ensures whole { IfOk result (λ pair. Told (C.chain (cable_of pair.1.side)) (IsWhole layout.now)) }
        ensures mark { C.mark (cable_then result) ≡ C.mark (cable_of desk.side) }
        ensures trst { C.trst (cable_then result) ≡ C.trst (cable_of desk.side) }
        ensures cause { HasCause (C.fault_count (cable_of desk.side)) (C.fault_count (cable_then result)) result }
        ensures went { IfOk result (λ pair. (given : List ℕ) (base_desk : DeskView) (base turn : Turn) → IsWhole layout.now base_desk.chain → turn.seat.gone ≡ gone
            → Attends layout.now grant base_desk base (ShowsSeat self.old grant given) desk (C.chain (cable_of desk.side)) turn
            → StopsThere layout.now grant base_desk base (view_of self.new (stand_after pair.0 gone) false) given pair.0 pair.1 (C.chain (cable_of pair.1.side)) turn) }
        ensures failed { IfErr result (λ broken. (given : List ℕ) (base_desk : DeskView) (base turn : Turn) → IsWhole layout.now base_desk.chain
            → Attends layout.now grant base_desk base (ShowsSeat self.old grant given) desk (C.chain (cable_of desk.side)) turn
            → ComesTo layout.now grant (HasReplied self.new given) turn) }
    {
        let (halt, desk) = self.go_on(grant, desk, layout)?;
        let (stop, desk) = self.settle(halt, gone, grant, desk, layout)?;
        Ok((stop, desk))
    }
}
