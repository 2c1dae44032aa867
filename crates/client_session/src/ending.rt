// Where a call of a session stops.
ghost use Rattle.std.specs.Prelude.{◌≡◌, ◌<◌, ◌^◌, ℕ, List, true, false, is_some, IfOk};
ghost use Rattle.base_types.specs.Counts.{HasCause};
ghost use Rattle.base_types.specs.Tellings.{Told};
ghost use Rattle.scan_share.specs.Scans.{IsWhole};
ghost use Rattle.chain_token.specs.Tokens.{waiting};
ghost use Rattle.chain_token.specs.Waiting.{is_among};
ghost use Rattle.virtual_tap.specs.Taps.{IsOfLayout};
ghost use Rattle.client_session.specs.declared.End.{End};
ghost use Rattle.client_session.specs.declared.Stand.{Stand};
ghost use Rattle.client_session.specs.declared.Stop.{Stop};
ghost use Rattle.client_session.specs.Seats.{advanced};
ghost use Rattle.client_session.specs.Turns.{Turn};
ghost use Rattle.client_session.specs.Sessions.{DeskView, is_in_line, stand_after};
ghost use Rattle.client_session.specs.Stores.{KeepsProgress, StandsSo, reply_of, unused_of, view_of};
ghost use Rattle.client_session.specs.Desks.{Attends, IsDesk, IsSound, KeepsOthers, WaitsBlocked, cable_after, cable_of, cable_then};
ghost use Rattle.client_session.specs.Calls.{EndsSo, HaltsAt, HaltsWell, HasLeft, KeepsSettings, MayGoOn, RestsThere, StopsThere, TakesOn, ended_by, halt_stop, is_waiting, rest_end};

use crate::desk::{Desk, close};
use crate::halt::Halt;
use crate::progress::{MOST_BYTES, Progress};
use crate::{End, Stop};
use chain_model::Cable;
use grant_table::Layout;
use scan_share::Broken;

impl Progress {
    // How a session ends that waits for bytes; its peer may be gone.
    fn end_at_rest(&self, gone: bool) -> Option<End>
        requires keeps { KeepsProgress self.now }
        ensures due { (grant : ℕ) (given : List ℕ) (turn : Turn) → turn.seat.gone ≡ gone → RestsThere self.now grant given turn → advanced turn.seat ≡ ended_by result turn.seat }
        ensures value { result ≡ rest_end gone self.now.used (unused_of self.now.input) }
        ensures here { result ≡ None → gone ≡ false }
        ensures few { result ≡ None → self.now.taken < 2 ^ 62 }
    {
        if self.taken >= MOST_BYTES {
            return Some(End::Long(MOST_BYTES));
        }
        if !gone {
            return None;
        }
        if self.taken == self.used {
            return Some(End::Gone(self.used));
        }
        Some(End::Cut(self.taken))
    }

    // Ends the session: its chain is closed, the lines are 0, and no byte is left. The reply stays.
    fn end<C: Cable>(
        &mut self,
        grant: usize,
        desk: Desk<C>,
        layout: &Layout,
    ) -> Result<Desk<C>, Broken<C>>
        requires layout { IsOfLayout layout.now self.old.tap }
        requires grant { self.old.tap.grant ≡ grant }
        requires sound { IsSound layout.now grant }
        requires keeps { KeepsProgress self.old }
        requires there { is_some self.old.tap.view.register ≡ true }
        requires desk { IsDesk layout.now grant self.old.tap.view desk }
        requires whole { Told (C.chain (cable_of desk.side)) (IsWhole layout.now) }
        ensures keeps { KeepsProgress self.new }
        ensures same { KeepsSettings self.old self.new }
        ensures left { IfOk result (λ next. HasLeft self.old self.new) }
        ensures there { IfOk result (λ next. is_some self.new.tap.view.register ≡ true) }
        ensures desk { IfOk result (IsDesk layout.now grant self.new.tap.view) }
        ensures waits { IfOk result (λ next. waiting next ≡ waiting desk) }
        ensures others { IfOk result (KeepsOthers grant desk) }
        ensures whole { IfOk result (λ next. Told (C.chain (cable_of next.side)) (IsWhole layout.now)) }
        ensures mark { C.mark (cable_after result) ≡ C.mark (cable_of desk.side) }
        ensures trst { C.trst (cable_after result) ≡ C.trst (cable_of desk.side) }
        ensures cause { HasCause (C.fault_count (cable_of desk.side)) (C.fault_count (cable_after result)) result }
        ensures reply { reply_of self.new ≡ reply_of self.old }
        ensures went { IfOk result (λ next. (end : End) (given : List ℕ) (base_desk : DeskView) (base turn : Turn) → IsWhole layout.now base_desk.chain
            → Attends layout.now grant base_desk base (EndsSo end self.old grant given) desk (C.chain (cable_of desk.side)) turn
            → StopsThere layout.now grant base_desk base (view_of self.new Stand.Free false) given (Stop.Ended end) next (C.chain (cable_of next.side)) turn) }
    {
        let next = close(&mut self.tap, grant, desk, layout)?;
        self.tck = false;
        self.trst = false;
        self.used = 0;
        self.taken = 0;
        self.input.forget();
        Ok(next)
    }

    /// From what a session came to it goes on to where it goes on no further: it rests or waits there, or it ends.
    ///
    /// `Broken` comes only where the cable's count of faults rose in the call.
    pub fn settle<C: Cable>(
        &mut self,
        halt: Halt,
        gone: bool,
        grant: usize,
        desk: Desk<C>,
        layout: &Layout,
    ) -> Result<(Stop, Desk<C>), Broken<C>>
        requires layout { IsOfLayout layout.now self.old.tap }
        requires grant { self.old.tap.grant ≡ grant }
        requires sound { IsSound layout.now grant }
        requires keeps { KeepsProgress self.old }
        requires fit { MayGoOn self.old }
        requires halts { HaltsWell halt self.old }
        requires desk { IsDesk layout.now grant self.old.tap.view desk }
        requires line { is_among grant (waiting desk) ≡ is_waiting halt }
        requires blocked { WaitsBlocked (is_waiting halt) grant desk }
        requires whole { Told (C.chain (cable_of desk.side)) (IsWhole layout.now) }
        ensures keeps { KeepsProgress self.new }
        ensures same { KeepsSettings self.old self.new }
        ensures there { IfOk result (λ pair. is_some self.new.tap.view.register ≡ true) }
        ensures stands { IfOk result (λ pair. StandsSo (stand_after pair.0 gone) self.new) }
        ensures here { IfOk result (λ pair. stand_after pair.0 gone ≡ Stand.Going → gone ≡ false) }
        ensures desk { IfOk result (λ pair. IsDesk layout.now grant self.new.tap.view pair.1) }
        ensures stops { IfOk result (λ pair. pair.0 ≡ halt_stop halt gone self.old.used (unused_of self.old.input)) }
        ensures taken { IfOk result (λ pair. TakesOn pair.0 self.old.taken self.new.taken) }
        ensures line { IfOk result (λ pair. is_among grant (waiting pair.1) ≡ is_in_line (stand_after pair.0 gone)) }
        ensures blocked { IfOk result (λ pair. WaitsBlocked (is_in_line (stand_after pair.0 gone)) grant pair.1) }
        ensures others { IfOk result (λ pair. KeepsOthers grant desk pair.1) }
        ensures whole { IfOk result (λ pair. Told (C.chain (cable_of pair.1.side)) (IsWhole layout.now)) }
        ensures mark { C.mark (cable_then result) ≡ C.mark (cable_of desk.side) }
        ensures trst { C.trst (cable_then result) ≡ C.trst (cable_of desk.side) }
        ensures cause { HasCause (C.fault_count (cable_of desk.side)) (C.fault_count (cable_then result)) result }
        ensures reply { reply_of self.new ≡ reply_of self.old }
        ensures went { IfOk result (λ pair. (given : List ℕ) (base_desk : DeskView) (base turn : Turn) → IsWhole layout.now base_desk.chain → turn.seat.gone ≡ gone
            → Attends layout.now grant base_desk base (HaltsAt halt layout.now self.old grant given) desk (C.chain (cable_of desk.side)) turn
            → StopsThere layout.now grant base_desk base (view_of self.new (stand_after pair.0 gone) false) given pair.0 pair.1 (C.chain (cable_of pair.1.side)) turn) }
    {
        let end = match halt {
            Halt::Waits => return Ok((Stop::Waits, desk)),
            Halt::Rests => self.end_at_rest(gone),
            Halt::Ends(end) => Some(end),
        };
        match end {
            None => Ok((Stop::Done, desk)),
            Some(end) => {
                let next = self.end(grant, desk, layout)?;
                Ok((Stop::Ended(end), next))
            }
        }
    }
}
