// Letters of remote_bitbang.
ghost use Rattle.std.specs.Prelude.{◌≡◌, ◌≤◌, ◌<◌, ◌+◌, ◌++◌, ◌^◌, ℕ, List, true, false, [], length, slice_get, IfOk, IfErr, IfSome, IfNone};
ghost use Rattle.base_types.specs.Counts.{HasCause};
ghost use Rattle.base_types.specs.Tellings.{Told};
ghost use Rattle.bitbang_frame.specs.declared.Letter.TheVariants as letters;
ghost use Rattle.grant_table.specs.declared.Protocol.TheVariants.{Bitbang};
ghost use Rattle.scan_share.specs.Scans.{IsWhole};
ghost use Rattle.chain_token.specs.Tokens.{holder, waiting};
ghost use Rattle.chain_token.specs.Waiting.{is_among, may_open};
ghost use Rattle.virtual_tap.specs.Taps.{IsOfLayout};
ghost use Rattle.client_session.specs.declared.halt.Halt.TheVariants.{Rests};
ghost use Rattle.client_session.specs.Acts.{letter_acts};
ghost use Rattle.client_session.specs.Turns.{LayoutShape, Turn};
ghost use Rattle.client_session.specs.Sessions.{DeskView, wanted_by};
ghost use Rattle.client_session.specs.Stores.{AwaitsBytes, AwaitsCapture, KeepsProgress, acts_of, protocol_of, unused_of};
ghost use Rattle.client_session.specs.Desks.{Attends, IsDesk, IsSound, KeepsOthers, WaitsBlocked, cable_of, cable_then};
ghost use Rattle.client_session.specs.Calls.{ComesTo, HaltsAt, HaltsWell, HasReplied, KeepsSettings, LinesTo, LinesWell, MayGoOn, ShowsFed, ShowsSeat, is_waiting};
ghost use Rattle.client_session.specs.Ends.{HaltsBy, bytes_end, letters_end};
ghost use Rattle.client_session.specs.Letters.{ComesQuietly, IsNext, SaysTdo, TakesLetters, UsesFirst, acts_asked, is_trst};

use crate::End;
use crate::desk::Desk;
use crate::halt::Halt;
use crate::input::Input;
use crate::progress::Progress;
use bitbang_frame::Letter;
use bitbang_frame::table::letter;
use chain_model::Cable;
use grant_table::Layout;
use scan_share::Broken;

/// What a letter asks for that does not end the session (the remote_bitbang manual).
#[derive(Clone, Copy, Debug, PartialEq, Eq)]
pub enum LetterAct {
    /// The lines TCK, TMS and TDI are set.
    Lines { tck: bool, tms: bool, tdi: bool },
    /// TRST is set.
    Trst(bool),
    /// TDO is replied.
    Tdo,
    /// Nothing is done.
    Nothing,
}

impl LetterAct {
    // What a letter asks for; none where it ends the session.
    fn of(meant: Letter, uses_trst: bool) -> Option<LetterAct>
        ensures acts { IfSome result (λ act. (at : ℕ) → letter_acts uses_trst at meant ≡ acts_asked act) }
        ensures trst { IfSome result (λ act. is_trst act ≡ true → uses_trst ≡ true) }
        ensures quit { IfNone result (meant ≡ letters.Quit) }
    {
        match meant {
            Letter::Lines { tck, tms, tdi } => Some(LetterAct::Lines { tck, tms, tdi }),
            Letter::Read => Some(LetterAct::Tdo),
            Letter::Quit => None,
            Letter::Light(_) => Some(LetterAct::Nothing),
            Letter::Reset { trst, srst: _ } => {
                if uses_trst {
                    return Some(LetterAct::Trst(trst));
                }
                Some(LetterAct::Nothing)
            }
        }
    }
}

impl Progress {
    // The first letter that is not used.
    fn first_letter(&self) -> Option<u8>
        requires { protocol_of self.now.input ≡ Bitbang }
        ensures { result ≡ slice_get (unused_of self.now.input) 0 }
    {
        match &self.input {
            Input::Xvc(_) => None,
            Input::Bitbang(letters) => letters.letters.first().copied(),
        }
    }

    // What the first letter asks for; where there is none to be used, the error is what the session came to.
    fn next_letter(&self) -> Result<LetterAct, Halt>
        requires protocol { protocol_of self.now.input ≡ Bitbang }
        requires none { acts_of self.now.input ≡ [] }
        ensures next { IfOk result (λ act. IsNext act self.now) }
        ensures halts { IfErr result (λ halt. HaltsWell halt self.now) }
        ensures waits { IfErr result (λ halt. is_waiting halt ≡ false) }
        ensures ends { IfErr result (HaltsBy (letters_end self.now.used (unused_of self.now.input))) }
        ensures went { IfErr result (λ halt. (layout : LayoutShape) (grant : ℕ) (given : List ℕ) (turn : Turn) → ShowsSeat self.now grant given turn
            → ComesQuietly layout grant (HaltsAt halt layout self.now grant given) turn) }
    {
        let Some(byte) = self.first_letter() else {
            return Err(Halt::Rests);
        };
        let Ok(meant) = letter(byte) else {
            return Err(Halt::Ends(End::Refused(self.used, 3)));
        };
        match LetterAct::of(meant, self.uses_trst) {
            Some(act) => Ok(act),
            None => Err(Halt::Ends(End::Quit(self.used))),
        }
    }

    // The first letter is used.
    fn use_first(&mut self)
        requires keeps { KeepsProgress self.old }
        requires protocol { protocol_of self.old.input ≡ Bitbang }
        requires some { 1 ≤ length (unused_of self.old.input) }
        ensures keeps { KeepsProgress self.new }
        ensures uses { UsesFirst self.old self.new }
    {
        if let Input::Bitbang(letters) = &mut self.input {
            letters.letters.remove(0);
        }
        self.used += 1;
    }

    // Replies TDO as the digit 0 or 1.
    fn say_tdo(&mut self)
        requires keeps { KeepsProgress self.old }
        requires protocol { protocol_of self.old.input ≡ Bitbang }
        requires room { length self.old.said.items + length (unused_of self.old.input) < 16 }
        ensures keeps { KeepsProgress self.new }
        ensures says { SaysTdo self.old self.new }
    {
        self.said.push(if self.tap.tdo() { b'1' } else { b'0' });
        self.pending += 1;
    }

    // Takes letters where none is left, and forgets the replies, which were given.
    fn keep_letters(&mut self, piece: &[u8])
        requires keeps { KeepsProgress self.old }
        requires protocol { protocol_of self.old.input ≡ Bitbang }
        requires awaits { AwaitsBytes self.old.input }
        requires given { self.old.pending ≡ 0 }
        requires most { length piece.now ≤ 16 }
        requires few { self.old.taken + length piece.now ≤ 2 ^ 62 }
        ensures keeps { KeepsProgress self.new }
        ensures takes { TakesLetters piece.now self.old self.new }
    {
        self.said.clear();
        if let Input::Bitbang(letters) = &mut self.input {
            match letters.letters.try_extend_from_slice(piece) {
                Ok(()) => {}
                Err(_) => unreachable!(),
            }
        }
        self.taken += piece.len() as u64;
    }

    // Uses the first letter. True where the session waits before the rise that it asks for.
    fn use_letter<C: Cable>(
        &mut self,
        act: LetterAct,
        grant: usize,
        desk: Desk<C>,
        layout: &Layout,
    ) -> Result<(bool, Desk<C>), Broken<C>>
        requires layout { IsOfLayout layout.now self.old.tap }
        requires grant { self.old.tap.grant ≡ grant }
        requires sound { IsSound layout.now grant }
        requires keeps { KeepsProgress self.old }
        requires fit { MayGoOn self.old }
        requires desk { IsDesk layout.now grant self.old.tap.view desk }
        requires whole { Told (C.chain (cable_of desk.side)) (IsWhole layout.now) }
        requires trst { self.old.uses_trst ≡ true → C.trst (cable_of desk.side) ≡ true }
        requires line { is_among grant (waiting desk) ≡ false }
        requires protocol { protocol_of self.old.input ≡ Bitbang }
        requires none { acts_of self.old.input ≡ [] }
        requires next { IsNext act self.old }
        ensures keeps { KeepsProgress self.new }
        ensures same { KeepsSettings self.old self.new }
        ensures taken { self.new.taken ≡ self.old.taken }
        ensures fit { IfOk result (λ pair. MayGoOn self.new) }
        ensures desk { IfOk result (λ pair. IsDesk layout.now grant self.new.tap.view pair.1) }
        ensures others { IfOk result (λ pair. KeepsOthers grant desk pair.1) }
        ensures whole { IfOk result (λ pair. Told (C.chain (cable_of pair.1.side)) (IsWhole layout.now)) }
        ensures mark { C.mark (cable_then result) ≡ C.mark (cable_of desk.side) }
        ensures trst { C.trst (cable_then result) ≡ C.trst (cable_of desk.side) }
        ensures cause { HasCause (C.fault_count (cable_of desk.side)) (C.fault_count (cable_then result)) result }
        ensures waits { IfOk result (λ pair. LinesWell pair.0 self.new) }
        ensures line { IfOk result (λ pair. is_among grant (waiting pair.1) ≡ pair.0) }
        ensures blocked { IfOk result (λ pair. WaitsBlocked pair.0 grant pair.1) }
        ensures less { length (unused_of self.new.input) < length (unused_of self.old.input) }
        ensures ends { IfOk result (λ pair. letters_end self.new.used (unused_of self.new.input) ≡ letters_end self.old.used (unused_of self.old.input)) }
        ensures went { IfOk result (λ pair. (given : List ℕ) (base_desk : DeskView) (base turn : Turn) → IsWhole layout.now base_desk.chain
            → Attends layout.now grant base_desk base (ShowsSeat self.old grant given) desk (C.chain (cable_of desk.side)) turn
            → ComesTo layout.now grant (Attends layout.now grant base_desk base (LinesTo pair.0 layout.now self.new grant given) pair.1 (C.chain (cable_of pair.1.side))) turn) }
        ensures failed { IfErr result (λ broken. (given : List ℕ) (base_desk : DeskView) (base turn : Turn) → IsWhole layout.now base_desk.chain
            → Attends layout.now grant base_desk base (ShowsSeat self.old grant given) desk (C.chain (cable_of desk.side)) turn
            → ComesTo layout.now grant (HasReplied self.new given) turn) }
    {
        self.use_first();
        match act {
            LetterAct::Lines { tck, tms, tdi } => {
                let (waits, desk) = self.set_lines(tck, tms, tdi, grant, desk, layout)?;
                Ok((waits, desk))
            }
            LetterAct::Trst(level) => {
                let desk = self.set_trst(level, grant, desk, layout)?;
                Ok((false, desk))
            }
            LetterAct::Tdo => {
                self.say_tdo();
                Ok((false, desk))
            }
            LetterAct::Nothing => Ok((false, desk)),
        }
    }

    // Uses the letters one after another, until none is left, the session waits, or it ends.
    fn use_letters<C: Cable>(
        &mut self,
        grant: usize,
        desk: Desk<C>,
        layout: &Layout,
    ) -> Result<(Halt, Desk<C>), Broken<C>>
        requires layout { IsOfLayout layout.now self.old.tap }
        requires grant { self.old.tap.grant ≡ grant }
        requires sound { IsSound layout.now grant }
        requires keeps { KeepsProgress self.old }
        requires fit { MayGoOn self.old }
        requires desk { IsDesk layout.now grant self.old.tap.view desk }
        requires whole { Told (C.chain (cable_of desk.side)) (IsWhole layout.now) }
        requires trst { self.old.uses_trst ≡ true → C.trst (cable_of desk.side) ≡ true }
        requires line { is_among grant (waiting desk) ≡ false }
        requires protocol { protocol_of self.old.input ≡ Bitbang }
        requires none { acts_of self.old.input ≡ [] }
        ensures keeps { KeepsProgress self.new }
        ensures same { KeepsSettings self.old self.new }
        ensures taken { self.new.taken ≡ self.old.taken }
        ensures fit { IfOk result (λ pair. MayGoOn self.new) }
        ensures desk { IfOk result (λ pair. IsDesk layout.now grant self.new.tap.view pair.1) }
        ensures others { IfOk result (λ pair. KeepsOthers grant desk pair.1) }
        ensures whole { IfOk result (λ pair. Told (C.chain (cable_of pair.1.side)) (IsWhole layout.now)) }
        ensures mark { C.mark (cable_then result) ≡ C.mark (cable_of desk.side) }
        ensures trst { C.trst (cable_then result) ≡ C.trst (cable_of desk.side) }
        ensures cause { HasCause (C.fault_count (cable_of desk.side)) (C.fault_count (cable_then result)) result }
        ensures halts { IfOk result (λ pair. HaltsWell pair.0 self.new) }
        ensures ends { IfOk result (λ pair. HaltsBy (letters_end self.old.used (unused_of self.old.input)) pair.0) }
        ensures line { IfOk result (λ pair. is_among grant (waiting pair.1) ≡ is_waiting pair.0) }
        ensures blocked { IfOk result (λ pair. WaitsBlocked (is_waiting pair.0) grant pair.1) }
        ensures went { IfOk result (λ pair. (given : List ℕ) (base_desk : DeskView) (base turn : Turn) → IsWhole layout.now base_desk.chain
            → Attends layout.now grant base_desk base (ShowsSeat self.old grant given) desk (C.chain (cable_of desk.side)) turn
            → ComesTo layout.now grant (Attends layout.now grant base_desk base (HaltsAt pair.0 layout.now self.new grant given) pair.1 (C.chain (cable_of pair.1.side))) turn) }
        ensures failed { IfErr result (λ broken. (given : List ℕ) (base_desk : DeskView) (base turn : Turn) → IsWhole layout.now base_desk.chain
            → Attends layout.now grant base_desk base (ShowsSeat self.old grant given) desk (C.chain (cable_of desk.side)) turn
            → ComesTo layout.now grant (HasReplied self.new given) turn) }
    {
        let mut desk = desk;
        loop {
            let act = match self.next_letter() {
                Ok(act) => act,
                Err(halt) => return Ok((halt, desk)),
            };
            let (waits, next) = self.use_letter(act, grant, desk, layout)?;
            desk = next;
            if waits {
                return Ok((Halt::Waits, desk));
            }
        }
    }

    /// Takes letters where none is left, and uses them one after another, until none is left, the session waits for the chain, or it ends.
    ///
    /// `Broken` comes only where the cable's count of faults rose in the call.
    pub fn take_letters<C: Cable>(
        &mut self,
        piece: &[u8],
        grant: usize,
        desk: Desk<C>,
        layout: &Layout,
    ) -> Result<(Halt, Desk<C>), Broken<C>>
        requires layout { IsOfLayout layout.now self.old.tap }
        requires grant { self.old.tap.grant ≡ grant }
        requires sound { IsSound layout.now grant }
        requires keeps { KeepsProgress self.old }
        requires fit { MayGoOn self.old }
        requires desk { IsDesk layout.now grant self.old.tap.view desk }
        requires whole { Told (C.chain (cable_of desk.side)) (IsWhole layout.now) }
        requires trst { self.old.uses_trst ≡ true → C.trst (cable_of desk.side) ≡ true }
        requires line { is_among grant (waiting desk) ≡ false }
        requires protocol { protocol_of self.old.input ≡ Bitbang }
        requires awaits { AwaitsBytes self.old.input }
        requires given { self.old.pending ≡ 0 }
        requires some { 1 ≤ length piece.now }
        requires wanted { length piece.now ≤ wanted_by (protocol_of self.old.input) self.old.vector (unused_of self.old.input) }
        requires few { self.old.taken + length piece.now ≤ 2 ^ 62 }
        ensures keeps { KeepsProgress self.new }
        ensures same { KeepsSettings self.old self.new }
        ensures taken { self.new.taken ≡ self.old.taken + length piece.now }
        ensures fit { IfOk result (λ pair. MayGoOn self.new) }
        ensures desk { IfOk result (λ pair. IsDesk layout.now grant self.new.tap.view pair.1) }
        ensures others { IfOk result (λ pair. KeepsOthers grant desk pair.1) }
        ensures whole { IfOk result (λ pair. Told (C.chain (cable_of pair.1.side)) (IsWhole layout.now)) }
        ensures mark { C.mark (cable_then result) ≡ C.mark (cable_of desk.side) }
        ensures trst { C.trst (cable_then result) ≡ C.trst (cable_of desk.side) }
        ensures cause { HasCause (C.fault_count (cable_of desk.side)) (C.fault_count (cable_then result)) result }
        ensures halts { IfOk result (λ pair. HaltsWell pair.0 self.new) }
        ensures ends { IfOk result (λ pair. HaltsBy (bytes_end Bitbang self.old.vector self.old.used (unused_of self.old.input ++ piece.now)) pair.0) }
        ensures line { IfOk result (λ pair. is_among grant (waiting pair.1) ≡ is_waiting pair.0) }
        ensures blocked { IfOk result (λ pair. WaitsBlocked (is_waiting pair.0) grant pair.1) }
        ensures went { IfOk result (λ pair. (given : List ℕ) (base_desk : DeskView) (base turn : Turn) → IsWhole layout.now base_desk.chain
            → Attends layout.now grant base_desk base (ShowsFed self.old piece.now grant given) desk (C.chain (cable_of desk.side)) turn
            → ComesTo layout.now grant (Attends layout.now grant base_desk base (HaltsAt pair.0 layout.now self.new grant given) pair.1 (C.chain (cable_of pair.1.side))) turn) }
        ensures failed { IfErr result (λ broken. (given : List ℕ) (base_desk : DeskView) (base turn : Turn) → IsWhole layout.now base_desk.chain
            → Attends layout.now grant base_desk base (ShowsFed self.old piece.now grant given) desk (C.chain (cable_of desk.side)) turn
            → ComesTo layout.now grant (HasReplied self.new given) turn) }
    {
        self.keep_letters(piece);
        let (halt, desk) = self.use_letters(grant, desk, layout)?;
        Ok((halt, desk))
    }

    /// Makes the rise before which the session waited, where the chain is now the grant's, and goes on with the letters that are left.
    ///
    /// `Broken` comes only where the cable's count of faults rose in the call.
    pub fn resume_letters<C: Cable>(
        &mut self,
        grant: usize,
        desk: Desk<C>,
        layout: &Layout,
    ) -> Result<(Halt, Desk<C>), Broken<C>>
        requires layout { IsOfLayout layout.now self.old.tap }
        requires grant { self.old.tap.grant ≡ grant }
        requires sound { IsSound layout.now grant }
        requires keeps { KeepsProgress self.old }
        requires fit { MayGoOn self.old }
        requires desk { IsDesk layout.now grant self.old.tap.view desk }
        requires whole { Told (C.chain (cable_of desk.side)) (IsWhole layout.now) }
        requires trst { self.old.uses_trst ≡ true → C.trst (cable_of desk.side) ≡ true }
        requires protocol { protocol_of self.old.input ≡ Bitbang }
        requires waits { AwaitsCapture self.old }
        requires first { may_open (holder desk) (waiting desk) grant ≡ true }
        ensures keeps { KeepsProgress self.new }
        ensures same { KeepsSettings self.old self.new }
        ensures taken { self.new.taken ≡ self.old.taken }
        ensures fit { IfOk result (λ pair. MayGoOn self.new) }
        ensures desk { IfOk result (λ pair. IsDesk layout.now grant self.new.tap.view pair.1) }
        ensures others { IfOk result (λ pair. KeepsOthers grant desk pair.1) }
        ensures whole { IfOk result (λ pair. Told (C.chain (cable_of pair.1.side)) (IsWhole layout.now)) }
        ensures mark { C.mark (cable_then result) ≡ C.mark (cable_of desk.side) }
        ensures trst { C.trst (cable_then result) ≡ C.trst (cable_of desk.side) }
        ensures cause { HasCause (C.fault_count (cable_of desk.side)) (C.fault_count (cable_then result)) result }
        ensures halts { IfOk result (λ pair. HaltsWell pair.0 self.new) }
        ensures ends { IfOk result (λ pair. HaltsBy (bytes_end Bitbang self.old.vector self.old.used (unused_of self.old.input)) pair.0) }
        ensures unused { IfOk result (λ pair. pair.0 ≡ Rests → unused_of self.new.input ≡ []) }
        ensures line { IfOk result (λ pair. is_among grant (waiting pair.1) ≡ is_waiting pair.0) }
        ensures blocked { IfOk result (λ pair. WaitsBlocked (is_waiting pair.0) grant pair.1) }
        ensures went { IfOk result (λ pair. (given : List ℕ) (base_desk : DeskView) (base turn : Turn) → IsWhole layout.now base_desk.chain
            → Attends layout.now grant base_desk base (ShowsSeat self.old grant given) desk (C.chain (cable_of desk.side)) turn
            → ComesTo layout.now grant (Attends layout.now grant base_desk base (HaltsAt pair.0 layout.now self.new grant given) pair.1 (C.chain (cable_of pair.1.side))) turn) }
        ensures failed { IfErr result (λ broken. (given : List ℕ) (base_desk : DeskView) (base turn : Turn) → IsWhole layout.now base_desk.chain
            → Attends layout.now grant base_desk base (ShowsSeat self.old grant given) desk (C.chain (cable_of desk.side)) turn
            → ComesTo layout.now grant (HasReplied self.new given) turn) }
    {
        let desk = self.resume_lines(grant, desk, layout)?;
        let (halt, desk) = self.use_letters(grant, desk, layout)?;
        Ok((halt, desk))
    }
}
