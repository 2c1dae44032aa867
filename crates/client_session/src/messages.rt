// Messages of Xilinx Virtual Cable 1.0: how a session takes their bytes, and uses them.
ghost use Rattle.std.specs.Prelude.{◌≡◌, ◌≤◌, ◌+◌, ◌++◌, ◌^◌, ℕ, List, true, false, None, [], length, is_some, IfOk, IfErr};
ghost use Rattle.base_types.specs.Counts.{HasCause};
ghost use Rattle.base_types.specs.Tellings.{Told};
ghost use Rattle.grant_table.specs.declared.Protocol.TheVariants.{Xvc};
ghost use Rattle.grant_table.specs.Layouts.{LayoutShape};
ghost use Rattle.scan_share.specs.Scans.{IsWhole};
ghost use Rattle.chain_token.specs.Tokens.{holder, waiting};
ghost use Rattle.chain_token.specs.Waiting.{is_among, may_open};
ghost use Rattle.xvc_frame.specs.Messages.{want};
ghost use Rattle.xvc_frame.specs.Frames.{IsOpen, Tells};
ghost use Rattle.xvc_frame.specs.declared.FrameStep.TheVariants.{Whole, Refused};
ghost use Rattle.xvc_frame.specs.declared.Msg.TheVariants.{GetInfo, SetTck, Shift};
ghost use Rattle.virtual_tap.specs.Taps.{IsOfLayout};
ghost use Rattle.client_session.specs.declared.End.TheVariants as ends;
ghost use Rattle.client_session.specs.declared.halt.Halt.TheVariants.{Rests};
ghost use Rattle.client_session.specs.declared.input.Work.TheVariants.{Taking, Shifting};
ghost use Rattle.client_session.specs.Turns.{Turn};
ghost use Rattle.client_session.specs.Sessions.{DeskView, wanted_by};
ghost use Rattle.client_session.specs.Stores.{AwaitsBytes, AwaitsCapture, IsBetween, KeepsProgress, WorksAt, held_unused, protocol_of, unused_of};
ghost use Rattle.client_session.specs.Desks.{Attends, IsDesk, IsSound, KeepsOthers, StopsAt, WaitsBlocked, cable_of, cable_then};
ghost use Rattle.client_session.specs.Calls.{ComesTo, EndsSo, HaltsAt, HaltsWell, HasReplied, KeepsSettings, MayGoOn, RestsThere, ShowsFed, ShowsSeat, is_waiting};
ghost use Rattle.client_session.specs.Ends.{HaltsBy, bytes_end};
ghost use Rattle.client_session.specs.Messaging.{HasStopped, HasTaken, KeepsLines, QuietlyTo, ShowsBytes, TakesBytes, UsesBytes, frame_of, work_of};

use crate::End;
use crate::desk::Desk;
use crate::halt::Halt;
use crate::input::{Input, Messages, Work};
use crate::progress::Progress;
use crate::shift::{resume_shift, shift_on};
use arrayvec::ArrayVec;
use chain_model::Cable;
use grant_table::Layout;
use scan_share::Broken;
use xvc_frame::{FrameStep, Msg};

// Puts bytes behind the short replies.
fn push(said: &mut ArrayVec<u8, 22>, bytes: &[u8])
    requires { length said.old.items + length bytes.now ≤ 22 }
    ensures { said.new.items ≡ said.old.items ++ bytes.now }
{
    match said.try_extend_from_slice(bytes) {
        Ok(()) => (),
        Err(_) => unreachable!(),
    }
}

impl Messages {
    // Forgets a message that is replied.
    fn forget_replied(&mut self)
        requires between { IsBetween self.old.work }
        requires works { WorksAt self.old.work self.old.frame }
        ensures work { self.new.work ≡ Taking }
        ensures held { self.new.frame ≡ record self.old.frame { held = held_unused self.old.work self.old.frame } }
        ensures open { IsOpen self.new.frame }
    {
        match self.work {
            Work::Taking => (),
            Work::Shifted => {
                self.frame.clear();
                self.work = Work::Taking;
            }
            _ => unreachable!(),
        }
    }

    // Takes the next bytes of a message, and tells what they make. A message that is replied is forgotten first.
    fn take(&mut self, piece: &[u8]) -> FrameStep
        requires between { IsBetween self.old.work }
        requires works { WorksAt self.old.work self.old.frame }
        requires some { 1 ≤ length piece.now }
        requires wanted { length piece.now ≤ want self.old.frame.vector (held_unused self.old.work self.old.frame) }
        ensures work { self.new.work ≡ Taking }
        ensures held { self.new.frame ≡ record self.old.frame { held = held_unused self.old.work self.old.frame ++ piece.now } }
        ensures told { Tells self.new.frame.vector self.new.frame.held result }
    {
        self.forget_replied();
        self.frame.take(piece)
    }
}

impl Progress {
    // Takes the next bytes of a message, and tells what they make. The replies before it were given.
    fn take_bytes(&mut self, piece: &[u8]) -> FrameStep
        requires keeps { KeepsProgress self.old }
        requires protocol { protocol_of self.old.input ≡ Xvc }
        requires awaits { AwaitsBytes self.old.input }
        requires given { self.old.pending ≡ 0 }
        requires some { 1 ≤ length piece.now }
        requires wanted { length piece.now ≤ wanted_by (protocol_of self.old.input) self.old.vector (unused_of self.old.input) }
        requires few { self.old.taken + length piece.now ≤ 2 ^ 62 }
        ensures taken { HasTaken result self.new }
        ensures lines { KeepsLines self.old self.new }
        ensures bytes { TakesBytes piece.now self.old self.new }
    {
        self.said.clear();
        self.taken += piece.len() as u64;
        match &mut self.input {
            Input::Xvc(messages) => messages.take(piece),
            Input::Bitbang(_) => unreachable!(),
        }
    }

    // All bytes that were taken are used, and the short replies are the reply.
    fn use_bytes(&mut self)
        requires protocol { protocol_of self.old.input ≡ Xvc }
        requires vector { (frame_of self.old.input).vector ≡ self.old.vector }
        ensures lines { KeepsLines self.old self.new }
        ensures bytes { UsesBytes self.old self.new }
        ensures vector { (frame_of self.new.input).vector ≡ self.new.vector }
        ensures held { (frame_of self.new.input).held ≡ [] }
        ensures work { work_of self.new.input ≡ Taking }
        ensures said { self.new.said.items ≡ self.old.said.items }
        ensures pending { self.new.pending ≡ length self.new.said.items }
    {
        match &mut self.input {
            Input::Xvc(messages) => {
                messages.frame.clear();
                messages.work = Work::Taking;
            }
            Input::Bitbang(_) => unreachable!(),
        }
        self.used = self.taken;
        self.pending = self.said.len();
    }

    // The bytes that were taken are refused at this place among them: how the session ends.
    fn refuse(&mut self, at: usize, cause: u8) -> End
        requires taken { HasTaken (Refused at cause) self.old }
        ensures place { result ≡ ends.Refused (self.old.used + at) cause }
        ensures keeps { KeepsProgress self.new }
        ensures lines { KeepsLines self.old self.new }
        ensures taken { self.new.taken ≡ self.old.taken }
        ensures went { (grant : ℕ) (given : List ℕ) (turn : Turn) → ShowsSeat self.old grant given turn → EndsSo result self.new grant given turn }
    {
        let place = self.used + at as u64;
        self.use_bytes();
        End::Refused(place, cause)
    }

    // `getinfo:` is replied with the version and the vector length.
    fn reply_info(&mut self)
        requires taken { HasTaken (Whole GetInfo) self.old }
        ensures keeps { KeepsProgress self.new }
        ensures lines { KeepsLines self.old self.new }
        ensures taken { self.new.taken ≡ self.old.taken }
        ensures halts { HaltsWell Rests self.new }
        ensures went { (layout : LayoutShape) (grant : ℕ) (given : List ℕ) (turn : Turn) → ShowsSeat self.old grant given turn → QuietlyTo layout grant (RestsThere self.new grant given) turn }
    {
        push(&mut self.said, b"xvcServer_v1.0:");
        push(
            &mut self.said,
            itoa::Buffer::new().format(self.vector).as_bytes(),
        );
        push(&mut self.said, b"\n");
        self.use_bytes();
    }

    // `settck:` is replied with the period that it asks for.
    fn reply_period(&mut self, period: u32)
        requires taken { HasTaken (Whole (SetTck period)) self.old }
        ensures keeps { KeepsProgress self.new }
        ensures lines { KeepsLines self.old self.new }
        ensures taken { self.new.taken ≡ self.old.taken }
        ensures halts { HaltsWell Rests self.new }
        ensures went { (layout : LayoutShape) (grant : ℕ) (given : List ℕ) (turn : Turn) → ShowsSeat self.old grant given turn → QuietlyTo layout grant (RestsThere self.new grant given) turn }
    {
        push(&mut self.said, &period.to_le_bytes());
        self.use_bytes();
    }

    // The bytes of a `shift:` are used: its cycles are left.
    fn begin_shift(&mut self, cycles: u32)
        requires taken { HasTaken (Whole (Shift cycles)) self.old }
        ensures keeps { KeepsProgress self.new }
        ensures lines { KeepsLines self.old self.new }
        ensures taken { self.new.taken ≡ self.old.taken }
        ensures work { work_of self.new.input ≡ Shifting cycles 0 }
        ensures went { (layout : LayoutShape) (grant : ℕ) (given : List ℕ) (turn : Turn) → ShowsSeat self.old grant given turn → QuietlyTo layout grant (ShowsSeat self.new grant given) turn }
    {
        match &mut self.input {
            Input::Xvc(messages) => messages.work = Work::Shifting { cycles, at: 0 },
            Input::Bitbang(_) => unreachable!(),
        }
        self.used = self.taken;
    }

    // A `shift:` came to a stop: its reply is there, or the session waits before the rise of a cycle.
    fn end_shift(&mut self, cycles: u32, stop: Option<u32>) -> Halt
        requires stopped { HasStopped stop cycles self.old }
        requires fit { MayGoOn self.old }
        ensures keeps { KeepsProgress self.new }
        ensures lines { KeepsLines self.old self.new }
        ensures taken { self.new.taken ≡ self.old.taken }
        ensures halts { HaltsWell result self.new }
        ensures waits { is_waiting result ≡ is_some stop }
        ensures ends { HaltsBy None result }
        ensures unused { unused_of self.new.input ≡ [] }
        ensures went { (layout : LayoutShape) (grant : ℕ) (given : List ℕ) (turn : Turn) → ShowsBytes self.old given turn → StopsAt stop layout (frame_of self.old.input) self.old.tap cycles grant turn
            → QuietlyTo layout grant (HaltsAt result layout self.new grant given) turn }
    {
        match &mut self.input {
            Input::Xvc(messages) => match stop {
                None => {
                    messages.frame.clear_spare();
                    messages.work = Work::Shifted;
                    self.pending = messages.frame.tdo_bytes().len();
                    Halt::Rests
                }
                Some(at) => {
                    messages.work = Work::Sampled { cycles, at };
                    Halt::Waits
                }
            },
            Input::Bitbang(_) => unreachable!(),
        }
    }

    // Makes the cycles of a `shift:` that is used, from the first on.
    fn make_shift<C: Cable>(
        &mut self,
        cycles: u32,
        grant: usize,
        desk: Desk<C>,
        layout: &Layout,
    ) -> Result<(Halt, Desk<C>), Broken<C>>
        requires layout { IsOfLayout layout.now self.old.tap }
        requires grant { self.old.tap.grant ≡ grant }
        requires sound { IsSound layout.now grant }
        requires keeps { KeepsProgress self.old }
        requires fit { MayGoOn self.old }
        requires desk { IsDesk layout.now grant self.old.tap.view desk }
        requires whole { Told (C.chain (cable_of desk.side)) (IsWhole layout.now) }
        requires line { is_among grant (waiting desk) ≡ false }
        requires protocol { protocol_of self.old.input ≡ Xvc }
        requires work { work_of self.old.input ≡ Shifting cycles 0 }
        ensures keeps { KeepsProgress self.new }
        ensures same { KeepsSettings self.old self.new }
        ensures taken { self.new.taken ≡ self.old.taken }
        ensures fit { IfOk result (λ pair. MayGoOn self.new) }
        ensures desk { IfOk result (λ pair. IsDesk layout.now grant self.new.tap.view pair.1) }
        ensures others { IfOk result (λ pair. KeepsOthers grant desk pair.1) }
        ensures whole { IfOk result (λ pair. Told (C.chain (cable_of pair.1.side)) (IsWhole layout.now)) }
        ensures mark { C.mark (cable_then result) ≡ C.mark (cable_of desk.side) }
        ensures trst { C.trst (cable_then result) ≡ C.trst (cable_of desk.side) }
        ensures cause { HasCause (C.fault_count (cable_of desk.side)) (C.fault_count (cable_then result)) result }
        ensures halts { IfOk result (λ pair. HaltsWell pair.0 self.new) }
        ensures ends { IfOk result (λ pair. HaltsBy None pair.0) }
        ensures line { IfOk result (λ pair. is_among grant (waiting pair.1) ≡ is_waiting pair.0) }
        ensures blocked { IfOk result (λ pair. WaitsBlocked (is_waiting pair.0) grant pair.1) }
        ensures went { IfOk result (λ pair. (given : List ℕ) (base_desk : DeskView) (base turn : Turn) → IsWhole layout.now base_desk.chain
            → Attends layout.now grant base_desk base (ShowsSeat self.old grant given) desk (C.chain (cable_of desk.side)) turn
            → ComesTo layout.now grant (Attends layout.now grant base_desk base (HaltsAt pair.0 layout.now self.new grant given) pair.1 (C.chain (cable_of pair.1.side))) turn) }
        ensures failed { IfErr result (λ broken. (given : List ℕ) (base_desk : DeskView) (base turn : Turn) → IsWhole layout.now base_desk.chain
            → Attends layout.now grant base_desk base (ShowsSeat self.old grant given) desk (C.chain (cable_of desk.side)) turn
            → ComesTo layout.now grant (HasReplied self.new given) turn) }
    {
        let (stop, next) = match &mut self.input {
            Input::Xvc(messages) => shift_on(
                &mut messages.frame,
                &mut self.tap,
                grant,
                desk,
                layout,
                cycles,
                0,
            )?,
            Input::Bitbang(_) => unreachable!(),
        };
        Ok((self.end_shift(cycles, stop), next))
    }

    // Uses a whole message.
    fn use_message<C: Cable>(
        &mut self,
        message: Msg,
        grant: usize,
        desk: Desk<C>,
        layout: &Layout,
    ) -> Result<(Halt, Desk<C>), Broken<C>>
        requires layout { IsOfLayout layout.now self.old.tap }
        requires grant { self.old.tap.grant ≡ grant }
        requires sound { IsSound layout.now grant }
        requires fit { MayGoOn self.old }
        requires desk { IsDesk layout.now grant self.old.tap.view desk }
        requires whole { Told (C.chain (cable_of desk.side)) (IsWhole layout.now) }
        requires line { is_among grant (waiting desk) ≡ false }
        requires taken { HasTaken (Whole message) self.old }
        ensures keeps { KeepsProgress self.new }
        ensures same { KeepsSettings self.old self.new }
        ensures taken { self.new.taken ≡ self.old.taken }
        ensures fit { IfOk result (λ pair. MayGoOn self.new) }
        ensures desk { IfOk result (λ pair. IsDesk layout.now grant self.new.tap.view pair.1) }
        ensures others { IfOk result (λ pair. KeepsOthers grant desk pair.1) }
        ensures whole { IfOk result (λ pair. Told (C.chain (cable_of pair.1.side)) (IsWhole layout.now)) }
        ensures mark { C.mark (cable_then result) ≡ C.mark (cable_of desk.side) }
        ensures trst { C.trst (cable_then result) ≡ C.trst (cable_of desk.side) }
        ensures cause { HasCause (C.fault_count (cable_of desk.side)) (C.fault_count (cable_then result)) result }
        ensures halts { IfOk result (λ pair. HaltsWell pair.0 self.new) }
        ensures ends { IfOk result (λ pair. HaltsBy None pair.0) }
        ensures line { IfOk result (λ pair. is_among grant (waiting pair.1) ≡ is_waiting pair.0) }
        ensures blocked { IfOk result (λ pair. WaitsBlocked (is_waiting pair.0) grant pair.1) }
        ensures went { IfOk result (λ pair. (given : List ℕ) (base_desk : DeskView) (base turn : Turn) → IsWhole layout.now base_desk.chain
            → Attends layout.now grant base_desk base (ShowsSeat self.old grant given) desk (C.chain (cable_of desk.side)) turn
            → ComesTo layout.now grant (Attends layout.now grant base_desk base (HaltsAt pair.0 layout.now self.new grant given) pair.1 (C.chain (cable_of pair.1.side))) turn) }
        ensures failed { IfErr result (λ broken. (given : List ℕ) (base_desk : DeskView) (base turn : Turn) → IsWhole layout.now base_desk.chain
            → Attends layout.now grant base_desk base (ShowsSeat self.old grant given) desk (C.chain (cable_of desk.side)) turn
            → ComesTo layout.now grant (HasReplied self.new given) turn) }
    {
        match message {
            Msg::GetInfo => {
                self.reply_info();
                Ok((Halt::Rests, desk))
            }
            Msg::SetTck(period) => {
                self.reply_period(period);
                Ok((Halt::Rests, desk))
            }
            Msg::Shift(cycles) => {
                self.begin_shift(cycles);
                self.make_shift(cycles, grant, desk, layout)
            }
        }
    }

    /// Takes the next bytes of a message, no more than are wanted, with all replies given. Where it is whole it is used: `getinfo:` and
    /// `settck:` are replied, and the cycles of a `shift:` are made until it is replied or the session has to wait.
    ///
    /// `Broken` comes only where the cable's count of faults rose in the call.
    pub fn take_message<C: Cable>(
        &mut self,
        piece: &[u8],
        grant: usize,
        desk: Desk<C>,
        layout: &Layout,
    ) -> Result<(Halt, Desk<C>), Broken<C>>
        requires layout { IsOfLayout layout.now self.old.tap }
        requires grant { self.old.tap.grant ≡ grant }
        requires sound { IsSound layout.now grant }
        requires keeps { KeepsProgress self.old }
        requires fit { MayGoOn self.old }
        requires desk { IsDesk layout.now grant self.old.tap.view desk }
        requires whole { Told (C.chain (cable_of desk.side)) (IsWhole layout.now) }
        requires line { is_among grant (waiting desk) ≡ false }
        requires protocol { protocol_of self.old.input ≡ Xvc }
        requires awaits { AwaitsBytes self.old.input }
        requires given { self.old.pending ≡ 0 }
        requires some { 1 ≤ length piece.now }
        requires wanted { length piece.now ≤ wanted_by (protocol_of self.old.input) self.old.vector (unused_of self.old.input) }
        requires few { self.old.taken + length piece.now ≤ 2 ^ 62 }
        ensures keeps { KeepsProgress self.new }
        ensures same { KeepsSettings self.old self.new }
        ensures taken { self.new.taken ≡ self.old.taken + length piece.now }
        ensures fit { IfOk result (λ pair. MayGoOn self.new) }
        ensures desk { IfOk result (λ pair. IsDesk layout.now grant self.new.tap.view pair.1) }
        ensures others { IfOk result (λ pair. KeepsOthers grant desk pair.1) }
        ensures whole { IfOk result (λ pair. Told (C.chain (cable_of pair.1.side)) (IsWhole layout.now)) }
        ensures mark { C.mark (cable_then result) ≡ C.mark (cable_of desk.side) }
        ensures trst { C.trst (cable_then result) ≡ C.trst (cable_of desk.side) }
        ensures cause { HasCause (C.fault_count (cable_of desk.side)) (C.fault_count (cable_then result)) result }
        ensures halts { IfOk result (λ pair. HaltsWell pair.0 self.new) }
        ensures ends { IfOk result (λ pair. HaltsBy (bytes_end Xvc self.old.vector self.old.used (unused_of self.old.input ++ piece.now)) pair.0) }
        ensures line { IfOk result (λ pair. is_among grant (waiting pair.1) ≡ is_waiting pair.0) }
        ensures blocked { IfOk result (λ pair. WaitsBlocked (is_waiting pair.0) grant pair.1) }
        ensures went { IfOk result (λ pair. (given : List ℕ) (base_desk : DeskView) (base turn : Turn) → IsWhole layout.now base_desk.chain
            → Attends layout.now grant base_desk base (ShowsFed self.old piece.now grant given) desk (C.chain (cable_of desk.side)) turn
            → ComesTo layout.now grant (Attends layout.now grant base_desk base (HaltsAt pair.0 layout.now self.new grant given) pair.1 (C.chain (cable_of pair.1.side))) turn) }
        ensures failed { IfErr result (λ broken. (given : List ℕ) (base_desk : DeskView) (base turn : Turn) → IsWhole layout.now base_desk.chain
            → Attends layout.now grant base_desk base (ShowsFed self.old piece.now grant given) desk (C.chain (cable_of desk.side)) turn
            → ComesTo layout.now grant (HasReplied self.new given) turn) }
    {
        match self.take_bytes(piece) {
            FrameStep::More => Ok((Halt::Rests, desk)),
            FrameStep::Refused { at, cause } => {
                let end = self.refuse(at, cause);
                Ok((Halt::Ends(end), desk))
            }
            FrameStep::Whole(message) => self.use_message(message, grant, desk, layout),
        }
    }

    /// Goes on with a `shift:` from the rise before which the session waited, where the chain is now the grant's.
    ///
    /// `Broken` comes only where the cable's count of faults rose in the call.
    pub fn resume_message<C: Cable>(
        &mut self,
        grant: usize,
        desk: Desk<C>,
        layout: &Layout,
    ) -> Result<(Halt, Desk<C>), Broken<C>>
        requires layout { IsOfLayout layout.now self.old.tap }
        requires grant { self.old.tap.grant ≡ grant }
        requires sound { IsSound layout.now grant }
        requires keeps { KeepsProgress self.old }
        requires fit { MayGoOn self.old }
        requires desk { IsDesk layout.now grant self.old.tap.view desk }
        requires whole { Told (C.chain (cable_of desk.side)) (IsWhole layout.now) }
        requires protocol { protocol_of self.old.input ≡ Xvc }
        requires waits { AwaitsCapture self.old }
        requires first { may_open (holder desk) (waiting desk) grant ≡ true }
        ensures keeps { KeepsProgress self.new }
        ensures same { KeepsSettings self.old self.new }
        ensures taken { self.new.taken ≡ self.old.taken }
        ensures fit { IfOk result (λ pair. MayGoOn self.new) }
        ensures desk { IfOk result (λ pair. IsDesk layout.now grant self.new.tap.view pair.1) }
        ensures others { IfOk result (λ pair. KeepsOthers grant desk pair.1) }
        ensures whole { IfOk result (λ pair. Told (C.chain (cable_of pair.1.side)) (IsWhole layout.now)) }
        ensures mark { C.mark (cable_then result) ≡ C.mark (cable_of desk.side) }
        ensures trst { C.trst (cable_then result) ≡ C.trst (cable_of desk.side) }
        ensures cause { HasCause (C.fault_count (cable_of desk.side)) (C.fault_count (cable_then result)) result }
        ensures halts { IfOk result (λ pair. HaltsWell pair.0 self.new) }
        ensures ends { IfOk result (λ pair. HaltsBy (bytes_end Xvc self.old.vector self.old.used (unused_of self.old.input)) pair.0) }
        ensures unused { IfOk result (λ pair. unused_of self.new.input ≡ []) }
        ensures line { IfOk result (λ pair. is_among grant (waiting pair.1) ≡ is_waiting pair.0) }
        ensures blocked { IfOk result (λ pair. WaitsBlocked (is_waiting pair.0) grant pair.1) }
        ensures went { IfOk result (λ pair. (given : List ℕ) (base_desk : DeskView) (base turn : Turn) → IsWhole layout.now base_desk.chain
            → Attends layout.now grant base_desk base (ShowsSeat self.old grant given) desk (C.chain (cable_of desk.side)) turn
            → ComesTo layout.now grant (Attends layout.now grant base_desk base (HaltsAt pair.0 layout.now self.new grant given) pair.1 (C.chain (cable_of pair.1.side))) turn) }
        ensures failed { IfErr result (λ broken. (given : List ℕ) (base_desk : DeskView) (base turn : Turn) → IsWhole layout.now base_desk.chain
            → Attends layout.now grant base_desk base (ShowsSeat self.old grant given) desk (C.chain (cable_of desk.side)) turn
            → ComesTo layout.now grant (HasReplied self.new given) turn) }
    {
        let (cycles, stop, next) = match &mut self.input {
            Input::Xvc(messages) => match messages.work {
                Work::Sampled { cycles, at } => {
                    let (stop, next) = resume_shift(
                        &mut messages.frame,
                        &mut self.tap,
                        grant,
                        desk,
                        layout,
                        cycles,
                        at,
                    )?;
                    (cycles, stop, next)
                }
                _ => unreachable!(),
            },
            Input::Bitbang(_) => unreachable!(),
        };
        Ok((self.end_shift(cycles, stop), next))
    }
}
