//! The states of a test access port, and how TMS moves through them (IEEE 1149.1, the TAP controller).
#![tactic(auto)]

ghost use Rattle.std.specs.Prelude.{◌≡◌, true, false};
ghost use Rattle.tap_states.specs.States.{next, is_shift, in_dr_scan};

/// A state of the TAP controller (IEEE 1149.1, the controller's state diagram).
#[derive(Clone, Copy, Debug, PartialEq, Eq)]
pub enum Tap {
    TestLogicReset,
    RunTestIdle,
    SelectDr,
    CaptureDr,
    ShiftDr,
    Exit1Dr,
    PauseDr,
    Exit2Dr,
    UpdateDr,
    SelectIr,
    CaptureIr,
    ShiftIr,
    Exit1Ir,
    PauseIr,
    Exit2Ir,
    UpdateIr,
}

impl Tap {
    /// The state after a rising edge of TCK with this TMS (IEEE 1149.1, the controller's state diagram).
    pub fn next(self, tms: bool) -> Tap
        ensures { result ≡ next self tms }
    {
        if tms {
            self.next_on_1()
        } else {
            self.next_on_0()
        }
    }

    fn next_on_0(self) -> Tap
        ensures { result ≡ next self false }
    {
        match self {
            Tap::TestLogicReset | Tap::RunTestIdle | Tap::UpdateDr | Tap::UpdateIr =>
                Tap::RunTestIdle,
            Tap::SelectDr => Tap::CaptureDr,
            Tap::CaptureDr | Tap::ShiftDr | Tap::Exit2Dr => Tap::ShiftDr,
            Tap::Exit1Dr | Tap::PauseDr => Tap::PauseDr,
            Tap::SelectIr => Tap::CaptureIr,
            Tap::CaptureIr | Tap::ShiftIr | Tap::Exit2Ir => Tap::ShiftIr,
            Tap::Exit1Ir | Tap::PauseIr => Tap::PauseIr,
        }
    }

    fn next_on_1(self) -> Tap
        ensures { result ≡ next self true }
    {
        match self {
            Tap::TestLogicReset | Tap::SelectIr => Tap::TestLogicReset,
            Tap::RunTestIdle | Tap::UpdateDr | Tap::UpdateIr => Tap::SelectDr,
            Tap::SelectDr => Tap::SelectIr,
            Tap::CaptureDr | Tap::ShiftDr => Tap::Exit1Dr,
            Tap::PauseDr => Tap::Exit2Dr,
            Tap::Exit1Dr | Tap::Exit2Dr => Tap::UpdateDr,
            Tap::CaptureIr | Tap::ShiftIr => Tap::Exit1Ir,
            Tap::PauseIr => Tap::Exit2Ir,
            Tap::Exit1Ir | Tap::Exit2Ir => Tap::UpdateIr,
        }
    }

    /// Whether a rising edge shifts a register: in Shift-DR and Shift-IR.
    pub fn is_shift(self) -> bool
        ensures { result ≡ is_shift self }
    {
        matches!(self, Tap::ShiftDr | Tap::ShiftIr)
    }

    /// Whether the controller is between the capture of a data register and the end of its update: in Shift-DR, Exit1-DR,
    /// Pause-DR, Exit2-DR and Update-DR.
    pub fn in_dr_scan(self) -> bool
        ensures { result ≡ in_dr_scan self }
    {
        matches!(
            self,
            Tap::ShiftDr | Tap::Exit1Dr | Tap::PauseDr | Tap::Exit2Dr | Tap::UpdateDr
        )
    }
}

/// Five cycles with TMS 1 lead from every state to Test-Logic-Reset (IEEE 1149.1).
pub fn five_ones_reset()
    ensures { (state : Tap) → next (next (next (next (next state true) true) true) true) true ≡ Tap.TestLogicReset }
{}
