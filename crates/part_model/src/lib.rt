//! Device types as a BSDL entity says them (IEEE 1149.1, Annex B): instructions, the data register that each selects, and codes.
#![tactic(auto)]

ghost use Rattle.std.specs.Prelude.{◌≡◌, ℕ, true, false, replicate, List, [], ◌∷◌, Some, None, codes};
ghost use Rattle.part_model.specs.Parts.{DeviceType, selected, Register};
ghost use Rattle.part_model.specs.Plans.{PartAttributes, plan_refusal};
ghost use Rattle.part_model.specs.Laws.{CapturedEndsIn01, ResetIdentifies, ResetBypasses};
ghost use Rattle.part_model.specs.Sound.{PartsAreSound};
ghost use Rattle.part_model.specs.Demo.{demo_plan, demo_part};

mod code_table;
mod codes;
mod name_index;
mod names;
mod part;
mod patterns;
mod plan;
mod refusals;
mod register_index;
mod registers;
mod reset;
mod selections;

pub use part::{Part, RegNo};
pub use patterns::{CodePattern, Patterns};
pub use plan::{Access, Names, Opcode, PartPlan, PartRefusal, Pattern};

/// A digit of a pattern. `Any` is X.
#[derive(Clone, Copy, Debug, PartialEq, Eq)]
pub enum Digit {
    Zero,
    One,
    Any,
}

/// A wire from a boundary cell to another one. Devices count from 1, cells from 0.
#[derive(Clone, Copy, Debug, PartialEq, Eq)]
pub struct Net {
    pub from_device: u16,
    pub from_cell: u32,
    pub to_device: u16,
    pub to_cell: u32,
}

/// An attribute of a BSDL entity that a device type is made of.
#[derive(Clone, Copy, Debug, PartialEq, Eq)]
pub enum Field {
    InstructionLength,
    InstructionOpcode,
    InstructionCapture,
    IdcodeRegister,
    UsercodeRegister,
    RegisterAccess,
    BoundaryLength,
}

/// All ones select BYPASS, whatever is listed.
pub fn all_ones_bypass()
    ensures { (part : DeviceType) (n : ℕ) → selected part (replicate n true) ≡ Register.Bypass }
{}

/// The two lowest bits that Capture-IR loads are 01, the 1 nearest TDO, in each device type that a plan makes.
pub fn captured_ends_in_01()
    ensures { CapturedEndsIn01 }
{}

/// In each device type that a plan makes the reset code selects DEVICE_ID by IDCODE where there is an identification, and BYPASS where
/// there is none.
pub fn reset_identifies()
    ensures identified { ResetIdentifies }
    ensures other { ResetBypasses }
{}

/// The demo part is accepted; its reset code is 0010, and 1000 selects its named register.
pub fn demo_is_accepted()
    ensures accepted { plan_refusal demo_plan ≡ None }
    ensures reset { demo_part.reset_code ≡ false ∷ true ∷ false ∷ false ∷ [] }
    ensures user { selected demo_part (false ∷ false ∷ false ∷ true ∷ []) ≡ Register.Named 0 }
    ensures captured { plan_refusal (record demo_plan { capture = Digit.Zero ∷ Digit.Zero ∷ Digit.Zero ∷ Digit.Zero ∷ [] }) ≡ Some (record { cause = 3; field = Field.InstructionCapture }) }
{}

/// Each device type that a plan makes has lengths in range and codes of its instruction register's length, and every code selects a data
/// register that it has: the instruction register has 2 to 64 bits, a data register 1 to 65,536, and none that it has more than `longest`.
pub fn parts_are_sound()
    ensures { PartsAreSound }
{}
