// What a BSDL entity says of a device, and why it is refused.
ghost use Rattle.std.specs.Prelude.{◌≡◌, [], ◌∷◌, ◌++◌, length, eqb, OnOk, OnErr};
ghost use Rattle.part_model.specs.declared.plan.PartRefusal.TheVariants.{Memory, Refused};

use crate::patterns::Patterns;
use crate::{Digit, Field};
use base_types::{Items, Text};
use smallvec::SmallVec;
use std::alloc::{AllocError, AllocFailed, Global};
use std::marker::Model;
use thiserror::Error;

/// A pattern of digits, lowest first: the first is nearest TDO. Contracts see it as the list of its digits.
#[derive(Drop)]
pub struct Pattern {
    pub digits: Items<Digit>,
}

impl Model for Pattern {
    ghost use Rattle.std.specs.Prelude.{List};
    ghost use Rattle.part_model.specs.declared.Digit.{Digit};

    ghost Value = { List Digit };

    ghost view = { λ pattern. pattern.digits };
}

impl Pattern {
    /// The digits, lowest first.
    pub fn digits(&self) -> &[Digit]
        ensures { result.now ≡ self.now }
    {
        self.digits.as_slice()
    }
}

/// An entry of INSTRUCTION_OPCODE: an instruction's name in capitals, and its patterns.
#[derive(Drop)]
pub struct Opcode {
    pub name: Text,
    pub patterns: Patterns,
}

/// Names in their order, of which one alone takes no memory. Contracts see them as the plain list of them.
#[derive(Drop)]
pub struct Names {
    list: SmallVec<Text, 1>,
}

impl Model for Names {
    ghost use Rattle.std.specs.Prelude.{List, ℕ};

    ghost Value = { List (List ℕ) };

    ghost view = { λ names. names.list.items };
}

impl Names {
    /// No names. Takes no memory.
    pub fn new(alloc: Global) -> Self
        ensures { result ≡ [] }
    {
        Names {
            list: SmallVec::new(alloc),
        }
    }

    /// One name alone. Takes no memory.
    pub fn one(alloc: Global, name: Text) -> Self
        ensures { result ≡ name ∷ [] }
    {
        Names {
            list: SmallVec::from_buf(alloc, [name]),
        }
    }

    /// Puts a name behind the others. Where there is no memory the names stay as they were, and the new one is dropped.
    pub fn push(&mut self, name: Text) -> Result<(), AllocError>
        ensures added { OnOk result (self.new ≡ self.old ++ name ∷ []) }
        ensures kept { OnErr result (self.new ≡ self.old) }
    {
        self.list.push(name)?;
        Ok(())
    }

    /// How many names there are.
    pub fn len(&self) -> usize
        ensures { result ≡ length self.now }
    {
        self.list.len()
    }

    /// Whether there is none.
    pub fn is_empty(&self) -> bool
        ensures { result ≡ eqb (length self.now) 0 }
    {
        self.list.is_empty()
    }

    /// All names, in order.
    pub fn as_slice(&self) -> &[Text]
        ensures { result.now ≡ self.now }
    {
        self.list.as_slice()
    }
}

/// An entry of REGISTER_ACCESS: a register's name in capitals, its length in bits where it is stated, and the names of the
/// instructions that select it.
#[derive(Drop)]
pub struct Access {
    pub register: Text,
    pub length: Option<u32>,
    pub instructions: Names,
}

/// What the seven attributes of a BSDL entity say: INSTRUCTION_LENGTH in bits, INSTRUCTION_OPCODE and REGISTER_ACCESS in their
/// order, INSTRUCTION_CAPTURE, IDCODE_REGISTER and USERCODE_REGISTER where they stand, and BOUNDARY_LENGTH in cells.
#[derive(Drop)]
pub struct PartPlan {
    pub ir_len: u32,
    pub opcodes: Items<Opcode>,
    pub capture: Pattern,
    pub idcode: Option<Pattern>,
    pub usercode: Option<Pattern>,
    pub access: Items<Access>,
    pub boundary: u32,
}

/// Why a plan is refused, and the attribute that is to blame.
#[derive(Clone, Copy, Debug, PartialEq, Eq)]
pub struct PlanRefusal {
    pub cause: u8,
    pub field: Field,
}

/// Why a plan makes no device type. The causes of `Refused`, tried in the order of the definition `plan_refusal`, are
/// 1 an instruction length that is not 2 to 64, 2 a pattern of another length than its register's, 3 a captured pattern that does not
/// end in 01, 4 a second length of a register, 5 a register without a length or a DEVICE_ID without an identification, 6 and 7 a length
/// of 0 or over 65,536, 8 an identification that is even or that the reset instruction does not select, 9 an instruction without opcode.
#[derive(Clone, Copy, Debug, PartialEq, Eq, Error)]
pub enum PartRefusal {
    #[error("out of memory")]
    Memory,
    #[error("no device type")]
    Refused { cause: u8, field: Field },
}

impl From<PlanRefusal> for PartRefusal {
    ghost from_gives = { λ r e. e ≡ Refused r.cause r.field };

    fn from(refusal: PlanRefusal) -> PartRefusal {
        PartRefusal::Refused {
            cause: refusal.cause,
            field: refusal.field,
        }
    }
}

impl From<AllocError> for PartRefusal {
    ghost from_gives = { λ _ e. e ≡ Memory };

    fn from(_: AllocError) -> PartRefusal {
        PartRefusal::Memory
    }
}

impl<T: Drop> From<AllocFailed<T>> for PartRefusal {
    ghost from_gives = { λ _ e. e ≡ Memory };

    fn from(_: AllocFailed<T>) -> PartRefusal {
        PartRefusal::Memory
    }
}
