// The demo board: an example for tests, and for the demo command.
ghost use Rattle.std.specs.Prelude.{◌≡◌, IfOk, codes, [], ◌∷◌, Some, None};
ghost use Rattle.scan_bits.specs.Words.{bits_of};
ghost use Rattle.part_model.specs.Demo.{demo_plan, digits_of_bits, entry};
ghost use Rattle.chain_model.specs.Boards.{placed};
ghost use Rattle.chain_model.specs.Demo.{demo_board, demo_opcodes, demo_access};

use crate::cable::Board;
use base_types::{Items, Text};
use part_model::{Access, Digit, Names, Opcode, Part, PartPlan, Pattern, Patterns};
use scan_bits::Bits;
use std::alloc::{AllocError, Global};

pub(crate) fn text(alloc: Global, name: &str) -> Result<Text, AllocError>
    ensures { IfOk result (λ text. text ≡ name.now) }
{
    Text::from_str(alloc, name)
}

fn digit(bit: bool) -> Digit
    ensures { digits_of_bits (bit ∷ []) ≡ result ∷ [] }
{
    if bit { Digit::One } else { Digit::Zero }
}

// The digits of the lowest bits of a code.
pub(crate) fn pattern(alloc: Global, count: u32, code: u64) -> Result<Pattern, AllocError>
    ensures { IfOk result (λ pattern. pattern ≡ digits_of_bits (bits_of count code)) }
{
    let mut digits = Vec::new(alloc);
    let mut rest = code;
    for _ in 0..count {
        digits.push(digit(rest % 2 == 1))?;
        rest /= 2;
    }
    Ok(Pattern {
        digits: Items::from_vec(digits),
    })
}

fn opcode(alloc: Global, name: &str, code: u64) -> Result<Opcode, AllocError>
    ensures { IfOk result (λ opcode. opcode ≡ entry name.now code) }
{
    let mut patterns = Vec::new(alloc);
    patterns.push(pattern(alloc, 4, code)?)?;
    let name = text(alloc, name)?;
    Ok(Opcode {
        name,
        patterns: Patterns::from_vec(patterns),
    })
}

pub(crate) fn opcodes(alloc: Global) -> Result<Items<Opcode>, AllocError>
    ensures { IfOk result (λ opcodes. opcodes ≡ demo_opcodes) }
{
    let mut opcodes = Vec::new(alloc);
    opcodes.push(opcode(alloc, "EXTEST", 0)?)?;
    opcodes.push(opcode(alloc, "SAMPLE", 1)?)?;
    opcodes.push(opcode(alloc, "IDCODE", 2)?)?;
    opcodes.push(opcode(alloc, "USER1", 8)?)?;
    opcodes.push(opcode(alloc, "BYPASS", 15)?)?;
    Ok(Items::from_vec(opcodes))
}

fn access(alloc: Global) -> Result<Items<Access>, AllocError>
    ensures { IfOk result (λ access. access ≡ demo_access) }
{
    let mut pins = Names::new(alloc);
    pins.push(text(alloc, "EXTEST")?)?;
    pins.push(text(alloc, "SAMPLE")?)?;
    let mut user = Names::new(alloc);
    user.push(text(alloc, "USER1")?)?;
    let boundary = text(alloc, "BOUNDARY")?;
    let named = text(alloc, "USER")?;
    let mut access = Vec::new(alloc);
    access.push(Access {
        register: boundary,
        length: None,
        instructions: pins,
    })?;
    access.push(Access {
        register: named,
        length: Some(8),
        instructions: user,
    })?;
    Ok(Items::from_vec(access))
}

fn plan(alloc: Global) -> Result<PartPlan, AllocError>
    ensures { IfOk result (λ plan. plan ≡ demo_plan) }
{
    let opcodes = opcodes(alloc)?;
    let capture = pattern(alloc, 4, 1)?;
    let idcode = pattern(alloc, 32, 0x1abc_d00f)?;
    let access = access(alloc)?;
    Ok(PartPlan {
        ir_len: 4,
        opcodes,
        capture,
        idcode: Some(idcode),
        usercode: None,
        access,
        boundary: 4,
    })
}

/// The demo device on a board, with its four pins at 0: four instruction bits, the instructions EXTEST, SAMPLE, IDCODE, USER1 and
/// BYPASS, the identification 1ABCD00F, and a named register USER of eight bits. The error comes where memory is wanting.
pub fn demo_board(alloc: Global) -> Result<Board, AllocError>
    ensures { IfOk result (λ board. placed board ≡ demo_board) }
{
    let pins = Bits::zeros(alloc, 4)?;
    match Part::new(alloc, plan(alloc)?) {
        Ok(part) => Ok(Board { part, pins }),
        Err(_) => Err(AllocError),
    }
}
