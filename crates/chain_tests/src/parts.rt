// A small part: two instruction bits, EXTEST and BYPASS, and one boundary cell.
ghost use Rattle.std.specs.Prelude.{◌≡◌, ◌<◌, true, length, IfOk};
ghost use Rattle.part_model.specs.Plans as plans;

use base_types::{Items, Text};
use part_model::{
    Access, Digit, Field, Names, Opcode, Part, PartPlan, PartRefusal, Pattern, Patterns,
};
use std::alloc::{AllocError, Global};

fn pattern(alloc: Global, digits: &[Digit]) -> Result<Pattern, AllocError> {
    let digits = Vec::from_slice(alloc, digits)?;
    Ok(Pattern {
        digits: Items::from_vec(digits),
    })
}

fn opcode(alloc: Global, name: &str, digits: &[Digit]) -> Result<Opcode, AllocError>
    ensures { IfOk result (λ opcode. 0 < length opcode.patterns) }
{
    let mut patterns = Vec::new(alloc);
    patterns.push(pattern(alloc, digits)?)?;
    Ok(Opcode {
        name: Text::from_str(alloc, name)?,
        patterns: Patterns::from_vec(patterns),
    })
}

// EXTEST and BYPASS, of zeros and of ones.
fn plan(
    alloc: Global,
    ir_len: u32,
    zeros: &[Digit],
    ones: &[Digit],
    captured: &[Digit],
) -> Result<PartPlan, AllocError>
    ensures { IfOk result (λ plan. plans.all_have_patterns plan.opcodes ≡ true) }
{
    let mut opcodes = Items::from_vec(Vec::new(alloc));
    opcodes.push(opcode(alloc, "EXTEST", zeros)?)?;
    opcodes.push(opcode(alloc, "BYPASS", ones)?)?;
    Ok(PartPlan {
        ir_len,
        opcodes,
        capture: pattern(alloc, captured)?,
        idcode: None,
        usercode: None,
        access: Items::from_vec(Vec::new(alloc)),
        boundary: 3,
    })
}

fn small_plan(alloc: Global, captured: Digit) -> Result<PartPlan, AllocError>
    ensures { IfOk result (λ plan. plans.all_have_patterns plan.opcodes ≡ true) }
{
    let zeros = [Digit::Zero; 2];
    let ones = [Digit::One; 2];
    plan(alloc, 2, &zeros, &ones, &[captured, Digit::Zero])
}

#[test]
fn small_part_is_made(rt: HostRuntime) -> Result<(), PartRefusal> {
    let alloc = rt.alloc();
    let made = Part::new(alloc, small_plan(alloc, Digit::One)?)?;
    let part = made.copy(alloc)?;
    assert_eq!(rt; part.select(0), 1);
    assert_eq!(rt; part.select(1), 0);
    assert_eq!(rt; part.select(4), 1);
    assert_eq!(rt; part.selected_length(0), 3);
    assert_eq!(rt; part.selected_length(3), 1);
    assert!(rt; part.drives(0));
    assert_eq!(rt; part.reset_code(), 3);
    assert_eq!(rt; part.longest(), 3);
    assert_eq!(rt; part.name_of(1), "BOUNDARY");
    Ok(())
}

#[test]
fn captured_zeros_are_refused(rt: HostRuntime) -> Result<(), PartRefusal> {
    let alloc = rt.alloc();
    let refused = PartRefusal::Refused {
        cause: 3,
        field: Field::InstructionCapture,
    };
    let plan = small_plan(alloc, Digit::Zero)?;
    assert!(rt; Part::new(alloc, plan).is_err_and(|refusal| refusal == refused));
    Ok(())
}

#[test]
fn codes_of_a_long_register_select(rt: HostRuntime) -> Result<(), PartRefusal> {
    let alloc = rt.alloc();
    let zeros = [Digit::Zero; 40];
    let ones = [Digit::One; 40];
    let mut captured = [Digit::Zero; 40];
    captured[0] = Digit::One;
    let part = Part::new(alloc, plan(alloc, 40, &zeros, &ones, &captured)?)?;
    assert_eq!(rt; part.select(0), 1);
    assert_eq!(rt; part.select(1), 0);
    assert_eq!(rt; part.selected_length(0), 3);
    assert_eq!(rt; part.selected_length(u64::MAX), 1);
    Ok(())
}

// A part of 64 instruction bits, in whose pattern of EXTEST all digits are X but for one.
fn with_digit(alloc: Global, place: usize, digit: Digit) -> Result<Part, PartRefusal>
    requires { place < 64 }
{
    let mut digits = [Digit::Any; 64];
    digits[place] = digit;
    let mut captured = [Digit::Zero; 64];
    captured[0] = Digit::One;
    Part::new(
        alloc,
        plan(alloc, 64, &digits, &[Digit::One; 64], &captured)?,
    )
}

// Whether EXTEST is selected, by which alone BOUNDARY is.
fn is_extest(part: &Part, code: u64) -> bool {
    part.select(code) == 1
}

// Whether 0, 1 and X at a place match as they are to: the bit at that place alone, and all bits but that one or another one. All ones are
// BYPASS in each part.
fn matches_at(alloc: Global, place: usize, bit: u64) -> Result<bool, PartRefusal>
    requires { place < 64 }
{
    let zero = with_digit(alloc, place, Digit::Zero)?;
    let one = with_digit(alloc, place, Digit::One)?;
    let any = with_digit(alloc, place, Digit::Any)?;
    let others = !bit.rotate_left(1);
    if !is_extest(&zero, 0) || !is_extest(&zero, !bit) || is_extest(&zero, bit) {
        return Ok(false);
    }
    if !is_extest(&one, bit) || !is_extest(&one, others) || is_extest(&one, !bit) {
        return Ok(false);
    }
    Ok(is_extest(&any, bit) && is_extest(&any, !bit))
}

#[test]
fn a_stated_digit_is_compared_alone(rt: HostRuntime) -> Result<(), PartRefusal> {
    let alloc = rt.alloc();
    assert!(rt; matches_at(alloc, 0, 0x1)?);
    assert!(rt; matches_at(alloc, 31, 0x8000_0000)?);
    assert!(rt; matches_at(alloc, 32, 0x1_0000_0000)?);
    assert!(rt; matches_at(alloc, 63, 0x8000_0000_0000_0000)?);
    Ok(())
}

// 1X01
const SHORT: [Digit; 4] = [Digit::One, Digit::Zero, Digit::Any, Digit::One];

const CAPTURED: [Digit; 4] = [Digit::One, Digit::Zero, Digit::Zero, Digit::Zero];

#[test]
fn a_short_pattern_matches_codes_of_its_length(rt: HostRuntime) -> Result<(), PartRefusal> {
    let alloc = rt.alloc();
    let part = Part::new(alloc, plan(alloc, 4, &SHORT, &[Digit::One; 4], &CAPTURED)?)?;
    assert!(rt; is_extest(&part, 0b1001));
    assert!(rt; is_extest(&part, 0b1101));
    assert!(rt; !is_extest(&part, 0b1000));
    assert!(rt; !is_extest(&part, 0b1011));
    assert!(rt; !is_extest(&part, 0b0001));
    assert!(rt; is_extest(&part, 0b110_1001));
    Ok(())
}

// X counts as 0 in the reset code.
#[test]
fn the_reset_code_is_the_pattern_of_idcode(rt: HostRuntime) -> Result<(), PartRefusal> {
    let alloc = rt.alloc();
    let mut plan = plan(alloc, 4, &[Digit::Zero; 4], &[Digit::One; 4], &CAPTURED)?;
    plan.opcodes.push(opcode(alloc, "IDCODE", &SHORT)?)?;
    plan.idcode = Some(pattern(alloc, &[Digit::One; 32])?);
    let part = Part::new(alloc, plan)?;
    assert_eq!(rt; part.reset_code(), 0b1001);
    assert_eq!(rt; part.select(0b1101), 2);
    Ok(())
}

// Names that share a slot of the index of twelve instructions.
const NAMES: [&str; 12] = [
    "AE", "BC", "BK", "CI", "FY", "GB", "IF", "JD", "KX", "LV", "NZ", "OC",
];

fn digit(code: usize, bit: usize) -> Digit {
    if code & bit == 0 {
        Digit::Zero
    } else {
        Digit::One
    }
}

// The instructions of these names, whose codes count from 0.
fn named_opcodes(alloc: Global) -> Result<Items<Opcode>, AllocError>
    ensures { IfOk result (λ opcodes. plans.all_have_patterns opcodes ≡ true) }
{
    let mut opcodes = Items::from_vec(Vec::new(alloc));
    for (code, name) in NAMES.iter().enumerate() {
        let digits = [
            digit(code, 1),
            digit(code, 2),
            digit(code, 4),
            digit(code, 8),
        ];
        opcodes.push(opcode(alloc, name, &digits)?)?;
    }
    Ok(opcodes)
}

fn access(
    alloc: Global,
    register: &str,
    length: u32,
    instructions: &[&str],
) -> Result<Access, AllocError> {
    let mut names = Names::new(alloc);
    for name in instructions {
        names.push(Text::from_str(alloc, name)?)?;
    }
    Ok(Access {
        register: Text::from_str(alloc, register)?,
        length: Some(length),
        instructions: names,
    })
}

// A plan with these instructions, of which some have two accesses. The last instruction of the second one is told.
fn named_plan(alloc: Global, last: &str) -> Result<PartPlan, AllocError>
    ensures { IfOk result (λ plan. plans.all_have_patterns plan.opcodes ≡ true) }
{
    let mut accesses = Vec::new(alloc);
    accesses.push(access(alloc, "USER", 7, &["AE", "BK", "GB", "OC"])?)?;
    accesses.push(access(alloc, "DATA", 9, &["AE", "BK", "GB", "OC", last])?)?;
    Ok(PartPlan {
        ir_len: 4,
        opcodes: named_opcodes(alloc)?,
        capture: pattern(alloc, &CAPTURED)?,
        idcode: None,
        usercode: None,
        access: Items::from_vec(accesses),
        boundary: 3,
    })
}

#[test]
fn the_first_access_of_an_instruction_counts(rt: HostRuntime) -> Result<(), PartRefusal> {
    let alloc = rt.alloc();
    let part = Part::new(alloc, named_plan(alloc, "BC")?)?;
    for code in [0, 2, 5, 11] {
        assert_eq!(rt; part.selected_length(code), 7);
    }
    assert_eq!(rt; part.selected_length(1), 9);
    for code in [3, 4, 6, 7, 8, 9, 10, 12] {
        assert_eq!(rt; part.selected_length(code), 1);
    }
    let refused = PartRefusal::Refused {
        cause: 9,
        field: Field::RegisterAccess,
    };
    let plan = named_plan(alloc, "PA")?;
    assert!(rt; Part::new(alloc, plan).is_err_and(|refusal| refusal == refused));
    Ok(())
}
