// Which plans are refused, and the first cause.
ghost use Rattle.std.specs.Prelude.{◌≡◌, ℕ, List, ◌<◌, ◌-◌, ◌^◌, not, ◌||◌, [], ◌∷◌, length, map, codes, if◌then◌else◌, OnOk, IfOk, IfErr, None};
ghost use Rattle.std.specs.List.{list_any};
ghost use Rattle.part_model.specs.NameIndexes as indexes;
ghost use Rattle.part_model.specs.Parts as parts;
ghost use Rattle.part_model.specs.Plans as plans;
ghost use Rattle.part_model.specs.RegisterNames as registers;
ghost use Rattle.part_model.specs.declared.Field.TheVariants.{RegisterAccess};

use crate::name_index::NameIndex;
use crate::names::{RegisterName, register_name, same_name, spelled};
use crate::patterns::wrong_length;
use crate::plan::{Access, Opcode, PartPlan, PartRefusal, Pattern, PlanRefusal};
use crate::register_index::{RegisterIndex, instructions, mention_register};
use crate::registers::{KnownRegisters, mention};
use crate::{Digit, Field};
use base_types::Text;
use std::alloc::{AllocError, Global};

fn refuse(cause: u8, field: Field) -> Option<PlanRefusal>
    ensures { result ≡ plans.refuse cause field }
{
    Some(PlanRefusal { cause, field })
}

fn refuse_if(test: bool, cause: u8, field: Field) -> Option<PlanRefusal>
    ensures { result ≡ plans.refuse_if test cause field }
{
    if test { refuse(cause, field) } else { None }
}

fn wrong_option(pattern: &Option<Pattern>) -> bool
    ensures { result ≡ plans.wrong_option pattern.now }
{
    match pattern {
        Some(pattern) => wrong_length(32, pattern.digits()),
        None => false,
    }
}

fn has_wrong_length(count: u32, opcodes: &[Opcode]) -> bool
    ensures { result ≡ plans.any_of_another_length count opcodes.now }
{
    for opcode in opcodes {
        if opcode.patterns.any_wrong_length(count) {
            return true;
        }
    }
    false
}

fn length_refusal(plan: &PartPlan) -> Option<PlanRefusal>
    ensures { result ≡ plans.length_refusal plan.now }
{
    refuse_if(
        plan.ir_len < 2 || plan.ir_len > 64,
        1,
        Field::InstructionLength,
    )
}

fn pattern_refusal(plan: &PartPlan) -> Option<PlanRefusal>
    ensures { result ≡ plans.pattern_refusal plan.now }
{
    if has_wrong_length(plan.ir_len, plan.opcodes.as_slice()) {
        return refuse(2, Field::InstructionOpcode);
    }
    if wrong_length(plan.ir_len, plan.capture.digits()) {
        return refuse(2, Field::InstructionCapture);
    }
    if wrong_option(&plan.idcode) {
        return refuse(2, Field::IdcodeRegister);
    }
    refuse_if(wrong_option(&plan.usercode), 2, Field::UsercodeRegister)
}

// Whether a captured pattern ends in 01, X read as 0.
fn captures_01(digits: &[Digit]) -> bool
    ensures { result ≡ plans.captures_01 (plans.bits_of_pattern digits.now) }
{
    let Some((lowest, rest)) = digits.split_first() else {
        return false;
    };
    let Some(next) = rest.first() else {
        return false;
    };
    *lowest == Digit::One && *next != Digit::One
}

// The length that the register of an access had before it, where this is the register of its name. Where the standard does not name it and
// it was not known, it joins those known.
fn length_before<'a>(
    alloc: Global,
    plan: &PartPlan,
    known: &mut KnownRegisters<'a>,
    name: RegisterName,
    access: &'a Access,
) -> Result<Option<u32>, AllocError>
    requires few { length known.old.registers.items < 2 ^ 32 - 4 }
    requires places { indexes.Knows (parts.named_of known.old.registers.items) known.old.places }
    requires name { name ≡ registers.register_name access.now.register }
    ensures before { IfOk result (λ before. before ≡ plans.known_length plan.now (parts.named_of known.old.registers.items) access.now.register) }
    ensures is { OnOk result (parts.named_of known.new.registers.items ≡ plans.named_after (parts.named_of known.old.registers.items) (access.now ∷ [])) }
    ensures few { OnOk result (length known.new.registers.items < 2 ^ 32 - 4) }
    ensures places { OnOk result (indexes.Knows (parts.named_of known.new.registers.items) known.new.places) }
{
    match name {
        RegisterName::Bypass => Ok(Some(1)),
        RegisterName::Boundary => Ok(Some(plan.boundary)),
        RegisterName::DeviceId => Ok(Some(32)),
        RegisterName::Other => mention(alloc, known, access),
    }
}

#[inline(never)]
fn any_other_than_usercode(instructions: &[Text]) -> bool
    ensures { result ≡ list_any (λ instruction. not (parts.same_name instruction (codes "USERCODE"))) instructions.now }
{
    for instruction in instructions {
        if !same_name(spelled(instruction), b"USERCODE") {
            return true;
        }
    }
    false
}

// Whether an access, where this is the register of its name, names DEVICE_ID by IDCODE where there is no identification.
fn no_identification(plan: &PartPlan, name: RegisterName, access: &Access) -> bool
    requires { name ≡ registers.register_name access.now.register }
    ensures { result ≡ plans.no_identification plan.now.idcode access.now.register access.now.instructions }
{
    match name {
        RegisterName::DeviceId => {
            plan.idcode.is_none() && any_other_than_usercode(access.instructions.as_slice())
        }
        _ => false,
    }
}

pub fn has_opcode(opcodes: &[Opcode], name: &[u8]) -> bool
    ensures { result ≡ plans.has_opcode opcodes.now name.now }
{
    for opcode in opcodes {
        if same_name(spelled(&opcode.name), name) {
            return true;
        }
    }
    false
}

// The first cause in the register of an access, where this is the register of its name, and its length before.
fn register_refusal(
    plan: &PartPlan,
    name: RegisterName,
    before: Option<u32>,
    access: &Access,
) -> Option<PlanRefusal>
    requires { name ≡ registers.register_name access.now.register }
    ensures { (known : List parts.NamedRegister) → before ≡ plans.known_length plan.now known access.now.register → plans.access_refusal plan.now known access.now ≡ plans.or_else result (plans.refuse_if (list_any (λ instruction. not (plans.is_listed instruction (map (λ opcode. opcode.name) plan.now.opcodes))) access.now.instructions) 9 RegisterAccess) }
{
    let Some(length) = access.length else {
        return refuse_if(
            before.is_none() || no_identification(plan, name, access),
            5,
            Field::RegisterAccess,
        );
    };
    if before.is_some_and(|before| before != length) {
        return refuse(4, Field::RegisterAccess);
    }
    if no_identification(plan, name, access) {
        return refuse(5, Field::RegisterAccess);
    }
    if length == 0 {
        return refuse(6, Field::RegisterAccess);
    }
    refuse_if(length > 65536, 7, Field::RegisterAccess)
}

// The first cause in one access, where this is the register of its name, and its length before, and these are the instructions of the
// opcodes. Where there is none, those of the access have its register, unless they had one.
fn access_refusal<'a>(
    plan: &PartPlan,
    mentioned: &mut NameIndex<'a, Option<&'a Text>>,
    name: RegisterName,
    before: Option<u32>,
    access: &'a Access,
) -> Result<Option<PlanRefusal>, AllocError>
    requires lists { indexes.Lists (map (λ opcode. opcode.name) plan.now.opcodes) mentioned.old }
    requires name { name ≡ registers.register_name access.now.register }
    ensures is { IfOk result (λ refusal. (known : List parts.NamedRegister) → before ≡ plans.known_length plan.now known access.now.register → refusal ≡ plans.access_refusal plan.now known access.now) }
    ensures lists { OnOk result (indexes.Lists (map (λ opcode. opcode.name) plan.now.opcodes) mentioned.new) }
    ensures awaits { IfOk result (λ refusal. refusal ≡ None → (rest all : List plans.AccessEntry) → indexes.Awaits (access.now ∷ rest) all mentioned.old → indexes.Awaits rest all mentioned.new) }
{
    if let Some(refusal) = register_refusal(plan, name, before, access) {
        return Ok(Some(refusal));
    }
    let lacks = mention_register(mentioned, access)?;
    Ok(refuse_if(lacks, 9, Field::RegisterAccess))
}

// The first cause among the lengths, the patterns and the captured digits.
pub fn code_refusal(plan: &PartPlan) -> Option<PlanRefusal>
    ensures { result ≡ plans.code_refusal plan.now }
{
    if let Some(refusal) = length_refusal(plan) {
        return Some(refusal);
    }
    if let Some(refusal) = pattern_refusal(plan) {
        return Some(refusal);
    }
    refuse_if(
        !captures_01(plan.capture.digits()),
        3,
        Field::InstructionCapture,
    )
}

// What the accesses name, or the first cause in them.
#[inline(never)]
pub fn register_index_of<'a>(
    alloc: Global,
    plan: &'a PartPlan,
) -> Result<RegisterIndex<'a>, PartRefusal>
    ensures accepted { IfOk result (λ index. plans.accesses_refusal plan.now [] plan.now.access ≡ None) }
    ensures named { IfOk result (λ index. parts.named_of index.known.registers.items ≡ plans.named_registers plan.now.access) }
    ensures few { IfOk result (λ index. length index.known.registers.items < 2 ^ 32 - 4) }
    ensures places { IfOk result (λ index. indexes.Knows (parts.named_of index.known.registers.items) index.known.places) }
    ensures mentions { IfOk result (λ index. indexes.Mentions plan.now.access (map (λ opcode. opcode.name) plan.now.opcodes) index.mentioned) }
    ensures refused { IfErr result (λ refusal. plans.RefusesAs refusal (plans.accesses_refusal plan.now [] plan.now.access)) }
{
    let mut known = KnownRegisters {
        registers: Vec::new(alloc),
        places: NameIndex::new(alloc, plan.access.len())?,
    };
    if plan.access.is_empty() {
        let mentioned = NameIndex::new(alloc, 0)?;
        return Ok(RegisterIndex { known, mentioned });
    }
    let mut mentioned = instructions(alloc, plan.opcodes.as_slice())?;
    for access in plan.access.as_slice() {
        let name = register_name(spelled(&access.register));
        let before = length_before(alloc, plan, &mut known, name, access)?;
        if let Some(refusal) = access_refusal(plan, &mut mentioned, name, before, access)? {
            return Err(refusal.into());
        }
    }
    Ok(RegisterIndex { known, mentioned })
}

// The first cause in BOUNDARY_LENGTH, and in opcodes without an identification.
pub fn boundary_refusal(plan: &PartPlan) -> Option<PlanRefusal>
    ensures { result ≡ plans.or_else (plans.boundary_refusal plan.now) (plans.opcode_refusal plan.now.idcode plan.now.opcodes) }
{
    if plan.boundary == 0 {
        return refuse(6, Field::BoundaryLength);
    }
    if plan.boundary > 65536 {
        return refuse(7, Field::BoundaryLength);
    }
    if plan.idcode.is_some() {
        return None;
    }
    refuse_if(
        has_opcode(plan.opcodes.as_slice(), b"IDCODE"),
        5,
        Field::InstructionOpcode,
    )
}
