// The reset code and the identification of a plan that has codes of the right lengths.
ghost use Rattle.std.specs.Prelude.{◌≡◌, ◌≤◌, ◌<◌, ◌+◌, ◌-◌, ◌^◌, nat_lt, true, false, length, map, IfOk, IfErr, None};
ghost use Rattle.std.specs.List.{list_any, list_all};
ghost use Rattle.std.specs.Option.{option_map};
ghost use Rattle.scan_bits.specs.Words.{bits_of};
ghost use Rattle.part_model.specs.Parts as parts;
ghost use Rattle.part_model.specs.Plans as plans;
ghost use Rattle.part_model.specs.declared.Field.TheVariants.{IdcodeRegister};
ghost use Rattle.part_model.specs.declared.plan.PartRefusal.TheVariants.{Refused};

use crate::Field;
use crate::codes::{code_of, is_odd, ones, word_of};
use crate::names::{same_name, spelled};
use crate::plan::{Opcode, PartPlan, PartRefusal};
use crate::refusals::has_opcode;
use crate::registers::IDCODE;
use crate::selections::{Registers, Selection, selected, selections};
use std::alloc::Global;

// The code of the first pattern of the first IDCODE opcode, or all ones.
fn idcode_code(count: u32, opcodes: &[Opcode]) -> u64
    requires some { 1 ≤ count }
    requires most { count ≤ 64 }
    requires lengths { plans.any_of_another_length count opcodes.now ≡ false }
    requires patterns { plans.all_have_patterns opcodes.now ≡ true }
    ensures is { bits_of count result ≡ plans.idcode_pattern count opcodes.now }
    ensures bound { result < 2 ^ count }
{
    for opcode in opcodes {
        if same_name(spelled(&opcode.name), b"IDCODE") {
            return opcode.patterns.first_code(count);
        }
    }
    ones(count)
}

// The reset code: that of IDCODE where there is an identification, and all ones otherwise.
pub fn reset_code(plan: &PartPlan) -> u64
    requires lengths { plans.code_refusal plan.now ≡ None }
    requires patterns { plans.all_have_patterns plan.now.opcodes ≡ true }
    ensures is { bits_of plan.now.ir_len result ≡ plans.reset_of plan.now.idcode plan.now.ir_len plan.now.opcodes }
    ensures bound { result < 2 ^ plan.now.ir_len }
{
    if plan.idcode.is_some() {
        idcode_code(plan.ir_len, plan.opcodes.as_slice())
    } else {
        ones(plan.ir_len)
    }
}

// The captured code.
pub fn capture_code(plan: &PartPlan) -> u64
    requires { plans.code_refusal plan.now ≡ None }
    ensures is { bits_of plan.now.ir_len result ≡ plans.bits_of_pattern plan.now.capture }
    ensures bound { result < 2 ^ plan.now.ir_len }
{
    code_of(plan.ir_len, plan.capture.digits())
}

// The identification code.
pub fn idcode(plan: &PartPlan) -> Option<u32>
    requires { plans.code_refusal plan.now ≡ None }
    ensures { option_map (bits_of 32) result ≡ plans.pattern_bits plan.now.idcode }
{
    match &plan.idcode {
        Some(pattern) => Some(word_of(pattern.digits())),
        None => None,
    }
}

// The user code, 0 where none is given.
pub fn usercode(plan: &PartPlan) -> u32
    requires { plans.code_refusal plan.now ≡ None }
    ensures { bits_of 32 result ≡ plans.bits_or_zeros plan.now.usercode }
{
    match &plan.usercode {
        Some(pattern) => word_of(pattern.digits()),
        None => 0,
    }
}

// Whether a number is that of DEVICE_ID by IDCODE.
fn is_idcode(register: u32) -> bool
    ensures { result ≡ plans.selects_idcode (parts.numbered register) }
{
    register == IDCODE
}

// The instructions of a plan, or cause 8, for the registers that they select and the reset code of the plan.
pub fn identified(
    alloc: Global,
    plan: PartPlan,
    registers: &Registers,
    reset_code: u64,
) -> Result<Vec<Selection>, PartRefusal>
    requires lengths { plans.code_refusal plan ≡ None }
    requires patterns { plans.all_have_patterns plan.opcodes ≡ true }
    requires are { plans.with_registers plan.opcodes registers.now.selected.items ≡ map (plans.opcode_of plan.access) plan.opcodes }
    requires counts { length registers.now.selected.items ≡ length plan.opcodes }
    requires within { list_all (λ register. nat_lt register (4 + length registers.now.named.items)) registers.now.selected.items ≡ true }
    requires reset { bits_of plan.ir_len reset_code ≡ plans.reset_of plan.idcode plan.ir_len plan.opcodes }
    ensures accepted { IfOk result (λ found. plans.identification_refusal plan.idcode plan ≡ None) }
    ensures are { IfOk result (λ found. parts.instructions_of found.items ≡ map (plans.opcode_of plan.access) plan.opcodes) }
    ensures within { IfOk result (λ found. parts.all_below (4 + length registers.now.named.items) found.items ≡ true) }
    ensures refused { IfErr result (λ refusal. plans.RefusesAs refusal (plans.identification_refusal plan.idcode plan)) }
{
    let listed = has_opcode(plan.opcodes.as_slice(), b"IDCODE");
    let PartPlan {
        ir_len,
        opcodes,
        capture: _,
        idcode,
        usercode: _,
        access: _,
        boundary: _,
    } = plan;
    let found = selections(alloc, ir_len, opcodes.into_vec(), registers)?;
    let Some(pattern) = idcode else {
        return Ok(found);
    };
    if !listed || !is_odd(pattern.digits()) {
        return Err(unidentified());
    }
    let register = selected(&found, ir_len, reset_code);
    if !is_idcode(register) {
        return Err(unidentified());
    }
    Ok(found)
}

fn unidentified() -> PartRefusal
    ensures { result ≡ Refused 8 IdcodeRegister }
{
    PartRefusal::Refused {
        cause: 8,
        field: Field::IdcodeRegister,
    }
}
