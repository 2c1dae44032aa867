// Instructions with the registers that they select.
ghost use Rattle.std.specs.Prelude.{◌≡◌, ℕ, List, ◌≤◌, ◌<◌, ◌+◌, ◌-◌, ◌^◌, [], nat_lt, true, false, length, map, IfOk, IfErr, IfSome, None};
ghost use Rattle.std.specs.List.{list_any, list_all};
ghost use Rattle.std.specs.Option.{option_map};
ghost use Rattle.scan_bits.specs.Words.{bits_of};
ghost use Rattle.part_model.specs.NameIndexes as indexes;
ghost use Rattle.part_model.specs.Parts as parts;
ghost use Rattle.part_model.specs.Plans as plans;

use crate::codes::all_ones;
use crate::patterns::CodePatterns;
use crate::plan::{Opcode, PartPlan, PartRefusal};
use crate::refusals::register_index_of;
use crate::register_index::RegisterIndex;
use crate::registers::{BYPASS, DataRegister};
use base_types::Text;
use std::alloc::{AllocError, Global};

// An instruction, and the number of the register that it selects.
#[derive(Drop)]
pub struct Selection {
    pub name: Text,
    pub patterns: CodePatterns,
    pub register: u32,
}

// The instruction of an opcode, with its name and its patterns of so many digits, and the register that it selects.
fn selection_of(
    alloc: Global,
    count: u32,
    opcode: Opcode,
    register: u32,
) -> Result<Selection, AllocError>
    requires most { count ≤ 64 }
    requires lengths { list_any (plans.wrong_length count) opcode.patterns ≡ false }
    requires patterns { 0 < length opcode.patterns }
    ensures is { IfOk result (λ selection. parts.instruction_of selection ≡ record { name = opcode.name; patterns = opcode.patterns; register = parts.numbered register }) }
    ensures register { IfOk result (λ selection. selection.register ≡ register) }
{
    let patterns = opcode.patterns.pack(alloc, count)?;
    Ok(Selection {
        name: opcode.name,
        patterns,
        register,
    })
}

// The named registers of a plan, and the numbers of the registers that its opcodes select, in order.
#[derive(Drop)]
pub struct Registers {
    pub named: Vec<DataRegister>,
    pub selected: Vec<u32>,
}

// The numbers of the registers that the opcodes of a plan select, in order.
fn selected_registers<'a>(
    alloc: Global,
    plan: &'a PartPlan,
    index: &RegisterIndex<'a>,
) -> Result<Vec<u32>, AllocError>
    requires few { length index.now.known.registers.items < 2 ^ 32 - 4 }
    requires places { indexes.Knows (parts.named_of index.now.known.registers.items) index.now.known.places }
    requires mentions { indexes.Mentions plan.now.access (map (λ opcode. opcode.name) plan.now.opcodes) index.now.mentioned }
    requires named { parts.named_of index.now.known.registers.items ≡ plans.named_registers plan.now.access }
    ensures are { IfOk result (λ found. map parts.numbered found.items ≡ map (λ opcode. plans.register_for plan.now.access opcode.name) plan.now.opcodes) }
    ensures within { IfOk result (λ found. list_all (λ register. nat_lt register (4 + length index.now.known.registers.items)) found.items ≡ true) }
{
    let mut found = Vec::with_capacity(alloc, plan.opcodes.len())?;
    for opcode in plan.opcodes.as_slice() {
        found.push(index.register_for(opcode.name.as_str()))?;
    }
    Ok(found)
}

// The registers of a plan, or the first cause in its accesses.
pub fn registers_of(alloc: Global, plan: &PartPlan) -> Result<Registers, PartRefusal>
    ensures accepted { IfOk result (λ registers. plans.accesses_refusal plan.now [] plan.now.access ≡ None) }
    ensures named { IfOk result (λ registers. parts.named_of registers.named.items ≡ plans.named_registers plan.now.access) }
    ensures few { IfOk result (λ registers. length registers.named.items < 2 ^ 32 - 4) }
    ensures are { IfOk result (λ registers. plans.with_registers plan.now.opcodes registers.selected.items ≡ map (plans.opcode_of plan.now.access) plan.now.opcodes) }
    ensures counts { IfOk result (λ registers. length registers.selected.items ≡ length plan.now.opcodes) }
    ensures within { IfOk result (λ registers. list_all (λ register. nat_lt register (4 + length registers.named.items)) registers.selected.items ≡ true) }
    ensures refused { IfErr result (λ refusal. plans.RefusesAs refusal (plans.accesses_refusal plan.now [] plan.now.access)) }
{
    let index = register_index_of(alloc, plan)?;
    let selected = selected_registers(alloc, plan, &index)?;
    let RegisterIndex {
        known,
        mentioned: _,
    } = index;
    Ok(Registers {
        named: known.registers,
        selected,
    })
}

// The instructions of all opcodes, in order, whose patterns have so many digits, with the registers that they select.
pub fn selections(
    alloc: Global,
    count: u32,
    opcodes: Vec<Opcode>,
    registers: &Registers,
) -> Result<Vec<Selection>, AllocError>
    requires most { count ≤ 64 }
    requires lengths { plans.any_of_another_length count opcodes.items ≡ false }
    requires patterns { plans.all_have_patterns opcodes.items ≡ true }
    requires counts { length registers.now.selected.items ≡ length opcodes.items }
    requires within { list_all (λ register. nat_lt register (4 + length registers.now.named.items)) registers.now.selected.items ≡ true }
    ensures are { IfOk result (λ found. parts.instructions_of found.items ≡ plans.with_registers opcodes.items registers.now.selected.items) }
    ensures within { IfOk result (λ found. parts.all_below (4 + length registers.now.named.items) found.items ≡ true) }
{
    let mut found = Vec::with_capacity(alloc, opcodes.len())?;
    for opcode in opcodes {
        let register = registers.selected[found.len()];
        found.push(selection_of(alloc, count, opcode, register)?)?;
    }
    Ok(found)
}

// The first instruction that a code of so many bits matches.
fn first_match<'a>(opcodes: &'a [Selection], count: u32, code: u64) -> Option<&'a Selection>
    ensures is { option_map (λ found. parts.instruction_of found.now) result ≡ parts.first_match (parts.instructions_of opcodes.now) (bits_of count code) }
    ensures within { (bound : ℕ) → parts.all_below bound opcodes.now ≡ true → IfSome result (λ found. found.now.register < bound) }
{
    let mut rest = opcodes;
    while let Some((opcode, others)) = rest.split_first() {
        if opcode.patterns.any_matches(count, code) {
            return Some(opcode);
        }
        rest = others;
    }
    None
}

// The instruction of a code of so many bits: none for all ones, and for a code that is not listed.
pub fn instruction<'a>(opcodes: &'a [Selection], count: u32, code: u64) -> Option<&'a Selection>
    requires some { 1 ≤ count }
    requires most { count ≤ 64 }
    ensures is { option_map (λ found. parts.instruction_of found.now) result ≡ parts.instruction_in (parts.instructions_of opcodes.now) (bits_of count code) }
    ensures within { (bound : ℕ) → parts.all_below bound opcodes.now ≡ true → IfSome result (λ found. found.now.register < bound) }
{
    if all_ones(count, code) {
        None
    } else {
        first_match(opcodes, count, code)
    }
}

// The number of the register that a code of so many bits selects.
pub fn selected(opcodes: &[Selection], count: u32, code: u64) -> u32
    requires some { 1 ≤ count }
    requires most { count ≤ 64 }
    ensures is { parts.numbered result ≡ parts.register_of (parts.instruction_in (parts.instructions_of opcodes.now) (bits_of count code)) }
    ensures within { (bound : ℕ) → 1 ≤ bound → parts.all_below bound opcodes.now ≡ true → result < bound }
{
    match instruction(opcodes, count, code) {
        Some(found) => found.register,
        None => BYPASS,
    }
}

// An instruction that is equal.
fn copy_selection(alloc: Global, selection: &Selection) -> Result<Selection, AllocError>
    ensures { IfOk result (λ copy. copy ≡ selection.now) }
{
    Ok(Selection {
        name: selection.name.copy(alloc)?,
        patterns: selection.patterns.copy(alloc)?,
        register: selection.register,
    })
}

// Equal instructions, in order.
pub fn copy_selections(
    alloc: Global,
    selections: &[Selection],
) -> Result<Vec<Selection>, AllocError>
    ensures { IfOk result (λ copy. copy.items ≡ selections.now) }
{
    let mut copied = Vec::new(alloc);
    for selection in selections {
        copied.push(copy_selection(alloc, selection)?)?;
    }
    Ok(copied)
}

// Equal registers, in order.
pub fn copy_registers(
    alloc: Global,
    registers: &[DataRegister],
) -> Result<Vec<DataRegister>, AllocError>
    ensures { IfOk result (λ copy. copy.items ≡ registers.now) }
{
    let mut copied = Vec::new(alloc);
    for register in registers {
        let copy = DataRegister {
            name: register.name.copy(alloc)?,
            length: register.length,
        };
        copied.push(copy)?;
    }
    Ok(copied)
}
