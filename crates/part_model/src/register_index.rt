// What accesses name, and which data register an instruction selects.
ghost use Rattle.std.specs.Prelude.{◌≡◌, ℕ, List, ◌≤◌, ◌<◌, ◌+◌, ◌-◌, ◌^◌, [], ◌∷◌, length, map, codes, true, false, not, ◌||◌, if◌then◌else◌, unwrap_or, None, OnOk, IfOk};
ghost use Rattle.std.specs.List.{list_any};
ghost use Rattle.std.specs.Option.{is_some, option_map, option_or};
ghost use Rattle.part_model.specs.NameIndexes as indexes;
ghost use Rattle.part_model.specs.Parts as parts;
ghost use Rattle.part_model.specs.Plans as plans;

use crate::name_index::NameIndex;
use crate::names::{RegisterName, register_name, same_name, spelled};
use crate::plan::{Access, Opcode};
use crate::registers::{BOUNDARY, BYPASS, FIRST_NAMED, IDCODE, KnownRegisters, USERCODE};
use base_types::Text;
use std::alloc::{AllocError, Global};

// The named registers that accesses name, and for each instruction that has an opcode the register that an access names first for it.
#[derive(Drop)]
pub struct RegisterIndex<'a> {
    pub known: KnownRegisters<'a>,
    pub mentioned: NameIndex<'a, Option<&'a Text>>,
}

// The register of an instruction, where one was mentioned.
fn told<'a>(found: Option<Option<&'a Text>>) -> Option<&'a Text>
    ensures { option_map (λ name. name.now) result ≡ indexes.told found.entry }
{
    match found {
        Some(name) => name,
        None => None,
    }
}

impl<'a> RegisterIndex<'a> {
    // The register that an instruction selects.
    pub fn register_for(&self, instruction: &'a str) -> u32
        requires few { length self.now.known.registers.items < 2 ^ 32 - 4 }
        requires places { indexes.Knows (parts.named_of self.now.known.registers.items) self.now.known.places }
        ensures is { (accesses : List plans.AccessEntry) → (instructions : List (List ℕ)) → indexes.Mentions accesses instructions self.now.mentioned → plans.is_listed instruction.now instructions ≡ true → parts.named_of self.now.known.registers.items ≡ plans.named_registers accesses → parts.numbered result ≡ plans.register_for accesses instruction.now }
        ensures within { (accesses : List plans.AccessEntry) → (instructions : List (List ℕ)) → indexes.Mentions accesses instructions self.now.mentioned → plans.is_listed instruction.now instructions ≡ true → parts.named_of self.now.known.registers.items ≡ plans.named_registers accesses → result < 4 + length self.now.known.registers.items }
    {
        match told(self.mentioned.find(instruction)) {
            Some(name) => register_named(&self.known, instruction, name),
            None => default_register(instruction.as_bytes()),
        }
    }
}

// The instructions of the opcodes, for none of which a register was mentioned.
pub fn instructions<'a>(
    alloc: Global,
    opcodes: &'a [Opcode],
) -> Result<NameIndex<'a, Option<&'a Text>>, AllocError>
    ensures lists { IfOk result (indexes.Lists (map (λ opcode. opcode.name) opcodes.now)) }
    ensures none { IfOk result (λ index. (name : List ℕ) → indexes.told (indexes.value_of index name) ≡ None) }
{
    let mut index = NameIndex::new(alloc, opcodes.len().max(1))?;
    for opcode in opcodes {
        index.add(alloc, opcode.name.as_str(), None)?;
    }
    Ok(index)
}

// The register of an access, for those of its instructions that have none yet. Whether one of them does not stand in the index.
pub fn mention_register<'a>(
    index: &mut NameIndex<'a, Option<&'a Text>>,
    access: &'a Access,
) -> Result<bool, AllocError>
    ensures lacks { IfOk result (λ lacks. lacks ≡ list_any (λ instruction. not (is_some (indexes.value_of index.old instruction))) access.now.instructions) }
    ensures kept { OnOk result ((name : List ℕ) → is_some (indexes.value_of index.new name) ≡ is_some (indexes.value_of index.old name)) }
    ensures told { IfOk result (λ lacks. lacks ≡ false → (name : List ℕ) → is_some (indexes.value_of index.old name) ≡ true → indexes.told (indexes.value_of index.new name) ≡ option_or (indexes.told (indexes.value_of index.old name)) (plans.mentioned (access.now ∷ []) name)) }
{
    for instruction in access.instructions.as_slice() {
        if !index.fill(instruction.as_str(), &access.register)? {
            return Ok(true);
        }
    }
    Ok(false)
}

// The place of a register, where this is its place and its length, or else another number.
fn place_or(found: Option<(u32, u32)>, other: u32) -> u32
    ensures { result ≡ unwrap_or (option_map (λ found. found.0) found) other }
{
    match found {
        Some((place, _)) => place,
        None => other,
    }
}

// The place of a name, or the count of registers where it is none of them.
fn place_of_name<'a>(known: &KnownRegisters<'a>, name: &'a str) -> u32
    requires few { length known.now.registers.items < 2 ^ 32 - 4 }
    requires places { indexes.Knows (parts.named_of known.now.registers.items) known.now.places }
    ensures is { result ≡ plans.place_of_name (parts.named_of known.now.registers.items) name.now }
    ensures bound { result ≤ length known.now.registers.items }
    ensures within { plans.is_listed name.now (plans.names_known (parts.named_of known.now.registers.items)) ≡ true → result < length known.now.registers.items }
{
    place_or(known.places.find(name), known.registers.len() as u32)
}

// The register of a name, for an instruction.
fn register_named<'a>(known: &KnownRegisters<'a>, instruction: &str, name: &'a Text) -> u32
    requires few { length known.now.registers.items < 2 ^ 32 - 4 }
    requires places { indexes.Knows (parts.named_of known.now.registers.items) known.now.places }
    ensures is { parts.numbered result ≡ plans.register_named (parts.named_of known.now.registers.items) instruction.now name.now }
    ensures within { (plans.is_listed name.now plans.standard_names || plans.is_listed name.now (plans.names_known (parts.named_of known.now.registers.items))) ≡ true → result < 4 + length known.now.registers.items }
{
    match register_name(spelled(name)) {
        RegisterName::Bypass => BYPASS,
        RegisterName::Boundary => BOUNDARY,
        RegisterName::DeviceId => device_id(instruction.as_bytes()),
        RegisterName::Other => FIRST_NAMED + place_of_name(known, name.as_str()),
    }
}

// DEVICE_ID for an instruction.
fn device_id(instruction: &[u8]) -> u32
    ensures { result ≡ (if parts.same_name instruction.now (codes "USERCODE") then 3 else 2) }
{
    if same_name(instruction, b"USERCODE") {
        USERCODE
    } else {
        IDCODE
    }
}

// The register of an instruction that no access names.
fn default_register(instruction: &[u8]) -> u32
    ensures is { parts.numbered result ≡ plans.default_register instruction.now }
    ensures bound { result < 4 }
{
    if same_name(instruction, b"EXTEST") || same_name(instruction, b"SAMPLE") {
        return BOUNDARY;
    }
    if same_name(instruction, b"PRELOAD") || same_name(instruction, b"INTEST") {
        return BOUNDARY;
    }
    if same_name(instruction, b"IDCODE") {
        return IDCODE;
    }
    if same_name(instruction, b"USERCODE") {
        return USERCODE;
    }
    BYPASS
}
