// The data registers of a plan, by number: 0 BYPASS, 1 BOUNDARY, 2 and 3 DEVICE_ID by IDCODE and by USERCODE, and from 4 on the named
// registers in the order of their first mention.
ghost use Rattle.std.specs.Prelude.{◌≡◌, ◌<◌, ◌-◌, ◌^◌, ℕ, List, [], ◌∷◌, false, length, OnOk, IfOk};
ghost use Rattle.std.specs.Option.{is_some, option_map};
ghost use Rattle.part_model.specs.NameIndexes as indexes;
ghost use Rattle.part_model.specs.Parts as parts;
ghost use Rattle.part_model.specs.Plans as plans;

use crate::name_index::NameIndex;
use crate::plan::Access;
use base_types::Text;
use std::alloc::{AllocError, Global};

pub const BYPASS: u32 = 0;

pub const BOUNDARY: u32 = 1;

pub const IDCODE: u32 = 2;

pub const USERCODE: u32 = 3;

pub const FIRST_NAMED: u32 = 4;

// A named register and its length in bits.
#[derive(Drop)]
pub struct DataRegister {
    pub name: Text,
    pub length: u32,
}

// The named registers so far, and the place and the length of each by its name.
#[derive(Drop)]
pub struct KnownRegisters<'a> {
    pub registers: Vec<DataRegister>,
    pub places: NameIndex<'a, (u32, u32)>,
}

// The length of a register, where this is its place and its length.
fn length_of(found: Option<(u32, u32)>) -> Option<u32>
    ensures { result ≡ option_map (λ found. found.1) found }
{
    match found {
        Some((_, length)) => Some(length),
        None => None,
    }
}

// Whether a register is among those known, where this is the length of the known one of its name.
fn is_known(length: Option<u32>) -> bool
    ensures some { result ≡ is_some length }
    ensures is { (known : List parts.NamedRegister) (name : List ℕ) → length ≡ plans.length_named known name → result ≡ plans.is_listed name (plans.names_known known) }
{
    length.is_some()
}

// So many named registers have numbers of 32 bits behind the first four, with one to spare.
const MOST_NAMED: usize = 4_294_967_291;

// The length that the register of an access had, where it was known. Where it was not, it joins those known with its length. The standard
// does not name it. The error comes where memory is wanting, or the numbers are.
pub fn mention<'a>(
    alloc: Global,
    known: &mut KnownRegisters<'a>,
    access: &'a Access,
) -> Result<Option<u32>, AllocError>
    requires few { length known.old.registers.items < 2 ^ 32 - 4 }
    requires places { indexes.Knows (parts.named_of known.old.registers.items) known.old.places }
    requires other { plans.is_listed access.now.register plans.standard_names ≡ false }
    ensures earlier { IfOk result (λ earlier. earlier ≡ plans.length_named (parts.named_of known.old.registers.items) access.now.register) }
    ensures is { OnOk result (parts.named_of known.new.registers.items ≡ plans.named_after (parts.named_of known.old.registers.items) (access.now ∷ [])) }
    ensures few { OnOk result (length known.new.registers.items < 2 ^ 32 - 4) }
    ensures places { OnOk result (indexes.Knows (parts.named_of known.new.registers.items) known.new.places) }
{
    let name = access.register.as_str();
    let length = access.length.unwrap_or(0);
    let place = known.registers.len() as u32;
    let earlier = length_of(known.places.add(alloc, name, (place, length))?);
    if is_known(earlier) {
        return Ok(earlier);
    }
    if known.registers.len() >= MOST_NAMED {
        return Err(AllocError);
    }
    let register = DataRegister {
        name: access.register.copy(alloc)?,
        length,
    };
    known.registers.push(register)?;
    Ok(earlier)
}
