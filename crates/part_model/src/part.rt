// A device type.
ghost use Rattle.std.specs.Prelude.{◌≡◌, ◌<◌, ◌≤◌, ◌+◌, ◌-◌, ◌^◌, true, length, if◌then◌else◌, IfOk, IfErr, OnOk, None};
ghost use Rattle.std.specs.Option.{option_map};
ghost use Rattle.scan_bits.specs.Words.{bits_of};
ghost use Rattle.part_model.specs.CodeTables.{IsTableOf, Selects};
ghost use Rattle.part_model.specs.Parts as parts;
ghost use Rattle.part_model.specs.Plans as plans;

use crate::code_table::{CodeTable, Selected};
use crate::names::{same_name, spelled};
use crate::plan::{PartPlan, PartRefusal};
use crate::refusals::{boundary_refusal, code_refusal};
use crate::registers::{BOUNDARY, BYPASS, DataRegister, FIRST_NAMED, IDCODE, USERCODE};
use crate::reset::{capture_code, idcode, identified, reset_code, usercode};
use crate::selections::{
    Selection, copy_registers, copy_selections, instruction, registers_of, selected,
};
use base_types::Items;
use std::alloc::{AllocError, Global};
use std::marker::Model;

/// The number of a data register of a part: 0 BYPASS, 1 BOUNDARY, 2 DEVICE_ID by IDCODE, 3 DEVICE_ID by USERCODE, and from 4 on the
/// named registers in the order of their first mention in REGISTER_ACCESS.
pub type RegNo = u32;

// What codes select is kept where the instruction register has at most so many bits,
const LONGEST_TABLED: u32 = 10;

// and codes times opcodes are at most so many.
const MOST_TRIED: u64 = 65_536;

/// A device type: what a plan that is not refused says of a device. Contracts see it as that device type.
#[derive(Drop)]
pub struct Part {
    ir_len: u32,
    capture_code: u64,
    reset_code: u64,
    idcode: Option<u32>,
    usercode: u32,
    boundary: u32,
    opcodes: Items<Selection>,
    named: Items<DataRegister>,
    // What each code selects, where the codes are few.
    table: CodeTable,
}

impl Model for Part {
    ghost use Rattle.part_model.specs.Parts.{DeviceType, Fits, kept};
    ghost use Rattle.part_model.specs.Plans.{IsPart};
    ghost use Rattle.part_model.specs.CodeTables.{IsTableOf};

    ghost Value = { DeviceType };

    ghost view = { λ p. kept p.ir_len p.capture_code p.reset_code p.idcode p.usercode p.boundary p.opcodes p.named };

    ghost invariant = { λ p. Fits p.ir_len p.capture_code p.reset_code p.opcodes p.named × IsPart (kept p.ir_len p.capture_code p.reset_code p.idcode p.usercode p.boundary p.opcodes p.named) × IsTableOf (kept p.ir_len p.capture_code p.reset_code p.idcode p.usercode p.boundary p.opcodes p.named) p.table };
}

impl Part {
    /// The device type of a plan. `Refused` comes exactly where the plan is refused, with the first cause and its attribute, and
    /// `Memory` where memory is wanting. More than 4,294,967,291 named registers are as if memory were wanting, since no number would be
    /// left for them. Each opcode has a pattern.
    pub fn new(alloc: Global, plan: PartPlan) -> Result<Part, PartRefusal>
        requires { plans.all_have_patterns plan.opcodes ≡ true }
        ensures accepted { IfOk result (λ part. plans.plan_refusal plan ≡ None) }
        ensures made { IfOk result (λ part. part ≡ plans.part_of plan) }
        ensures refused { IfErr result (λ refusal. plans.RefusesAs refusal (plans.plan_refusal plan)) }
    {
        if let Some(refusal) = code_refusal(&plan) {
            return Err(refusal.into());
        }
        let registers = registers_of(alloc, &plan)?;
        if let Some(refusal) = boundary_refusal(&plan) {
            return Err(refusal.into());
        }
        let ir_len = plan.ir_len;
        let boundary = plan.boundary;
        let capture_code = capture_code(&plan);
        let reset_code = reset_code(&plan);
        let idcode = idcode(&plan);
        let usercode = usercode(&plan);
        let opcodes = identified(alloc, plan, &registers, reset_code)?;
        let mut part = Part {
            ir_len,
            capture_code,
            reset_code,
            idcode,
            usercode,
            boundary,
            opcodes: Items::from_vec(opcodes),
            named: Items::from_vec(registers.named),
            table: CodeTable::empty(alloc),
        };
        part.fill_table(alloc)?;
        Ok(part)
    }

    /// An equal part. The error comes where memory is wanting.
    pub fn copy(&self, alloc: Global) -> Result<Part, AllocError>
        ensures { IfOk result (λ copy. copy ≡ self.now) }
    {
        let opcodes = copy_selections(alloc, self.opcodes.as_slice())?;
        let named = copy_registers(alloc, self.named.as_slice())?;
        let table = self.table.copy(alloc)?;
        Ok(Part {
            ir_len: self.ir_len,
            capture_code: self.capture_code,
            reset_code: self.reset_code,
            idcode: self.idcode,
            usercode: self.usercode,
            boundary: self.boundary,
            opcodes: Items::from_vec(opcodes),
            named: Items::from_vec(named),
            table,
        })
    }

    /// How many bits the instruction register has.
    pub fn ir_len(&self) -> u32
        ensures is { result ≡ self.now.ir_length }
        ensures part { plans.IsPart self.now }
    {
        let _capture = self.capture_code;
        self.ir_len
    }

    /// What Capture-IR loads into the instruction register, X read as 0. Bit 0 is nearest TDO.
    pub fn capture_code(&self) -> u64
        ensures is { bits_of self.now.ir_length result ≡ self.now.ir_captures }
        ensures bound { result < 2 ^ self.now.ir_length }
    {
        self.capture_code
    }

    /// The instruction that Test-Logic-Reset loads: that of IDCODE where the part has an identification, and else all ones, which is
    /// BYPASS. Bit 0 is nearest TDO.
    pub fn reset_code(&self) -> u64
        ensures is { bits_of self.now.ir_length result ≡ self.now.reset_code }
        ensures bound { result < 2 ^ self.now.ir_length }
    {
        self.reset_code
    }

    /// The identification code, X read as 0. Bit 0 is nearest TDO. None exactly where there is no IDCODE_REGISTER.
    pub fn idcode(&self) -> Option<u32>
        ensures { option_map (bits_of 32) result ≡ self.now.idcode }
    {
        self.idcode
    }

    /// The code that DEVICE_ID captures under USERCODE, X read as 0, and 0 where there is no USERCODE_REGISTER. Bit 0 is nearest TDO.
    pub fn usercode(&self) -> u32
        ensures { bits_of 32 result ≡ self.now.usercode }
    {
        self.usercode
    }

    /// The data register that a code selects: BYPASS for all ones, that of the first listed opcode with a pattern that matches, and BYPASS
    /// where none does. Bit 0 of the code is nearest TDO.
    pub fn select(&self, code: u64) -> RegNo
        ensures is { parts.numbered result ≡ parts.selected self.now (bits_of self.now.ir_length code) }
        ensures there { result < parts.register_count self.now }
    {
        match self.table.get(code) {
            Some(entry) => entry.register,
            None => self.search(code),
        }
    }

    /// How many bits the data register has that a code selects.
    #[inline(always)]
    pub fn selected_length(&self, code: u64) -> u32
        ensures { result ≡ parts.length_of self.now (parts.selected self.now (bits_of self.now.ir_length code)) }
    {
        match self.table.get(code) {
            Some(entry) => entry.length,
            None => self.searched_length(code),
        }
    }

    // The same, found among the opcodes.
    #[inline(never)]
    fn searched_length(&self, code: u64) -> u32
        ensures { result ≡ parts.length_of self.now (parts.selected self.now (bits_of self.now.ir_length code)) }
    {
        self.len_of(self.search(code))
    }

    // The data register that a code selects, found among the opcodes.
    fn search(&self, code: u64) -> RegNo
        ensures is { parts.numbered result ≡ parts.selected self.now (bits_of self.now.ir_length code) }
        ensures there { result < parts.register_count self.now }
    {
        selected(self.opcodes.as_slice(), self.ir_len, code)
    }

    // What a code selects, found among the opcodes.
    fn searched(&self, code: u64) -> Selected
        ensures { Selects self.now code result }
    {
        let register = self.search(code);
        Selected {
            register,
            length: self.len_of(register),
        }
    }

    // How many codes there are, where they are few for so many opcodes, and else 0.
    fn table_size(&self) -> u64 {
        if self.ir_len > LONGEST_TABLED {
            return 0;
        }
        let codes = 1 << self.ir_len;
        if self.opcodes.len() as u64 > MOST_TRIED / codes {
            return 0;
        }
        codes
    }

    // What so many codes select, from code 0 on.
    fn table_of(&self, alloc: Global, count: u64) -> Result<CodeTable, AllocError>
        ensures { IfOk result (IsTableOf self.now) }
    {
        let mut table = CodeTable::with_room(alloc, count as usize)?;
        for code in 0..count {
            table.push(self.searched(code))?;
        }
        Ok(table)
    }

    // Keeps what the codes select at hand, where they are few.
    fn fill_table(&mut self, alloc: Global) -> Result<(), AllocError>
        ensures { OnOk result (self.new ≡ self.old) }
    {
        self.table = self.table_of(alloc, self.table_size())?;
        Ok(())
    }

    /// Whether the part drives its pins from BOUNDARY under a code: the code is not all ones, and the first listed opcode that it
    /// matches is EXTEST.
    pub fn drives(&self, code: u64) -> bool
        ensures { result ≡ parts.drives self.now (bits_of self.now.ir_length code) }
    {
        match instruction(self.opcodes.as_slice(), self.ir_len, code) {
            Some(found) => same_name(spelled(&found.name), b"EXTEST"),
            None => false,
        }
    }

    /// How many data registers there are numbers for: four and the named ones.
    pub fn regs(&self) -> u32
        ensures { result ≡ parts.register_count self.now }
    {
        FIRST_NAMED + self.named.len() as u32
    }

    /// How many bits a data register has.
    pub fn len_of(&self, reg: RegNo) -> u32
        requires { reg < parts.register_count self.now }
        ensures { result ≡ parts.length_of self.now (parts.numbered reg) }
    {
        match reg {
            BYPASS => 1,
            BOUNDARY => self.boundary,
            IDCODE | USERCODE => 32,
            _ => self.named.get((reg - FIRST_NAMED) as usize).length,
        }
    }

    /// Whether a data register keeps what Update-DR gives it: BOUNDARY and the named ones do.
    pub fn has_latch(&self, reg: RegNo) -> bool
        requires { reg < parts.register_count self.now }
        ensures { result ≡ parts.has_latch (parts.numbered reg) }
    {
        reg == BOUNDARY || FIRST_NAMED <= reg
    }

    /// The name of a data register. Both DEVICE_ID registers have that name.
    pub fn name_of(&self, reg: RegNo) -> &str
        requires { reg < parts.register_count self.now }
        ensures { result.now ≡ parts.register_name self.now (parts.numbered reg) }
    {
        match reg {
            BYPASS => "BYPASS",
            BOUNDARY => "BOUNDARY",
            IDCODE | USERCODE => "DEVICE_ID",
            _ => self.named.get((reg - FIRST_NAMED) as usize).name.as_str(),
        }
    }

    // The length of DEVICE_ID, 0 where the part has none.
    fn device_id_length(&self) -> u32
        ensures { result ≡ (if parts.has_device_id self.now then 32 else 0) }
    {
        if self.idcode.is_some() || has_usercode(self.opcodes.as_slice()) {
            32
        } else {
            0
        }
    }

    /// The greatest length of a data register that the part has, in bits. DEVICE_ID counts where there is an identification or an
    /// opcode USERCODE.
    pub fn longest(&self) -> u32
        ensures { result ≡ parts.longest self.now }
    {
        let named = longest_named(self.named.as_slice());
        let device_id = self.device_id_length();
        u32::max(1, self.boundary).max(device_id.max(named))
    }
}

// Whether an opcode is USERCODE.
fn has_usercode(opcodes: &[Selection]) -> bool
    ensures { result ≡ parts.has_usercode (parts.instructions_of opcodes.now) }
{
    for opcode in opcodes {
        if same_name(spelled(&opcode.name), b"USERCODE") {
            return true;
        }
    }
    false
}

// The greatest length of a named register, 0 where there is none.
fn longest_named(named: &[DataRegister]) -> u32
    ensures { result ≡ parts.longest_named (parts.named_of named.now) }
{
    let mut greatest = 0;
    for register in named {
        greatest = greatest.max(register.length);
    }
    greatest
}
