// Devices, grants and nets of no order.
ghost use Rattle.std.specs.Prelude.{◌≡◌, ◌≤◌, ◌<◌, true, length, IfOk};
ghost use Rattle.part_model.specs.Plans.{all_have_patterns};

use base_types::{Items, Text};
use chain_model::Board;
use grant_table::{Grant, Layout, Net, Protocol, layout_fault};
use part_model::{Access, Digit, Names, Opcode, Part, PartPlan, Pattern, Patterns};
use scan_bits::Bits;
use std::alloc::{AllocError, Global};

// How many devices the chain has.
const DEVICES: u32 = 32;

const BOUNDARY: u32 = 1;

// Numbers of no order: the xorshift generator of 64 bits with the shifts 13, 7 and 17. The state is not 0.
#[derive(Drop)]
pub struct Random {
    pub state: u64,
}

impl Random {
    pub fn number(&mut self) -> u64 {
        self.state ^= self.state << 13;
        self.state ^= self.state >> 7;
        self.state ^= self.state << 17;
        self.state
    }

    // A number below this one.
    pub fn below(&mut self, count: u64) -> u64
        requires { 1 ≤ count }
        ensures { result < count }
    {
        self.number() % count
    }

    // A place among so many.
    pub fn place(&mut self, count: usize) -> usize
        requires { 1 ≤ count }
        ensures { result < count }
    {
        self.below(count as u64) as usize
    }
}

// The lengths of a device's registers, and whether it has an identification code.
#[derive(Clone, Copy)]
struct Shape {
    instruction: u32,
    boundary: u32,
    user: u32,
    data: u32,
    is_identified: bool,
}

// Instruction registers of 2 to 10 bits and one of 64, boundary registers of 1 to 97, and named registers about the length of a word.
fn shape_of(device: u32) -> Shape
    ensures { result.instruction ≤ 64 }
{
    let lengths = [1, 7, 8, 63, 64, 65, 130];
    let at = (device % 7) as usize;
    Shape {
        instruction: if device == 13 { 64 } else { 2 + device % 9 },
        boundary: 1 + device % 97 * 37 % 97,
        user: lengths[at],
        data: lengths[6 - at],
        is_identified: device % 3 != 1,
    }
}

// The codes of EXTEST, SAMPLE, IDCODE or USER3, USER1, USER2 and BYPASS, where the instruction register has a bit for each digit. In the
// shortest ones the first of equal codes counts.
pub fn listed_codes(instruction: u32) -> [u64; 6]
    requires { instruction ≤ 64 }
{
    [0, 1, 2, 4, 5 << instruction.saturating_sub(3), u64::MAX]
}

fn text(alloc: Global, name: &str) -> Result<Text, AllocError> {
    Text::from_str(alloc, name)
}

// The lowest digits of a code.
fn pattern(alloc: Global, count: u32, code: u64) -> Result<Pattern, AllocError> {
    let mut digits = Vec::new(alloc);
    let mut rest = code;
    for _ in 0..count {
        digits.push(if rest % 2 == 1 {
            Digit::One
        } else {
            Digit::Zero
        })?;
        rest /= 2;
    }
    Ok(Pattern {
        digits: Items::from_vec(digits),
    })
}

fn opcode(alloc: Global, name: &str, digits: u32, code: u64) -> Result<Opcode, AllocError>
    ensures { IfOk result (λ opcode. 0 < length opcode.patterns) }
{
    let mut patterns = Vec::new(alloc);
    patterns.push(pattern(alloc, digits, code)?)?;
    Ok(Opcode {
        name: text(alloc, name)?,
        patterns: Patterns::from_vec(patterns),
    })
}

fn opcodes(alloc: Global, shape: Shape) -> Result<Items<Opcode>, AllocError>
    requires { shape.instruction ≤ 64 }
    ensures { IfOk result (λ opcodes. all_have_patterns opcodes ≡ true) }
{
    let length = shape.instruction;
    let codes = listed_codes(length);
    let third = if shape.is_identified {
        "IDCODE"
    } else {
        "USER3"
    };
    let mut opcodes = Items::from_vec(Vec::new(alloc));
    opcodes.push(opcode(alloc, "EXTEST", length, codes[0])?)?;
    opcodes.push(opcode(alloc, "SAMPLE", length, codes[1])?)?;
    opcodes.push(opcode(alloc, third, length, codes[2])?)?;
    opcodes.push(opcode(alloc, "USER1", length, codes[3])?)?;
    opcodes.push(opcode(alloc, "USER2", length, codes[4])?)?;
    opcodes.push(opcode(alloc, "BYPASS", length, codes[5])?)?;
    Ok(opcodes)
}

fn access(
    alloc: Global,
    register: &str,
    length: Option<u32>,
    first: &str,
    second: &str,
) -> Result<Access, AllocError> {
    let mut instructions = Names::new(alloc);
    instructions.push(text(alloc, first)?)?;
    instructions.push(text(alloc, second)?)?;
    Ok(Access {
        register: text(alloc, register)?,
        length,
        instructions,
    })
}

fn accesses(alloc: Global, shape: Shape) -> Result<Items<Access>, AllocError> {
    let other = if shape.is_identified {
        "USER1"
    } else {
        "USER3"
    };
    let mut accesses = Vec::new(alloc);
    accesses.push(access(alloc, "BOUNDARY", None, "EXTEST", "SAMPLE")?)?;
    accesses.push(access(alloc, "USER", Some(shape.user), "USER1", other)?)?;
    accesses.push(access(alloc, "DATA", Some(shape.data), "USER2", "USER2")?)?;
    Ok(Items::from_vec(accesses))
}

fn part(alloc: Global, random: &mut Random, shape: Shape) -> Result<Part, AllocError>
    requires { shape.instruction ≤ 64 }
{
    let code = pattern(alloc, 32, random.number() | 1)?;
    let plan = PartPlan {
        ir_len: shape.instruction,
        opcodes: opcodes(alloc, shape)?,
        capture: pattern(alloc, shape.instruction, 1)?,
        idcode: if shape.is_identified {
            Some(code)
        } else {
            None
        },
        usercode: None,
        access: accesses(alloc, shape)?,
        boundary: shape.boundary,
    };
    match Part::new(alloc, plan) {
        Ok(part) => Ok(part),
        Err(_) => Err(AllocError),
    }
}

// So many bits of no order.
pub fn bits(alloc: Global, random: &mut Random, count: usize) -> Result<Bits, AllocError> {
    let mut bits = Bits::with_room(alloc, count)?;
    for _ in 0..count {
        if bits.len() < bits.room() {
            bits.push(random.below(2) == 1);
        }
    }
    Ok(bits)
}

// All devices, with pins of no order.
pub fn boards(alloc: Global, random: &mut Random) -> Result<Vec<Board>, AllocError> {
    let mut boards = Vec::new(alloc);
    for device in 0..DEVICES {
        let shape = shape_of(device);
        let part = part(alloc, random, shape)?;
        let pins = bits(alloc, random, shape.boundary as usize)?;
        boards.push(Board { part, pins })?;
    }
    Ok(boards)
}

// The same board.
pub fn copy_of(alloc: Global, board: &Board) -> Result<Board, AllocError> {
    let part = board.part.copy(alloc)?;
    let mut pins = Bits::with_room(alloc, board.pins.len())?;
    pins.copy_from(&board.pins);
    Ok(Board { part, pins })
}

// For each device a number from 0 to 6. The devices of one number from 1 on are a grant's, and those of 0 are of none.
fn owners(alloc: Global, random: &mut Random) -> Result<Vec<u64>, AllocError> {
    let mut owners = Vec::new(alloc);
    for _ in 0..DEVICES {
        owners.push(random.below(7))?;
    }
    Ok(owners)
}

// The devices of an owner, counted from 1.
fn owned(alloc: Global, owners: &[u64], owner: u16) -> Result<Vec<u16>, AllocError> {
    let mut devices = Vec::new(alloc);
    for (place, other) in owners.iter().enumerate() {
        if *other == u64::from(owner) {
            devices.push((place % 32) as u16 + 1)?;
        }
    }
    Ok(devices)
}

fn grants(alloc: Global, owners: &[u64]) -> Result<Vec<Grant>, AllocError> {
    let mut grants = Vec::new(alloc);
    for owner in 1..7u16 {
        let devices = owned(alloc, owners, owner)?;
        if !devices.is_empty() {
            grants.push(Grant {
                devices: Items::from_vec(devices),
                port: 2541 + owner,
                protocol: Protocol::Xvc,
            })?;
        }
    }
    Ok(grants)
}

// A boundary cell of one of these devices: the device, counted from 1, and the cell, counted from 0.
fn cell(random: &mut Random, boards: &[Board], devices: &[u16]) -> Option<(u16, u32)> {
    let device = *devices.get(random.place(devices.len().max(1)))?;
    let board = boards.get(usize::from(device).checked_sub(1)?)?;
    let cells = board.part.len_of(BOUNDARY).max(1);
    Some((device, random.below(u64::from(cells)) as u32))
}

// A net within one of these grants.
fn net(random: &mut Random, boards: &[Board], grants: &[Grant]) -> Option<Net> {
    let grant = grants.get(random.place(grants.len().max(1)))?;
    let (from_device, from_cell) = cell(random, boards, grant.devices.as_slice())?;
    let (to_device, to_cell) = cell(random, boards, grant.devices.as_slice())?;
    Some(Net {
        from_device,
        from_cell,
        to_device,
        to_cell,
    })
}

// Nets within these grants, no two to one cell.
fn nets(
    alloc: Global,
    random: &mut Random,
    boards: &[Board],
    grants: &[Grant],
) -> Result<Vec<Net>, AllocError> {
    let mut nets: Vec<Net> = Vec::new(alloc);
    for _ in 0..200 {
        if let Some(net) = net(random, boards, grants) {
            let is_led_to = nets.iter().any(|other| other.to_device == net.to_device
                && other.to_cell == net.to_cell);
            if !is_led_to {
                nets.push(net)?;
            }
        }
    }
    Ok(nets)
}

fn parts_of(alloc: Global, boards: &[Board]) -> Result<Vec<Part>, AllocError> {
    let mut parts = Vec::new(alloc);
    for board in boards {
        parts.push(board.part.copy(alloc)?)?;
    }
    Ok(parts)
}

// A layout of these devices: up to six grants, with nets within each.
pub fn layout(alloc: Global, random: &mut Random, boards: &[Board]) -> Result<Layout, AllocError> {
    let parts = parts_of(alloc, boards)?;
    let grants = grants(alloc, &owners(alloc, random)?)?;
    let nets = nets(alloc, random, boards, &grants)?;
    if layout_fault(parts.len(), &grants, &nets).is_some() {
        return Err(AllocError);
    }
    Layout::new(alloc, parts, grants, nets)
}
