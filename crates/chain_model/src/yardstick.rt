// A chain kept bit by bit in plain lists, walked in step with the packed one.
ghost use Rattle.std.specs.Prelude.{◌≤◌, ◌<◌, IfOk};
ghost use Rattle.chain_model.specs.Boards.{HasPins, EachHasPins};
ghost use Rattle.chain_model.specs.Cables.{HasDevice};

use crate::cable::Board;
use crate::demo::{opcodes, pattern, text};
use crate::{Bench, Cable, Chain};
use base_types::Items;
use part_model::{Access, Names, Part, PartPlan};
use scan_bits::Bits;
use std::alloc::{AllocError, Global};
use std::mem;
use std::test::Fail;
use tap_states::Tap;

// The instructions of the demo device over registers BOUNDARY and USER of other lengths.
#[derive(Drop)]
struct PlainDevice {
    code: Vec<bool>,
    ir_stage: Vec<bool>,
    dr_stage: Vec<bool>,
    identification: Vec<bool>,
    pins: Vec<bool>,
    boundary: Vec<bool>,
    user: Vec<bool>,
    captures: u64,
    updates: u64,
}

fn plain_bits(alloc: Global, count: usize, value: u64) -> Result<Vec<bool>, AllocError> {
    let mut bits = Vec::new(alloc);
    let mut rest = value;
    for _ in 0..count {
        bits.push(rest % 2 == 1)?;
        rest /= 2;
    }
    Ok(bits)
}

fn number(bits: &[bool]) -> u64 {
    let mut value = 0u64;
    for bit in bits.iter().rev() {
        value = value.wrapping_mul(2).wrapping_add(u64::from(*bit));
    }
    value
}

fn shift(stage: &mut [bool], tdi: bool) -> bool {
    let count = stage.len();
    if count == 0 {
        return tdi;
    }
    let out = stage[0];
    stage.rotate_left(1);
    stage[count - 1] = tdi;
    out
}

impl PlainDevice {
    fn powered(alloc: Global, boundary: usize, user: usize) -> Result<PlainDevice, AllocError> {
        Ok(PlainDevice {
            code: plain_bits(alloc, 4, 2)?,
            ir_stage: plain_bits(alloc, 4, 0)?,
            dr_stage: Vec::new(alloc),
            identification: plain_bits(alloc, 32, 0x1abc_d00f)?,
            pins: plain_bits(alloc, boundary, 0)?,
            boundary: plain_bits(alloc, boundary, 0)?,
            user: plain_bits(alloc, user, 0)?,
            captures: 0,
            updates: 0,
        })
    }

    fn capture_dr(&mut self, alloc: Global) -> Result<(), AllocError> {
        let captured = match number(&self.code) {
            0 | 1 => self.pins.to_vec(alloc)?,
            2 => self.identification.to_vec(alloc)?,
            8 => self.user.to_vec(alloc)?,
            _ => {
                self.dr_stage = plain_bits(alloc, 1, 0)?;
                return Ok(());
            }
        };
        self.dr_stage = captured;
        self.captures = self.captures.saturating_add(1);
        Ok(())
    }

    fn update_dr(&mut self) {
        match number(&self.code) {
            0 | 1 => mem::swap(&mut self.boundary, &mut self.dr_stage),
            2 => {}
            8 => mem::swap(&mut self.user, &mut self.dr_stage),
            _ => return,
        }
        self.updates = self.updates.saturating_add(1);
    }
}

#[derive(Drop)]
struct PlainChain {
    alloc: Global,
    state: Tap,
    scan_open: bool,
    devices: Vec<PlainDevice>,
}

impl PlainChain {
    fn rise(&mut self, tms: bool, tdi: bool) -> Result<(), AllocError> {
        let mut bit = tdi;
        for device in self.devices.iter_mut() {
            match self.state {
                Tap::CaptureDr => device.capture_dr(self.alloc)?,
                Tap::ShiftDr => bit = shift(&mut device.dr_stage, bit),
                Tap::CaptureIr => device.ir_stage = plain_bits(self.alloc, 4, 1)?,
                Tap::ShiftIr => bit = shift(&mut device.ir_stage, bit),
                _ => {}
            }
        }
        self.scan_open = self.scan_open || matches!(self.state, Tap::CaptureDr);
        self.state = self.state.next(tms);
        Ok(())
    }

    fn fall(&mut self) -> Result<(), AllocError> {
        for device in self.devices.iter_mut() {
            match self.state {
                Tap::UpdateDr if self.scan_open => device.update_dr(),
                Tap::UpdateIr => device.code = device.ir_stage.to_vec(self.alloc)?,
                Tap::TestLogicReset => device.code = plain_bits(self.alloc, 4, 2)?,
                _ => {}
            }
        }
        self.scan_open = self.scan_open && !matches!(self.state, Tap::UpdateDr);
        Ok(())
    }

    // Each device has a bit in the register that shifts.
    fn tdo(&self) -> bool {
        let Some(last) = self.devices.last() else {
            return true;
        };
        let stage = match self.state {
            Tap::ShiftDr => &last.dr_stage,
            Tap::ShiftIr => &last.ir_stage,
            _ => return true,
        };
        stage.first().copied().unwrap_or(true)
    }

    // So many cycles, answering TDO before each rise.
    fn cycles(&mut self, n: u32, tms: u64, tdi: u64) -> Result<u64, AllocError>
        requires { n ≤ 64 }
    {
        let mut word = 0;
        for i in 0..n {
            word |= u64::from(self.tdo()) << i;
            self.rise((tms >> i) & 1 == 1, (tdi >> i) & 1 == 1)?;
            self.fall()?;
        }
        Ok(word)
    }
}

fn access(alloc: Global, user: u32) -> Result<Items<Access>, AllocError> {
    let mut access = Vec::new(alloc);
    let mut pins = Names::new(alloc);
    pins.push(text(alloc, "EXTEST")?)?;
    pins.push(text(alloc, "SAMPLE")?)?;
    access.push(Access {
        register: text(alloc, "BOUNDARY")?,
        length: None,
        instructions: pins,
    })?;
    let mut named = Names::new(alloc);
    named.push(text(alloc, "USER1")?)?;
    access.push(Access {
        register: text(alloc, "USER")?,
        length: Some(user),
        instructions: named,
    })?;
    Ok(Items::from_vec(access))
}

// The demo device with registers of other lengths.
fn board(alloc: Global, boundary: u32, user: u32) -> Result<Board, AllocError>
    ensures { IfOk result HasPins }
{
    let opcodes = opcodes(alloc)?;
    let capture = pattern(alloc, 4, 1)?;
    let idcode = pattern(alloc, 32, 0x1abc_d00f)?;
    let access = access(alloc, user)?;
    let plan = PartPlan {
        ir_len: 4,
        opcodes,
        capture,
        idcode: Some(idcode),
        usercode: None,
        access,
        boundary,
    };
    match Part::new(alloc, plan) {
        Ok(part) => {
            let pins = Bits::zeros(alloc, part.len_of(1) as usize)?;
            Ok(Board { part, pins })
        }
        Err(_) => Err(AllocError),
    }
}

// How long BOUNDARY and USER of a device are.
#[derive(Clone, Copy, Drop)]
struct Lengths {
    boundary: u32,
    user: u32,
}

// Lengths of many kinds, for 32 devices.
fn short_lengths(alloc: Global) -> Result<Vec<Lengths>, AllocError> {
    let mut lengths = Vec::new(alloc);
    for place in 0..32 {
        lengths.push(Lengths {
            boundary: 1 + place * 37 % 97,
            user: 1 + place * 53 % 131,
        })?;
    }
    Ok(lengths)
}

// Lengths of two words and more, for three devices.
const LONG: [Lengths; 3] = [
    Lengths {
        boundary: 65,
        user: 130,
    },
    Lengths {
        boundary: 130,
        user: 200,
    },
    Lengths {
        boundary: 200,
        user: 65,
    },
];

fn boards(alloc: Global, lengths: &[Lengths]) -> Result<Vec<Board>, AllocError>
    ensures { IfOk result (λ boards. EachHasPins boards.items) }
{
    let mut boards = Vec::new(alloc);
    for device in lengths {
        boards.push(board(alloc, device.boundary, device.user)?)?;
    }
    Ok(boards)
}

fn plain_chain(alloc: Global, lengths: &[Lengths]) -> Result<PlainChain, AllocError> {
    let mut devices = Vec::new(alloc);
    for device in lengths {
        let (boundary, user) = (device.boundary as usize, device.user as usize);
        devices.push(PlainDevice::powered(alloc, boundary, user)?)?;
    }
    Ok(PlainChain {
        alloc,
        state: Tap::TestLogicReset,
        scan_open: false,
        devices,
    })
}

// The next number of a linear congruential generator.
fn next(seed: u64) -> u64 {
    seed.wrapping_mul(6_364_136_223_846_793_005)
        .wrapping_add(1_442_695_040_888_963_407)
}

// Numbers of no order, whose highest bits are the best.
fn mixed(seed: u64) -> u64 {
    next(seed) ^ (next(next(seed)) >> 31)
}

// The same latches and counts.
fn same_device(chain: &Chain, place: usize, plain: &PlainDevice) -> bool {
    let Some(device) = chain.chain.device(place) else {
        return false;
    };
    for (register, latch) in [(1, &plain.boundary), (4, &plain.user)] {
        for at in 0..latch.len() {
            if device.latch(register, at) != latch[at] {
                return false;
            }
        }
    }
    device.captures() == plain.captures && device.updates() == plain.updates
}

fn same_content(chain: &Chain, plain: &PlainChain) -> bool {
    for place in 0..plain.devices.len() {
        if !same_device(chain, place, &plain.devices[place]) {
            return false;
        }
    }
    true
}

// A walk by single edges, one bit of TMS in four being 1.
fn walk_edges(chain: &mut Chain, plain: &mut PlainChain) -> Result<bool, AllocError> {
    let mut seed = 1;
    for _ in 0..6000 {
        seed = next(seed);
        let tms = seed >> 62 == 0;
        let tdi = (seed >> 50) % 2 == 1;
        chain.rise(tms, tdi);
        chain.fall();
        plain.rise(tms, tdi)?;
        plain.fall()?;
        if chain.tdo() != plain.tdo() {
            return Ok(false);
        }
    }
    Ok(same_content(chain, plain))
}

// A walk by words of many lengths, one bit of TMS in eight being 1.
fn walk_words(chain: &mut Chain, plain: &mut PlainChain) -> Result<bool, AllocError>
    requires { HasDevice chain.old.chain }
    ensures { HasDevice chain.new.chain }
{
    let mut seed = 1;
    for i in 0..300u32 {
        seed = next(seed);
        let n = 1 + i % 64;
        let tms = mixed(seed) & mixed(seed ^ 1) & mixed(seed ^ 2);
        let tdi = mixed(seed ^ 3);
        let word = chain.cycles(n, tms, tdi);
        if word != Ok(plain.cycles(n, tms, tdi)?) {
            return Ok(false);
        }
    }
    Ok(same_content(chain, plain))
}

// One call on both chains: whether they answer the same.
fn both(
    chain: &mut Chain,
    plain: &mut PlainChain,
    n: u32,
    tms: u64,
    tdi: u64,
) -> Result<bool, AllocError>
    requires device { HasDevice chain.old.chain }
    requires some { 1 ≤ n }
    requires few { n ≤ 64 }
    ensures { HasDevice chain.new.chain }
{
    let word = chain.cycles(n, tms, tdi);
    Ok(word == Ok(plain.cycles(n, tms, tdi)?))
}

// So many shifts in Shift-DR, which both chains stay in.
fn shift_both(
    chain: &mut Chain,
    plain: &mut PlainChain,
    count: u32,
    seed: u64,
) -> Result<bool, AllocError>
    requires { HasDevice chain.old.chain }
    ensures { HasDevice chain.new.chain }
{
    let mut left = count;
    while left > 0 {
        let n = left.min(64);
        if !both(chain, plain, n, 0, mixed(seed ^ u64::from(left)))? {
            return Ok(false);
        }
        left -= n;
    }
    Ok(true)
}

// A scan of so many shifts, from Run-Test/Idle and back to it.
fn scan(
    chain: &mut Chain,
    plain: &mut PlainChain,
    shifts: u32,
    seed: u64,
) -> Result<bool, AllocError>
    requires { HasDevice chain.old.chain }
    ensures { HasDevice chain.new.chain }
{
    if !both(chain, plain, 2, 0b01, 0)? {
        return Ok(false);
    }
    if shifts > 0 {
        let entered = both(chain, plain, 1, 0, 0)?;
        if !entered || !shift_both(chain, plain, shifts - 1, seed)? {
            return Ok(false);
        }
    }
    both(chain, plain, 3, 0b011, seed % 2)
}

// The codes of three devices, from Run-Test/Idle and back to it.
fn load(chain: &mut Chain, plain: &mut PlainChain, codes: u64) -> Result<bool, AllocError>
    requires { HasDevice chain.old.chain }
    ensures { HasDevice chain.new.chain }
{
    let entered = both(chain, plain, 4, 0b0011, 0)?;
    let shifted = both(chain, plain, 12, 1 << 11, codes)?;
    let left = both(chain, plain, 2, 0b01, 0)?;
    Ok(entered && shifted && left)
}

// Scans that end before, at and behind the ends of words and registers; each reads what the one before it left.
fn scans(chain: &mut Chain, plain: &mut PlainChain, codes: u64) -> Result<bool, AllocError>
    requires { HasDevice chain.old.chain }
    ensures { HasDevice chain.new.chain }
{
    if !load(chain, plain, codes)? {
        return Ok(false);
    }
    for shifts in [
        0, 1, 63, 64, 65, 66, 129, 130, 131, 199, 200, 201, 2, 0, 400,
    ] {
        let same = scan(chain, plain, shifts, mixed(codes ^ u64::from(shifts)))?;
        if !same || !same_content(chain, plain) {
            return Ok(false);
        }
    }
    Ok(true)
}

// Scans of USER, of BOUNDARY, and of both with BYPASS between them.
fn walk_scans(chain: &mut Chain, plain: &mut PlainChain) -> Result<bool, AllocError>
    requires { HasDevice chain.old.chain }
    ensures { HasDevice chain.new.chain }
{
    if !both(chain, plain, 1, 0, 0)? {
        return Ok(false);
    }
    for codes in [0x888, 0x111, 0x818, 0x8f1, 0x108] {
        if !scans(chain, plain, codes)? {
            return Ok(false);
        }
    }
    Ok(true)
}

// Whether the devices were captured and updated.
fn is_used(plain: &PlainChain) -> bool {
    plain
        .devices
        .iter()
        .all(|device| device.captures > 0 && device.updates > 0)
}

#[test]
fn thirty_two_devices_are_as_defined(rt: HostRuntime) -> Result<(), Fail> {
    let lengths = short_lengths(rt.alloc())?;
    let boards = boards(rt.alloc(), &lengths)?;
    assert_eq!(rt; boards.len(), 32);
    let mut chain = Chain::empty();
    assert!(rt; chain.assemble(rt.alloc(), boards.as_slice(), &[]).is_ok());
    let mut plain = plain_chain(rt.alloc(), &lengths)?;
    assert!(rt; walk_words(&mut chain, &mut plain)?);
    assert!(rt; walk_edges(&mut chain, &mut plain)?);
    assert!(rt; is_used(&plain));
    Ok(())
}

#[test]
fn long_registers_are_as_defined(rt: HostRuntime) -> Result<(), Fail> {
    let boards = boards(rt.alloc(), &LONG)?;
    assert_eq!(rt; boards.len(), 3);
    let mut chain = Chain::empty();
    assert!(rt; chain.assemble(rt.alloc(), boards.as_slice(), &[]).is_ok());
    let mut plain = plain_chain(rt.alloc(), &LONG)?;
    assert!(rt; walk_scans(&mut chain, &mut plain)?);
    assert!(rt; walk_words(&mut chain, &mut plain)?);
    assert!(rt; is_used(&plain));
    Ok(())
}
