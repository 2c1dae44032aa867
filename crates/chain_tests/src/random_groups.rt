// Scans of a shared chain of 32 devices for several grants, in step with a private chain for each grant.
ghost use Rattle.std.specs.Prelude.{◌≡◌, ◌≤◌, ◌<◌, [], ◌∷◌, length, IfOk};
ghost use Rattle.grant_table.specs.Layouts.{group_of};
ghost use Rattle.scan_share.specs.PrivateChains.{entries_at};
ghost use Rattle.scan_share.specs.Codes.{AreCodes};
ghost use Rattle.scan_share.specs.Views.{IsLoadedFor};

mod bank;
mod devices;

use bank::{Bank, Shared};
use chain_model::Board;
use devices::{Random, bits, boards, copy_of, layout, listed_codes};
use grant_table::{Layout, Net};
use part_model::{Part, RegNo};
use scan_bits::Bits;
use scan_share::{Open, Parked, are_codes, own_width};
use std::alloc::{AllocError, AllocFailed, Global};
use std::cell::RefCell;
use std::rc::Rc;
use std::test::Fail;

// How many scans a run has.
const SCANS: usize = 80;

// The registers with a latch, by number: BOUNDARY, USER and DATA.
const LATCHED: [RegNo; 3] = [1, 4, 5];

// The length of the longest of them.
const LONGEST: usize = 130;

// How a scan ends.
#[derive(Clone, Copy, Debug, PartialEq, Eq)]
enum End {
    Update,
    Abandon,
}

// Why a run ended early.
#[derive(Clone, Copy, Debug, PartialEq, Eq)]
enum Trouble {
    // Memory was wanting, or the setting is none.
    Setting,
    // No scan of the run finds its codes loaded.
    NothingLoaded,
    // A call of the shared chain failed, or could not be made.
    Call,
    // A capture took another number of cycles than it is to take.
    Cycles,
    // The bits that were captured are not those that the private chain shifted out.
    Captured,
    // A device holds something else than on its private chain, or was touched though it is of no grant.
    Contents,
}

impl From<AllocError> for Trouble {
    fn from(_: AllocError) -> Trouble {
        Trouble::Setting
    }
}

impl<T: Drop> From<AllocFailed<T>> for Trouble {
    fn from(_: AllocFailed<T>) -> Trouble {
        Trouble::Setting
    }
}

// A scan to be made: a grant, its codes, and those of the whole chain; the bits of the instruction scan that loads the codes on the
// private chain; the bits that are written; and how many cycles the capture takes on the shared chain.
#[derive(Drop)]
struct Wanted {
    grant: usize,
    codes: Vec<u64>,
    whole: Vec<u64>,
    load: Bits,
    bits: Bits,
    is_loaded: bool,
    cycles: u64,
    end: End,
}

// The code of all ones, which selects BYPASS.
fn bypass_code(part: &Part) -> u64 {
    u64::MAX >> (64 - part.ir_len())
}

// A code of a device: a listed one, all ones, or any.
fn code(random: &mut Random, part: &Part) -> u64 {
    let listed = listed_codes(part.ir_len().min(64));
    let code = match listed.get(random.place(8)) {
        Some(code) => *code,
        None => random.number(),
    };
    code & bypass_code(part)
}

fn codes(alloc: Global, random: &mut Random, boards: &[Board]) -> Result<Vec<u64>, AllocError> {
    let mut codes = Vec::new(alloc);
    for board in boards {
        codes.push(code(random, &board.part))?;
    }
    Ok(codes)
}

// The codes of the whole chain: BYPASS where a device is not in the group.
fn whole_codes(
    alloc: Global,
    layout: &Layout,
    group: &[usize],
    codes: &[u64],
) -> Result<Vec<u64>, AllocError> {
    let mut whole = Vec::new(alloc);
    for place in 0..layout.devices() {
        let at = group.iter().position(|other| *other == place);
        let own = codes.get(at.unwrap_or(codes.len()));
        whole.push(match own {
            Some(code) => *code,
            None => bypass_code(layout.part(place)),
        })?;
    }
    Ok(whole)
}

// The bits of an instruction scan of these devices, the last device's first.
fn load_bits(alloc: Global, boards: &[Board], codes: &[u64]) -> Result<Bits, AllocError> {
    let mut bits = Bits::with_room(alloc, 2048)?;
    for (board, code) in boards.iter().zip(codes.iter()).rev() {
        let length = board.part.ir_len().min(64);
        if length as usize <= bits.room().saturating_sub(bits.len()) {
            bits.push_word(length, *code);
        }
    }
    Ok(bits)
}

// How many cycles a capture takes: one for each bit of the group's registers, one for each device that is not in the group, and four to
// Pause-DR; and where the codes are not loaded, one for each bit of all instruction registers, and five about them.
fn capture_cycles(layout: &Layout, group: usize, width: usize, is_loaded: bool) -> usize {
    let load = if is_loaded { 0 } else { layout.ir_total() + 5 };
    let others = layout.devices().saturating_sub(group);
    width.saturating_add(others + 4 + load)
}

// A scan of a grant whose private chain has these boards, after another scan.
fn scan_after(
    alloc: Global,
    layout: &Layout,
    random: &mut Random,
    (grant, codes): (usize, Vec<u64>),
    boards: &[Board],
    last: Option<&Wanted>,
) -> Result<Wanted, AllocError> {
    if grant >= layout.grants() || !are_codes(layout, grant, &codes) {
        return Err(AllocError);
    }
    let group = layout.group(grant);
    let width = own_width(layout, grant, &codes);
    let whole = whole_codes(alloc, layout, group, &codes)?;
    let is_loaded = match last {
        Some(last) => last.end == End::Update && last.whole.as_slice() == whole.as_slice(),
        None => false,
    };
    Ok(Wanted {
        grant,
        load: load_bits(alloc, boards, &codes)?,
        bits: bits(alloc, random, width)?,
        codes,
        whole,
        is_loaded,
        cycles: capture_cycles(layout, group.len(), width, is_loaded) as u64,
        end: if random.below(4) == 0 {
            End::Abandon
        } else {
            End::Update
        },
    })
}

// The grant and codes of a scan after another: in one case of three they are the same.
fn grant_and_codes(
    alloc: Global,
    random: &mut Random,
    alone: &[Bank],
    last: Option<&Wanted>,
) -> Result<(usize, Vec<u64>), AllocError> {
    if let Some(last) = last {
        if random.below(3) == 0 {
            return Ok((last.grant, last.codes.to_vec(alloc)?));
        }
    }
    let grant = random.place(alone.len().max(1));
    match alone.get(grant) {
        Some(bank) => Ok((grant, codes(alloc, random, bank.boards())?)),
        None => Err(AllocError),
    }
}

// The scans of a run.
fn plan(
    alloc: Global,
    layout: &Layout,
    random: &mut Random,
    alone: &[Bank],
) -> Result<Vec<Wanted>, AllocError> {
    let mut plan: Vec<Wanted> = Vec::new(alloc);
    for _ in 0..SCANS {
        let chosen = grant_and_codes(alloc, random, alone, plan.last())?;
        let Some(bank) = alone.get(chosen.0) else {
            return Err(AllocError);
        };
        let next = scan_after(alloc, layout, random, chosen, bank.boards(), plan.last())?;
        plan.push(next)?;
    }
    Ok(plan)
}

// The number in a group, counted from 1, of a device of the chain, which counts from 1 too.
fn number_in(group: &[usize], device: u16) -> Option<u16> {
    let place = usize::from(device).checked_sub(1)?;
    let at = group.iter().position(|other| *other == place)?;
    u16::try_from(at).ok()?.checked_add(1)
}

// A net as it is in a group, None where it is not in it.
fn net_in(group: &[usize], net: &Net) -> Option<Net> {
    Some(Net {
        from_device: number_in(group, net.from_device)?,
        from_cell: net.from_cell,
        to_device: number_in(group, net.to_device)?,
        to_cell: net.to_cell,
    })
}

// The private chain of a group.
fn private_bank(
    alloc: Global,
    group: &[usize],
    boards: &[Board],
    nets: &[Net],
) -> Result<Bank, AllocError> {
    let mut own = Vec::new(alloc);
    for place in group {
        if let Some(board) = boards.get(*place) {
            own.push(copy_of(alloc, board)?)?;
        }
    }
    let mut within = Vec::new(alloc);
    for net in nets {
        if let Some(net) = net_in(group, net) {
            within.push(net)?;
        }
    }
    Bank::assembled(alloc, own, &within)
}

// The private chain of each grant, led to Run-Test/Idle.
fn private_banks(
    alloc: Global,
    layout: &Layout,
    boards: &[Board],
) -> Result<Vec<Bank>, AllocError> {
    let mut banks = Vec::new(alloc);
    for grant in 0..layout.grants() {
        let mut bank = private_bank(alloc, layout.group(grant), boards, layout.nets())?;
        bank.walk(&[false]);
        banks.push(bank)?;
    }
    Ok(banks)
}

// The same bits.
fn same_bits(one: &Bits, other: &Bits) -> bool {
    let count = one.len();
    if count != other.len() {
        return false;
    }
    for at in 0..count {
        if one.get(at) != other.get(at) {
            return false;
        }
    }
    true
}

// The same bits in the latch of a register of two devices.
fn same_latch(one: &Bank, place: usize, other: &Bank, at: usize, register: RegNo) -> bool {
    for bit in 0..=LONGEST {
        if one.latch(place, register, bit) != other.latch(at, register, bit) {
            return false;
        }
    }
    true
}

// The same latches and counts of two devices.
fn same_device(one: &Bank, place: usize, other: &Bank, at: usize) -> bool {
    for register in LATCHED {
        if !same_latch(one, place, other, at, register) {
            return false;
        }
    }
    one.counts(place).is_some() && one.counts(place) == other.counts(at)
}

// A group's devices hold on the shared chain what they hold on their private one.
fn same_group(shared: &Bank, group: &[usize], alone: &Bank) -> bool {
    for (at, place) in group.iter().enumerate() {
        if !same_device(shared, *place, alone, at) {
            return false;
        }
    }
    true
}

// The device is of a grant.
fn is_granted(layout: &Layout, place: usize) -> bool {
    for grant in 0..layout.grants() {
        if layout.group(grant).contains(&place) {
            return true;
        }
    }
    false
}

// All bits of the latch of a register are 0.
fn is_zero(bank: &Bank, place: usize, register: RegNo) -> bool {
    for bit in 0..=LONGEST {
        if bank.latch(place, register, bit) == Some(true) {
            return false;
        }
    }
    true
}

// A device holds what it held at power-up.
fn is_untouched(bank: &Bank, place: usize) -> bool {
    for register in LATCHED {
        if !is_zero(bank, place, register) {
            return false;
        }
    }
    bank.counts(place) == Some((0, 0))
}

// The shared chain, and the private chain of each grant.
#[derive(Drop)]
struct Chains {
    shared: Rc<RefCell<Bank>>,
    alone: Vec<Bank>,
}

impl Chains {
    // How many cycles the shared chain made.
    fn made(&self) -> u64 {
        match self.shared.try_borrow() {
            Ok(bank) => bank.made(),
            Err(_) => 0,
        }
    }

    // Each device of a grant holds what it holds on its private chain.
    fn agree(&self, layout: &Layout) -> bool {
        let Ok(shared) = self.shared.try_borrow() else {
            return false;
        };
        for (grant, alone) in self.alone.iter().enumerate() {
            if grant >= layout.grants() || !same_group(&shared, layout.group(grant), alone) {
                return false;
            }
        }
        true
    }

    // Each device of no grant holds what it held at power-up.
    fn leave_others(&self, layout: &Layout) -> bool {
        let Ok(shared) = self.shared.try_borrow() else {
            return false;
        };
        for place in 0..layout.devices() {
            if !is_granted(layout, place) && !is_untouched(&shared, place) {
                return false;
            }
        }
        true
    }

    fn contents(&self, layout: &Layout) -> Result<(), Trouble> {
        if self.agree(layout) && self.leave_others(layout) {
            Ok(())
        } else {
            Err(Trouble::Contents)
        }
    }

    // The private chain loads the codes, captures, and shifts out what it captured.
    fn capture(&mut self, wanted: &Wanted, into: &mut Bits) -> Result<(), Trouble> {
        let Some(bank) = self.alone.get_mut(wanted.grant) else {
            return Err(Trouble::Setting);
        };
        bank.walk(&[true, true, false, false]);
        bank.shift_in(&wanted.load);
        bank.walk(&[true, true, false, false]);
        bank.shift_out(wanted.bits.len(), into);
        Ok(())
    }

    // The private chain updates from the bits that are written, or is reset.
    fn end(&mut self, wanted: &Wanted) -> Result<(), Trouble> {
        let Some(bank) = self.alone.get_mut(wanted.grant) else {
            return Err(Trouble::Setting);
        };
        match wanted.end {
            End::Update => {
                bank.shift_in(&wanted.bits);
                bank.walk(&[true, false]);
            }
            End::Abandon => {
                bank.reset();
                bank.walk(&[false]);
            }
        }
        Ok(())
    }
}

// A run: its layout, its chains, and room for the bits that the shared chain and a private one captured.
#[derive(Drop)]
struct Run {
    layout: Layout,
    chains: Chains,
    into: Bits,
    own: Bits,
}

// Captures on the shared chain.
fn captured(
    parked: Parked<Shared>,
    layout: &Layout,
    wanted: &Wanted,
    into: &mut Bits,
) -> Result<Open<Shared>, Trouble>
    ensures grant { IfOk result (λ _. wanted.now.grant < length layout.now.grants) }
    ensures codes { IfOk result (λ _. AreCodes (entries_at layout.now.parts (group_of layout.now.grants wanted.now.grant)) wanted.now.codes.items) }
    ensures loaded { IfOk result (λ held. IsLoadedFor layout.now wanted.now.grant wanted.now.codes.items held.loaded) }
{
    let grant = wanted.grant;
    if grant >= layout.grants() || !are_codes(layout, grant, &wanted.codes) {
        parked.into_cable();
        return Err(Trouble::Call);
    }
    if own_width(layout, grant, &wanted.codes) > into.room() {
        parked.into_cable();
        return Err(Trouble::Call);
    }
    match parked.capture(layout, grant, &wanted.codes, into) {
        Ok(open) => Ok(open),
        Err(broken) => {
            broken.into_cable();
            Err(Trouble::Call)
        }
    }
}

// Ends a scan on the shared chain.
fn ended(held: Open<Shared>, layout: &Layout, wanted: &Wanted) -> Result<Parked<Shared>, Trouble>
    requires grant { wanted.now.grant < length layout.now.grants }
    requires codes { AreCodes (entries_at layout.now.parts (group_of layout.now.grants wanted.now.grant)) wanted.now.codes.items }
    requires loaded { IsLoadedFor layout.now wanted.now.grant wanted.now.codes.items held.loaded }
{
    if own_width(layout, wanted.grant, &wanted.codes) != wanted.bits.len() {
        held.leave();
        return Err(Trouble::Call);
    }
    let ended = match wanted.end {
        End::Update => held.update(layout, wanted.grant, &wanted.codes, &wanted.bits),
        End::Abandon => held.abandon(layout),
    };
    match ended {
        Ok(parked) => Ok(parked),
        Err(broken) => {
            broken.into_cable();
            Err(Trouble::Call)
        }
    }
}

// What the shared chain captured in so many cycles is what the private chain shifts out, and all devices hold what they are to hold.
fn check_capture(
    chains: &mut Chains,
    layout: &Layout,
    wanted: &Wanted,
    cycles: u64,
    into: &Bits,
    own: &mut Bits,
) -> Result<(), Trouble> {
    if cycles != wanted.cycles {
        return Err(Trouble::Cycles);
    }
    chains.capture(wanted, own)?;
    if !same_bits(into, own) {
        return Err(Trouble::Captured);
    }
    chains.contents(layout)
}

fn check_end(chains: &mut Chains, layout: &Layout, wanted: &Wanted) -> Result<(), Trouble> {
    chains.end(wanted)?;
    chains.contents(layout)
}

impl Run {
    // A capture on both chains.
    fn capture(&mut self, parked: Parked<Shared>, wanted: &Wanted) -> Result<Open<Shared>, Trouble>
        ensures layout { IfOk result (λ _. self.new.layout ≡ self.old.layout) }
        ensures grant { IfOk result (λ _. wanted.now.grant < length self.new.layout.grants) }
        ensures codes { IfOk result (λ _. AreCodes (entries_at self.new.layout.parts (group_of self.new.layout.grants wanted.now.grant)) wanted.now.codes.items) }
        ensures loaded { IfOk result (λ held. IsLoadedFor self.new.layout wanted.now.grant wanted.now.codes.items held.loaded) }
    {
        let before = self.chains.made();
        let open = captured(parked, &self.layout, wanted, &mut self.into)?;
        let cycles = self.chains.made().saturating_sub(before);
        match check_capture(
            &mut self.chains,
            &self.layout,
            wanted,
            cycles,
            &self.into,
            &mut self.own,
        ) {
            Ok(()) => Ok(open),
            Err(trouble) => {
                open.leave();
                Err(trouble)
            }
        }
    }

    // A scan on both chains.
    fn scan(&mut self, parked: Parked<Shared>, wanted: &Wanted) -> Result<Parked<Shared>, Trouble> {
        let open = self.capture(parked, wanted)?;
        let parked = ended(open, &self.layout, wanted)?;
        match check_end(&mut self.chains, &self.layout, wanted) {
            Ok(()) => Ok(parked),
            Err(trouble) => {
                parked.into_cable();
                Err(trouble)
            }
        }
    }

    // These scans, of which the last stays open.
    fn scans(
        &mut self,
        parked: Parked<Shared>,
        scans: &[Wanted],
        last: &Wanted,
    ) -> Result<(), Trouble> {
        let mut parked = parked;
        for wanted in scans {
            parked = self.scan(parked, wanted)?;
        }
        let open = self.capture(parked, last)?;
        open.leave();
        Ok(())
    }
}

// A run of scans over a layout of no order.
fn run_from(alloc: Global, seed: u64) -> Result<(), Trouble> {
    let mut random = Random { state: seed };
    let boards = boards(alloc, &mut random)?;
    let layout = layout(alloc, &mut random, &boards)?;
    let alone = private_banks(alloc, &layout, &boards)?;
    let plan = plan(alloc, &layout, &mut random, &alone)?;
    let Some((last, scans)) = plan.split_last() else {
        return Err(Trouble::Setting);
    };
    if !scans.iter().any(|wanted| wanted.is_loaded) {
        return Err(Trouble::NothingLoaded);
    }
    let into = Bits::with_room(alloc, 8192)?;
    let own = Bits::with_room(alloc, 8192)?;
    let bank = Bank::assembled(alloc, boards, layout.nets())?;
    let shared = Rc::new(alloc, RefCell::new(bank))?;
    let cable = Shared {
        bank: shared.clone()?,
        faults: 0,
    };
    let started = Parked::start(cable, &layout);
    let mut run = Run {
        layout,
        chains: Chains { shared, alone },
        into,
        own,
    };
    match started {
        Ok(parked) => run.scans(parked, scans, last),
        Err(broken) => {
            broken.into_cable();
            Err(Trouble::Call)
        }
    }
}

#[test]
fn each_grant_scans_as_if_alone(rt: HostRuntime) -> Result<(), Fail> {
    for seed in [1, 2, 3] {
        assert_eq!(rt; run_from(rt.alloc(), seed), Ok(()));
    }
    Ok(())
}
