// A chain of known devices, and a cable to it that leaves it to be looked at.
ghost use Rattle.std.specs.Prelude.{◌≡◌, ◌≤◌, ◌<◌, ◌^◌, [], true, None};
ghost use Rattle.chain_model.specs.Boards.{cells_at, EachHasPins, EachHasEnds};

use chain_model::{Bench, Board, Cable, CableFault, Chain};
use grant_table::Net;
use part_model::RegNo;
use scan_bits::Bits;
use std::alloc::{AllocError, Global};
use std::cell::RefCell;
use std::marker::Model;
use std::rc::Rc;

const BOUNDARY: RegNo = 1;

// A chain of these boards, and how many cycles it made.
#[derive(Drop)]
pub struct Bank {
    chain: Chain,
    boards: Vec<Board>,
    made: u64,
}

impl Model for Bank {
    ghost use Rattle.std.specs.Prelude.{◌≡◌, ◌<◌, ℕ, true, length, map};
    ghost use Rattle.scan_share.specs.Scans.{types_of};

    ghost Value = { ℕ };

    ghost view = { λ b. length b.boards.items };

    ghost invariant = { λ b. (types_of b.chain.chain ≡ map (λ board. board.part) b.boards.items) × (0 < length b.boards.items) × (b.chain.trst ≡ true) };
}

// Whether there is a pin value for each boundary cell.
fn have_pins(boards: &[Board]) -> bool
    ensures { result ≡ true → EachHasPins boards.now }
{
    match boards.split_first() {
        None => true,
        Some((board, rest)) => {
            board.pins.len() == board.part.len_of(BOUNDARY) as usize && have_pins(rest)
        }
    }
}

// How many boundary cells the device at a place has.
fn cells_at(boards: &[Board], place: usize) -> u32
    ensures { result ≡ cells_at boards.now place }
{
    match boards.split_first() {
        None => 0,
        Some((board, rest)) => {
            if place == 0 {
                board.part.len_of(BOUNDARY)
            } else {
                cells_at(rest, place - 1)
            }
        }
    }
}

// Whether both ends of each net are boundary cells.
fn have_ends(boards: &[Board], nets: &[Net]) -> bool
    ensures { result ≡ true → EachHasEnds boards.now nets.now }
{
    match nets.split_first() {
        None => true,
        Some((net, rest)) => {
            if net.from_device == 0 || net.to_device == 0 {
                return false;
            }
            net.from_cell < cells_at(boards, usize::from(net.from_device) - 1)
                && net.to_cell < cells_at(boards, usize::from(net.to_device) - 1)
                && have_ends(boards, rest)
        }
    }
}

impl Bank {
    // A chain of 1 to 32 boards and nets between them, at power-up.
    pub fn assembled(alloc: Global, boards: Vec<Board>, nets: &[Net]) -> Result<Bank, AllocError> {
        let count = boards.len();
        if count == 0 || count > 32 {
            return Err(AllocError);
        }
        if !have_pins(&boards) || !have_ends(&boards, nets) {
            return Err(AllocError);
        }
        let mut chain = Chain::empty();
        match chain.assemble(alloc, &boards, nets) {
            Ok(()) => Ok(Bank {
                chain,
                boards,
                made: 0,
            }),
            Err(_) => Err(AllocError),
        }
    }

    pub fn boards(&self) -> &[Board] {
        &self.boards
    }

    pub fn made(&self) -> u64 {
        self.made
    }

    fn cycles(&mut self, n: u32, tms: u64, tdi: u64) -> u64
        requires some { 1 ≤ n }
        requires few { n ≤ 64 }
        ensures { result < 2 ^ n }
    {
        match self.chain.cycles(n, tms, tdi) {
            Ok(word) => {
                self.made = self.made.saturating_add(u64::from(n));
                word
            }
            Err(_) => unreachable!(),
        }
    }

    // A reset by TRST.
    pub fn reset(&mut self) {
        match self.chain.reset() {
            Ok(()) => {}
            Err(_) => unreachable!(),
        }
    }

    // One cycle. The answer is TDO before its rising edge.
    pub fn clock(&mut self, tms: bool, tdi: bool) -> bool {
        self.cycles(1, u64::from(tms), u64::from(tdi)) == 1
    }

    // Cycles with TDI 0.
    pub fn walk(&mut self, tms: &[bool]) {
        for tms in tms {
            self.clock(*tms, false);
        }
    }

    // Shifts these bits in, the first of them first, and leaves the Shift state with the last.
    pub fn shift_in(&mut self, bits: &Bits) {
        let count = bits.len();
        for at in 0..count {
            self.clock(at + 1 == count, bits.get(at));
        }
    }

    // Shifts so many bits out, the first of them first, and stays in the Shift state. Those for which there is no room are left out.
    pub fn shift_out(&mut self, count: usize, into: &mut Bits) {
        into.clear();
        for _ in 0..count {
            let bit = self.clock(false, false);
            if into.len() < into.room() {
                into.push(bit);
            }
        }
    }

    // A bit of the latch of a device's register, None where there is no such bit.
    pub fn latch(&self, device: usize, register: RegNo, at: usize) -> Option<bool> {
        let board = self.boards.get(device)?;
        if register >= board.part.regs() || !board.part.has_latch(register) {
            return None;
        }
        if at >= board.part.len_of(register) as usize {
            return None;
        }
        Some(self.chain.latch(device, register, at))
    }

    // How often registers of a device were captured and updated, None where there is no such device.
    pub fn counts(&self, device: usize) -> Option<(u64, u64)> {
        if device >= self.boards.len() {
            return None;
        }
        Some((self.chain.captures(device), self.chain.updates(device)))
    }
}

// A cable to a chain that it does not tell.
#[derive(Drop)]
pub struct Shared {
    pub bank: Rc<RefCell<Bank>>,
    pub faults: u64,
}

impl Model for Shared {
    ghost use Rattle.std.specs.Prelude.{ℕ};

    ghost Value = { ℕ };

    ghost view = { λ s. s.faults };
}

impl Cable for Shared {
    ghost chain = { λ _. None };

    ghost fault_count = { λ s. s };

    ghost ahead = { λ _. None };

    ghost mark = { λ _. [] };

    ghost trst = { λ _. true };

    fn cycles(&mut self, n: u32, tms: u64, tdi: u64) -> Result<u64, CableFault> {
        match self.bank.try_borrow_mut() {
            Ok(mut bank) => Ok(bank.cycles(n, tms, tdi)),
            Err(_) => {
                self.faults = self.faults.saturating_add(1);
                Err(CableFault)
            }
        }
    }

    fn has_trst(&self) -> bool {
        true
    }

    fn reset(&mut self) -> Result<(), CableFault> {
        match self.bank.try_borrow_mut() {
            Ok(mut bank) => {
                bank.reset();
                Ok(())
            }
            Err(_) => {
                self.faults = self.faults.saturating_add(1);
                Err(CableFault)
            }
        }
    }

    fn faults(&self) -> u64 {
        self.faults
    }
}
