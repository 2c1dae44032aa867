// A scan chain, edge by edge of TCK.
ghost use Rattle.std.specs.Prelude.{◌≡◌, ◌≤◌, ◌<◌, ◌^◌, true, length, Bool, map, slice_get, IfSome, is_some, IfOk, OnOk, OnErr};
ghost use Rattle.base_types.specs.Counts.{raised};
ghost use Rattle.base_types.specs.Tellings.{Told};
ghost use Rattle.tap_states.specs.States.{next};
ghost use Rattle.scan_bits.specs.Words.{bits_of, number_of};
ghost use Rattle.scan_bits.specs.Registers.{joined};
ghost use Rattle.chain_model.specs.Chains.{ChainState, powered, powered_device, reset, reset_device};
ghost use Rattle.chain_model.specs.Cycles.{rise, fall, cycle, after_cycles, after_call, answers, clocks_of, dr_stages, on_rise, on_fall, tdo_in};
ghost use Rattle.chain_model.specs.Cables.{HasDevice, empty_chain};
ghost use Rattle.chain_model.specs.Devices.{ScanFits, run_dr, out_dr};
ghost use Rattle.chain_model.specs.Boards.{EachHasPins, placed};
ghost use Rattle.chain_model.specs.Circuits.{devices_of, nets_of};

use crate::cable::Board;
use crate::circuit::Circuit;
use crate::device::Device;
use crate::devices;
use crate::edges::{fall_devices, open_after_fall, open_after_rise, rise_devices};
use part_model::{Net, RegNo};
use std::alloc::{AllocError, Global};
use std::marker::Model;
use tap_states::Tap;

// A chain of devices. Contracts see it as the chain of the definitions.
#[derive(Drop)]
pub struct ScanChain {
    state: Tap,
    tdo: bool,
    scan_open: bool,
    circuit: Option<Circuit>,
    made: u64,
    asked: u64,
}

impl Model for ScanChain {
    ghost use Rattle.chain_model.specs.Chains.{ChainState};
    ghost use Rattle.chain_model.specs.Devices.{ScanFits};
    ghost use Rattle.chain_model.specs.Circuits.{devices_of, nets_of};

    ghost Value = { ChainState };

    ghost view = { λ c. record {
      state = c.state;
      tdo = c.tdo;
      scan_open = c.scan_open;
      devices = devices_of c.circuit;
      nets = nets_of c.circuit;
      made = c.made;
      asked = c.asked;
    } };

    ghost invariant = { λ c. ScanFits c.state c.scan_open (devices_of c.circuit) };
}

fn rise_circuit(circuit: &mut Option<Circuit>, state: Tap, scan_open: bool, tdi: bool)
    requires { ScanFits state scan_open (devices_of circuit.old) }
    ensures act { (chain : ChainState) → chain.nets ≡ nets_of circuit.old → chain.devices ≡ devices_of circuit.old → (on_rise state chain tdi).devices ≡ devices_of circuit.new }
    ensures nets { nets_of circuit.new ≡ nets_of circuit.old }
    ensures fits { (chain : ChainState) (tms : Bool) → chain.scan_open ≡ scan_open → ScanFits (next state tms) (on_rise state chain tdi).scan_open (devices_of circuit.new) }
{
    match circuit {
        None => {}
        Some(circuit) => rise_devices(&mut circuit.devices, &circuit.nets, state, scan_open, tdi),
    }
}

fn fall_circuit(circuit: &mut Option<Circuit>, state: Tap, scan_open: bool) -> bool
    requires { ScanFits state scan_open (devices_of circuit.old) }
    ensures act { (chain : ChainState) → chain.scan_open ≡ scan_open → chain.devices ≡ devices_of circuit.old → (on_fall state chain).devices ≡ devices_of circuit.new }
    ensures tdo { result ≡ tdo_in state (devices_of circuit.new) }
    ensures nets { nets_of circuit.new ≡ nets_of circuit.old }
    ensures fits { (chain : ChainState) → chain.scan_open ≡ scan_open → ScanFits state (on_fall state chain).scan_open (devices_of circuit.new) }
{
    match circuit {
        None => true,
        Some(circuit) => fall_devices(&mut circuit.devices, state, scan_open),
    }
}

fn reset_circuit(circuit: &mut Option<Circuit>)
    ensures devices { devices_of circuit.new ≡ map reset_device (devices_of circuit.old) }
    ensures nets { nets_of circuit.new ≡ nets_of circuit.old }
{
    match circuit {
        None => {}
        Some(circuit) => devices::reset(&mut circuit.devices),
    }
}

fn dr_out(circuit: &Option<Circuit>) -> bool
    ensures { result ≡ tdo_in Tap.ShiftDr (devices_of circuit.now) }
{
    match circuit {
        None => true,
        Some(circuit) => devices::dr_out(&circuit.devices),
    }
}

// The lowest bits of a word.
fn low_bits(n: u32, word: u64) -> u64
    requires { (1 ≤ n) × (n ≤ 64) }
    ensures bits { bits_of n result ≡ bits_of n word }
    ensures bound { result < 2 ^ n }
{
    word & (u64::MAX >> (64 - n))
}

fn shift_circuit(circuit: &mut Option<Circuit>, n: u32, tdi: u64) -> u64
    requires word { (1 ≤ n) × (n ≤ 64) }
    requires bound { tdi < 2 ^ n }
    ensures after { devices_of circuit.new ≡ run_dr (bits_of n tdi) (devices_of circuit.old) }
    ensures nets { nets_of circuit.new ≡ nets_of circuit.old }
    ensures out { bits_of n result ≡ out_dr (bits_of n tdi) (devices_of circuit.old) }
    ensures bound { result < 2 ^ n }
{
    match circuit {
        None => tdi,
        Some(circuit) => devices::shift_dr_word(&mut circuit.devices, n, tdi),
    }
}

fn has_dr_bit(circuit: &Option<Circuit>) -> bool
    ensures { result ≡ true → 1 ≤ length (joined (dr_stages (devices_of circuit.now))) }
{
    match circuit {
        None => false,
        Some(circuit) => devices::has_dr_bit(&circuit.devices),
    }
}

// The devices of boards at power-up, with nets.
fn assembled(alloc: Global, boards: &[Board], nets: &[Net]) -> Result<Circuit, AllocError>
    requires { EachHasPins boards.now }
    ensures devices { IfOk result (λ circuit. circuit.devices.items ≡ map powered_device (map placed boards.now)) }
    ensures nets { IfOk result (λ circuit. circuit.nets.items ≡ nets.now) }
{
    let mut devices = Vec::new(alloc);
    for board in boards {
        devices.push(Device::powered(alloc, board)?)?;
    }
    let nets = nets.to_vec(alloc)?;
    Ok(Circuit { devices, nets })
}

impl ScanChain {
    // A chain without devices, at power-up.
    pub fn empty() -> ScanChain
        ensures { result ≡ empty_chain }
    {
        ScanChain {
            state: Tap::TestLogicReset,
            tdo: true,
            scan_open: false,
            circuit: None,
            made: 0,
            asked: 0,
        }
    }

    // The devices of boards, and nets, on an empty chain.
    pub fn assemble(
        &mut self,
        alloc: Global,
        boards: &[Board],
        nets: &[Net],
    ) -> Result<(), AllocError>
        requires empty { self.old ≡ empty_chain }
        requires pins { EachHasPins boards.now }
        ensures assembled { OnOk result (self.new ≡ powered (map placed boards.now) nets.now) }
        ensures emptied { OnErr result (self.new ≡ empty_chain) }
    {
        self.circuit = Some(assembled(alloc, boards, nets)?);
        Ok(())
    }

    // A rising edge of TCK.
    pub fn rise(&mut self, tms: bool, tdi: bool)
        ensures { self.new ≡ rise self.old tms tdi }
    {
        rise_circuit(&mut self.circuit, self.state, self.scan_open, tdi);
        self.scan_open = open_after_rise(self.state, self.scan_open);
        self.state = self.state.next(tms);
    }

    // A falling edge of TCK.
    pub fn fall(&mut self)
        ensures { self.new ≡ fall self.old }
    {
        self.tdo = fall_circuit(&mut self.circuit, self.state, self.scan_open);
        self.scan_open = open_after_fall(self.state, self.scan_open);
    }

    // A reset by TRST.
    pub fn reset(&mut self)
        ensures { self.new ≡ reset self.old }
    {
        reset_circuit(&mut self.circuit);
        self.state = Tap::TestLogicReset;
        self.tdo = true;
        self.scan_open = false;
    }

    // TDO.
    pub fn tdo(&self) -> bool
        ensures { result ≡ self.now.tdo }
    {
        self.tdo
    }

    // A device of the chain.
    pub fn device(&self, at: usize) -> Option<&Device>
        ensures found { Told (slice_get self.now.devices at) (λ state. IfSome result (λ device. device.now ≡ state)) }
        ensures none { is_some result ≡ is_some (slice_get self.now.devices at) }
    {
        match &self.circuit {
            None => None,
            Some(circuit) => circuit.devices.get(at),
        }
    }

    // A cycle of TCK. Answers TDO before its rise.
    fn cycle(&mut self, tms: bool, tdi: bool) -> bool
        ensures out { result ≡ self.old.tdo }
        ensures after { self.new ≡ cycle self.old (record { tms = tms; tdi = tdi }) }
    {
        let out = self.tdo;
        self.rise(tms, tdi);
        self.fall();
        out
    }

    // Whether each rising edge shifts data stages that have a bit.
    fn shifts_data(&self) -> bool
        ensures { result ≡ true → (self.now.state ≡ Tap.ShiftDr) × (1 ≤ length (joined (dr_stages self.now.devices))) }
    {
        match self.state {
            Tap::ShiftDr => has_dr_bit(&self.circuit),
            _ => false,
        }
    }

    // So many cycles with TMS 0 in Shift-DR, uncounted.
    fn shift_run(&mut self, n: u32, tdi: u64) -> u64
        requires word { (1 ≤ n) × (n ≤ 64) }
        requires state { self.old.state ≡ Tap.ShiftDr }
        requires some { 1 ≤ length (joined (dr_stages self.old.devices)) }
        ensures after { self.new ≡ after_cycles (clocks_of n 0 tdi) self.old }
        ensures answers { result ≡ number_of (answers (clocks_of n 0 tdi) self.old) }
        ensures bound { result < 2 ^ n }
    {
        let out = shift_circuit(&mut self.circuit, n, low_bits(n, tdi));
        let word = out / 2 * 2 + u64::from(self.tdo);
        self.tdo = dr_out(&self.circuit);
        word
    }

    // The first of so many cycles of TCK, uncounted: how many of them were made, and what these answered.
    fn piece(&mut self, left: u32, tms: u64, tdi: u64) -> (u32, u64)
        requires { (1 ≤ left) × (left ≤ 64) }
        ensures some { 1 ≤ result.0 }
        ensures few { result.0 ≤ left }
        ensures after { self.new ≡ after_cycles (clocks_of result.0 tms tdi) self.old }
        ensures answers { result.1 ≡ number_of (answers (clocks_of result.0 tms tdi) self.old) }
        ensures bound { result.1 < 2 ^ result.0 }
    {
        if left > 1 && self.shifts_data() {
            let shifts = left.min(tms.trailing_zeros());
            if shifts > 1 {
                return (shifts, self.shift_run(shifts, tdi));
            }
        }
        (1, u64::from(self.cycle(tms % 2 == 1, tdi % 2 == 1)))
    }

    // Cycles of TCK, uncounted: bit i of each word belongs to cycle i.
    fn run_word(&mut self, n: u32, tms: u64, tdi: u64) -> u64
        requires { n ≤ 64 }
        ensures after { self.new ≡ after_cycles (clocks_of n tms tdi) self.old }
        ensures answers { result ≡ number_of (answers (clocks_of n tms tdi) self.old) }
        ensures bound { result < 2 ^ n }
    {
        let mut word = 0;
        let mut at = 0;
        while at < n {
            let (count, bits) = self.piece(n - at, tms >> at, tdi >> at);
            word |= bits << at;
            at += count;
        }
        word
    }

    // Counts a call of so many cycles.
    fn count_call(&mut self, n: u64)
        ensures { self.new ≡ record self.old { made = raised self.old.made n; asked = raised self.old.asked 1 } }
    {
        self.made = self.made.saturating_add(n);
        self.asked = self.asked.saturating_add(1);
    }

    // A call of so many cycles.
    pub fn call(&mut self, n: u32, tms: u64, tdi: u64) -> u64
        requires { n ≤ 64 }
        ensures after { self.new ≡ after_call (clocks_of n tms tdi) self.old }
        ensures answers { result ≡ number_of (answers (clocks_of n tms tdi) self.old) }
        ensures bound { result < 2 ^ n }
        ensures devices { HasDevice self.old → HasDevice self.new }
    {
        let word = self.run_word(n, tms, tdi);
        self.count_call(u64::from(n));
        word
    }
}
