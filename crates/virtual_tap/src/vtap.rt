// A private chain without what its devices hold.
ghost use Rattle.std.specs.Prelude.{◌≡◌, ◌≤◌, ◌<◌, ◌^◌, true, false, length, map, is_some, IfOk, Some, None, []};
ghost use Rattle.std.specs.List.{All, sum_by};
ghost use Rattle.tap_states.specs.declared.Tap.TheVariants.{TestLogicReset};
ghost use Rattle.tap_states.specs.States.{next, is_shift, is_capture_dr};
ghost use Rattle.scan_bits.specs.Words.{number_of};
ghost use Rattle.part_model.specs.Plans.{IsPart};
ghost use Rattle.grant_table.specs.Layouts.{group_of};
ghost use Rattle.chain_model.specs.Chains.{ChainState, Placed, reset};
ghost use Rattle.chain_model.specs.Cycles.{rise, fall, after_cycles, answers, clocks_of};
ghost use Rattle.scan_share.specs.Codes.{AreCodes};
ghost use Rattle.scan_share.specs.PrivateChains.{entries_at, private_chain};
ghost use Rattle.scan_share.specs.Scans.{codes_of, types_of, widths_during};
ghost use Rattle.virtual_tap.specs.Views.{IsView, StandsFor, MovesAs, at_capture, closed_view, opened_view};
ghost use Rattle.virtual_tap.specs.Instructions.{SpellCodes, at_power_up, parts_of, reset_codes_of};
ghost use Rattle.virtual_tap.specs.Taps.{IsOfLayout, KeepsTap, VTapState, at_update, longest_scan, may_be_open};

use crate::edges::{ends_scan, rise_register, shift, tdo_of};
use crate::instruction_registers::InstructionRegisters;
use grant_table::Layout;
use scan_bits::Bits;
use std::alloc::{AllocError, Global};
use std::marker::Model;
use tap_states::Tap;

/// A private chain without what its devices hold: the state of its TAP controllers, TDO, the codes in force, the shift stages of the
/// instruction registers, and one data register, which is the data stages of all its devices joined, the last device nearest TDO. The
/// data register may be taken out and put back; it has room for each scan that the devices can have. Bit 0 is nearest TDO everywhere.
///
/// The layout that calls are given is the one that `new` was given. Only `new` takes memory.
#[derive(Drop)]
pub struct VTap {
    grant: usize,
    state: Tap,
    tdo: bool,
    scan_open: bool,
    instructions: InstructionRegisters,
    register: Option<Bits>,
}

impl Model for VTap {
    ghost use Rattle.virtual_tap.specs.Taps.{VTapState, IsTap, tap_of};

    ghost Value = { VTapState };

    ghost view = { λ t. tap_of t.grant t.state t.tdo t.scan_open t.instructions t.register };

    ghost invariant = { λ t. IsTap (tap_of t.grant t.state t.tdo t.scan_open t.instructions t.register) };
}

impl VTap {
    /// The virtual TAP of a grant at power-up. The error comes where memory is wanting.
    pub fn new(alloc: Global, layout: &Layout, grant: usize) -> Result<VTap, AllocError>
        requires { grant < length layout.now.grants }
        ensures grant { IfOk result (λ tap. tap.grant ≡ grant) }
        ensures parts { IfOk result (λ tap. tap.parts ≡ entries_at layout.now.parts (group_of layout.now.grants grant)) }
        ensures state { IfOk result (λ tap. tap.view.state ≡ TestLogicReset) }
        ensures shut { IfOk result (λ tap. tap.view.scan_open ≡ false) }
        ensures register { IfOk result (λ tap. tap.view.register ≡ Some []) }
        ensures powered { IfOk result (λ tap. (boards : _) → map (λ (board : Placed). board.part) boards ≡ layout.now.parts → StandsFor tap.view (private_chain boards (group_of layout.now.grants grant) layout.now.nets)) }
    {
        let instructions = InstructionRegisters::new(alloc, layout, layout.group(grant))?;
        let register = Bits::with_room(alloc, layout.longest(grant))?;
        Ok(VTap {
            grant,
            state: Tap::TestLogicReset,
            tdo: true,
            scan_open: false,
            instructions,
            register: Some(register),
        })
    }

    /// Whether the next rising edge captures: in Capture-DR with no scan open.
    pub fn at_capture(&self) -> bool
        ensures { result ≡ at_capture self.now.view }
    {
        matches!(self.state, Tap::CaptureDr) && !self.scan_open
    }

    /// The codes in force, from TDI on, one for each device of the group. Bit 0 of a code is nearest TDO.
    pub fn codes(&self) -> &[u64]
        ensures each { SpellCodes self.now.parts result.now self.now.view.codes }
        ensures words { codes_of self.now.parts result.now ≡ self.now.view.codes }
        ensures fit { AreCodes self.now.parts result.now }
        ensures view { IsView self.now.parts self.now.view }
    {
        self.instructions.codes()
    }

    /// The number of its grant.
    pub fn grant(&self) -> usize
        ensures { result ≡ self.now.grant }
    {
        self.grant
    }

    /// TDO.
    pub fn tdo(&self) -> bool
        ensures { result ≡ self.now.view.tdo }
    {
        self.tdo
    }

    /// Whether a data register scan is open.
    pub fn scan_open(&self) -> bool
        ensures is { result ≡ self.now.view.scan_open }
        ensures timed { result ≡ true → may_be_open self.now.view.state ≡ true }
        ensures there { result ≡ true → is_some self.now.view.register ≡ true }
    {
        self.scan_open
    }

    /// Whether a rising edge shifts a register: in Shift-DR and Shift-IR.
    pub fn in_shift(&self) -> bool
        ensures { result ≡ is_shift self.now.view.state }
    {
        self.state.is_shift()
    }

    /// The data register, which was not taken out.
    pub fn register(&self) -> &Bits
        requires { is_some self.now.view.register ≡ true }
        ensures bits { Some result.now.bits ≡ self.now.view.register }
        ensures room { result.now.room ≡ self.now.room }
        ensures longest { longest_scan self.now.parts ≤ result.now.room }
    {
        match &self.register {
            Some(register) => register,
            None => unreachable!(),
        }
    }

    /// Hands the data register out, with its room, and leaves none in its place.
    pub fn take_register(&mut self) -> Bits
        requires shut { self.old.view.scan_open ≡ false }
        requires there { is_some self.old.view.register ≡ true }
        ensures bits { Some result.bits ≡ self.old.view.register }
        ensures room { result.room ≡ self.old.room }
        ensures longest { longest_scan self.old.parts ≤ result.room }
        ensures after { self.new ≡ record self.old { view = record self.old.view { register = None }; room = 0 } }
    {
        match self.register.take() {
            Some(register) => register,
            None => unreachable!(),
        }
    }

    /// Opens a scan with these captured bits, as many as the devices' data registers have under the codes. The rising edge in Capture-DR
    /// is this and the next `rise`.
    pub fn open_scan(&mut self, layout: &Layout, register: Bits)
        requires layout { IsOfLayout layout.now self.old }
        requires capture { at_capture self.old.view ≡ true }
        requires out { self.old.view.register ≡ None }
        requires long { length register.bits ≡ sum_by (λ width. width) (widths_during self.old.parts self.old.view.codes) }
        requires room { longest_scan self.old.parts ≤ register.room }
        ensures { self.new ≡ record self.old { view = opened_view register.bits self.old.view; room = register.room } }
    {
        self.register = Some(register);
        self.scan_open = true;
    }

    /// A rising edge of TCK, where it does not capture. In Capture-DR the scan was opened before, and the edge moves the state alone. It
    /// does not come in Update-DR with the scan open: there the scan is closed first. With no scan open the data register rests.
    pub fn rise(&mut self, layout: &Layout, tms: bool, tdi: bool)
        requires layout { IsOfLayout layout.now self.old }
        requires capture { at_capture self.old.view ≡ false }
        requires update { at_update self.old.view ≡ false }
        ensures kept { KeepsTap self.old self.new }
        ensures state { self.new.view.state ≡ next self.old.view.state tms }
        ensures scan { self.new.view.scan_open ≡ self.old.view.scan_open }
        ensures codes { self.new.view.codes ≡ self.old.view.codes }
        ensures rests { self.old.view.scan_open ≡ false → self.new.view.register ≡ self.old.view.register }
        ensures moved { is_capture_dr self.old.view.state ≡ false → MovesAs self.old.parts (λ chain. rise chain tms tdi) self.old.view self.new.view }
        ensures left { is_capture_dr self.old.view.state ≡ true → self.new.view ≡ record self.old.view { state = next self.old.view.state tms } }
    {
        rise_register(&mut self.register, self.state, self.scan_open, tdi);
        self.instructions.rise(self.state, tdi);
        self.state = self.state.next(tms);
    }

    /// A falling edge of TCK. True exactly in Update-DR with the scan open: then the data register holds what is to be latched, and the
    /// scan stays open until `close_scan`. In Shift-DR with no scan open, TDO becomes 1.
    pub fn fall(&mut self, layout: &Layout) -> bool
        requires layout { IsOfLayout layout.now self.old }
        ensures is { result ≡ at_update self.old.view }
        ensures kept { KeepsTap self.old self.new }
        ensures state { self.new.view.state ≡ self.old.view.state }
        ensures scan { self.new.view.scan_open ≡ self.old.view.scan_open }
        ensures register { self.new.view.register ≡ self.old.view.register }
        ensures codes { self.old.view.scan_open ≡ true → self.new.view.codes ≡ self.old.view.codes }
        ensures moved { result ≡ false → MovesAs self.old.parts fall self.old.view self.new.view }
        ensures closing { result ≡ true → MovesAs self.old.parts fall self.old.view (closed_view self.new.view) }
    {
        self.instructions.fall(self.state);
        self.tdo = tdo_of(
            self.state,
            self.scan_open,
            &self.register,
            &self.instructions,
        );
        ends_scan(self.state, self.scan_open)
    }

    /// `n` cycles of TCK with TMS 0 at once, in Shift-DR or Shift-IR; each is a rise and then a fall. Bit i of `tdi` belongs to cycle i,
    /// counted from 0. Bit i of the answer is TDO before the rise of cycle i; its bits from `n` on are 0. In Shift-DR with no scan open,
    /// TDO is 1 behind each fall: bits 1 to `n` - 1 of the answer are 1.
    pub fn shift(&mut self, layout: &Layout, n: u32, tdi: u64) -> u64
        requires layout { IsOfLayout layout.now self.old }
        requires state { is_shift self.old.view.state ≡ true }
        requires count { (1 ≤ n) × (n ≤ 64) }
        ensures kept { KeepsTap self.old self.new }
        ensures state { self.new.view.state ≡ self.old.view.state }
        ensures scan { self.new.view.scan_open ≡ self.old.view.scan_open }
        ensures codes { self.new.view.codes ≡ self.old.view.codes }
        ensures moved { MovesAs self.old.parts (after_cycles (clocks_of n 0 tdi)) self.old.view self.new.view }
        ensures out { (chain : ChainState) → types_of chain ≡ self.old.parts → StandsFor self.old.view chain → result ≡ number_of (answers (clocks_of n 0 tdi) chain) }
        ensures bound { result < 2 ^ n }
    {
        let word = shift(
            &mut self.register,
            &mut self.instructions,
            self.state,
            self.scan_open,
            n,
            tdi,
        );
        let out = word / 2 * 2 + u64::from(self.tdo);
        self.tdo = tdo_of(
            self.state,
            self.scan_open,
            &self.register,
            &self.instructions,
        );
        out
    }

    /// Closes the scan. The data register stays in place.
    pub fn close_scan(&mut self)
        requires { self.old.view.scan_open ≡ true }
        ensures { self.new ≡ record self.old { view = closed_view self.old.view } }
    {
        self.scan_open = false;
    }

    /// A reset by TRST, where no scan is open.
    pub fn restart(&mut self, layout: &Layout)
        requires layout { IsOfLayout layout.now self.old }
        requires shut { self.old.view.scan_open ≡ false }
        ensures kept { KeepsTap self.old self.new }
        ensures state { self.new.view.state ≡ TestLogicReset }
        ensures scan { self.new.view.scan_open ≡ false }
        ensures register { self.new.view.register ≡ self.old.view.register }
        ensures moved { MovesAs self.old.parts reset self.old.view self.new.view }
    {
        self.instructions.restart();
        self.state = Tap::TestLogicReset;
        self.tdo = true;
    }
}
