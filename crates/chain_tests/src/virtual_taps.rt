// Virtual TAPs beside a chain of the same devices, and words of shifts beside single ones.
ghost use Rattle.std.specs.Prelude.{◌≡◌, ◌≤◌, ◌<◌, ◌^◌, false, true, length, is_some, replicate, IfOk, IfSome};
ghost use Rattle.std.specs.List.{sum_by};
ghost use Rattle.grant_table.specs.Layouts.{group_of};
ghost use Rattle.scan_share.specs.PrivateChains.{entries_at};
ghost use Rattle.scan_share.specs.Scans.{codes_of, widths_during};
ghost use Rattle.virtual_tap.specs.Views.{at_capture};
ghost use Rattle.virtual_tap.specs.Taps.{IsOfLayout, ScansAt};

use base_types::Items;
use chain_model::{Bench, Board, Chain, demo_board};
use grant_table::{Grant, Layout, Protocol, layout_fault};
use scan_bits::Bits;
use std::alloc::{AllocError, Global};
use std::test::Fail;
use virtual_tap::VTap;

// A layout of so many demo devices with one grant that has them all; None where it has a fault.
fn layout_of(alloc: Global, devices: u16) -> Result<Option<Layout>, AllocError>
    ensures { IfOk result (λ found. IfSome found (λ layout. 0 < length layout.grants)) }
{
    let mut parts = Vec::new(alloc);
    let mut numbers = Vec::new(alloc);
    for device in 0..devices {
        let Board { part, pins: _ } = demo_board(alloc)?;
        parts.push(part)?;
        numbers.push(device + 1)?;
    }
    let mut grants = Vec::new(alloc);
    grants.push(Grant {
        devices: Items::from_vec(numbers),
        port: 2542,
        protocol: Protocol::Xvc,
    })?;
    let nets = Vec::new(alloc);
    if layout_fault(parts.len(), &grants, &nets).is_some() {
        return Ok(None);
    }
    let layout = Layout::new(alloc, parts, grants, nets)?;
    let count = layout.grants();
    if count == 0 {
        return Ok(None);
    }
    Ok(Some(layout))
}

// How many bits the data registers of a grant's devices have under these codes.
fn data_bits(layout: &Layout, grant: usize, codes: &[u64]) -> usize
    requires { grant < length layout.now.grants }
    ensures { result ≡ sum_by (λ width. width) (widths_during (entries_at layout.now.parts (group_of layout.now.grants grant)) (codes_of (entries_at layout.now.parts (group_of layout.now.grants grant)) codes.now)) }
{
    let group = layout.group(grant);
    let mut sum = 0;
    for at in 0..group.len() {
        if at < codes.len() {
            let part = layout.part(group[at]);
            sum += part.len_of(part.select(codes[at])) as usize;
        }
    }
    sum
}

// So many zeros, which is what latches capture at power-up.
fn fill(register: &mut Bits, count: usize)
    requires { count ≤ register.old.room }
    ensures { register.new ≡ record { bits = replicate count false; room = register.old.room } }
{
    register.clear();
    for _ in 0..count {
        register.push(false);
    }
}

// Opens a scan with zeros. Answers whether there was room.
fn open(tap: &mut VTap, layout: &Layout, grant: usize) -> bool
    requires grant { tap.old.grant ≡ grant }
    requires range { grant < length layout.now.grants }
    requires layout { IsOfLayout layout.now tap.old }
    requires capture { at_capture tap.old.view ≡ true }
    requires there { is_some tap.old.view.register ≡ true }
    ensures grant { tap.new.grant ≡ tap.old.grant }
    ensures layout { IsOfLayout layout.now tap.new }
    ensures there { is_some tap.new.view.register ≡ true }
    ensures state { tap.new.view.state ≡ tap.old.view.state }
    ensures opened { result ≡ true → tap.new.view.scan_open ≡ true }
    ensures full { result ≡ false → tap.new ≡ tap.old }
{
    let count = data_bits(layout, grant, tap.codes());
    if tap.register().room() < count {
        return false;
    }
    let mut register = tap.take_register();
    fill(&mut register, count);
    tap.open_scan(layout, register);
    true
}

// A cycle of both. Answers whether TDO was the same behind each edge.
fn cycle(tap: &mut VTap, chain: &mut Chain, layout: &Layout, tms: bool, tdi: bool) -> bool
    requires grant { tap.old.grant ≡ 0 }
    requires range { 0 < length layout.now.grants }
    requires layout { IsOfLayout layout.now tap.old }
    requires there { is_some tap.old.view.register ≡ true }
    requires low { ScansAt false tap.old.view }
    ensures grant { tap.new.grant ≡ tap.old.grant }
    ensures layout { IsOfLayout layout.now tap.new }
    ensures there { is_some tap.new.view.register ≡ true }
    ensures low { ScansAt false tap.new.view }
{
    if tap.at_capture() && !open(tap, layout, 0) {
        return false;
    }
    tap.rise(layout, tms, tdi);
    chain.rise(tms, tdi);
    let same = tap.tdo() == chain.tdo();
    if tap.fall(layout) {
        tap.close_scan();
    }
    chain.fall();
    same && tap.tdo() == chain.tdo()
}

// Cycles of both, bit i of each word in cycle i. Answers whether TDO was the same all the way.
fn walk(tap: &mut VTap, chain: &mut Chain, layout: &Layout, n: u32, tms: u64, tdi: u64) -> bool
    requires count { n ≤ 64 }
    requires grant { tap.old.grant ≡ 0 }
    requires range { 0 < length layout.now.grants }
    requires layout { IsOfLayout layout.now tap.old }
    requires there { is_some tap.old.view.register ≡ true }
    requires low { ScansAt false tap.old.view }
    ensures grant { tap.new.grant ≡ tap.old.grant }
    ensures layout { IsOfLayout layout.now tap.new }
    ensures there { is_some tap.new.view.register ≡ true }
    ensures low { ScansAt false tap.new.view }
{
    for i in 0..n {
        if !cycle(tap, chain, layout, (tms >> i) & 1 == 1, (tdi >> i) & 1 == 1) {
            return false;
        }
    }
    true
}

// Shifts with TMS 0, of the virtual TAP at once and of the chain one by one, where the state is Shift-DR or Shift-IR. Answers whether
// TDO was the same before each rise and at the end.
fn shift(tap: &mut VTap, chain: &mut Chain, layout: &Layout, n: u32, tdi: u64) -> bool
    requires count { (1 ≤ n) × (n ≤ 64) }
    requires layout { IsOfLayout layout.now tap.old }
    requires there { is_some tap.old.view.register ≡ true }
    requires low { ScansAt false tap.old.view }
    ensures grant { tap.new.grant ≡ tap.old.grant }
    ensures layout { IsOfLayout layout.now tap.new }
    ensures there { is_some tap.new.view.register ≡ true }
    ensures low { ScansAt false tap.new.view }
{
    if !tap.in_shift() {
        return false;
    }
    let word = tap.shift(layout, n, tdi);
    let mut single = 0;
    for i in 0..n {
        single |= u64::from(chain.tdo()) << i;
        chain.rise(false, (tdi >> i) & 1 == 1);
        chain.fall();
    }
    word == single && tap.tdo() == chain.tdo()
}

// From Test-Logic-Reset an instruction scan of 1000, which selects USER, and a data scan of 16 bits.
#[test]
fn one_device_moves_as_its_chain(rt: HostRuntime) -> Result<(), Fail> {
    let board = demo_board(rt.alloc())?;
    let mut chain = Chain::empty();
    assert!(rt; chain.assemble(rt.alloc(), &[board], &[]).is_ok());
    let found = layout_of(rt.alloc(), 1)?;
    assert!(rt; found.is_some());
    let Some(layout) = found else {
        return Ok(());
    };
    let mut tap = VTap::new(rt.alloc(), &layout, 0)?;
    assert!(rt; walk(&mut tap, &mut chain, &layout, 32, 0x6000_0b06, 0x294f_0100));
    assert_eq!(rt; tap.codes(), [0b1000].as_slice());
    assert_eq!(rt; tap.register().len(), 8);
    assert_eq!(rt; tap.register().word(0, 8), 0xa5);
    Ok(())
}

// The same of two devices, with 8 and 24 bits.
#[test]
fn two_devices_move_as_their_chain(rt: HostRuntime) -> Result<(), Fail> {
    let first = demo_board(rt.alloc())?;
    let second = demo_board(rt.alloc())?;
    let mut chain = Chain::empty();
    assert!(rt; chain.assemble(rt.alloc(), &[first, second], &[]).is_ok());
    let found = layout_of(rt.alloc(), 2)?;
    assert!(rt; found.is_some());
    let Some(layout) = found else {
        return Ok(());
    };
    let mut tap = VTap::new(rt.alloc(), &layout, 0)?;
    let tms = 0x600_0000_b006;
    let tdi = 0x30e_9658_1100;
    assert!(rt; walk(&mut tap, &mut chain, &layout, 44, tms, tdi));
    assert_eq!(rt; tap.codes(), [0b1000, 0b1000].as_slice());
    assert_eq!(rt; tap.register().len(), 16);
    assert_eq!(rt; tap.register().word(0, 16), 0xc3a5);
    Ok(())
}

// Words of shifts through the instruction registers of two devices, and through their data registers of 16 bits together.
#[test]
fn shifts_go_by_words(rt: HostRuntime) -> Result<(), Fail> {
    let first = demo_board(rt.alloc())?;
    let second = demo_board(rt.alloc())?;
    let mut chain = Chain::empty();
    assert!(rt; chain.assemble(rt.alloc(), &[first, second], &[]).is_ok());
    let found = layout_of(rt.alloc(), 2)?;
    assert!(rt; found.is_some());
    let Some(layout) = found else {
        return Ok(());
    };
    let mut tap = VTap::new(rt.alloc(), &layout, 0)?;
    assert!(rt; walk(&mut tap, &mut chain, &layout, 5, 0x6, 0));
    assert!(rt; shift(&mut tap, &mut chain, &layout, 7, 0x08));
    assert!(rt; walk(&mut tap, &mut chain, &layout, 6, 0xb, 1));
    assert_eq!(rt; tap.codes(), [0b1000, 0b1000].as_slice());
    assert!(rt; shift(&mut tap, &mut chain, &layout, 64, 0x0123_4567_89ab_cdef));
    assert!(rt; shift(&mut tap, &mut chain, &layout, 5, 0x1a));
    assert_eq!(rt; tap.register().len(), 16);
    assert_eq!(rt; tap.register().word(0, 16), 0xd009);
    Ok(())
}
