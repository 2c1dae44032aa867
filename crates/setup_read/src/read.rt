// A setup whole.
ghost use Rattle.std.specs.Prelude.{◌≡◌, ◌≤◌, length, map, IfSome, IfOk, OnOk, IfErr, Ok, None};
ghost use Rattle.ports.specs.Shelves.{named};
ghost use Rattle.grant_table.specs.Faults.{layout_fault};
ghost use Rattle.setup_document.specs.Documents.{plan_of, InRange};
ghost use Rattle.setup_read.specs.Boards as b;
ghost use Rattle.setup_read.specs.Setups as s;
ghost use Rattle.setup_read.specs.Loads as l;

use crate::boards::{Devices, devices_of};
use crate::cells::check_cells;
use crate::{Setup, SetupRefusal};
use chain_model::Board;
use grant_table::{Layout, layout_fault};
use part_model::Part;
use ports::Shelf;
use setup_document::{DocumentRefusal, SetupPlan, read_document};
use std::alloc::{AllocError, Global};

// What the setup file says.
fn plan_of(alloc: Global, bytes: &[u8]) -> Result<SetupPlan, SetupRefusal>
    ensures is { b.Reads (λ plan. plan) result (s.plain (plan_of bytes.now)) }
    ensures found { IfOk result (λ plan. plan_of bytes.now ≡ Ok plan) }
    ensures loads { l.LoadsNothing result }
    ensures ranges { IfOk result (λ plan. InRange plan.version plan.vector) }
{
    match read_document(alloc, bytes) {
        Ok(plan) => Ok(plan),
        Err(DocumentRefusal::Refused { cause, place }) => Err(SetupRefusal::Plain { cause, place }),
        Err(DocumentRefusal::Memory) => Err(SetupRefusal::Memory),
    }
}

// Refuses grants and nets that make no layout.
fn check_layout(plan: &SetupPlan) -> Result<(), SetupRefusal>
    ensures is { b.Reads (λ _. tt) result (s.layout_checked plan.now) }
    ensures loads { l.LoadsNothing result }
    ensures faultless { OnOk result (layout_fault (length plan.now.devices) plan.now.grants plan.now.nets ≡ None) }
{
    match layout_fault(
        plan.devices.len(),
        plan.grants.as_slice(),
        plan.nets.as_slice(),
    ) {
        Some(refusal) => Err(SetupRefusal::Layout(refusal)),
        None => Ok(()),
    }
}

// Copies of the parts of the boards.
fn parts_of(alloc: Global, boards: &[Board]) -> Result<Vec<Part>, AllocError>
    ensures { IfOk result (λ parts. parts.items ≡ map (λ board. board.part) boards.now) }
{
    let mut parts = Vec::new(alloc);
    for board in boards {
        parts.push(board.part.copy(alloc)?)?;
    }
    Ok(parts)
}

// The setup of a plan and its boards.
fn with_boards(alloc: Global, plan: SetupPlan, devices: Devices) -> Result<Setup, SetupRefusal>
    requires faultless { layout_fault (length plan.devices) plan.grants plan.nets ≡ None }
    requires ranges { InRange plan.version plan.vector }
    requires devices { b.AreDevices (length plan.devices) devices }
    ensures is { b.Reads (λ setup. setup) result (s.with_boards plan devices) }
    ensures loads { l.LoadsNothing result }
    ensures whole { IfOk result s.IsWhole }
{
    check_cells(devices.boards.as_slice(), plan.nets.as_slice())?;
    let parts = parts_of(alloc, devices.boards.as_slice())?;
    let Devices { names, boards } = devices;
    let layout = Layout::new(alloc, parts, plan.grants.into_vec(), plan.nets.into_vec())?;
    Ok(Setup {
        version: plan.version,
        vector: plan.vector,
        names,
        boards,
        layout,
    })
}

// The setup of a plan over the files of a shelf.
fn from_plan<S: Shelf>(alloc: Global, plan: SetupPlan, shelf: &mut S) -> Result<Setup, SetupRefusal>
    requires ranges { InRange plan.version plan.vector }
    ensures read { IfSome (S.files shelf.old) (λ told. b.Reads (λ setup. setup) result (s.from_plan (named told) plan)) }
    ensures files { S.files shelf.new ≡ S.files shelf.old }
    ensures first { l.AddsFirst (S.loads shelf.old) (S.loads shelf.new) (l.bsdl_names plan.devices) }
    ensures all { OnOk result (l.AddsAll (S.loads shelf.old) (S.loads shelf.new) (l.bsdl_names plan.devices)) }
    ensures cause { l.HasSetupCause (S.fault_count shelf.old) (S.fault_count shelf.new) result }
    ensures whole { IfOk result s.IsWhole }
{
    check_layout(&plan)?;
    let devices = devices_of(alloc, shelf, plan.devices.as_slice())?;
    with_boards(alloc, plan, devices)
}

/// What the bytes of a setup file say over the BSDL files of a shelf, or the first refusal in this order: the setup file's own, that of
/// its grants and nets as a layout, then for each device in turn its file, what that says and its pins, and then each net's cells.
///
/// Where the shelf tells its files, an answer is exactly what these say, but for `Memory`, where memory is wanting, and `Fault`, which
/// comes only where the shelf's count of faults rose. No other answer changes that count. The names that are loaded are the first of
/// those that the setup file has, in the order of the devices, all of them where a setup is answered, and none where the bytes are no
/// setup file. A text is let go before the next is loaded.
pub fn read_setup<S: Shelf>(
    alloc: Global,
    bytes: &[u8],
    shelf: &mut S,
) -> Result<Setup, SetupRefusal>
    ensures ok { IfSome (S.files shelf.old) (λ told. IfOk result (s.IsSetup bytes.now (named told))) }
    ensures refused { IfSome (S.files shelf.old) (λ told. IfErr result (λ refusal. b.RefusesAs refusal (s.setup_of (named told) bytes.now))) }
    ensures whole { IfOk result s.IsWhole }
    ensures files { S.files shelf.new ≡ S.files shelf.old }
    ensures first { l.AddsFirst (S.loads shelf.old) (S.loads shelf.new) (l.names_of (plan_of bytes.now)) }
    ensures all { OnOk result (l.AddsAll (S.loads shelf.old) (S.loads shelf.new) (l.names_of (plan_of bytes.now))) }
    ensures cause { l.HasSetupCause (S.fault_count shelf.old) (S.fault_count shelf.new) result }
{
    let plan = plan_of(alloc, bytes)?;
    from_plan(alloc, plan, shelf)
}
