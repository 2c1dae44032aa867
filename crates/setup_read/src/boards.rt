// The boards of the devices, from their BSDL files.
ghost use Rattle.std.specs.Prelude.{◌≡◌, ◌≤◌, ◌<◌, length, [], ◌∷◌, IfSome, IfOk, OnOk};
ghost use Rattle.part_model.specs.Parts.{DeviceType};
ghost use Rattle.chain_model.specs.Boards.{HasPins, EachHasPins};
ghost use Rattle.ports.specs.Shelves.{named};
ghost use Rattle.bsdl_read.specs.Reading.{read_of, shape_of};
ghost use Rattle.setup_read.specs.Boards as b;
ghost use Rattle.setup_read.specs.Loads as l;

use crate::SetupRefusal;
use base_types::{Items, Text};
use bsdl_read::{BsdlRefusal, Entity, read_part};
use chain_model::Board;
use part_model::{Part, RegNo};
use ports::{LoadFault, Shelf};
use scan_bits::Bits;
use setup_document::DeviceEntry;
use std::alloc::{AllocError, Global};

/// The most bytes that are loaded of a BSDL file: one more than a text may have.
const MOST_LOADED: usize = 4194305;

/// The number of the boundary register of a part.
const BOUNDARY: RegNo = 1;

/// The names of the devices' entities, and their boards.
#[derive(Drop)]
pub struct Devices {
    pub names: Items<Text>,
    pub boards: Items<Board>,
}

// What a BSDL text says.
fn entity_in(alloc: Global, device: u16, text: &[u8]) -> Result<Entity, SetupRefusal>
    ensures is { b.Reads shape_of result (b.entity_in device (read_of text.now)) }
    ensures loads { l.LoadsNothing result }
{
    match read_part(alloc, text) {
        Ok(entity) => Ok(entity),
        Err(BsdlRefusal::Refused { at, cause }) => Err(SetupRefusal::Bsdl { device, at, cause }),
        Err(BsdlRefusal::Memory) => Err(SetupRefusal::Memory),
    }
}

// What the file of a device says. The text is let go before this returns.
fn entity_of<S: Shelf>(
    alloc: Global,
    shelf: &mut S,
    device: u16,
    name: &Text,
) -> Result<Entity, SetupRefusal>
    ensures read { IfSome (S.files shelf.old) (λ told. b.Reads shape_of result (b.entity_of device (named told name.now))) }
    ensures files { S.files shelf.new ≡ S.files shelf.old }
    ensures all { OnOk result (l.AddsAll (S.loads shelf.old) (S.loads shelf.new) (name.now ∷ [])) }
    ensures first { l.AddsFirst (S.loads shelf.old) (S.loads shelf.new) (name.now ∷ []) }
    ensures cause { l.HasSetupCause (S.fault_count shelf.old) (S.fault_count shelf.new) result }
{
    match shelf.load(alloc, name.as_str(), MOST_LOADED) {
        Ok(text) => entity_in(alloc, device, &text),
        Err(LoadFault::Absent) => Err(SetupRefusal::Absent { device }),
        Err(LoadFault::Fault) => Err(SetupRefusal::Fault),
        Err(LoadFault::Memory) => Err(SetupRefusal::Memory),
    }
}

// The pins of a text, the rightmost first.
fn pin_values(alloc: Global, text: &[u8]) -> Result<Bits, AllocError>
    ensures is { IfOk result (λ pins. pins ≡ record { bits = b.pin_values text.now; room = length text.now }) }
    ensures count { IfOk result (λ pins. length pins.bits ≡ length text.now) }
{
    let mut pins = Bits::with_room(alloc, text.len())?;
    let mut at = text.len();
    while at > 0 {
        at -= 1;
        pins.push(text[at] == b'1');
    }
    Ok(pins)
}

// The pins of a device.
fn pins_of(
    alloc: Global,
    device: u16,
    part: &Part,
    pins: &Option<Text>,
) -> Result<Bits, SetupRefusal>
    ensures is { b.Reads (λ pins. pins) result (b.pins_of device part.now pins.now) }
    ensures count { IfOk result (λ pins. length pins.bits ≡ part.now.boundary_length) }
    ensures loads { l.LoadsNothing result }
{
    let cells = part.len_of(BOUNDARY) as usize;
    match pins {
        None => Ok(Bits::zeros(alloc, cells)?),
        Some(text) if text.len() == cells => Ok(pin_values(alloc, text.as_str().as_bytes())?),
        Some(_) => Err(SetupRefusal::Pins { device }),
    }
}

// The name and the board of a device.
fn board_of(
    alloc: Global,
    device: u16,
    entry: &DeviceEntry,
    entity: Entity,
) -> Result<(Text, Board), SetupRefusal>
    ensures is { b.Reads b.named_board result (b.board_of device entry.now (shape_of entity)) }
    ensures loads { l.LoadsNothing result }
    ensures pins { IfOk result (λ found. HasPins found.1) }
{
    let Entity { name, part } = entity;
    let pins = pins_of(alloc, device, &part, &entry.pins)?;
    Ok((name, Board { part, pins }))
}

// The name and the board of a device, from its file.
fn device_of<S: Shelf>(
    alloc: Global,
    shelf: &mut S,
    device: u16,
    entry: &DeviceEntry,
) -> Result<(Text, Board), SetupRefusal>
    ensures read { IfSome (S.files shelf.old) (λ told. b.Reads b.named_board result (b.device_of (named told) device entry.now)) }
    ensures files { S.files shelf.new ≡ S.files shelf.old }
    ensures all { OnOk result (l.AddsAll (S.loads shelf.old) (S.loads shelf.new) (entry.now.bsdl ∷ [])) }
    ensures first { l.AddsFirst (S.loads shelf.old) (S.loads shelf.new) (entry.now.bsdl ∷ []) }
    ensures cause { l.HasSetupCause (S.fault_count shelf.old) (S.fault_count shelf.new) result }
    ensures pins { IfOk result (λ found. HasPins found.1) }
{
    let entity = entity_of(alloc, shelf, device, &entry.bsdl)?;
    board_of(alloc, device, entry, entity)
}

/// The names and the boards of all devices, each from its file in turn. A text is let go before the next is loaded.
pub fn devices_of<S: Shelf>(
    alloc: Global,
    shelf: &mut S,
    entries: &[DeviceEntry],
) -> Result<Devices, SetupRefusal>
    requires { length entries.now ≤ 32 }
    ensures read { IfSome (S.files shelf.old) (λ told. b.Reads (λ devices. devices) result (b.devices_of (named told) 1 entries.now)) }
    ensures files { S.files shelf.new ≡ S.files shelf.old }
    ensures all { OnOk result (l.AddsAll (S.loads shelf.old) (S.loads shelf.new) (l.bsdl_names entries.now)) }
    ensures first { l.AddsFirst (S.loads shelf.old) (S.loads shelf.new) (l.bsdl_names entries.now) }
    ensures cause { l.HasSetupCause (S.fault_count shelf.old) (S.fault_count shelf.new) result }
    ensures devices { IfOk result (b.AreDevices (length entries.now)) }
{
    let mut names = Items::from_vec(Vec::new(alloc));
    let mut boards = Items::from_vec(Vec::new(alloc));
    for (index, entry) in entries.iter().enumerate() {
        let (name, board) = device_of(alloc, shelf, index as u16 + 1, entry)?;
        names.push(name)?;
        boards.push(board)?;
    }
    Ok(Devices { names, boards })
}
