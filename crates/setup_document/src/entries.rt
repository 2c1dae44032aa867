// Devices, grants and nets.
ghost use Rattle.std.specs.Prelude.{codes};
ghost use Rattle.toml.specs.Data.{get_member};
ghost use Rattle.toml.specs.View.{view, table_view};
ghost use Rattle.setup_document.specs.Keys as k;
ghost use Rattle.setup_document.specs.Documents as d;

use crate::keys::{file_name, items_in, member_at, number_in, pins, refused, required, table_in};
use crate::lists::{End, numbers, pair};
use crate::{DeviceEntry, DocumentRefusal, Place};
use base_types::{Items, Text};
use grant_table::{Grant, Net, Protocol};
use std::alloc::Global;
use toml::{Table, Value};

fn name_of(alloc: Global, table: &Table, place: Place) -> Result<Text, DocumentRefusal>
    ensures { k.Reads (λ name. name) result (k.and_then (k.required place (get_member (codes "bsdl") (table_view table.now))) (k.file_name place)) }
{
    let name = file_name(required(table, "bsdl", place)?, place)?;
    Ok(Text::from_str(alloc, name)?)
}

fn pins_of(alloc: Global, table: &Table, place: Place) -> Result<Option<Text>, DocumentRefusal>
    ensures { k.Reads (λ pins. pins) result (d.pins_at place (get_member (codes "pins") (table_view table.now))) }
{
    let Some(value) = member_at(table, "pins") else {
        return Ok(None);
    };
    let text = pins(value, place)?;
    Ok(Some(Text::from_str(alloc, text)?))
}

pub fn device(alloc: Global, value: &Value, place: Place) -> Result<DeviceEntry, DocumentRefusal>
    ensures { k.Reads (λ entry. entry) result (d.device place (view value.now)) }
{
    let table = table_in(value, place)?;
    let bsdl = name_of(alloc, table, place)?;
    let pins = pins_of(alloc, table, place)?;
    Ok(DeviceEntry { bsdl, pins })
}

fn devices_of(alloc: Global, table: &Table, place: Place) -> Result<Items<u16>, DocumentRefusal>
    ensures { k.Reads (λ devices. devices) result (d.devices_at place (table_view table.now)) }
{
    let values = items_in(required(table, "devices", place)?, place)?;
    numbers(alloc, values, place)
}

fn port_of(table: &Table, place: Place) -> Result<u16, DocumentRefusal>
    ensures { k.Reads (λ port. port) result (d.port_at place (table_view table.now)) }
{
    let port = number_in(required(table, "port", place)?, place, 0, 65535)?;
    Ok(port as u16)
}

fn protocol_of(table: &Table, place: Place) -> Result<Protocol, DocumentRefusal>
    ensures { k.Reads (λ protocol. protocol) result (d.protocol_at place (table_view table.now)) }
{
    match required(table, "protocol", place)?.as_str() {
        Some(text) if text == "xvc" => Ok(Protocol::Xvc),
        Some(text) if text == "bitbang" => Ok(Protocol::Bitbang),
        Some(_) => Err(refused(6, place)),
        None => Err(refused(5, place)),
    }
}

pub fn grant(alloc: Global, value: &Value, place: Place) -> Result<Grant, DocumentRefusal>
    ensures { k.Reads (λ entry. entry) result (d.grant place (view value.now)) }
{
    let table = table_in(value, place)?;
    let devices = devices_of(alloc, table, place)?;
    let port = port_of(table, place)?;
    let protocol = protocol_of(table, place)?;
    Ok(Grant {
        devices,
        port,
        protocol,
    })
}

fn end_at(table: &Table, key: &str, place: Place) -> Result<End, DocumentRefusal>
    ensures { k.Reads k.pair_of result (d.end_at place (get_member key.now (table_view table.now))) }
{
    let values = items_in(required(table, key, place)?, place)?;
    pair(values, place)
}

pub fn net(value: &Value, place: Place) -> Result<Net, DocumentRefusal>
    ensures { k.Reads (λ entry. entry) result (d.net place (view value.now)) }
{
    let table = table_in(value, place)?;
    let from = end_at(table, "from", place)?;
    let to = end_at(table, "to", place)?;
    Ok(Net {
        from_device: from.device,
        from_cell: from.cell,
        to_device: to.device,
        to_cell: to.cell,
    })
}
