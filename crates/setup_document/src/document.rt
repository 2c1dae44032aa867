// A setup file whole.
ghost use Rattle.std.specs.Prelude.{◌≡◌, ◌≤◌, codes, IfOk, IfErr, Ok, Some};
ghost use Rattle.toml.specs.Data.{get_member};
ghost use Rattle.toml.specs.View.{view, table_view, items_view};
ghost use Rattle.setup_document.specs.declared.plan.Place.TheVariants as place;
ghost use Rattle.setup_document.specs.Keys as k;
ghost use Rattle.setup_document.specs.Documents as d;

use crate::entries::{device, grant, net};
use crate::keys::{items_in, known, member_at, number_in, refused, required};
use crate::{DeviceEntry, DocumentRefusal, Place, SetupPlan};
use base_types::Items;
use grant_table::{Grant, Net};
use std::alloc::Global;
use toml::{Table, Value};

/// The most bytes of a setup file.
const LONGEST: usize = 1048576;

// What stands at the keys at the top.
#[derive(Clone, Copy)]
struct TopKeys<'a> {
    version: u8,
    vector: u32,
    devices: &'a [Value],
    grants: &'a [Value],
    nets: &'a [Value],
}

fn version_of(table: &Table) -> Result<u8, DocumentRefusal>
    ensures is { k.Reads (λ version. version) result (d.version_at (table_view table.now)) }
    ensures range { IfOk result (λ version. (1 ≤ version) × (version ≤ 2)) }
{
    let version = number_in(required(table, "version", Place::Top)?, Place::Top, 1, 2)?;
    Ok(version as u8)
}

fn vector_of(table: &Table) -> Result<u32, DocumentRefusal>
    ensures is { k.Reads (λ vector. vector) result (d.vector_at (get_member (codes "vector") (table_view table.now))) }
    ensures range { IfOk result (λ vector. (1 ≤ vector) × (vector ≤ 65536)) }
{
    match member_at(table, "vector") {
        Some(value) => number_in(value, Place::Top, 1, 65536),
        None => Ok(2048),
    }
}

fn array_at<'a>(table: &'a Table, key: &str) -> Result<&'a [Value], DocumentRefusal>
    ensures { k.Reads (λ items. items_view items.now) result (d.array_at (table_view table.now) key.now) }
{
    items_in(required(table, key, Place::Top)?, Place::Top)
}

fn nets_of(table: &Table) -> Result<&[Value], DocumentRefusal>
    ensures { k.Reads (λ items. items_view items.now) result (d.nets_at (get_member (codes "net") (table_view table.now))) }
{
    match member_at(table, "net") {
        Some(value) => items_in(value, Place::Top),
        None => Ok(&[]),
    }
}

fn top_keys(table: &Table) -> Result<TopKeys<'_>, DocumentRefusal>
    ensures is { k.Reads d.top_of result (d.top_keys (table_view table.now)) }
    ensures ranges { IfOk result (λ top. d.InRange top.version top.vector) }
{
    let table = known(table, Place::Top)?;
    Ok(TopKeys {
        version: version_of(table)?,
        vector: vector_of(table)?,
        devices: array_at(table, "device")?,
        grants: array_at(table, "grant")?,
        nets: nets_of(table)?,
    })
}

fn devices(alloc: Global, values: &[Value]) -> Result<Items<DeviceEntry>, DocumentRefusal>
    ensures { k.Reads (λ entries. entries) result (k.each place.Device d.device 1 (items_view values.now)) }
{
    let mut entries = Items::from_vec(Vec::new(alloc));
    for value in values {
        let place = Place::Device(entries.len() as u64 + 1);
        entries.push(device(alloc, value, place)?)?;
    }
    Ok(entries)
}

fn grants(alloc: Global, values: &[Value]) -> Result<Items<Grant>, DocumentRefusal>
    ensures { k.Reads (λ entries. entries) result (k.each place.Grant d.grant 1 (items_view values.now)) }
{
    let mut entries = Items::from_vec(Vec::new(alloc));
    for value in values {
        let place = Place::Grant(entries.len() as u64 + 1);
        entries.push(grant(alloc, value, place)?)?;
    }
    Ok(entries)
}

fn nets(alloc: Global, values: &[Value]) -> Result<Items<Net>, DocumentRefusal>
    ensures { k.Reads (λ entries. entries) result (k.each place.Net d.net 1 (items_view values.now)) }
{
    let mut entries = Items::from_vec(Vec::new(alloc));
    for value in values {
        let place = Place::Net(entries.len() as u64 + 1);
        entries.push(net(value, place)?)?;
    }
    Ok(entries)
}

// The plan of a table.
fn read_table(alloc: Global, table: &Table) -> Result<SetupPlan, DocumentRefusal>
    ensures is { k.Reads (λ plan. plan) result (k.and_then (d.top_keys (table_view table.now)) d.entries) }
    ensures ranges { IfOk result (λ plan. d.InRange plan.version plan.vector) }
{
    let top = top_keys(table)?;
    Ok(SetupPlan {
        version: top.version,
        vector: top.vector,
        devices: devices(alloc, top.devices)?,
        grants: grants(alloc, top.grants)?,
        nets: nets(alloc, top.nets)?,
    })
}

// The table of bytes that are a TOML document.
fn document(alloc: Global, bytes: &[u8]) -> Result<Table, DocumentRefusal>
    ensures found { IfOk result (λ table. d.document_of bytes.now ≡ Some (table_view table)) }
    ensures none { IfErr result (λ refusal. d.NoDocument refusal (d.document_of bytes.now)) }
{
    match toml::table_from_slice(alloc, bytes) {
        Ok(table) => Ok(table),
        Err(error) if error.is_memory() => Err(DocumentRefusal::Memory),
        Err(_) => Err(refused(2, Place::Top)),
    }
}

/// What bytes say as a setup file. `Refused` comes exactly where they are none, with the first cause in this order: their length, the
/// TOML document, unknown keys at the top, `version`, `vector`, `device`, `grant` and `net`, and then each device, each grant and each net
/// in turn. `Memory` comes where memory is wanting.
pub fn read_document(alloc: Global, bytes: &[u8]) -> Result<SetupPlan, DocumentRefusal>
    ensures ok { IfOk result (λ plan. d.plan_of bytes.now ≡ Ok plan) }
    ensures refused { IfErr result (λ refusal. k.RefusesAs refusal (d.plan_of bytes.now)) }
    ensures ranges { IfOk result (λ plan. d.InRange plan.version plan.vector) }
{
    if bytes.len() > LONGEST {
        return Err(refused(1, Place::Top));
    }
    let table = document(alloc, bytes)?;
    read_table(alloc, &table)
}
