// The keys of a table, and the values at them.
ghost use Rattle.std.specs.Prelude.{◌≡◌, ◌≤◌, IfOk, string_bytes};
ghost use Rattle.std.specs.Option.{option_map};
ghost use Rattle.std.specs.List.{list_all};
ghost use Rattle.std.specs.Map.{keys_of};
ghost use Rattle.toml.specs.Data.{get_member};
ghost use Rattle.toml.specs.View.{view, table_view, array_view, items_view};
ghost use Rattle.setup_document.specs.declared.plan.DocumentRefusal.TheVariants.{Refused};
ghost use Rattle.setup_document.specs.Keys as k;

use crate::{DocumentRefusal, Place};
use toml::{Table, Value};

pub fn refused(cause: u8, place: Place) -> DocumentRefusal
    ensures { result ≡ Refused cause place }
{
    DocumentRefusal::Refused { cause, place }
}

// The value at a key.
pub fn member_at<'a>(table: &'a Table, key: &str) -> Option<&'a Value>
    ensures { option_map (λ value. view value.now) result ≡ get_member key.now (table_view table.now) }
{
    table.get(key)
}

// Whether the tables that stand there have this key.
fn is_known(place: Place, key: &str) -> bool
    ensures { result ≡ k.is_known place key.now }
{
    match place {
        Place::Top => {
            key == "version" || key == "vector" || key == "device" || key == "grant" || key == "net"
        }
        Place::Device(_) => key == "bsdl" || key == "pins",
        Place::Grant(_) => key == "devices" || key == "port" || key == "protocol",
        Place::Net(_) => key == "from" || key == "to",
    }
}

fn has_known_keys(table: &Table, place: Place) -> bool
    ensures { result ≡ list_all (λ key. k.is_known place (string_bytes key)) (keys_of table.now.entries) }
{
    table.keys().all(|key| is_known(place, key.as_str()))
}

// Refuses a table with a key that is not known there.
pub fn known(table: &Table, place: Place) -> Result<&Table, DocumentRefusal>
    ensures { k.Reads (λ found. table_view found.now) result (k.known place (table_view table.now)) }
{
    if has_known_keys(table, place) {
        Ok(table)
    } else {
        Err(refused(3, place))
    }
}

// The table that a value is, with no key that is not known there.
pub fn table_in(value: &Value, place: Place) -> Result<&Table, DocumentRefusal>
    ensures { k.Reads (λ found. table_view found.now) result (k.table_in place (view value.now)) }
{
    match value.as_table() {
        Some(table) => known(table, place),
        None => Err(refused(5, place)),
    }
}

// The value at a required key.
pub fn required<'a>(table: &'a Table, key: &str, place: Place) -> Result<&'a Value, DocumentRefusal>
    ensures { k.Reads (λ found. view found.now) result (k.required place (get_member key.now (table_view table.now))) }
{
    match member_at(table, key) {
        Some(value) => Ok(value),
        None => Err(refused(4, place)),
    }
}

// An integer of a range.
pub fn number_in(value: &Value, place: Place, low: u32, high: u32) -> Result<u32, DocumentRefusal>
    ensures is { k.Reads (λ number. number) result (k.number_in place low high (view value.now)) }
    ensures least { IfOk result (λ number. low ≤ number) }
    ensures most { IfOk result (λ number. number ≤ high) }
{
    match value.as_integer() {
        Some(number) if i64::from(low) <= number && number <= i64::from(high) => Ok(number as u32),
        Some(_) => Err(refused(6, place)),
        None => Err(refused(5, place)),
    }
}

// An array.
pub fn items_in(value: &Value, place: Place) -> Result<&[Value], DocumentRefusal>
    ensures { k.Reads (λ items. items_view items.now) result (k.items_in place (view value.now)) }
{
    match value.as_array() {
        Some(items) => Ok(items.as_slice()),
        None => Err(refused(5, place)),
    }
}

// A file name.
pub fn file_name(value: &Value, place: Place) -> Result<&str, DocumentRefusal>
    ensures { k.Reads (λ text. text.now) result (k.file_name place (view value.now)) }
{
    match value.as_str() {
        Some(text) if text.is_empty() || text.len() > 255 => Err(refused(6, place)),
        Some(text) => Ok(text),
        None => Err(refused(5, place)),
    }
}

fn are_pins(text: &[u8]) -> bool
    ensures { result ≡ list_all k.is_pin text.now }
{
    for byte in text {
        if *byte != b'0' && *byte != b'1' {
            return false;
        }
    }
    true
}

// The pins of a device.
pub fn pins(value: &Value, place: Place) -> Result<&str, DocumentRefusal>
    ensures { k.Reads (λ text. text.now) result (k.pins place (view value.now)) }
{
    match value.as_str() {
        Some(text) if are_pins(text.as_bytes()) => Ok(text),
        Some(_) => Err(refused(6, place)),
        None => Err(refused(5, place)),
    }
}
