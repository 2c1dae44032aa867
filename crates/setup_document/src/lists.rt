// Arrays of integers.
ghost use Rattle.std.specs.Prelude.{◌≡◌};
ghost use Rattle.toml.specs.View.{items_view};
ghost use Rattle.setup_document.specs.Keys as k;

use crate::keys::{number_in, refused};
use crate::{DocumentRefusal, Place};
use base_types::Items;
use std::alloc::Global;
use toml::Value;

fn are_integers(values: &[Value]) -> bool
    ensures { result ≡ k.are_integers (items_view values.now) }
{
    for value in values {
        if !value.is_integer() {
            return false;
        }
    }
    true
}

fn small_numbers(
    alloc: Global,
    values: &[Value],
    place: Place,
) -> Result<Items<u16>, DocumentRefusal>
    ensures { k.Reads (λ numbers. numbers) result (k.small_numbers place (items_view values.now)) }
{
    let mut numbers = Items::from_vec(Vec::new(alloc));
    for value in values {
        let number = number_in(value, place, 0, 65535)?;
        numbers.push(number as u16)?;
    }
    Ok(numbers)
}

// The integers of an array, from 0 to 65,535.
pub fn numbers(alloc: Global, values: &[Value], place: Place) -> Result<Items<u16>, DocumentRefusal>
    ensures { k.Reads (λ numbers. numbers) result (k.numbers place (items_view values.now)) }
{
    if are_integers(values) {
        small_numbers(alloc, values, place)
    } else {
        Err(refused(5, place))
    }
}

/// A device, counted from 1, and a cell, counted from 0.
#[derive(Clone, Copy)]
pub struct End {
    pub device: u16,
    pub cell: u32,
}

fn two_numbers(values: &[Value], place: Place) -> Result<End, DocumentRefusal>
    ensures { k.Reads k.pair_of result (k.two_numbers place (items_view values.now)) }
{
    match values {
        [device, cell] => {
            let device = number_in(device, place, 0, 65535)?;
            let cell = number_in(cell, place, 0, 65535)?;
            Ok(End {
                device: device as u16,
                cell,
            })
        }
        _ => Err(refused(6, place)),
    }
}

// The two integers of an array.
pub fn pair(values: &[Value], place: Place) -> Result<End, DocumentRefusal>
    ensures { k.Reads k.pair_of result (k.pair place (items_view values.now)) }
{
    if are_integers(values) {
        two_numbers(values, place)
    } else {
        Err(refused(5, place))
    }
}
