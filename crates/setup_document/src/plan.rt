// What a setup file says, and why it is refused.
ghost use Rattle.std.specs.Prelude.{◌≡◌};
ghost use Rattle.setup_document.specs.declared.plan.DocumentRefusal.TheVariants.{Memory};

use base_types::{Items, Text};
use grant_table::{Grant, Net};
use std::alloc::{AllocError, AllocFailed};
use thiserror::Error;

/// Where something stands in a setup file: in the table of the whole document, or in a device, a grant or a net, counted from 1.
#[derive(Clone, Copy, Debug, PartialEq, Eq)]
pub enum Place {
    Top,
    Device(u64),
    Grant(u64),
    Net(u64),
}

/// A device as the file has it: the name of its BSDL file, of 1 to 255 bytes, and the values at its pins as a text of `0` and `1`, the
/// rightmost nearest TDO.
#[derive(Drop)]
pub struct DeviceEntry {
    pub bsdl: Text,
    pub pins: Option<Text>,
}

/// What a setup file says: its version, 1 or 2, the greatest number of bytes of TMS in a shift, 1 to 65,536, the devices from TDI to TDO,
/// the grants, and the nets.
#[derive(Drop)]
pub struct SetupPlan {
    pub version: u8,
    pub vector: u32,
    pub devices: Items<DeviceEntry>,
    pub grants: Items<Grant>,
    pub nets: Items<Net>,
}

/// Why bytes are no setup file. The causes are 1 more than 1,048,576 bytes, 2 no TOML document, 3 an unknown key, 4 a required key that is
/// missing, 5 a value of another kind, and 6 a number or a text outside its range.
#[derive(Clone, Copy, Debug, PartialEq, Eq, Error)]
pub enum DocumentRefusal {
    #[error("out of memory")]
    Memory,
    #[error("no setup file")]
    Refused { cause: u8, place: Place },
}

impl From<AllocError> for DocumentRefusal {
    ghost from_gives = { λ _ e. e ≡ Memory };

    fn from(_: AllocError) -> DocumentRefusal {
        DocumentRefusal::Memory
    }
}

impl<T: Drop> From<AllocFailed<T>> for DocumentRefusal {
    ghost from_gives = { λ _ e. e ≡ Memory };

    fn from(_: AllocFailed<T>) -> DocumentRefusal {
        DocumentRefusal::Memory
    }
}
