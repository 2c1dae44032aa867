// A setup, and why there is none.
ghost use Rattle.std.specs.Prelude.{◌≡◌};
ghost use Rattle.setup_read.specs.declared.setup.SetupRefusal.TheVariants.{Memory};

use base_types::{Items, Text};
use chain_model::Board;
use grant_table::{Layout, LayoutRefusal};
use setup_document::Place;
use std::alloc::{AllocError, AllocFailed};
use thiserror::Error;

/// What a setup file and the BSDL files that it names say: the file's version, 1 or 2, the greatest number of bytes of TMS in a shift,
/// the names of the devices' entities in capitals and their boards, both from TDI on, and the layout of the grants.
#[derive(Drop)]
pub struct Setup {
    pub version: u8,
    pub vector: u32,
    pub names: Items<Text>,
    pub boards: Items<Board>,
    pub layout: Layout,
}

/// Why there is no setup. `Plain` is a refusal of the setup file and `Layout` one of its grants and nets. `Absent` says that the file of a
/// device is not on the shelf, `Bsdl` that it is refused, with the byte and the cause, and `Pins` that the device's pins are not as many
/// as its boundary cells. `Cell` says that a net has a cell that its device has not. Devices and nets count from 1. `Fault` comes only
/// where a load failed.
#[derive(Clone, Copy, Debug, PartialEq, Eq, Error)]
pub enum SetupRefusal {
    #[error("no setup file")]
    Plain { cause: u8, place: Place },
    #[error("no layout")]
    Layout(LayoutRefusal),
    #[error("no such BSDL file")]
    Absent { device: u16 },
    #[error("no BSDL text of a device type")]
    Bsdl { device: u16, at: usize, cause: u8 },
    #[error("another number of pins than boundary cells")]
    Pins { device: u16 },
    #[error("a net to a cell that is not there")]
    Cell { net: u32 },
    #[error("a load failed")]
    Fault,
    #[error("out of memory")]
    Memory,
}

impl From<AllocError> for SetupRefusal {
    ghost from_gives = { λ _ e. e ≡ Memory };

    fn from(_: AllocError) -> SetupRefusal {
        SetupRefusal::Memory
    }
}

impl<T: Drop> From<AllocFailed<T>> for SetupRefusal {
    ghost from_gives = { λ _ e. e ≡ Memory };

    fn from(_: AllocFailed<T>) -> SetupRefusal {
        SetupRefusal::Memory
    }
}
