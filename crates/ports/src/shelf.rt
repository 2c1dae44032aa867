// A shelf of named bytes.
ghost use Rattle.std.specs.Prelude.{◌≡◌, ◌≤◌, ℕ, List, length, IfOk, IfErr};
ghost use Rattle.std.specs.declared.option.Option.{Option};
ghost use Rattle.ports.specs.declared.shelf.Load.{Load};
ghost use Rattle.ports.specs.declared.shelf.LoadFault.TheVariants.{Memory};
ghost use Rattle.ports.specs.Shelves.{NamedBytes, GivesFront, RefusesName, after_load, seen, HasLoadCause};

use base_types::{Items, Text};
use std::alloc::{AllocError, Global};

/// Why a load answers no bytes: memory is wanting, the shelf has no bytes of that name, or the load failed.
#[derive(Clone, Copy, Debug, Drop, PartialEq, Eq)]
pub enum LoadFault {
    Memory,
    Absent,
    Fault,
}

impl From<AllocError> for LoadFault {
    ghost from_gives = { λ _ e. e ≡ Memory };

    fn from(_: AllocError) -> LoadFault {
        LoadFault::Memory
    }
}

/// A load that was made: the name that was asked for, and the bytes that were answered, if any were.
#[derive(Drop)]
pub struct Load {
    pub name: Text,
    pub answer: Option<Items<u8>>,
}

/// Named bytes, as the files of a folder.
pub trait Shelf {
    /// The names and their bytes, where the shelf tells them. No call changes them.
    ghost files: { Self → Option (List NamedBytes) };

    /// The loads that were made, in order, without those that answered `Memory`.
    ghost loads: { Self → List Load };

    /// How often a load failed. It stays at the last value of `u64` once that is reached.
    ghost fault_count: { Self → ℕ };

    /// The first `most` bytes of that name, or all of them where there are fewer. `Absent` comes only where the shelf has no bytes of
    /// that name, and such a name is never answered. `Fault` comes only where the count of faults rose, which it does with
    /// no other answer. The load is put behind the others, but where memory is wanting, and then the loads stay as they are.
    fn load(&mut self, alloc: Global, name: &str, most: usize) -> Result<Vec<u8>, LoadFault>
        ensures given { IfOk result (λ bytes. GivesFront (files self.old) name.now most bytes.items) }
        ensures most { IfOk result (λ bytes. length bytes.items ≤ most) }
        ensures refused { IfErr result (λ fault. RefusesName (files self.old) name.now fault) }
        ensures files { files self.new ≡ files self.old }
        ensures loads { loads self.new ≡ after_load (loads self.old) name.now (seen (λ bytes. bytes.items) result) }
        ensures cause { HasLoadCause (fault_count self.old) (fault_count self.new) (seen (λ bytes. bytes.items) result) };

    /// How often a load failed.
    fn faults(&self) -> u64
        ensures { result ≡ fault_count self.now };
}
