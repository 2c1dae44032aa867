// The files of the current folder.
ghost use Rattle.std.specs.Prelude.{◌≡◌, ◌≤◌, [], length, IfOk, None};

use crate::loads::Loads;
use crate::{LoadFault, Shelf};
use std::alloc::Global;
use std::fs;
use std::io::{ErrorKind, Read};
use std::rt::Files;

/// The files of the current folder, over the runtime that it was made with. It does not tell its files. A name with slashes leads
/// through folders.
#[derive(Drop)]
pub struct FolderShelf<R: Files> {
    rt: R,
    loads: Loads,
    faults: u64,
}

impl<R: Files> FolderShelf<R> {
    /// The current folder of this runtime. No load was made yet. Takes no memory.
    pub fn new(rt: R, alloc: Global) -> Self
        ensures loads { ⟦<FolderShelf<R> as Shelf>⟧.loads result ≡ [] }
        ensures faults { ⟦<FolderShelf<R> as Shelf>⟧.fault_count result ≡ 0 }
    {
        FolderShelf {
            rt,
            loads: Loads::new(alloc),
            faults: 0,
        }
    }
}

// What an error of the system means: a file that is not there, or a want of memory, or else a fault.
fn fault_of(kind: ErrorKind) -> LoadFault {
    match kind {
        ErrorKind::NotFound => LoadFault::Absent,
        ErrorKind::OutOfMemory => LoadFault::Memory,
        _ => LoadFault::Fault,
    }
}

// The first bytes of a file.
fn read_front<R: Files>(
    rt: &R,
    alloc: Global,
    name: &str,
    most: usize,
) -> Result<Vec<u8>, LoadFault>
    ensures { IfOk result (λ bytes. length bytes.items ≤ most) }
{
    let file = fs::open(rt, name).map_err(|error| fault_of(error.kind()))?;
    let mut bytes = Vec::new(alloc);
    match file.take(most as u64).read_to_end(&mut bytes) {
        Ok(_) => {
            bytes.truncate(most);
            Ok(bytes)
        }
        Err(error) if error.kind() == ErrorKind::OutOfMemory => Err(LoadFault::Memory),
        Err(_) => Err(LoadFault::Fault),
    }
}

impl<R: Files> Shelf for FolderShelf<R> {
    ghost files = { λ _. None };

    ghost loads = { λ s. s.loads };

    ghost fault_count = { λ s. s.faults };

    // A folder, and a name that leads through a file, are faults.
    fn load(&mut self, alloc: Global, name: &str, most: usize) -> Result<Vec<u8>, LoadFault> {
        let answer = read_front(&self.rt, alloc, name, most);
        self.loads.note(alloc, name, &answer)?;
        if let Err(LoadFault::Fault) = &answer {
            self.faults = self.faults.saturating_add(1);
        }
        answer
    }

    fn faults(&self) -> u64 {
        self.faults
    }
}
