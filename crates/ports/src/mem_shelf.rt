// A shelf in memory, which fails at the loads that it was given.
ghost use Rattle.std.specs.Prelude.{◌≡◌, ◌≤◌, [], length, take, None, Some, IfOk, IfErr, Ok};
ghost use Rattle.std.specs.Option.{option_map};
ghost use Rattle.ports.specs.Shelves.{NamedBytes, entries_of, named, front_of, seen, GivesFront, RefusesName, after_load, HasLoadCause, answer_of, after_mem_load, AnswersAs};

use crate::loads::Loads;
use crate::{LoadFault, Shelf};
use base_types::FailingCalls;
use std::alloc::Global;
use std::marker::Model;

/// Named bytes in memory. Of several entries with one name the first counts. Loads fail where they are to.
#[derive(Drop)]
pub struct MemShelf {
    files: Vec<(String, Vec<u8>)>,
    calls: FailingCalls,
    loads: Loads,
    faults: u64,
}

impl Model for MemShelf {
    ghost use Rattle.ports.specs.Shelves.{MemShelfView, entries_of};

    ghost Value = { MemShelfView };

    ghost view = { λ s. record { files = entries_of s.files.items; calls = s.calls; loads = s.loads; faults = s.faults } };
}

impl MemShelf {
    /// A shelf of these names and bytes. Load number i, counted from 1, fails exactly where its number is in `fails`. Takes no memory.
    pub fn new(alloc: Global, files: Vec<(String, Vec<u8>)>, fails: Vec<u64>) -> MemShelf
        ensures { result ≡ record { files = entries_of files.items; calls = record { fails = fails.items; made = 0 }; loads = []; faults = 0 } }
    {
        MemShelf {
            files,
            calls: FailingCalls::new(fails),
            loads: Loads::new(alloc),
            faults: 0,
        }
    }
}

// The bytes of a name.
fn bytes_of<'a>(files: &'a [(String, Vec<u8>)], name: &str) -> Option<&'a [u8]>
    ensures { option_map (λ bytes. bytes.now) result ≡ named (entries_of files.now) name.now }
{
    for file in files {
        if file.0.as_str() == name {
            return Some(file.1.as_slice());
        }
    }
    None
}

// What a load answers that does not fail.
fn front_of(
    alloc: Global,
    files: &[(String, Vec<u8>)],
    name: &str,
    most: usize,
) -> Result<Vec<u8>, LoadFault>
    ensures { AnswersAs (seen (λ bytes. bytes.items) result) (front_of most (named (entries_of files.now) name.now)) }
{
    let Some(bytes) = bytes_of(files, name) else {
        return Err(LoadFault::Absent);
    };
    match bytes[..most.min(bytes.len())].to_vec(alloc) {
        Ok(front) => Ok(front),
        Err(_) => Err(LoadFault::Memory),
    }
}

impl Shelf for MemShelf {
    ghost files = { λ s. Some s.files };

    ghost loads = { λ s. s.loads };

    ghost fault_count = { λ s. s.faults };

    fn load(&mut self, alloc: Global, name: &str, most: usize) -> Result<Vec<u8>, LoadFault>
        ensures given { IfOk result (λ bytes. GivesFront (Some self.old.files) name.now most bytes.items) }
        ensures most { IfOk result (λ bytes. length bytes.items ≤ most) }
        ensures refused { IfErr result (λ fault. RefusesName (Some self.old.files) name.now fault) }
        ensures files { Some self.new.files ≡ Some self.old.files }
        ensures loads { self.new.loads ≡ after_load self.old.loads name.now (seen (λ bytes. bytes.items) result) }
        ensures cause { HasLoadCause self.old.faults self.new.faults (seen (λ bytes. bytes.items) result) }
        ensures answer { AnswersAs (seen (λ bytes. bytes.items) result) (answer_of self.old name.now most) }
        ensures after { self.new ≡ after_mem_load self.old name.now (seen (λ bytes. bytes.items) result) }
    {
        let answer = if self.calls.count() {
            Err(LoadFault::Fault)
        } else {
            front_of(alloc, &self.files, name, most)
        };
        self.loads.note(alloc, name, &answer)?;
        if let Err(LoadFault::Fault) = &answer {
            self.faults = self.faults.saturating_add(1);
        }
        answer
    }

    fn faults(&self) -> u64 {
        self.faults
    }
}
