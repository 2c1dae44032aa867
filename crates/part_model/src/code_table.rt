// What the codes of a short instruction register select.
ghost use Rattle.std.specs.Prelude.{◌≡◌, [], ◌∷◌, ◌++◌, slice_get, IfOk, OnOk};

use std::alloc::{AllocError, Global};
use std::marker::Model;

// The number of a data register, and how many bits it has.
#[derive(Clone, Copy)]
pub struct Selected {
    pub register: u32,
    pub length: u32,
}

// What codes select, from code 0 on. Contracts see it as the list of the entries.
#[derive(Drop)]
pub struct CodeTable {
    entries: Vec<Selected>,
}

impl Model for CodeTable {
    ghost use Rattle.std.specs.Prelude.{List};
    ghost use Rattle.part_model.specs.declared.code_table.Selected.{Selected};

    ghost Value = { List Selected };

    ghost view = { λ table. table.entries.items };
}

impl CodeTable {
    // No entries. Takes no memory.
    pub fn empty(alloc: Global) -> CodeTable
        ensures { result ≡ [] }
    {
        CodeTable {
            entries: Vec::new(alloc),
        }
    }

    // No entries, with memory for so many.
    pub fn with_room(alloc: Global, count: usize) -> Result<CodeTable, AllocError>
        ensures { IfOk result (λ table. table ≡ []) }
    {
        Ok(CodeTable {
            entries: Vec::with_capacity(alloc, count)?,
        })
    }

    // One more entry, for the code behind the last.
    pub fn push(&mut self, entry: Selected) -> Result<(), AllocError>
        ensures { OnOk result (self.new ≡ self.old ++ entry ∷ []) }
    {
        self.entries.push(entry)?;
        Ok(())
    }

    // What a code selects, where there is an entry for it.
    pub fn get(&self, code: u64) -> Option<Selected>
        ensures { result ≡ slice_get self.now code }
    {
        self.entries.get(code as usize).copied()
    }

    // An equal table.
    pub fn copy(&self, alloc: Global) -> Result<CodeTable, AllocError>
        ensures { IfOk result (λ copy. copy ≡ self.now) }
    {
        Ok(CodeTable {
            entries: Vec::from_slice(alloc, &self.entries)?,
        })
    }
}
