// The loads that were made of a shelf.
ghost use Rattle.std.specs.Prelude.{◌≡◌, [], IfOk, OnOk, OnErr};
ghost use Rattle.ports.specs.Shelves.{seen, bytes_answered, after_load};

use crate::{Load, LoadFault};
use base_types::{Items, Text};
use std::alloc::{AllocError, Global};
use std::marker::Model;

/// The loads that were made, in order. Contracts see them as a list.
#[derive(Drop)]
pub struct Loads {
    list: Vec<Load>,
}

impl Model for Loads {
    ghost use Rattle.std.specs.Prelude.{List};
    ghost use Rattle.ports.specs.declared.shelf.Load.{Load};

    ghost Value = { List Load };

    ghost view = { λ loads. loads.list.items };
}

// A copy of the bytes that were answered.
fn copied(
    alloc: Global,
    answer: &Result<Vec<u8>, LoadFault>,
) -> Result<Option<Items<u8>>, AllocError>
    ensures { IfOk result (λ copy. copy ≡ bytes_answered (seen (λ bytes. bytes.items) answer.now)) }
{
    match answer {
        Ok(bytes) => Ok(Some(Items::from_vec(bytes.to_vec(alloc)?))),
        Err(_) => Ok(None),
    }
}

impl Loads {
    /// No load. Takes no memory.
    pub fn new(alloc: Global) -> Self
        ensures { result ≡ [] }
    {
        Loads {
            list: Vec::new(alloc),
        }
    }

    /// Puts a load behind the others, unless its answer is `Memory`. Where there is no memory for it, they stay as they are.
    pub fn note(
        &mut self,
        alloc: Global,
        name: &str,
        answer: &Result<Vec<u8>, LoadFault>,
    ) -> Result<(), AllocError>
        ensures noted { OnOk result (self.new ≡ after_load self.old name.now (seen (λ bytes. bytes.items) answer.now)) }
        ensures kept { OnErr result (self.new ≡ self.old) }
    {
        if let Err(LoadFault::Memory) = answer {
            return Ok(());
        }
        let answer = copied(alloc, answer)?;
        let name = Text::from_str(alloc, name)?;
        self.list.push(Load { name, answer })?;
        Ok(())
    }
}
