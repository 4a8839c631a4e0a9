ghost use Rattle.std.specs.Prelude.{◌≡◌, ◌<◌, ◌++◌, ◌∷◌, [], length, slice_get, Some, IfOk, OnErr};
ghost use Rattle.std.specs.Option.{option_map};
ghost use Rattle.pads_value.specs.Names.{NumbersName};

use crate::Memory;
use indexmap::IndexSet;
use std::alloc::Global;
use std::marker::Model;

/// The different names of a description by number, in the order in which they first came. Contracts
/// see it as the list of their texts.
#[derive(Drop)]
pub struct NameTable {
    names: IndexSet<Vec<u8>>,
    alloc: Global,
}

impl Model for NameTable {
    ghost use Rattle.std.specs.Prelude.{List, ℕ, map};
    ghost use Rattle.pads_value.specs.Names.{texts};

    ghost Value = { List (List ℕ) };

    ghost view = { λ table. texts table.names.keys };
}

impl NameTable {
    /// The table without names.
    pub fn new(alloc: Global) -> NameTable
        ensures empty { result ≡ [] }
    {
        NameTable {
            names: IndexSet::new(alloc),
            alloc,
        }
    }

    pub fn len(&self) -> u64
        ensures length { result ≡ length self.now }
    {
        self.names.len() as u64
    }

    /// The number of a name, from 0. A name that isn't there yet goes last. Without memory the table
    /// stays as it was.
    pub fn add(&mut self, name: &[u8]) -> Result<u16, Memory>
        requires room { length self.old < 65535 }
        ensures number { IfOk result (λ number. NumbersName self.old name.now number self.new) }
        ensures err { OnErr result (self.new ≡ self.old) }
    {
        if let Some(number) = self.names.get_index_of(name) {
            return Ok(number as u16);
        }
        let number = self.names.len() as u16;
        self.names.insert(Vec::from_slice(self.alloc, name)?)?;
        Ok(number)
    }

    /// A table equal to this one.
    pub fn copy(&self, alloc: Global) -> Result<NameTable, Memory>
        ensures equal { IfOk result (λ copied. copied ≡ self.now) }
    {
        Ok(NameTable {
            names: self.names.clone()?,
            alloc,
        })
    }

    /// The name of a number; `None` exactly past the end.
    pub fn at(&self, number: u16) -> Option<&[u8]>
        ensures name { option_map (λ name. name.now) result ≡ slice_get self.now number }
    {
        match self.names.get_index(number as usize) {
            Some(name) => Some(name.as_slice()),
            None => None,
        }
    }
}
