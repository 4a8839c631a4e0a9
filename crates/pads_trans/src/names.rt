//! The different names met so far.
ghost use Rattle.std.specs.Prelude.{◌≡◌, ◌<◌, [], length, IfOk, OnOk};
ghost use Rattle.pads_trans.specs.Names.{number_of, with_name, with_names};

use indexmap::IndexSet;
use pads_value::{Memory, NameTable};
use std::alloc::Global;
use std::marker::Model;

/// The different names met so far, each where it was first met.
#[derive(Drop)]
pub(crate) struct Names {
    set: IndexSet<Vec<u8>>,
    alloc: Global,
}

impl Model for Names {
    ghost use Rattle.std.specs.Prelude.{List, ℕ};
    ghost use Rattle.pads_value.specs.Names.{texts};

    ghost Value = { List (List ℕ) };

    ghost view = { λ names. texts names.set.keys };
}

impl Names {
    pub(crate) fn new(alloc: Global) -> Names
        ensures empty { result ≡ [] }
    {
        Names {
            set: IndexSet::new(alloc),
            alloc,
        }
    }

    pub(crate) fn len(&self) -> u64
        ensures length { result ≡ length self.now }
    {
        self.set.len() as u64
    }

    /// Meets a name.
    pub(crate) fn add(&mut self, name: &[u8]) -> Result<(), Memory>
        ensures met { OnOk result (self.new ≡ with_name self.old name.now) }
    {
        if let Some(_number) = self.set.get_index_of(name) {
            return Ok(());
        }
        self.set.insert(Vec::from_slice(self.alloc, name)?)?;
        Ok(())
    }

    /// The number of a name.
    pub(crate) fn number(&self, name: &[u8]) -> u16
        requires few { length self.now < 65535 }
        ensures number { result ≡ number_of self.now name.now }
    {
        match self.set.get_index_of(name) {
            Some(number) => number as u16,
            None => self.set.len() as u16,
        }
    }

    /// A table of the names.
    pub(crate) fn table(&self, alloc: Global) -> Result<NameTable, Memory>
        requires few { length self.now < 65535 }
        ensures names { IfOk result (λ table. table ≡ with_names [] self.now) }
    {
        let mut table = NameTable::new(alloc);
        for name in self.set.as_slice() {
            table.add(name.as_slice())?;
        }
        Ok(table)
    }
}
