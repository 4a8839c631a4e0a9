//! Numbers of things by their names.

ghost use Rattle.std.specs.Prelude.{◌≡◌, OnOk};
ghost use Rattle.pads_declared.specs.Numbered.{number_in, is_text, HasNone, NumbersThing};

use indexmap::IndexMap;
use pads_value::Memory;
use std::alloc::Global;

/// The number of the first thing of each name, found without a walk over the others. Contracts see it through
/// `number_in`.
#[derive(Drop)]
pub struct FirstNumbers {
    numbers: IndexMap<Vec<u8>, usize>,
}

impl FirstNumbers {
    /// No name has a number.
    pub fn new(alloc: Global) -> FirstNumbers
        ensures empty { HasNone result }
    {
        FirstNumbers {
            numbers: IndexMap::new(alloc),
        }
    }

    /// Gives a name its number, where it has none yet.
    pub fn add(&mut self, alloc: Global, name: &[u8], number: usize) -> Result<(), Memory>
        ensures numbered { OnOk result (NumbersThing is_text self.old name.now number self.new) }
    {
        if self.numbers.contains_key(name) {
            return Ok(());
        }
        self.numbers.insert(Vec::from_slice(alloc, name)?, number)?;
        Ok(())
    }

    /// The number of a name; `None` exactly where it has none.
    pub fn number_of(&self, name: &[u8]) -> Option<usize>
        ensures number { result ≡ number_in self.now name.now }
    {
        self.numbers.get(name).copied()
    }
}
