ghost use Rattle.std.specs.Prelude.{◌≡◌, [], length, IfOk, OnOk, OnErr};
ghost use Rattle.pads_rules.specs.DifferentNames.{with_name};
ghost use Rattle.pads_rules.specs.Texts.{is_among};

use indexmap::IndexSet;
use pads_value::Memory;
use std::alloc::Global;
use std::marker::Model;

/// Different names, in the order in which they first came. Contracts see it as the list of their texts.
#[derive(Drop)]
pub struct NameSet {
    names: IndexSet<Vec<u8>>,
    alloc: Global,
}

impl Model for NameSet {
    ghost use Rattle.std.specs.Prelude.{List, ℕ};
    ghost use Rattle.pads_value.specs.Names.{texts};

    ghost Value = { List (List ℕ) };

    ghost view = { λ set. texts set.names.keys };
}

impl NameSet {
    /// The set without names.
    pub fn new(alloc: Global) -> NameSet
        ensures empty { result ≡ [] }
    {
        NameSet {
            names: IndexSet::new(alloc),
            alloc,
        }
    }

    pub fn len(&self) -> u64
        ensures length { result ≡ length self.now }
    {
        self.names.len() as u64
    }

    /// Puts a name into the set, and says whether it was there. Without memory the set stays as it was.
    pub fn add(&mut self, name: &[u8]) -> Result<bool, Memory>
        ensures again { IfOk result (λ again. again ≡ is_among self.old name.now) }
        ensures ok { OnOk result (self.new ≡ with_name self.old name.now) }
        ensures err { OnErr result (self.new ≡ self.old) }
    {
        if self.names.contains(name) {
            return Ok(true);
        }
        self.names.insert(Vec::from_slice(self.alloc, name)?)?;
        Ok(false)
    }
}
