//! Names by number.
ghost use Rattle.std.specs.Prelude.{◌≡◌, [], length, IfSome, IfOk, is_some, nat_lt};
ghost use Rattle.pads_trans.specs.Met.{names_of};
ghost use Rattle.pads_trans.specs.Names.{number_of, with_names};

use crate::meet_decl::meet_decls;
use crate::names::Names;
use pads_resolution::Description;
use pads_value::{Memory, NameTable};
use std::alloc::Global;
use std::marker::Model;

/// The different names of a description.
#[tactic(auto, unfolding(crate::specs::Met::names_of))]
fn names_in(alloc: Global, description: &Description) -> Result<Names, Memory>
    ensures names { IfOk result (λ names. names ≡ names_of description.now) }
{
    let mut names = Names::new(alloc);
    meet_decls(&mut names, description.decls.as_slice())?;
    Ok(names)
}

/// The different names of a description, so few that 16 bits number them. Contracts see it as the list of
/// their texts, in the order in which they are first met.
#[derive(Drop)]
pub struct Numbering {
    names: Names,
}

impl Model for Numbering {
    ghost use Rattle.std.specs.Prelude.{List, ℕ, ◌<◌, length};

    ghost Value = { List (List ℕ) };

    ghost view = { λ numbering. numbering.names };

    ghost invariant = { λ numbering. length numbering.names < 65535 };
}

impl Numbering {
    /// The numbers of these names, where they are few enough.
    fn new(names: Names) -> Option<Numbering>
        ensures few { is_some result ≡ nat_lt (length names) 65535 }
        ensures names { IfSome result (λ numbering. numbering ≡ names) }
    {
        if names.len() >= 65_535 {
            return None;
        }
        Some(Numbering { names })
    }

    /// The numbers of the names that a description meets. `None` comes exactly where they are 65,535 or more.
    pub fn of(alloc: Global, description: &Description) -> Result<Option<Numbering>, Memory>
        ensures few { IfOk result (λ made. is_some made ≡ nat_lt (length (names_of description.now)) 65535) }
        ensures names { IfOk result (λ made. IfSome made (λ numbering. numbering ≡ names_of description.now)) }
    {
        Ok(Numbering::new(names_in(alloc, description)?))
    }

    /// The number of a name: its place, or that behind the last where it isn't there.
    pub fn number(&self, name: &[u8]) -> u16
        ensures number { result ≡ number_of self.now name.now }
    {
        self.names.number(name)
    }

    /// A table of the names.
    pub fn table(&self, alloc: Global) -> Result<NameTable, Memory>
        ensures names { IfOk result (λ table. table ≡ with_names [] self.now) }
    {
        self.names.table(alloc)
    }
}
