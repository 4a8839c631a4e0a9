//! The declared types of a description, found by their names.

ghost use Rattle.std.specs.Prelude.{◌≡◌, ◌++◌, ◌∷◌, [], length, take, is_some, slice_get, option_map, IfOk};
ghost use Rattle.std.specs.Option.{option_copied};
ghost use Rattle.pads_rules.specs.Members.{content_of};
ghost use Rattle.pads_rules.specs.Resolving as resolving;
ghost use Rattle.pads_declared.specs.Numbered.{member_position};

use crate::FirstNumbers;
use crate::member_numbers::number_members;
use crate::records::is_precursive;
use pads_rules::{Declared, Environment};
use pads_value::{Items, Memory};
use std::alloc::Global;
use std::marker::Model;

/// The declared types of a description in order. The first type of a name is found without a walk over the others,
/// and so is the first field, branch or label of a name in a type. Contracts see it as the list of the types.
#[derive(Drop)]
pub struct TypeTable {
    types: Environment,
    /// The number of the first type of each name.
    numbers: FirstNumbers,
    /// For each type the numbers of its fields, branches or labels.
    members: Items<FirstNumbers>,
}

impl Model for TypeTable {
    ghost use Rattle.std.specs.Prelude.{List};
    ghost use Rattle.pads_rules.specs.declared.declared.Declared.{Declared};
    ghost use Rattle.pads_declared.specs.Numbered.{IsTable};

    ghost Value = { List Declared };

    ghost view = { λ table. table.types };

    ghost invariant = { λ table. IsTable table.types table.numbers table.members };
}

impl TypeTable {
    /// The table without types.
    pub(crate) fn new(alloc: Global) -> TypeTable
        ensures empty { result ≡ [] }
    {
        TypeTable {
            types: Items::new(alloc),
            numbers: FirstNumbers::new(alloc),
            members: Items::new(alloc),
        }
    }

    /// The table with one type more, behind the others.
    pub(crate) fn with(self, alloc: Global, declared: Declared) -> Result<TypeTable, Memory>
        ensures added { IfOk result (λ table. table ≡ self ++ declared ∷ []) }
    {
        let TypeTable {
            mut types,
            mut numbers,
            mut members,
        } = self;
        let number = types.len() as usize;
        numbers.add(alloc, declared.name.as_slice(), number)?;
        members.push(number_members(alloc, &declared.content)?)?;
        types.push(declared)?;
        Ok(TypeTable {
            types,
            numbers,
            members,
        })
    }

    pub fn len(&self) -> usize
        ensures length { result ≡ length self.now }
    {
        self.types.len() as usize
    }

    /// A type by its number; `None` exactly past the end.
    pub fn get(&self, number: u64) -> Option<&Declared>
        ensures item { option_copied result ≡ slice_get self.now number }
    {
        self.types.get(number)
    }

    /// The number of the first field, branch or label of a name in a type of a number; `None` exactly where none has it.
    pub fn member_position(&self, number: u64, name: &[u8]) -> Option<usize>
        ensures first { result ≡ member_position (content_of self.now number) name.now }
    {
        self.members.get(number)?.number_of(name)
    }

    /// The number of the first type of a name; `None` exactly where none has it.
    pub fn number_of(&self, name: &[u8]) -> Option<usize>
        ensures first { result ≡ resolving.first_of self.now name.now }
    {
        self.numbers.number_of(name)
    }

    /// Whether a type has a name.
    pub fn declares(&self, name: &[u8]) -> bool
        ensures declared { result ≡ is_some (resolving.declared_as self.now name.now) }
    {
        self.number_of(name).is_some()
    }

    /// Whether one of the types before a number has a name.
    pub fn declares_before(&self, number: usize, name: &[u8]) -> bool
        ensures declared { result ≡ is_some (resolving.declared_as (take number self.now) name.now) }
    {
        match self.number_of(name) {
            Some(first) => first < number,
            None => false,
        }
    }

    /// The types as the declaration of a number sees them.
    pub fn seen_from<'a>(&'a self, number: usize) -> Sight<'a>
        ensures types { result ≡ resolving.seen_from self.now number }
    {
        Sight {
            table: self,
            number,
        }
    }
}

/// Declared types as the declaration of a number sees them: it names those before it, and of itself and the later ones
/// those that are marked `Precursive`. Contracts see it as the types and the number.
#[derive(Drop)]
pub struct Sight<'a> {
    table: &'a TypeTable,
    number: usize,
}

impl<'a> Model for Sight<'a> {
    ghost use Rattle.pads_rules.specs.Resolving as resolving;

    ghost Value = { resolving.Sight };

    ghost view = { λ sight. resolving.seen_from sight.table.now sight.number };
}

impl<'a> Sight<'a> {
    /// The number of the declaration that sees the types.
    pub fn number(&self) -> usize
        ensures number { result ≡ self.now.number }
    {
        self.number
    }

    /// The number of the first type of a name, whether or not it may be named; `None` exactly where none has it.
    pub fn number_of(&self, name: &[u8]) -> Option<usize>
        ensures first { result ≡ resolving.first_of self.now.types name.now }
    {
        let table = self.table;
        table.number_of(name)
    }

    /// Whether the type of a number may be named.
    fn may_be_named(&self, number: usize) -> bool
        ensures may { result ≡ resolving.may_be_named self.now number }
    {
        let table = self.table;
        let recursive = match table.get(number as u64) {
            Some(declared) => is_precursive(declared.mark),
            None => false,
        };
        number < self.number || recursive
    }

    /// The number of the type that a name names; `None` exactly where it names none.
    pub fn named_number(&self, name: &[u8]) -> Option<usize>
        ensures named { result ≡ resolving.named_number self.now name.now }
    {
        let number = self.number_of(name)?;
        if self.may_be_named(number) {
            Some(number)
        } else {
            None
        }
    }

    /// The type that a name names; `None` exactly where it names none.
    pub fn named_type(&self, name: &[u8]) -> Option<&'a Declared>
        ensures named { option_map (λ found. found.now) result ≡ resolving.named_type self.now name.now }
    {
        let number = self.named_number(name)?;
        let table: &'a TypeTable = self.table;
        table.types.get(number as u64)
    }
}
