ghost use Rattle.std.specs.Prelude.{◌≡◌, IfOk, OnOk};
ghost use Rattle.std.specs.List.{list_any};
ghost use Rattle.std.specs.Ordering.{int_eq};
ghost use Rattle.indexmap.specs.IndexSet.{insert_key};
ghost use Rattle.pads_rules.specs.DifferentNames.{with_name};
ghost use Rattle.pads_rules.specs.Texts.{is_among};
ghost use Rattle.pads_ast.specs.Trees.{points_of};
ghost use Rattle.pads_piece_rules.specs.ConstSets.{NoConst, AddsConst, has_const};

use crate::constants::signed;
use indexmap::IndexSet;
use pads_ast::{Const, Word};
use pads_declared::NameSet;
use pads_value::Memory;
use std::alloc::Global;

/// Different constants.
#[derive(Drop)]
pub(crate) struct ConstSet {
    numbers: IndexSet<i128>,
    words: NameSet,
}

/// Puts a number into a set, and says whether it was there.
fn add_number(numbers: &mut IndexSet<i128>, number: i128) -> Result<bool, Memory>
    ensures again { IfOk result (λ again. again ≡ list_any (int_eq number) numbers.old.keys) }
    ensures added { OnOk result (numbers.new.keys ≡ insert_key int_eq numbers.old.keys number) }
{
    Ok(!numbers.insert(number)?)
}

/// Puts a literal into a set, and says whether it was there.
fn add_word(words: &mut NameSet, word: &Word) -> Result<bool, Memory>
    ensures again { IfOk result (λ again. again ≡ is_among words.old (points_of word.now)) }
    ensures added { OnOk result (words.new ≡ with_name words.old (points_of word.now)) }
{
    match word {
        Word::Char { point, .. } => words.add(&[*point]),
        Word::Text { points, .. } => words.add(points.as_slice()),
    }
}

impl ConstSet {
    /// The set without constants.
    pub(crate) fn new(alloc: Global) -> ConstSet
        ensures empty { NoConst result }
    {
        ConstSet {
            numbers: IndexSet::new(alloc),
            words: NameSet::new(alloc),
        }
    }

    /// Puts a constant into the set, and says whether one of its value was there.
    pub(crate) fn add(&mut self, key: &Const) -> Result<bool, Memory>
        ensures again { IfOk result (λ again. again ≡ has_const self.old key.now) }
        ensures added { OnOk result (AddsConst self.old key.now self.new) }
    {
        match key {
            Const::Number {
                negative,
                value,
                ..
            } => add_number(&mut self.numbers, signed(*negative, value)),
            Const::Word(word) => add_word(&mut self.words, word),
        }
    }
}
