//! The constants of cases.

ghost use Rattle.std.specs.Prelude.{◌≡◌, IfOk};
ghost use Rattle.pads_rules.specs.Faults.{least};
ghost use Rattle.pads_rules.specs.Judging as judging;
ghost use Rattle.pads_rules.specs.PieceRules as rules;
ghost use Rattle.pads_piece_rules.specs.Told.{keys_of, keys_told, again_told};

use crate::const_set::ConstSet;
use pads_ast::{Case, Const, Number, Word};
use pads_rules::{CheckFault, ExprSort, Form, Rule, fault_if, lesser};
use pads_value::Memory;
use std::alloc::Global;

/// The place of a literal.
pub(crate) fn place_of(word: &Word) -> u64
    ensures place { result ≡ judging.place_of word.now }
{
    match word {
        Word::Char { at, .. } | Word::Text { at, .. } => *at,
    }
}

fn const_sort(key: &Const) -> ExprSort
    ensures sort { result ≡ rules.const_sort key.now }
{
    match key {
        Const::Number { .. } => ExprSort::plain(Form::Num),
        Const::Word(_) => ExprSort::plain(Form::Text),
    }
}

fn const_place(key: &Const) -> u64
    ensures place { result ≡ rules.const_place key.now }
{
    match key {
        Const::Number { at, .. } => *at,
        Const::Word(word) => place_of(word),
    }
}

/// The number of a constant.
pub(crate) fn signed(negative: bool, value: &Number) -> i128
    ensures number { result ≡ rules.signed negative value.now }
{
    let value = value.get();
    if negative { 0 - value } else { value }
}

/// Constants of another sort than the switch's.
#[tactic(auto, unfolding(crate::specs::Told::keys_told))]
pub(crate) fn keys(sort: ExprSort, cases: &[Case]) -> Option<CheckFault>
    ensures told { result ≡ keys_told sort (keys_of cases.now) }
{
    let mut best = None;
    for case in cases {
        let agrees = sort.agrees(const_sort(&case.key));
        best = lesser(
            best,
            fault_if(!agrees, Rule::CaseSort, const_place(&case.key)),
        );
    }
    best
}

/// Constants that come again.
#[tactic(auto, unfolding(crate::specs::Told::again_told))]
pub(crate) fn keys_again(alloc: Global, cases: &[Case]) -> Result<Option<CheckFault>, Memory>
    ensures told { IfOk result (λ fault. fault ≡ again_told (keys_of cases.now)) }
{
    let mut met = ConstSet::new(alloc);
    let mut best = None;
    for case in cases {
        let again = met.add(&case.key)?;
        best = lesser(
            best,
            fault_if(again, Rule::CaseAgain, const_place(&case.key)),
        );
    }
    Ok(best)
}
