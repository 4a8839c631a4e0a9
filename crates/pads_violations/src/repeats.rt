//! What may come once alone.

ghost use Rattle.std.specs.Prelude.{◌≡◌, map, IfOk, OnOk};
ghost use Rattle.pads_rules.specs.DeclRules as rules;
ghost use Rattle.pads_rules.specs.DifferentNames.{with_name};
ghost use Rattle.pads_rules.specs.Texts.{is_among};
ghost use Rattle.pads_violations.specs.Repeats.{names_again_told, options_again_told, spellings_again_told};
ghost use Rattle.pads_violations.specs.OptionKinds.{has_kind, with_kind};

use pads_ast::{ArrayOption, Label, Name, Word};
use pads_declared::NameSet;
use pads_rules::{CheckFault, Rule, fault_if, lesser};
use pads_value::Memory;
use std::alloc::Global;
use std::mem;

/// Names that come again.
pub(crate) fn names_again(alloc: Global, names: &[&Name]) -> Result<Option<CheckFault>, Memory>
    ensures told { IfOk result (λ fault. fault ≡ names_again_told (map (λ name. name.now) names.now)) }
{
    let mut met = NameSet::new(alloc);
    let mut best = None;
    for name in names {
        let again = met.add(name.text.as_slice())?;
        best = lesser(best, fault_if(again, Rule::NameAgain, name.at));
    }
    Ok(best)
}

/// The kinds of array options that were met.
#[derive(Drop)]
struct Kinds {
    separator: bool,
    terminator: bool,
    last: bool,
}

impl Kinds {
    /// Puts an option's kind to the others, and says whether it was there.
    fn add(&mut self, option: &ArrayOption) -> bool
        ensures again { result ≡ has_kind self.old option.now }
        ensures met { self.new ≡ with_kind self.old option.now }
    {
        match option {
            ArrayOption::Psep { .. } => mem::replace(&mut self.separator, true),
            ArrayOption::Pterm { .. } => mem::replace(&mut self.terminator, true),
            ArrayOption::Plast { .. } => mem::replace(&mut self.last, true),
        }
    }
}

fn option_place(option: &ArrayOption) -> u64
    ensures place { result ≡ rules.option_place option.now }
{
    match option {
        ArrayOption::Psep { at, .. }
        | ArrayOption::Pterm { at, .. }
        | ArrayOption::Plast { at, .. } => *at,
    }
}

/// Array options that come again.
pub(crate) fn options_again(options: &[ArrayOption]) -> Option<CheckFault>
    ensures told { result ≡ options_again_told options.now }
{
    let mut met = Kinds {
        separator: false,
        terminator: false,
        last: false,
    };
    let mut best = None;
    for option in options {
        let again = met.add(option);
        best = lesser(best, fault_if(again, Rule::NameAgain, option_place(option)));
    }
    best
}

/// Puts a label's spelling to those that were met, and says whether it was there.
fn add_spelling(met: &mut NameSet, label: &Label) -> Result<bool, Memory>
    ensures again { IfOk result (λ again. again ≡ is_among met.old (rules.spelling_of label.now).0) }
    ensures met { OnOk result (met.new ≡ with_name met.old (rules.spelling_of label.now).0) }
{
    match &label.spelling {
        None => met.add(label.name.text.as_slice()),
        Some(Word::Char { point, .. }) => met.add(&[*point]),
        Some(Word::Text { points, .. }) => met.add(points.as_slice()),
    }
}

fn spelling_place(label: &Label) -> u64
    ensures place { result ≡ (rules.spelling_of label.now).1 }
{
    match &label.spelling {
        None => label.name.at,
        Some(Word::Char { at, .. } | Word::Text { at, .. }) => *at,
    }
}

/// Enum spellings that come again.
pub(crate) fn spellings_again(alloc: Global, labels: &[Label]) -> Result<Option<CheckFault>, Memory>
    ensures told { IfOk result (λ fault. fault ≡ spellings_again_told labels.now) }
{
    let mut met = NameSet::new(alloc);
    let mut best = None;
    for label in labels {
        let again = add_spelling(&mut met, label)?;
        best = lesser(
            best,
            fault_if(again, Rule::SpellingAgain, spelling_place(label)),
        );
    }
    Ok(best)
}
