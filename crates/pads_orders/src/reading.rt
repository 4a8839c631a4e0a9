ghost use Rattle.std.specs.Prelude.{◌≡◌, ◌↔◌, ◌≤◌, [], ◌∷◌, Some, None, Err, IfOk, IfSome, IfNone, option_copied, option_map};
ghost use Rattle.std.specs.List.{list_any};
ghost use Rattle.std.specs.Option.{is_some};
ghost use Rattle.pads_orders.specs.Options.{arguments, behind};
ghost use Rattle.pads_orders.specs.Orders.{beginning, description_of, is_one_of, only, question as question_by, question_of, records_asked as records_of_order, has_only, settings_for, order_of, KeepSettings, KeepsLimits};
ghost use Rattle.pads_orders.specs.Questions.{question_told};
ghost use Rattle.pads_value.specs.declared.memory.Refusal.TheVariants as refusal;

use crate::mask::mask_in;
use crate::number::count_to;
use crate::option::{behind, is_option};
use crate::order::{Command, OptionName, Order, Question, Settings, Usage, settings_in};
use crate::word::{Word, Words};
use pads_value::{Memory, Refusal};
use std::alloc::Global;

/// The first word that is no option, and the words behind it.
#[derive(Clone, Copy)]
struct Argument<'w> {
    word: &'w Word,
    behind: &'w [Word],
}

fn first_argument<'w>(words: &'w [Word]) -> Option<Argument<'w>>
    ensures first { IfSome result (λ first. arguments words.now ≡ first.word.now ∷ arguments first.behind.now) }
    ensures none { IfNone result (arguments words.now ≡ []) }
{
    let mut rest = words;
    'words: while let [word, more @ ..] = rest {
        if !is_option(word) {
            return Some(Argument { word, behind: more });
        }
        rest = more;
    }
    None
}

/// The one word that is no option.
fn only_argument(words: &[Word]) -> Option<&Word>
    ensures only { option_copied result ≡ only (arguments words.now) }
{
    let first = first_argument(words)?;
    match first_argument(first.behind) {
        None => Some(first.word),
        Some(_) => None,
    }
}

/// The one argument, where it isn't empty.
fn description_in(words: &[Word]) -> Option<&Word>
    ensures description { option_copied result ≡ description_of (arguments words.now) }
{
    let name = only_argument(words)?;
    if name.as_str().is_empty() {
        return None;
    }
    Some(name)
}

/// The one argument, which names a description's file.
pub(crate) fn description(alloc: Global, words: &[Word]) -> Result<Word, Refusal<Usage>>
    ensures description { IfOk result (λ name. description_of (arguments words.now) ≡ Some name) }
    ensures usage { (result ≡ Err (refusal.Fault record {})) ↔ (description_of (arguments words.now) ≡ None) }
{
    let Some(name) = description_in(words) else {
        return Err(Refusal::Fault(Usage));
    };
    Ok(name.copy(alloc)?)
}

/// What a query asks, before memory is taken for it.
#[derive(Clone, Copy)]
struct QuestionWords<'w> {
    description: &'w Word,
    path: &'w Word,
    filter: Option<&'w Word>,
}

/// What is asked by these arguments.
fn asked<'w>(
    description: &'w Word,
    path: &'w Word,
    filter: Option<&'w Word>,
) -> Option<QuestionWords<'w>>
    ensures asked { option_map question_told result ≡ question_by description.now path.now (option_copied filter.entry) }
{
    if description.as_str().is_empty() || path.as_str().is_empty() {
        return None;
    }
    Some(QuestionWords {
        description,
        path,
        filter,
    })
}

/// What the arguments of a query ask.
fn asked_in<'w>(words: &'w [Word]) -> Option<QuestionWords<'w>>
    ensures asked { option_map question_told result ≡ question_of (arguments words.now) }
{
    let description = first_argument(words)?;
    let path = first_argument(description.behind)?;
    let Some(filter) = first_argument(path.behind) else {
        return asked(description.word, path.word, None);
    };
    match first_argument(filter.behind) {
        None => asked(description.word, path.word, Some(filter.word)),
        Some(_) => None,
    }
}

/// A word in memory of its own, where there is one.
fn copied(alloc: Global, word: Option<&Word>) -> Result<Option<Word>, Memory>
    ensures same { IfOk result (λ copied. copied ≡ option_copied word.entry) }
{
    match word {
        None => Ok(None),
        Some(word) => Ok(Some(word.copy(alloc)?)),
    }
}

/// What the arguments of a query ask, in memory of its own.
pub(crate) fn question(alloc: Global, words: &[Word]) -> Result<Question, Refusal<Usage>>
    ensures question { IfOk result (λ question. question_of (arguments words.now) ≡ Some question) }
    ensures usage { (result ≡ Err (refusal.Fault record {})) ↔ (question_of (arguments words.now) ≡ None) }
{
    let Some(asked) = asked_in(words) else {
        return Err(Refusal::Fault(Usage));
    };
    Ok(Question {
        description: asked.description.copy(alloc)?,
        path: asked.path.copy(alloc)?,
        filter: copied(alloc, asked.filter)?,
    })
}

/// The one argument, which is the number of records for a self-test.
pub(crate) fn records_asked(words: &[Word]) -> Option<u32>
    ensures records { result ≡ records_of_order (arguments words.now) }
    ensures within { IfSome result (λ records. records ≤ 1000000) }
{
    let word = only_argument(words)?;
    let records = count_to(1_000_000, word.as_str().as_bytes())?;
    Some(records as u32)
}

/// Whether a word is an option of this name.
fn is_named(name: OptionName, word: &Word) -> bool
    ensures named { result ≡ is_some (behind (beginning name) word.now) }
{
    match behind(name.line().beginning, word.as_str().as_bytes()) {
        Some(_) => true,
        None => false,
    }
}

/// Whether a word is one of these options.
fn is_listed(names: &[OptionName], word: &Word) -> bool
    ensures listed { result ≡ list_any (λ name. is_some (behind (beginning name) word.now)) names.now }
{
    names.iter().any(|name| is_named(*name, word))
}

/// Whether a word is no option, or one of these.
fn is_one_of(names: &[OptionName], word: &Word) -> bool
    ensures suits { result ≡ is_one_of names.now word.now }
{
    !is_option(word) || is_listed(names, word)
}

/// Whether each option is one of these.
fn has_only(names: &[OptionName], words: &[Word]) -> bool
    ensures only { result ≡ has_only names.now words.now }
{
    words.iter().all(|word| is_one_of(names, word))
}

/// What the options behind a command come to, each of which it takes.
fn settings_for(command: Command, words: &[Word]) -> Option<Settings>
    ensures settings { result ≡ settings_for command words.now }
    ensures limits { IfSome result KeepSettings }
{
    if !has_only(command.options(), words) {
        return None;
    }
    settings_in(words)
}

/// Reads the words of the command line. `Usage` comes exactly where they are no order.
pub fn read_order(alloc: Global, words: &Words) -> Result<Order, Refusal<Usage>>
    ensures order { IfOk result (λ order. order_of words.now ≡ Some order) }
    ensures usage { (result ≡ Err (refusal.Fault record {})) ↔ (order_of words.now ≡ None) }
    ensures limits { IfOk result KeepsLimits }
{
    let [name, others @ ..] = words.as_slice() else {
        return Err(Refusal::Fault(Usage));
    };
    let Some(command) = Command::named(name.as_str()) else {
        return Err(Refusal::Fault(Usage));
    };
    let Some(settings) = settings_for(command, others) else {
        return Err(Refusal::Fault(Usage));
    };
    let Some(mask) = mask_in(others) else {
        return Err(Refusal::Fault(Usage));
    };
    command.order(alloc, others, settings, mask)
}
