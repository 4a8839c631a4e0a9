ghost use Rattle.std.specs.Prelude.{◌≡◌};
ghost use Rattle.std.specs.List.{list_any};
ghost use Rattle.pads_rules.specs.Texts as texts;
ghost use Rattle.pads_rules.specs.Texts.{is_among};
ghost use Rattle.pads_rules.specs.Pieces.{texts_of_parts};
ghost use Rattle.pads_judge.specs.Scopes as scopes;
ghost use Rattle.pads_judge.specs.Scopes.{names_in_scope};

use pads_ast::Part;
use pads_declared::same_text;
use pads_rules::{ExprSort, Named};

/// The names that an expression may use. A name that hides others lives on the stack.
#[derive(Clone, Copy)]
pub enum Scope<'s, 'a> {
    /// Names with their sorts, of which the first of a text counts, and this and the later parts of the struct
    /// around.
    Names(&'a [Named], &'a [Part]),
    /// A name that hides others.
    Hiding(&'a [u8], ExprSort, &'s Scope<'s, 'a>),
}

/// The sort of a name: the first of that text gives it.
fn sort_of(names: &[Named], text: &[u8]) -> Option<ExprSort>
    ensures first { result ≡ texts.sort_of names.now text.now }
{
    let named = names
        .iter()
        .find(|named| same_text(named.text.as_slice(), text))?;
    Some(named.sort)
}

/// The sort of a name in a scope.
pub(crate) fn sort_in(scope: &Scope<'_, '_>, text: &[u8]) -> Option<ExprSort>
    ensures first { result ≡ texts.sort_of (names_in_scope scope.now).visible text.now }
{
    match scope {
        Scope::Names(names, _) => sort_of(names, text),
        Scope::Hiding(name, sort, outer) => {
            if same_text(name, text) {
                Some(*sort)
            } else {
                sort_in(*outer, text)
            }
        }
    }
}

/// Whether a part has that name.
fn is_named(part: &Part, text: &[u8]) -> bool
    ensures named { result ≡ scopes.is_named text.now part.now }
{
    match part {
        Part::Literal(_) => false,
        Part::Pcompute { name, .. } => same_text(text, name.text.as_slice()),
        Part::Field(branch) => same_text(text, branch.name.text.as_slice()),
    }
}

fn is_any_named(parts: &[Part], text: &[u8]) -> bool
    ensures any { result ≡ list_any (scopes.is_named text.now) parts.now }
{
    parts.iter().any(|part| is_named(part, text))
}

#[tactic(auto, using(crate::proofs::LaterLemmas::later_rules))]
fn is_part(parts: &[Part], text: &[u8]) -> bool
    ensures among { result ≡ is_among (texts_of_parts parts.now) text.now }
{
    is_any_named(parts, text)
}

/// Whether a name is that of this or a later part of the struct around.
pub(crate) fn is_later(scope: &Scope<'_, '_>, text: &[u8]) -> bool
    ensures later { result ≡ is_among (names_in_scope scope.now).later text.now }
{
    match scope {
        Scope::Names(_, parts) => is_part(parts, text),
        Scope::Hiding(_, _, outer) => is_later(*outer, text),
    }
}
