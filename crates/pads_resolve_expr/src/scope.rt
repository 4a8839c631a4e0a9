ghost use Rattle.std.specs.Prelude.{◌≡◌, option_map, find};
ghost use Rattle.pads_resolution.specs.Scopes.{known_in};
ghost use Rattle.pads_resolve_expr.specs.Scopes.{names_in_scope};

use crate::PartTable;
use pads_declared::{TypeTable, same_text};
use pads_resolution::{Known, Stands, Visible};
use pads_rules::ExprSort;

/// The declarations of a description, and its declared types.
#[derive(Clone, Copy)]
pub struct Types<'a> {
    pub decls: &'a PartTable<'a>,
    pub env: &'a TypeTable,
}

/// The names that an expression may use. A name that hides others lives on the stack.
#[derive(Clone, Copy)]
pub enum NameScope<'s, 'a> {
    /// Names, of which the first of a text counts.
    Names(&'a [Visible]),
    /// A name that hides others.
    Hiding(&'a [u8], Stands, ExprSort, &'s NameScope<'s, 'a>),
}

/// What is known of a name among some: the first of that text gives it.
fn known_among(names: &[Visible], text: &[u8]) -> Option<Known>
    ensures first { result ≡ known_in names.now text.now }
{
    let visible = names
        .iter()
        .find(|visible| same_text(visible.text.as_slice(), text))?;
    Some(visible.known)
}

/// What is known of a name in a scope.
pub(crate) fn known(scope: &NameScope<'_, '_>, text: &[u8]) -> Option<Known>
    ensures first { result ≡ known_in (names_in_scope scope.now) text.now }
{
    match scope {
        NameScope::Names(names) => known_among(names, text),
        NameScope::Hiding(name, stands, sort, outer) => {
            if same_text(name, text) {
                Some(Known {
                    stands: *stands,
                    sort: *sort,
                })
            } else {
                known(*outer, text)
            }
        }
    }
}
