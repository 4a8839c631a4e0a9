ghost use Rattle.std.specs.Prelude.{◌≡◌};
ghost use Rattle.pads_grammar.specs.Grammar.{reads, begins, optional};
ghost use Rattle.pads_grammar.specs.Reads.{Reads};
ghost use Rattle.pads_syntax_parts.specs.Parts.{spelling, label, labels};

use pads_ast::{Label, Word};
use pads_grammar::{Cursor, Kind, Reading};
use pads_lex::{Keyword, Mark};
use pads_syntax_expr::{name, opened, word};
use pads_value::Items;
use std::alloc::Global;

/// How a label is spelled in a record, where it isn't spelled by its name.
fn spelling(alloc: Global, cursor: &mut Cursor<'_>) -> Reading<Option<Word>>
    ensures reads { Reads (reads (optional spelling) cursor.old) result cursor.new }
{
    if !cursor.peek().is_keyword(Keyword::Pfrom) {
        return Ok(None);
    }
    let _at = opened(cursor, Keyword::Pfrom)?;
    let spelling = word(alloc, cursor)?;
    let _close = cursor.mark(Mark::CloseParen)?;
    Ok(Some(spelling))
}

#[tactic(auto, unfolding(crate::specs::Parts::label))]
fn label(alloc: Global, cursor: &mut Cursor<'_>) -> Reading<Label>
    ensures reads { Reads (reads label cursor.old) result cursor.new }
{
    let name = name(alloc, cursor)?;
    let spelling = spelling(alloc, cursor)?;
    Ok(Label { name, spelling })
}

/// One label or more. A comma may also stand behind the last: whether a label follows it, the token
/// behind the comma tells.
#[tactic(auto, using(crate::proofs::LabelLoop::label_loop))]
pub fn labels(alloc: Global, cursor: &mut Cursor<'_>) -> Reading<Items<Label>>
    ensures reads { Reads (reads labels cursor.old) result cursor.new }
{
    let mut labels = Items::new(alloc);
    labels.push(label(alloc, cursor)?)?;
    'labels: while cursor.peek().is_mark(Mark::Comma) {
        let _comma = cursor.mark(Mark::Comma)?;
        if !Kind::Name.is(cursor.peek()) {
            return Ok(labels);
        }
        labels.push(label(alloc, cursor)?)?;
    }
    Ok(labels)
}
