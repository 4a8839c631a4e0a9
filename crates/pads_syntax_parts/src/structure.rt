ghost use Rattle.std.specs.Prelude.{◌≡◌};
ghost use Rattle.pads_grammar.specs.Grammar.{reads, begins, optional, many, apply};
ghost use Rattle.pads_grammar.specs.Reads.{Reads};
ghost use Rattle.pads_ast.specs.declared.decl.Part.TheVariants as part_form;
ghost use Rattle.pads_syntax_parts.specs.Types.{branch, literal};
ghost use Rattle.pads_syntax_parts.specs.Parts.{literal_part, computed_name, computed_part, part, condition};

use crate::expressions::expression;
use crate::literals::literal;
use crate::marks::{optional_mark, with_mark};
use crate::types::{branch, type_use};
use pads_ast::{Expr, Name, Part, Type};
use pads_grammar::{Cursor, Kind, Reading};
use pads_lex::{Keyword, Mark};
use pads_syntax_expr::name;
use pads_value::Items;
use std::alloc::Global;

fn literal_part(alloc: Global, cursor: &mut Cursor<'_>) -> Reading<Part>
    ensures reads { Reads (reads literal_part cursor.old) result cursor.new }
{
    let literal = literal(alloc, cursor)?;
    let _end = cursor.mark(Mark::Semicolon)?;
    Ok(Part::Literal(literal))
}

/// Type and name of a computed field, and the `=` behind them.
fn computed_name(alloc: Global, cursor: &mut Cursor<'_>) -> Reading<(Type, Name)>
    ensures reads { Reads (reads computed_name cursor.old) result cursor.new }
{
    let _keyword = cursor.keyword(Keyword::Pcompute)?;
    let of = type_use(alloc, cursor)?;
    let name = name(alloc, cursor)?;
    let _equals = cursor.mark(Mark::Equals)?;
    Ok((of, name))
}

fn computed_part(alloc: Global, cursor: &mut Cursor<'_>) -> Reading<Part>
    ensures reads { Reads (reads computed_part cursor.old) result cursor.new }
{
    let (of, name) = computed_name(alloc, cursor)?;
    let value = expression(alloc, cursor)?;
    let (value, _end) = with_mark(value, cursor, Mark::Semicolon)?;
    Ok(Part::Pcompute { of, name, value })
}

fn field(alloc: Global, cursor: &mut Cursor<'_>) -> Reading<Part>
    ensures reads { Reads (reads (apply part_form.Field branch) cursor.old) result cursor.new }
{
    Ok(Part::Field(branch(alloc, cursor)?))
}

/// Whether a token of that kind begins a literal.
#[tactic(auto, using(crate::proofs::Firsts::firsts))]
fn begins_literal(kind: Kind) -> bool
    ensures begins { result ≡ begins literal kind }
{
    Kind::Char.is(kind) || Kind::Text.is(kind) || kind.is_keyword(Keyword::Peor)
}

#[tactic(auto, using(crate::proofs::PartLaws::part_laws))]
fn part(alloc: Global, cursor: &mut Cursor<'_>) -> Reading<Part>
    ensures reads { Reads (reads part cursor.old) result cursor.new }
{
    let next = cursor.peek();
    if begins_literal(next) {
        literal_part(alloc, cursor)
    } else if next.is_keyword(Keyword::Pcompute) {
        computed_part(alloc, cursor)
    } else {
        field(alloc, cursor)
    }
}

/// Whether a token of that kind begins a part.
#[tactic(auto, using(crate::proofs::Firsts::begins_part))]
fn begins_part(kind: Kind) -> bool
    ensures begins { result ≡ begins part kind }
{
    Kind::Char.is(kind)
        || Kind::Text.is(kind)
        || kind.is_keyword(Keyword::Peor)
        || kind.is_keyword(Keyword::Pcompute)
        || kind.is_keyword(Keyword::Popt)
        || Kind::Name.is(kind)
}

/// Any number of parts.
#[tactic(auto, using(crate::proofs::PartLoops::part_loop))]
pub fn parts(alloc: Global, cursor: &mut Cursor<'_>) -> Reading<Items<Part>>
    ensures reads { Reads (reads (many part) cursor.old) result cursor.new }
{
    let mut parts = Items::new(alloc);
    'parts: while begins_part(cursor.peek()) {
        parts.push(part(alloc, cursor)?)?;
    }
    Ok(parts)
}

/// The condition of a whole struct or array, where one is written.
#[tactic(auto, using(crate::proofs::Firsts::firsts))]
pub fn optional_condition(alloc: Global, cursor: &mut Cursor<'_>) -> Reading<Option<Expr>>
    ensures reads { Reads (reads (optional condition) cursor.old) result cursor.new }
{
    if !cursor.peek().is_keyword(Keyword::Pwhere) {
        return Ok(None);
    }
    Ok(Some(condition(alloc, cursor)?))
}

#[tactic(auto, unfolding(crate::specs::Parts::condition))]
fn condition(alloc: Global, cursor: &mut Cursor<'_>) -> Reading<Expr>
    ensures reads { Reads (reads condition cursor.old) result cursor.new }
{
    let _keyword = cursor.keyword(Keyword::Pwhere)?;
    let _open = cursor.mark(Mark::OpenBrace)?;
    let condition = expression(alloc, cursor)?;
    let _end = optional_mark(cursor, Mark::Semicolon)?;
    let (condition, _close) = with_mark(condition, cursor, Mark::CloseBrace)?;
    Ok(condition)
}
