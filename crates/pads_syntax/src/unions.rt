ghost use Rattle.std.specs.Prelude.{◌≡◌};
ghost use Rattle.pads_grammar.specs.Grammar.{reads, begins, optional, many, apply, ◌&◌};
ghost use Rattle.pads_grammar.specs.Reads.{Reads};
ghost use Rattle.pads_ast.specs.declared.decl.UnionBody.TheVariants as union_form;
ghost use Rattle.pads_syntax.specs.Switches.{case_key, case_rule, default_case, switch_value, switch};
ghost use Rattle.pads_syntax.specs.Declarations.{union_body, union_decl};

use crate::structure::heading;
use pads_ast::{Branch, Case, Const, Expr, Switch, Union, UnionBody};
use pads_grammar::{Cursor, Kind, Reading};
use pads_lex::{Keyword, Mark};
use pads_syntax_parts::{branch, branches, constant, expression, with_mark};
use pads_value::Items;
use std::alloc::Global;

/// What a switch chooses by, its cases and its default.
type SwitchBody = ((Expr, Items<Case>), Option<Branch>);

/// The constant of a case.
fn case_key(alloc: Global, cursor: &mut Cursor<'_>) -> Reading<Const>
    ensures reads { Reads (reads case_key cursor.old) result cursor.new }
{
    let _keyword = cursor.keyword(Keyword::Pcase)?;
    let key = constant(alloc, cursor)?;
    let _colon = cursor.mark(Mark::Colon)?;
    Ok(key)
}

#[tactic(auto, unfolding(crate::specs::Switches::case_rule))]
fn case_rule(alloc: Global, cursor: &mut Cursor<'_>) -> Reading<Case>
    ensures reads { Reads (reads case_rule cursor.old) result cursor.new }
{
    let key = case_key(alloc, cursor)?;
    let branch = branch(alloc, cursor)?;
    Ok(Case { key, branch })
}

/// Any number of cases.
#[tactic(auto, using(crate::proofs::DeclLoops::case_loop))]
fn cases(alloc: Global, cursor: &mut Cursor<'_>) -> Reading<Items<Case>>
    ensures reads { Reads (reads (many case_rule) cursor.old) result cursor.new }
{
    let mut cases = Items::new(alloc);
    'cases: while begins_case(cursor.peek()) {
        cases.push(case_rule(alloc, cursor)?)?;
    }
    Ok(cases)
}

/// Whether a token of that kind begins a case.
#[tactic(auto, unfolding(crate::specs::Switches::case_rule))]
fn begins_case(kind: Kind) -> bool
    ensures begins { result ≡ begins case_rule kind }
{
    kind.is_keyword(Keyword::Pcase)
}

/// The case of every other value, where it is written.
fn default_case(alloc: Global, cursor: &mut Cursor<'_>) -> Reading<Option<Branch>>
    ensures reads { Reads (reads (optional default_case) cursor.old) result cursor.new }
{
    if !cursor.peek().is_keyword(Keyword::Pdefault) {
        return Ok(None);
    }
    let _keyword = cursor.keyword(Keyword::Pdefault)?;
    let _colon = cursor.mark(Mark::Colon)?;
    Ok(Some(branch(alloc, cursor)?))
}

/// What a switch chooses by, and what stands before its cases.
fn switch_value(alloc: Global, cursor: &mut Cursor<'_>) -> Reading<Expr>
    ensures reads { Reads (reads switch_value cursor.old) result cursor.new }
{
    let _keyword = cursor.keyword(Keyword::Pswitch)?;
    let _open = cursor.mark(Mark::OpenParen)?;
    let value = expression(alloc, cursor)?;
    let (value, _close) = with_mark(value, cursor, Mark::CloseParen)?;
    let (value, _brace) = with_mark(value, cursor, Mark::OpenBrace)?;
    Ok(value)
}

/// What a switch chooses by, its cases and its default.
fn switch_body(alloc: Global, cursor: &mut Cursor<'_>) -> Reading<SwitchBody>
    ensures reads { Reads (reads (switch_value & many case_rule & optional default_case) cursor.old) result cursor.new }
{
    let value = switch_value(alloc, cursor)?;
    let cases = cases(alloc, cursor)?;
    let default = default_case(alloc, cursor)?;
    Ok(((value, cases), default))
}

#[tactic(auto, unfolding(crate::specs::Switches::switch))]
fn switch(alloc: Global, cursor: &mut Cursor<'_>) -> Reading<Switch>
    ensures reads { Reads (reads switch cursor.old) result cursor.new }
{
    let body = switch_body(alloc, cursor)?;
    let (((value, cases), default), _close) = with_mark(body, cursor, Mark::CloseBrace)?;
    Ok(Switch {
        value,
        cases,
        default,
    })
}

#[tactic(auto, using(crate::proofs::Firsts::firsts), unfolding(crate::specs::Declarations::union_body))]
fn union_body(alloc: Global, cursor: &mut Cursor<'_>) -> Reading<UnionBody>
    ensures reads { Reads (reads union_body cursor.old) result cursor.new }
{
    if cursor.peek().is_keyword(Keyword::Pswitch) {
        Ok(UnionBody::Switch(switch(alloc, cursor)?))
    } else {
        Ok(UnionBody::Branches(branches(alloc, cursor)?))
    }
}

#[tactic(auto, unfolding(crate::specs::Declarations::union_decl))]
pub fn union_decl(alloc: Global, cursor: &mut Cursor<'_>) -> Reading<Union>
    ensures reads { Reads (reads union_decl cursor.old) result cursor.new }
{
    let (name, params) = heading(alloc, cursor, Keyword::Punion)?;
    let body = union_body(alloc, cursor)?;
    let (body, _close) = with_mark(body, cursor, Mark::CloseBrace)?;
    Ok(Union { name, params, body })
}
