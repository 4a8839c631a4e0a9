//! Literals and constants.

ghost use Rattle.std.specs.Prelude.{◌≡◌, IfOk};
ghost use Rattle.pads_resolution.specs.Types as types;
ghost use Rattle.pads_rules.specs.PieceRules as rules;

use pads_ast::{Const as WrittenConst, Literal as WrittenLiteral, Number};
use pads_resolution::{Const, Literal};
use pads_resolve_expr::points;
use pads_value::Memory;
use std::alloc::Global;

/// A literal: the code points that are written, or the end of the record.
pub fn literal_of(alloc: Global, literal: &WrittenLiteral) -> Result<Literal, Memory>
    ensures made { IfOk result (λ made. made ≡ types.literal_of literal.now) }
{
    match literal {
        WrittenLiteral::Word(word) => Ok(Literal::Word(points(alloc, word)?)),
        WrittenLiteral::Peor { .. } => Ok(Literal::Peor),
    }
}

/// The number of a constant.
fn signed(negative: bool, value: &Number) -> i128
    ensures number { result ≡ rules.signed negative value.now }
{
    let value = value.get();
    if negative { 0 - value } else { value }
}

/// A constant of a case: a number with its sign, or code points.
pub fn const_of(alloc: Global, constant: &WrittenConst) -> Result<Const, Memory>
    ensures made { IfOk result (λ made. made ≡ types.const_of constant.now) }
{
    match constant {
        WrittenConst::Number {
            negative,
            value,
            ..
        } => Ok(Const::Number(signed(*negative, value))),
        WrittenConst::Word(word) => Ok(Const::Word(points(alloc, word)?)),
    }
}
