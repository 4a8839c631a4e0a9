//! The translation of types and of what stands in them.
ghost use Rattle.std.specs.Prelude.{◌≡◌, ◌∷◌, [], map, Some, IfOk};
ghost use Rattle.pads_code.specs.CodePage.{byte_of};
ghost use Rattle.pads_trans.specs.Terms.{coding_of, until, base_of, text_of, literal_of, form_of, key_of, spelling_of, label_of, enum_of, constrained as constrained_by, some_arm, none_arm, optional as optional_of, named_type as named, bare_type as bare, type_of};

use crate::{Numbering, translate_expr, translate_exprs};
use pads_base_names::{BaseName, NamedCoding};
use pads_bases::{Label as Spelled, Labels, Order};
use pads_calc::{Arm, Arms, Base, ComputedForm, Exprs, Key, Term};
use pads_code::{Coding, encode};
use pads_expr::Expr;
use pads_resolution::{Computed, Const, Expr as Tree, Label, Literal, Type, TypeName};
use pads_value::{Boxed, Bytes, Items, Memory};
use std::alloc::Global;

/// The coding that a base type's name says.
fn coding(ambient: Coding, named: NamedCoding) -> Coding
    ensures coding { result ≡ coding_of ambient named }
{
    match named {
        NamedCoding::Ambient => ambient,
        NamedCoding::Ascii => Coding::Ascii,
        NamedCoding::Ebcdic => Coding::Ebcdic,
    }
}

/// A text up to the stop that is its argument; without an argument up to the record's end.
fn until(coding: Coding, args: &[Expr]) -> Base
    ensures until { result ≡ until coding args.now }
{
    match args {
        [] => Base::UntilEor(coding),
        [_, ..] => Base::Until(coding),
    }
}

/// A base type by its name and its arguments.
fn base(ambient: Coding, name: BaseName, args: &[Expr]) -> Base
    ensures base { result ≡ base_of ambient name args.now }
{
    match name {
        BaseName::Int(named, kind) => Base::Int(kind, coding(ambient, named)),
        BaseName::IntFw(named, kind) => Base::IntFw(kind, coding(ambient, named)),
        BaseName::Bin(kind) => Base::Bin(kind, Order::Low),
        BaseName::SizedBin(order, kind) => Base::Bin(kind, order),
        BaseName::Until(named) => until(coding(ambient, named), args),
        BaseName::Fixed(named) => Base::Fixed(coding(ambient, named)),
        BaseName::Class(named) => Base::Class(coding(ambient, named)),
        BaseName::Char(named) => Base::Char(coding(ambient, named)),
        BaseName::Ip(named) => Base::Ip(coding(ambient, named)),
        BaseName::Packed(signed) => Base::Packed(signed),
        BaseName::Zoned(signed) => Base::Zoned(signed),
    }
}

/// The bytes of a text in a coding.
fn encoded(alloc: Global, ambient: Coding, points: &[u8]) -> Result<Bytes, Memory>
    ensures bytes { IfOk result (λ bytes. bytes ≡ map (byte_of ambient) points.now) }
{
    let mut bytes = Items::new(alloc);
    for point in points {
        bytes.push(encode(ambient, *point))?;
    }
    Ok(bytes)
}

/// A text that stands for itself.
pub(crate) fn text(alloc: Global, ambient: Coding, points: &Bytes) -> Result<Term, Memory>
    ensures text { IfOk result (λ made. made ≡ text_of ambient points.now) }
{
    Ok(Term::Lit(encoded(alloc, ambient, points.as_slice())?))
}

pub(crate) fn literal(alloc: Global, ambient: Coding, literal: &Literal) -> Result<Term, Memory>
    ensures literal { IfOk result (λ made. made ≡ literal_of ambient literal.now) }
{
    match literal {
        Literal::Word(points) => text(alloc, ambient, points),
        Literal::Peor => Ok(Term::Eor),
    }
}

/// What a computed field is to be.
pub(crate) fn form(computed: Computed) -> ComputedForm
    ensures form { result ≡ form_of computed }
{
    match computed {
        Computed::Int(kind) => ComputedForm::Range(kind.least(), kind.greatest()),
        Computed::Text => ComputedForm::Text,
    }
}

pub(crate) fn key(alloc: Global, key: &Const) -> Result<Key, Memory>
    ensures key { IfOk result (λ made. made ≡ key_of key.now) }
{
    match key {
        Const::Number(number) => Ok(Key::Num(*number)),
        Const::Word(points) => Ok(Key::Text(Bytes::from_slice(alloc, points.as_slice())?)),
    }
}

/// What a label is spelled as.
fn spelling(alloc: Global, name: &Bytes, spelling: &Option<Bytes>) -> Result<Bytes, Memory>
    ensures spelling { IfOk result (λ made. made ≡ spelling_of name.now spelling.now) }
{
    match spelling {
        None => Bytes::from_slice(alloc, name.as_slice()),
        Some(points) => Bytes::from_slice(alloc, points.as_slice()),
    }
}

fn label(alloc: Global, label: &Label) -> Result<Spelled, Memory>
    ensures label { IfOk result (λ made. made ≡ label_of label.now) }
{
    let spelling = spelling(alloc, &label.name, &label.spelling)?;
    Ok(Spelled {
        name: Bytes::from_slice(alloc, label.name.as_slice())?,
        spelling,
    })
}

fn labels(alloc: Global, labels: &[Label]) -> Result<Labels, Memory>
    ensures labels { IfOk result (λ made. made ≡ map label_of labels.now) }
{
    let mut made = Items::new(alloc);
    for one in labels {
        made.push(label(alloc, one)?)?;
    }
    Ok(made)
}

pub(crate) fn enumeration(alloc: Global, ambient: Coding, list: &[Label]) -> Result<Term, Memory>
    ensures made { IfOk result (λ made. made ≡ enum_of ambient list.now) }
{
    let labels = labels(alloc, list)?;
    Ok(Term::Base(Base::Enum(ambient, labels), Items::new(alloc)))
}

/// A term under a constraint in which a name stands for its value.
pub(crate) fn guarded(
    alloc: Global,
    names: &Numbering,
    inner: Term,
    name: &[u8],
    condition: &Tree,
) -> Result<Term, Memory>
    ensures guarded { IfOk result (λ made. made ≡ constrained_by names.now inner name.now (Some condition.now)) }
{
    let inner = Boxed::new(alloc, inner)?;
    let condition = translate_expr(alloc, names, condition)?;
    Ok(Term::Guard(inner, names.number(name), condition))
}

/// A term under a constraint, if there is one.
pub(crate) fn constrained(
    alloc: Global,
    names: &Numbering,
    inner: Term,
    name: &[u8],
    condition: &Option<Tree>,
) -> Result<Term, Memory>
    ensures constrained { IfOk result (λ made. made ≡ constrained_by names.now inner name.now condition.now) }
{
    match condition {
        None => Ok(inner),
        Some(e) => guarded(alloc, names, inner, name, e),
    }
}

/// The two branches of an optional.
fn arms_of(alloc: Global, names: &Numbering, inner: Term) -> Result<Arms, Memory>
    ensures arms { IfOk result (λ arms. arms ≡ some_arm names.now inner ∷ none_arm names.now ∷ []) }
{
    let mut arms = Items::new(alloc);
    arms.push(Arm {
        name: names.number(b"some"),
        term: inner,
    })?;
    arms.push(Arm {
        name: names.number(b"none"),
        term: Term::Unit,
    })?;
    Ok(arms)
}

#[tactic(auto, unfolding(crate::specs::Terms::optional))]
pub(crate) fn optional(alloc: Global, names: &Numbering, inner: Term) -> Result<Term, Memory>
    ensures optional { IfOk result (λ made. made ≡ optional_of names.now inner) }
{
    Ok(Term::Alt(arms_of(alloc, names, inner)?))
}

fn named_type(ambient: Coding, name: TypeName, args: Exprs) -> Term
    ensures named { result ≡ named ambient name args }
{
    match name {
        TypeName::Base(of) => Term::Base(base(ambient, of, args.as_slice()), args),
        TypeName::Declared(number) => Term::Call(number, args),
    }
}

/// A type without its `Popt`.
#[tactic(auto, unfolding(crate::specs::Terms::bare_type))]
fn bare_type(alloc: Global, names: &Numbering, ambient: Coding, of: &Type) -> Result<Term, Memory>
    ensures bare { IfOk result (λ made. made ≡ bare names.now ambient of.now) }
{
    let args = translate_exprs(alloc, names, of.args.as_slice())?;
    Ok(named_type(ambient, of.name, args))
}

#[tactic(auto, unfolding(crate::specs::Terms::type_of))]
pub(crate) fn type_term(
    alloc: Global,
    names: &Numbering,
    ambient: Coding,
    of: &Type,
) -> Result<Term, Memory>
    ensures term { IfOk result (λ made. made ≡ type_of names.now ambient of.now) }
{
    let inner = bare_type(alloc, names, ambient, of)?;
    if of.optional {
        return optional(alloc, names, inner);
    }
    Ok(inner)
}
