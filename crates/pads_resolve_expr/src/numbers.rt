//! The numbers of declarations, fields, branches and labels.

ghost use Rattle.std.specs.Prelude.{◌≡◌};
ghost use Rattle.pads_rules.specs.Members.{content_of};
ghost use Rattle.pads_resolution.specs.Numbers as numbers;

use crate::{PartTable, Types};
use pads_declared::{TypeTable, choice_position, same_text};
use pads_rules::{ExprSort, Form};

/// A number in 16 bits. No accepted description comes to a greater one than 65,535.
pub fn short(number: usize) -> u16
    ensures short { result ≡ numbers.short number }
{
    number.min(65_535) as u16
}

/// The number of what was found; what wasn't has number 0.
pub fn number_of(found: Option<usize>) -> u16
    ensures number { result ≡ numbers.number_of found }
{
    match found {
        Some(number) => short(number),
        None => 0,
    }
}

/// A field of a declared struct.
fn field_number(decls: &PartTable<'_>, number: u64, name: &[u8]) -> u16
    ensures number { result ≡ numbers.field_number decls.now number name.now }
{
    number_of(decls.part_position(number, name))
}

/// A branch or label of a declared type.
fn choice_of(env: &TypeTable, number: u64, name: &[u8]) -> u16
    ensures number { result ≡ numbers.choice_in (content_of env.now number) name.now }
{
    number_of(choice_position(env, number, name))
}

fn optional_number(name: &[u8]) -> u16
    ensures number { result ≡ numbers.optional_number name.now }
{
    if same_text(name, b"none") { 1 } else { 0 }
}

fn plain_choice_number(env: &TypeTable, form: Form, name: &[u8]) -> u16
    ensures number { result ≡ numbers.plain_choice_number env.now form name.now }
{
    match form {
        Form::Union(number) | Form::Enum(number) => choice_of(env, number, name),
        _ => 0,
    }
}

/// What `Pis` asks for: a branch of a union, a label of an enum or a branch of an optional.
#[tactic(auto, unfolding(pads_resolution::specs::Numbers::choice_number))]
pub(crate) fn choice_number(env: &TypeTable, sort: ExprSort, name: &[u8]) -> u16
    ensures number { result ≡ numbers.choice_number env.now sort name.now }
{
    match sort {
        ExprSort::Known(sort) => {
            if sort.optional == 0 {
                plain_choice_number(env, sort.form, name)
            } else {
                optional_number(name)
            }
        }
        _ => 0,
    }
}

fn plain_member_number(types: &Types<'_>, form: Form, name: &[u8]) -> u16
    ensures number { result ≡ numbers.plain_member_number types.now.decls.now types.now.env.now form name.now }
{
    match form {
        Form::Struct(number) => field_number(types.decls, number, name),
        Form::Union(number) => choice_of(types.env, number, name),
        _ => 0,
    }
}

/// What `.name` names: a field of a struct, a branch of a union or of an optional.
#[tactic(auto, unfolding(pads_resolution::specs::Numbers::member_number))]
pub(crate) fn member_number(types: &Types<'_>, sort: ExprSort, name: &[u8]) -> u16
    ensures number { result ≡ numbers.member_number types.now.decls.now types.now.env.now sort name.now }
{
    match sort {
        ExprSort::Known(sort) => {
            if sort.optional == 0 {
                plain_member_number(types, sort.form, name)
            } else {
                optional_number(name)
            }
        }
        _ => 0,
    }
}
