//! What a sort's fields, branches, labels and elements are.

ghost use Rattle.std.specs.Prelude.{◌≡◌, option_map, slice_get};
ghost use Rattle.pads_rules.specs.Members as members;
ghost use Rattle.pads_rules.specs.Members.{content_of, names_in, has_choice_in, element_in};
ghost use Rattle.pads_rules.specs.Texts as texts;
ghost use Rattle.pads_declared.specs.Numbered.{choice_position};

use crate::TypeTable;
use crate::types::same_text;
use pads_rules::{Content, ExprSort, Form, Sort};

/// The sort of a field or branch by its number.
fn sort_at(content: &Content, number: usize) -> Option<ExprSort>
    ensures sort { result ≡ option_map (λ one. one.sort) (slice_get (names_in content.now) number) }
{
    match content {
        Content::Fields(named) | Content::Branches(named) => Some(named.get(number as u64)?.sort),
        _ => None,
    }
}

/// The field or branch of that name in a declared type.
fn sort_in(env: &TypeTable, number: u64, name: &[u8]) -> Option<ExprSort>
    ensures found { result ≡ texts.sort_of (names_in (content_of env.now number)) name.now }
{
    let member = env.member_position(number, name)?;
    sort_at(&env.get(number)?.content, member)
}

/// The number of the first branch or label of a name in a type of a number; `None` exactly where none has it.
pub fn choice_position(env: &TypeTable, number: u64, name: &[u8]) -> Option<usize>
    ensures first { result ≡ choice_position (content_of env.now number) name.now }
{
    match &env.get(number)?.content {
        Content::Branches(_) | Content::Labels(_) => env.member_position(number, name),
        _ => None,
    }
}

/// Whether a declared type has a branch or label of that name.
fn has_choice_in(env: &TypeTable, number: u64, name: &[u8]) -> bool
    ensures found { result ≡ members.has_choice_in (content_of env.now number) name.now }
{
    choice_position(env, number, name).is_some()
}

/// The sort of a declared array's elements.
fn element_in(env: &TypeTable, number: u64) -> ExprSort
    ensures found { result ≡ members.element_in (content_of env.now number) }
{
    let Some(declared) = env.get(number) else {
        return ExprSort::Unknown;
    };
    match &declared.content {
        Content::Element(sort) => *sort,
        _ => ExprSort::Unknown,
    }
}

/// The branch of an optional of that name.
fn optional_branch(sort: Sort, name: &[u8]) -> Option<ExprSort>
    ensures branch { result ≡ members.optional_branch sort name.now }
{
    if same_text(name, b"some") {
        return Some(ExprSort::Known(Sort {
            optional: sort.optional.saturating_sub(1),
            form: sort.form,
        }));
    }
    if same_text(name, b"none") {
        return Some(ExprSort::Nothing);
    }
    None
}

fn plain_member(env: &TypeTable, form: Form, name: &[u8]) -> Option<ExprSort>
    ensures found { result ≡ members.plain_member env.now form name.now }
{
    match form {
        Form::Struct(number) | Form::Union(number) => sort_in(env, number, name),
        _ => None,
    }
}

/// What `.name` gives of a sort, where it has such a field or branch.
pub fn member(env: &TypeTable, sort: ExprSort, name: &[u8]) -> Option<ExprSort>
    ensures found { result ≡ members.member env.now sort name.now }
{
    match sort {
        ExprSort::Unknown => Some(ExprSort::Unknown),
        ExprSort::Nothing => None,
        ExprSort::Known(sort) => {
            if sort.optional == 0 {
                plain_member(env, sort.form, name)
            } else {
                optional_branch(sort, name)
            }
        }
    }
}

/// What an index gives of a sort.
pub fn element(env: &TypeTable, sort: ExprSort) -> ExprSort
    ensures found { result ≡ members.element env.now sort }
{
    match sort {
        ExprSort::Known(
            Sort {
                form: Form::Array(number),
                ..
            },
        ) => element_in(env, number),
        _ => ExprSort::Unknown,
    }
}

/// Whether `Pis` may ask of a sort.
pub fn may_choose(sort: ExprSort) -> bool
    ensures choice { result ≡ members.may_choose sort }
{
    match sort {
        ExprSort::Unknown => true,
        ExprSort::Nothing => false,
        ExprSort::Known(sort) => {
            sort.optional != 0 || matches!(sort.form, Form::Union(_) | Form::Enum(_))
        }
    }
}

fn plain_choice(env: &TypeTable, form: Form, name: &[u8]) -> bool
    ensures found { result ≡ members.plain_choice env.now form name.now }
{
    match form {
        Form::Union(number) | Form::Enum(number) => has_choice_in(env, number, name),
        _ => false,
    }
}

/// Whether a sort has a branch or label of that name.
pub fn has_choice(env: &TypeTable, sort: ExprSort, name: &[u8]) -> bool
    ensures found { result ≡ members.has_choice env.now sort name.now }
{
    match sort {
        ExprSort::Unknown => true,
        ExprSort::Nothing => false,
        ExprSort::Known(sort) => {
            if sort.optional == 0 {
                plain_choice(env, sort.form, name)
            } else {
                optional_branch(sort, name).is_some()
            }
        }
    }
}
