ghost use Rattle.std.specs.Prelude.{◌≡◌};
ghost use Rattle.pads_rules.specs.Sorts as sorts;
ghost use Rattle.pads_rules.specs.Sorts.{accepts, is_num_form, is_text_form, is_truth_form};

use crate::sort::{Form, Sort};

/// What is known of the sort of an expression or a name.
#[derive(Clone, Copy, Debug, PartialEq, Eq)]
pub enum ExprSort {
    /// Nothing: every rule accepts it.
    Unknown,
    /// It is the branch `none` of an optional, which no operator takes.
    Nothing,
    Known(Sort),
}

/// Whether two forms are the same, for parts that of one declaration.
fn same_form(first: Form, second: Form) -> bool
    ensures same { result ≡ sorts.same_form first second }
{
    match (first, second) {
        (Form::Num, Form::Num) | (Form::Text, Form::Text) | (Form::Truth, Form::Truth) => true,
        (Form::Struct(a), Form::Struct(b)) => a == b,
        (Form::Union(a), Form::Union(b)) => a == b,
        (Form::Enum(a), Form::Enum(b)) => a == b,
        (Form::Array(a), Form::Array(b)) => a == b,
        _ => false,
    }
}

impl ExprSort {
    /// The sort of a plain form.
    pub fn plain(form: Form) -> ExprSort
        ensures plain { result ≡ sorts.plain form }
    {
        ExprSort::Known(Sort { optional: 0, form })
    }

    /// The sort with one more `Popt` around it. The count stands still at its greatest number, which no description
    /// comes to.
    pub fn optional(self) -> ExprSort
        ensures optional { result ≡ sorts.optional self }
    {
        match self {
            ExprSort::Known(sort) => ExprSort::Known(Sort {
                optional: sort.optional.saturating_add(1),
                form: sort.form,
            }),
            other => other,
        }
    }

    /// Whether both are of one sort, where both are known.
    pub fn agrees(self, other: ExprSort) -> bool
        ensures agree { result ≡ sorts.agree self other }
    {
        match (self, other) {
            (ExprSort::Unknown, _) | (_, ExprSort::Unknown) => true,
            (ExprSort::Nothing, ExprSort::Nothing) => true,
            (ExprSort::Known(a), ExprSort::Known(b)) => {
                a.optional == b.optional && same_form(a.form, b.form)
            }
            _ => false,
        }
    }

    /// Whether it may be a number.
    pub fn is_num(self) -> bool
        ensures accepted { result ≡ accepts is_num_form self }
    {
        match self {
            ExprSort::Unknown => true,
            ExprSort::Nothing => false,
            ExprSort::Known(sort) => sort.optional == 0 && matches!(sort.form, Form::Num),
        }
    }

    /// Whether it may be a text.
    pub fn is_text(self) -> bool
        ensures accepted { result ≡ accepts is_text_form self }
    {
        match self {
            ExprSort::Unknown => true,
            ExprSort::Nothing => false,
            ExprSort::Known(sort) => sort.optional == 0 && matches!(sort.form, Form::Text),
        }
    }

    /// Whether it may be a truth value.
    pub fn is_truth(self) -> bool
        ensures accepted { result ≡ accepts is_truth_form self }
    {
        match self {
            ExprSort::Unknown => true,
            ExprSort::Nothing => false,
            ExprSort::Known(sort) => sort.optional == 0 && matches!(sort.form, Form::Truth),
        }
    }
}
