/// What a value is where no `Popt` stands around it. Parts are of one declared type: its number is that of its
/// declaration in the description, from 0.
#[derive(Clone, Copy, Debug, PartialEq, Eq)]
pub enum Form {
    /// A whole number.
    Num,
    /// A text of code points.
    Text,
    /// True or false.
    Truth,
    /// A declared `Pstruct`.
    Struct(u64),
    /// A declared `Punion`.
    Union(u64),
    /// A declared `Penum`.
    Enum(u64),
    /// A declared `Parray`.
    Array(u64),
}

/// The sort of an expression: what its values are.
#[derive(Clone, Copy, Debug, PartialEq, Eq)]
pub struct Sort {
    /// How many `Popt` stand around the form, one within the other; none for most sorts.
    pub optional: u64,
    pub form: Form,
}
