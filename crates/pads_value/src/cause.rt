ghost use Rattle.std.specs.Prelude.{◌≡◌};
ghost use Rattle.pads_value.specs.Causes.{name_of};

/// What is wrong with a node. A node has one cause of its own at most; `docs/CAUSES.md` tells an owner
/// of data what each means.
#[derive(Clone, Copy, Debug, PartialEq, Eq)]
pub enum Cause {
    /// The bytes don't have the form of the base type.
    Invalid,
    /// The record ends before the bytes that the base type takes.
    Width,
    /// An argument has no value, or one that the base type or the declaration doesn't take.
    BadParam,
    /// No spelling of the enum begins here.
    Enum,
    /// The literal doesn't stand here.
    MissingLiteral,
    /// The record doesn't end here.
    MissingEor,
    /// No branch of the union reads without a fault.
    UnionMatch,
    /// No case of the switched union has the key.
    Switch,
    /// The computed field has no value in its range.
    Compute,
    /// The array's size has no value, or one below 0.
    ArrayBound,
    /// The calls of declarations are nested deeper than 128.
    Depth,
    /// The record is longer than the limit, and wasn't read.
    RecordLong,
    /// The record's length word is no such word, and the rest wasn't read.
    RecordBroken,
    /// The number is outside the type's range.
    Range,
    /// Bytes were passed over before the literal.
    Skipped,
    /// The constraint isn't true of the value.
    Constraint,
    /// The array ended before its size was reached.
    ArraySize,
    /// The separator doesn't stand between two elements.
    ArraySep,
    /// The next element doesn't read and takes no byte.
    ArrayElem,
    /// The next element and its separator take no byte.
    ArrayStall,
    /// Bytes are left between the end of the value and the end of the record.
    ExtraBeforeEor,
    /// The last block of a fixed length is shorter than the others.
    RecordShort,
}

impl Cause {
    /// The name by which lines of output tell the cause, as `MISSING_LITERAL`.
    pub fn name(&self) -> &'static str
        ensures name { result.now ≡ name_of self.now }
    {
        match self {
            Cause::Invalid => "INVALID",
            Cause::Width => "WIDTH",
            Cause::BadParam => "BAD_PARAM",
            Cause::Enum => "ENUM",
            Cause::MissingLiteral => "MISSING_LITERAL",
            Cause::MissingEor => "MISSING_EOR",
            Cause::UnionMatch => "UNION_MATCH",
            Cause::Switch => "SWITCH",
            Cause::Compute => "COMPUTE",
            Cause::ArrayBound => "ARRAY_BOUND",
            Cause::Depth => "DEPTH",
            Cause::RecordLong => "RECORD_LONG",
            Cause::RecordBroken => "RECORD_BROKEN",
            Cause::Range => "RANGE",
            Cause::Skipped => "SKIPPED",
            Cause::Constraint => "CONSTRAINT",
            Cause::ArraySize => "ARRAY_SIZE",
            Cause::ArraySep => "ARRAY_SEP",
            Cause::ArrayElem => "ARRAY_ELEM",
            Cause::ArrayStall => "ARRAY_STALL",
            Cause::ExtraBeforeEor => "EXTRA_BEFORE_EOR",
            Cause::RecordShort => "RECORD_SHORT",
        }
    }
}
