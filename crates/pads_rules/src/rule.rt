ghost use Rattle.std.specs.Prelude.{◌≡◌};
ghost use Rattle.pads_rules.specs.Rules as rules;

/// A rule of descriptions, in the order of their numbers.
#[derive(Clone, Copy, Debug, PartialEq, Eq)]
pub enum Rule {
    /// A declaration has the name of an earlier declaration or of a base type.
    NameTaken = 1,
    /// A type's name is neither a base type's nor a declaration's.
    UnknownType,
    /// A type's name is that of this or a later declaration that isn't marked `Precursive`.
    LaterType,
    /// A parameter, field, branch or label has the name of an earlier one in the same declaration, or an array has an
    /// option twice.
    NameAgain,
    /// A name in an expression isn't in scope.
    UnknownName,
    /// A name in an expression is that of this or a later field of the same `Pstruct`.
    LaterField,
    /// A type has too few or too many arguments.
    ArgumentCount,
    /// An argument has another sort than the parameter, or `Peor` is used where it may not be.
    ArgumentSort,
    /// An operand, an index, a bound or an array's size has a wrong sort.
    OperandSort,
    /// A constraint, `Pwhere`, `Plast` or the body of a `Pforall` isn't a truth value.
    ConditionSort,
    /// The first name after a `Ptypedef`'s colon isn't its own.
    OtherName,
    /// The expression of a `Pswitch` is neither a number nor a text, or a case has another sort than it.
    CaseSort,
    /// A case comes again.
    CaseAgain,
    /// A literal, a separator, a terminator or an enum spelling is empty.
    EmptyLiteral,
    /// Two labels of an enum have one spelling.
    SpellingAgain,
    /// `.name` names no field or branch of the value before it.
    UnknownMember,
    /// `Pis` is applied to something that has no branches or labels, or names one that it doesn't have.
    UnknownChoice,
    /// The type of a computed field isn't one that can be computed, or the expression has another sort.
    ComputedType,
    /// A parameter's type isn't one that a parameter can have.
    ParameterType,
    /// A `Precord` type or a list of records is named outside a source shape.
    RecordTypeNamed,
    /// A `Precord` or `Psource` declaration has parameters.
    MarkedWithParameters,
    /// A `Psource` declaration isn't the last, or isn't a source shape.
    MisplacedSource,
    /// No declaration is marked `Precord`.
    NoRecordType,
    /// A declaration, the description up to its end, or an expression is too large.
    Limit,
    /// `Precursive` stands before another form than `Pstruct`, `Punion` or `Parray`.
    MisplacedPrecursive,
}

impl Rule {
    /// The number by which the rule is told, from 1 to 25.
    #[tactic(auto, unfolding(crate::specs::Rules::number))]
    pub fn number(self) -> u8
        ensures number { result ≡ rules.number self }
    {
        self as u8
    }
}
