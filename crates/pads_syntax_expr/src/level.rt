ghost use Rattle.std.specs.Prelude.{◌≡◌};
ghost use Rattle.pads_syntax_expr.specs.Expressions.{part};

/// The levels of operators, from what binds tightest.
#[derive(Clone, Copy, Debug, PartialEq, Eq)]
pub enum Level {
    /// No operator between operands.
    Unary,
    /// `*`, `/` and `%`
    Prod,
    /// `+` and `-`
    Sum,
    /// `<`, `<=`, `>` and `>=`
    Rel,
    /// `==` and `!=`
    Eq,
    /// `&&`
    And,
    /// `||`
    Or,
}

impl Level {
    /// The level of the operands.
    pub fn part(self) -> Option<Level>
        ensures part { result ≡ part self }
    {
        match self {
            Level::Unary => None,
            Level::Prod => Some(Level::Unary),
            Level::Sum => Some(Level::Prod),
            Level::Rel => Some(Level::Sum),
            Level::Eq => Some(Level::Rel),
            Level::And => Some(Level::Eq),
            Level::Or => Some(Level::And),
        }
    }
}
