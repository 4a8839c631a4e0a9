ghost use Rattle.std.specs.Prelude.{◌≡◌};
ghost use Rattle.pads_erase.specs.Modes.{checks as checks_of, keeps as keeps_of};

/// What of a declaration is checked and what is kept.
#[derive(Clone, Copy, Debug, PartialEq, Eq)]
pub enum Mode {
    /// Constraints are checked and values are kept.
    Both,
    /// Constraints are checked.
    Check,
    /// Values are kept.
    Set,
    /// Neither.
    None,
}

impl Mode {
    /// Whether the constraints of the declaration's own body are checked.
    pub fn checks(self) -> bool
        ensures checks { result ≡ checks_of self }
    {
        match self {
            Mode::Both | Mode::Check => true,
            Mode::Set | Mode::None => false,
        }
    }

    /// Whether the values of the declaration's own body are kept.
    pub fn keeps(self) -> bool
        ensures keeps { result ≡ keeps_of self }
    {
        match self {
            Mode::Both | Mode::Set => true,
            Mode::Check | Mode::None => false,
        }
    }
}
