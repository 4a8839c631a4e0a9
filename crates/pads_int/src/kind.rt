ghost use Rattle.std.specs.Prelude.{◌≡◌};
ghost use Rattle.pads_int.specs.Kinds.{is_signed, least, greatest, in_range};

/// The kinds of integers, each with its usual range.
#[derive(Clone, Copy, Debug, PartialEq, Eq)]
pub enum Kind {
    I8,
    I16,
    I32,
    I64,
    U8,
    U16,
    U32,
    U64,
}

impl Kind {
    /// Whether the kind has numbers below 0.
    pub fn is_signed(self) -> bool
        ensures kinds { result ≡ is_signed self }
    {
        match self {
            Kind::I8 | Kind::I16 | Kind::I32 | Kind::I64 => true,
            Kind::U8 | Kind::U16 | Kind::U32 | Kind::U64 => false,
        }
    }

    /// The least number of the kind.
    pub fn least(self) -> i128
        ensures least { result ≡ least self }
    {
        match self {
            Kind::I8 => i8::MIN.into(),
            Kind::I16 => i16::MIN.into(),
            Kind::I32 => i32::MIN.into(),
            Kind::I64 => i64::MIN.into(),
            Kind::U8 | Kind::U16 | Kind::U32 | Kind::U64 => 0,
        }
    }

    /// The greatest number of the kind.
    pub fn greatest(self) -> i128
        ensures greatest { result ≡ greatest self }
    {
        match self {
            Kind::I8 => i8::MAX.into(),
            Kind::I16 => i16::MAX.into(),
            Kind::I32 => i32::MAX.into(),
            Kind::I64 => i64::MAX.into(),
            Kind::U8 => u8::MAX.into(),
            Kind::U16 => u16::MAX.into(),
            Kind::U32 => u32::MAX.into(),
            Kind::U64 => u64::MAX.into(),
        }
    }

    /// Whether the number is one of the kind's.
    pub fn contains(self, number: i128) -> bool
        ensures range { result ≡ in_range self number }
    {
        self.least() <= number && number <= self.greatest()
    }
}
