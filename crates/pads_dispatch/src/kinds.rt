ghost use Rattle.std.specs.Prelude.{◌≡◌, pos};
ghost use Rattle.pads_dispatch.specs.Kinds.{range_of as range_of_kind, size_of as size_of_kind};

use pads_bases::Range;
use pads_int::Kind;

/// The numbers of a kind.
pub(crate) fn range_of(kind: Kind) -> Range
    ensures range { result ≡ range_of_kind kind }
{
    Range {
        low: kind.least(),
        high: kind.greatest(),
    }
}

/// The usual number of bytes of a kind.
pub(crate) fn size_of(kind: Kind) -> i128
    ensures size { result ≡ pos (size_of_kind kind) }
{
    match kind {
        Kind::I8 | Kind::U8 => 1,
        Kind::I16 | Kind::U16 => 2,
        Kind::I32 | Kind::U32 => 4,
        Kind::I64 | Kind::U64 => 8,
    }
}
