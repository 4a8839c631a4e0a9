ghost use Rattle.std.specs.Prelude.{◌≡◌, ◌++◌, ◌≤◌, length, take, drop};
ghost use Rattle.pads_io.specs.Faults.{raised};
ghost use Rattle.pads_io.specs.InMemory.{portion};

/// How many bytes one call moves of those that are `there` into a room for `room`.
pub(crate) fn portion_of(piece: u64, room: usize, there: usize) -> usize
    ensures { result ≡ portion piece room there }
{
    let allowed = if piece == 0 {
        room
    } else {
        room.min(piece as usize)
    };
    allowed.min(there)
}

/// Puts a portion of these bytes at the front of `into`, and gives their number.
pub(crate) fn give(from: &[u8], piece: u64, into: &mut [u8]) -> usize
    ensures count { result ≡ portion piece (length into.old) (length from.now) }
    ensures front { take result into.new ≡ take result from.now }
{
    let count = portion_of(piece, into.len(), from.len());
    into[..count].copy_from_slice(&from[..count]);
    count
}

/// The bytes from this offset on; none at or past the end.
pub(crate) fn rest_from(bytes: &[u8], at: u64) -> &[u8]
    ensures { result.now ≡ drop at bytes.now }
{
    let at = bytes.len().min(at as usize);
    &bytes[at..]
}

/// One failure more; the count stands still at its last value.
pub(crate) fn raised(count: u64) -> u64
    ensures { result ≡ raised count }
{
    count.saturating_add(1)
}
