ghost use Rattle.std.specs.Prelude.{◌≤◌, ◌+◌, ◌^◌, length};

/// The bytes of a record, the offset of its first byte in the whole input, and how many bytes a search
/// passes over at most.
#[derive(Clone, Copy, Debug)]
pub struct Record<'a> {
    pub origin: u64,
    pub bytes: &'a [u8],
    pub scan: u32,
    pub ghost bounded: { origin + length bytes.now ≤ 2 ^ 62 },
}
