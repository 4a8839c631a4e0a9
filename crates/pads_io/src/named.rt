ghost use Rattle.std.specs.Prelude.{◌≡◌, map, find};
ghost use Rattle.std.specs.Option.{option_map};
ghost use Rattle.pads_io.specs.Named.{bytes_at};

use pads_value::{Bytes, Items};

/// A file in memory.
#[derive(Drop)]
pub struct NamedFile {
    pub name: Bytes,
    pub bytes: Bytes,
}

/// Files in memory; of equal names the first counts.
pub type NamedFiles = Items<NamedFile>;

/// The bytes of the first file of this name.
pub(crate) fn find_bytes<'a>(named: &'a NamedFiles, name: &str) -> Option<&'a [u8]>
    ensures { option_map (λ bytes. bytes.now) result ≡ bytes_at named.now name.now }
{
    let file = named
        .as_slice()
        .iter()
        .find(|file| file.name.as_slice() == name.as_bytes())?;
    Some(file.bytes.as_slice())
}
