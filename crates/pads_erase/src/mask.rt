ghost use Rattle.std.specs.Prelude.{◌≡◌};
ghost use Rattle.pads_erase.specs.Modes.{mode_for as mode_by, named_mode as named_mode_of};

use crate::Mode;
use pads_value::{Bytes, Items};

/// A declaration by its name, and its mode.
#[derive(Debug, Drop)]
pub struct NamedMode {
    pub name: Bytes,
    pub mode: Mode,
}

/// Named declarations in their order. Of equal names the first counts.
pub type NamedModes = Items<NamedMode>;

/// The mode of all declarations but those that are named, and the modes of those.
#[derive(Debug, Drop)]
pub struct Mask {
    pub all: Mode,
    pub named: NamedModes,
}

impl Mask {
    /// The mode that the first item of a name gives.
    fn named_mode(&self, name: &[u8]) -> Option<Mode>
        ensures mode { result ≡ named_mode_of self.now.named name.now }
    {
        let named = self
            .named
            .as_slice()
            .iter()
            .find(|one| one.name.as_slice() == name)?;
        Some(named.mode)
    }

    /// The mode of the declaration of a name.
    pub fn mode_for(&self, name: &[u8]) -> Mode
        ensures mode { result ≡ mode_by self.now name.now }
    {
        self.named_mode(name).unwrap_or(self.all)
    }
}
