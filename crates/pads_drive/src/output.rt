use pads_value::{Bytes, Memory};
use std::alloc::Global;

/// What is to be written for some rows, in order.
#[derive(Drop)]
pub struct Output {
    /// The bytes for the sink `out`.
    pub out: Bytes,
    /// The bytes for the notes.
    pub notes: Bytes,
}

impl Output {
    ghost use Rattle.std.specs.Prelude.{◌≡◌, [], OnOk};
    ghost use Rattle.pads_drive.specs.Outputs.{joined};

    /// What is to be written for no row.
    pub(crate) fn new(alloc: Global) -> Output
        ensures { result ≡ record { out = []; notes = [] } }
    {
        Output {
            out: Bytes::new(alloc),
            notes: Bytes::new(alloc),
        }
    }
    /// Puts later output behind this one. Behind nothing it isn't copied.
    pub(crate) fn put_behind(&mut self, later: Output) -> Result<(), Memory>
        ensures joined { OnOk result (self.new ≡ joined self.old later) }
    {
        if self.out.is_empty() && self.notes.is_empty() {
            *self = later;
            return Ok(());
        }
        self.out.extend_from_slice(later.out.as_slice())?;
        self.notes.extend_from_slice(later.notes.as_slice())
    }
}
