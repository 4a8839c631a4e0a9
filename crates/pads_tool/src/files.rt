ghost use Rattle.std.specs.Prelude.{◌≡◌, IfOk, IfSome, OnOk, Err};
ghost use Rattle.pads_tool.specs.Causes.{FaultHasCause};
ghost use Rattle.pads_tool.specs.FileReads.{ReadsOnce};
ghost use Rattle.pads_tool.specs.Descriptions.{described_by};
ghost use Rattle.pads_value.specs.declared.memory.Refusal.TheVariants as refusal;

use crate::description::{Described, FileFault, LONGEST_DESCRIPTION};
use pads_io::Files;
use pads_value::{Bytes, Refusal};
use std::alloc::Global;

/// Reads a description's file, in pieces of at most 4,096 bytes, and no further than its length is
/// known to be too large.
pub(crate) fn read_description<F: Files>(
    alloc: Global,
    files: &mut F,
    name: &str,
) -> Result<Described, Refusal<FileFault>>
    ensures told { IfOk result (λ described. IfSome (F.content files.old name.now)
        (λ bytes. described ≡ described_by bytes)) }
    ensures stays { F.content files.new ≡ F.content files.old }
    ensures reads { ReadsOnce F.reads name.now files.old files.new }
    ensures cause { FaultHasCause (F.faults files.old) (F.faults files.new) result }
    ensures kept { OnOk result (F.faults files.new ≡ F.faults files.old) }
    ensures wanted { result ≡ Err refusal.Memory → F.faults files.new ≡ F.faults files.old }
{
    let mut text = Bytes::new(alloc);
    let mut piece = [0; 4096];
    'pieces: while text.len() <= LONGEST_DESCRIPTION {
        let Ok(count) = files.read_at(name, text.len(), &mut piece) else {
            return Err(Refusal::Fault(FileFault));
        };
        if count == 0 {
            return Ok(Described::Text(text));
        }
        text.extend_from_slice(&piece[..count])?;
    }
    Ok(Described::TooLong)
}
