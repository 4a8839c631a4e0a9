ghost use Rattle.std.specs.Prelude.{◌≡◌, ◌≢◌, Bool};
ghost use Rattle.pads_io.specs.Calls.{Writes};
ghost use Rattle.pads_tool.specs.Telling.{Tells};
ghost use Rattle.pads_tool.specs.declared.ending.Ending.TheVariants as ending;

use crate::ending::Ending;
use pads_io::{Sink, write_all};

/// Writes the text that a command has for all that it did, of which all is well or isn't.
pub(crate) fn tell<K: Sink>(out: &mut K, text: &[u8], well: bool) -> Ending
    ensures tells { Tells text.now well (K.written out.old) (K.written out.new) (K.faults out.old) (K.faults out.new) result }
    ensures calls { (unfailed : Bool) × Writes K.writes out.old out.new unfailed }
    ensures kept { result ≢ ending.WriteFault → K.faults out.new ≡ K.faults out.old }
{
    let Ok(()) = write_all(out, text) else {
        return Ending::WriteFault;
    };
    if well { Ending::Done } else { Ending::Dirty }
}
