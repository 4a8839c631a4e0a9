ghost use Rattle.std.specs.Prelude.{◌≡◌, Bool};
ghost use Rattle.pads_io.specs.Calls.{Writes};
ghost use Rattle.pads_tool.specs.Closing.{Leaves};
ghost use Rattle.pads_tool.specs.Endings.{last_line, status_of};

use crate::ending::Ending;
use crate::status::Status;
use pads_io::{Sink, write_all};

/// Leaves the last words on the notes. A failure of that write changes nothing.
pub(crate) fn close<E: Sink>(ending: Ending, notes: &mut E) -> Status
    ensures status { result ≡ status_of ending }
    ensures calls { (well : Bool) × Writes E.writes notes.old notes.new well }
    ensures words { Leaves (E.written notes.old) (E.written notes.new) (E.faults notes.old) (E.faults notes.new) (last_line ending) }
{
    let line = ending.last_line();
    let _ = write_all(notes, line.as_slice());
    ending.status()
}
