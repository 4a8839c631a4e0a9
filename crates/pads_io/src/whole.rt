ghost use Rattle.std.specs.Prelude.{OnOk, OnErr, is_ok};
ghost use Rattle.std.specs.Io.KnownBytes.{Appends};
ghost use Rattle.pads_io.specs.Calls.{Writes};
ghost use Rattle.pads_io.specs.Faults.{HasCause};
ghost use Rattle.pads_io.specs.Transfer.{AppendsPrefix};

use crate::traits::Sink;

/// The sink failed before all bytes were written.
#[derive(Debug, Clone, Copy, PartialEq, Eq)]
pub struct WriteFault;

/// Writes all the bytes. At `WriteFault` the sink has taken a prefix of them.
pub fn write_all<K: Sink>(sink: &mut K, bytes: &[u8]) -> Result<(), WriteFault>
    ensures ok { OnOk result (Appends (K.written sink.old) (K.written sink.new) bytes.now) }
    ensures err { OnErr result (AppendsPrefix (K.written sink.old) (K.written sink.new) bytes.now) }
    ensures calls { Writes K.writes sink.old sink.new (is_ok result) }
    ensures cause { HasCause (K.faults sink.old) (K.faults sink.new) result }
{
    let mut rest = bytes;
    while !rest.is_empty() {
        let Ok(taken) = sink.write(rest) else {
            return Err(WriteFault);
        };
        rest = &rest[taken..];
    }
    Ok(())
}
