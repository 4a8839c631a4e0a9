ghost use Rattle.std.specs.Prelude.{◌≡◌, ◌≢◌, ◌&&◌, Err};
ghost use Rattle.pads_drive.specs.declared.stop.Stop.TheVariants as stop;
ghost use Rattle.pads_tool.specs.Describing.{is_clean};
ghost use Rattle.pads_tool.specs.Reading.{ending_of};

use crate::ending::Ending;
use pads_drive::{Ended, Stop};
use pads_value::{Class, Row};

/// Whether nothing is wrong with a record.
pub(crate) fn is_clean(row: &Row) -> bool
    ensures clean { result ≡ is_clean row.now }
{
    match row.pd.class {
        Class::Ok => true,
        Class::Err | Class::Fail => false,
    }
}

/// Whether all records are clean, with one more.
pub(crate) fn are_clean(before: bool, row: &Row) -> bool
    ensures clean { result ≡ (before && is_clean row.now) }
{
    before && is_clean(row)
}

/// Whether all records are well, with those of another piece.
pub(crate) fn are_both(before: bool, piece: bool) -> bool
    ensures both { result ≡ (before && piece) }
{
    before && piece
}

/// How a run ends that came so far in the reading of its input.
pub(crate) fn ending_of(outcome: Result<Ended<bool>, Stop>) -> Ending
    requires countable { outcome ≢ Err stop.Limit }
    ensures ending { result ≡ ending_of outcome }
{
    match outcome {
        Ok(Ended::Finished(true)) => Ending::Done,
        Ok(Ended::Finished(false)) => Ending::Dirty,
        Ok(Ended::ReadFault) => Ending::ReadFault,
        Ok(Ended::TooLong) => Ending::TooLong,
        Err(Stop::Out | Stop::Notes) => Ending::WriteFault,
        Err(Stop::Memory) => Ending::Memory,
        Err(Stop::Limit) => unreachable!(),
    }
}
