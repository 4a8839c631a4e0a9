ghost use Rattle.std.specs.Prelude.{◌≡◌, ◌≤◌, length};
ghost use Rattle.pads_tool.specs.Endings.{exit_status, last_line, reason_line, status_of};
ghost use Rattle.pads_tool.specs.declared.reason.Reason.TheVariants as reason;

use crate::ending::Ending;
use crate::reason::Reason;
use crate::status::Status;
use pads_describe::{Line, put, put_number};

impl Status {
    /// The exit status of the process, from 0 for `Done` to 9 for `Limit`.
    pub fn exit_status(self) -> u8
        ensures exit_status { result ≡ exit_status self }
    {
        self as u8
    }
}

/// A line with these words.
fn line_of(words: &[u8]) -> Line
    requires { length words.now ≤ 128 }
    ensures line { result.items ≡ words.now }
{
    let mut line = Line::new();
    put(&mut line, words);
    line
}

/// The line for an item of a mask that names no declaration.
fn mask_line(item: u64) -> Line
    ensures line { result.items ≡ reason_line (reason.MaskItem item) }
{
    let mut line = Line::new();
    put(&mut line, b"pads: refused: mask item ");
    put_number(&mut line, item);
    line.push(b'\n');
    line
}

impl Reason {
    /// The last line of a run that is refused for it. It takes no memory.
    fn line(self) -> Line
        ensures line { result.items ≡ reason_line self }
    {
        match self {
            Reason::Description(verdict) => verdict.line(),
            Reason::MaskItem(item) => mask_line(item),
            Reason::Question(fault) => fault.line(),
            Reason::ImageTooLarge => line_of(b"pads: refused: image too large\n"),
            Reason::SummaryTooLarge => line_of(b"pads: refused: summary too large\n"),
        }
    }
}

impl Ending {
    pub(crate) fn status(self) -> Status
        ensures status { result ≡ status_of self }
    {
        match self {
            Ending::Done => Status::Done,
            Ending::Dirty => Status::Dirty,
            Ending::Usage => Status::Usage,
            Ending::Refused(_) => Status::Refused,
            Ending::FileFault => Status::FileFault,
            Ending::ReadFault => Status::ReadFault,
            Ending::WriteFault => Status::WriteFault,
            Ending::Memory => Status::Memory,
            Ending::TooLong => Status::TooLong,
            Ending::Limit => Status::Limit,
        }
    }

    /// The last line on the notes, which is empty where the run was done. It takes no memory.
    pub(crate) fn last_line(self) -> Line
        ensures line { result.items ≡ last_line self }
    {
        match self {
            Ending::Done | Ending::Dirty => line_of(b""),
            Ending::Usage => line_of(
                b"pads: usage: pads check|parse|print|summary|query|selftest WORDS OPTIONS\n",
            ),
            Ending::Refused(reason) => reason.line(),
            Ending::FileFault => line_of(b"pads: file fault\n"),
            Ending::ReadFault => line_of(b"pads: read fault\n"),
            Ending::WriteFault => line_of(b"pads: write fault\n"),
            Ending::Memory => line_of(b"pads: out of memory\n"),
            Ending::TooLong => line_of(b"pads: input too long\n"),
            Ending::Limit => line_of(b"pads: count too large\n"),
        }
    }
}
