ghost use Rattle.std.specs.Prelude.{◌≡◌, ◌↔◌, Some, None, Err, IfOk, IfSome};
ghost use Rattle.pads_orders.specs.MaskTexts.{mask_told};
ghost use Rattle.pads_orders.specs.Options.{arguments};
ghost use Rattle.pads_orders.specs.Orders.{beginning, usual, settings_in, options_of, command_of, order_with, KeepSettings, KeepsLimits};
ghost use Rattle.pads_value.specs.declared.memory.Refusal.TheVariants as refusal;

use crate::mask::MaskText;
use crate::number::{count_to, number_to};
use crate::option::{coding_of, records_of, value_in};
use crate::reading::{description, question, records_asked};
use crate::word::Word;
use pads_code::Coding;
use pads_erase::Mask;
use pads_frame::Discipline;
use pads_value::Refusal;
use std::alloc::Global;

/// How an input is cut into records, and the most bytes that one may have: from 1 to 16,777,216.
#[derive(Clone, Copy, Debug)]
pub struct Cutting {
    pub discipline: Discipline,
    pub max: u64,
}

/// What the options of the command line come to, with the usual values of those that aren't given.
#[derive(Clone, Copy, Debug)]
pub struct Settings {
    pub coding: Coding,
    pub cutting: Cutting,
    /// How many workers read at the same time: from 1 to 64.
    pub jobs: u32,
    /// How many bytes a search in a record passes over at most: from 0 to 16,777,216.
    pub scan: u32,
    /// The most values of a part that a summary tells: from 0 to 1,000.
    pub top: u32,
}

/// What a query asks of the records that are read by the description in this file.
#[derive(Drop)]
pub struct Question {
    pub description: Word,
    pub path: Word,
    pub filter: Option<Word>,
}

/// What the command line asks for.
#[derive(Drop)]
pub enum Order {
    /// Whether the description in this file is accepted.
    Check {
        description: Word,
        settings: Settings,
    },
    /// One line for each record that is read by the description in this file.
    Parse {
        description: Word,
        settings: Settings,
        mask: Mask,
    },
    /// The canonical bytes of each clean record that is read by the description in this file.
    Print {
        description: Word,
        settings: Settings,
    },
    /// What the records that are read by the description in this file come to, part by part.
    Summary {
        description: Word,
        settings: Settings,
        mask: Mask,
    },
    /// One line for each node of a record that a path names and a filter keeps.
    Query {
        question: Question,
        settings: Settings,
        mask: Mask,
    },
    /// What becomes of so many records that are made for this, at most 1,000,000.
    Selftest {
        records: u32,
        settings: Settings,
    },
}

/// The words are no order.
#[derive(Clone, Copy, Debug, PartialEq, Eq)]
pub struct Usage;

/// The options.
#[derive(Clone, Copy, Debug, PartialEq, Eq)]
pub(crate) enum OptionName {
    Coding,
    Jobs,
    Mask,
    Max,
    Records,
    Scan,
    Top,
}

/// A line of the table of options: how one begins, and the value that it has where it isn't given.
#[derive(Clone, Copy)]
pub(crate) struct Line {
    pub(crate) beginning: &'static [u8],
    pub(crate) usual: &'static [u8],
}

impl Line {
    fn new(beginning: &'static [u8], usual: &'static [u8]) -> Line
        ensures beginning { result.beginning.now ≡ beginning.now }
        ensures usual { result.usual.now ≡ usual.now }
    {
        Line { beginning, usual }
    }
}

impl OptionName {
    /// Its line in the table of options.
    pub(crate) fn line(self) -> Line
        ensures beginning { result.beginning.now ≡ beginning self }
        ensures usual { result.usual.now ≡ usual self }
    {
        match self {
            OptionName::Coding => Line::new(b"--coding=", b"ascii"),
            OptionName::Jobs => Line::new(b"--jobs=", b"1"),
            OptionName::Mask => Line::new(b"--mask=", b"both"),
            OptionName::Max => Line::new(b"--max=", b"1048576"),
            OptionName::Records => Line::new(b"--records=", b"nl"),
            OptionName::Scan => Line::new(b"--scan=", b"16777216"),
            OptionName::Top => Line::new(b"--top=", b"10"),
        }
    }
}

/// What the value of each option comes to but for the mask.
pub(crate) fn settings_in(words: &[Word]) -> Option<Settings>
    ensures settings { result ≡ settings_in words.now }
    ensures limits { IfSome result KeepSettings }
{
    let coding = coding_of(value_in(OptionName::Coding, words)?)?;
    let jobs = number_to(64, value_in(OptionName::Jobs, words)?)?;
    let max = number_to(16_777_216, value_in(OptionName::Max, words)?)?;
    let discipline = records_of(max, value_in(OptionName::Records, words)?)?;
    let scan = count_to(16_777_216, value_in(OptionName::Scan, words)?)?;
    let top = count_to(1000, value_in(OptionName::Top, words)?)?;
    Some(Settings {
        coding,
        cutting: Cutting { discipline, max },
        jobs: jobs as u32,
        scan: scan as u32,
        top: top as u32,
    })
}

/// The commands.
#[derive(Clone, Copy, Debug, PartialEq, Eq)]
pub(crate) enum Command {
    Check,
    Parse,
    Print,
    Summary,
    Query,
    Selftest,
}

impl Command {
    /// The command of this name.
    pub(crate) fn named(name: &str) -> Option<Command>
        ensures command { result ≡ command_of name.now }
    {
        if name == "check" {
            Some(Command::Check)
        } else if name == "parse" {
            Some(Command::Parse)
        } else if name == "print" {
            Some(Command::Print)
        } else if name == "summary" {
            Some(Command::Summary)
        } else if name == "query" {
            Some(Command::Query)
        } else if name == "selftest" {
            Some(Command::Selftest)
        } else {
            None
        }
    }

    /// The options that it takes.
    pub(crate) fn options(self) -> &'static [OptionName]
        ensures options { result.now ≡ options_of self }
    {
        match self {
            Command::Check => &[OptionName::Coding],
            Command::Parse | Command::Query => &[
                OptionName::Coding,
                OptionName::Jobs,
                OptionName::Mask,
                OptionName::Max,
                OptionName::Records,
                OptionName::Scan,
            ],
            Command::Print => &[
                OptionName::Coding,
                OptionName::Jobs,
                OptionName::Max,
                OptionName::Records,
                OptionName::Scan,
            ],
            Command::Summary => &[
                OptionName::Coding,
                OptionName::Jobs,
                OptionName::Mask,
                OptionName::Max,
                OptionName::Records,
                OptionName::Scan,
                OptionName::Top,
            ],
            Command::Selftest => &[OptionName::Jobs],
        }
    }

    /// The order that it is with the arguments among these words and these options. No memory is taken
    /// where it is none.
    pub(crate) fn order(
        self,
        alloc: Global,
        words: &[Word],
        settings: Settings,
        mask: MaskText<'_>,
    ) -> Result<Order, Refusal<Usage>>
        requires limits { KeepSettings settings }
        ensures order { IfOk result (λ order. order_with self (arguments words.now) settings (mask_told mask.entry) ≡ Some order) }
        ensures usage { (result ≡ Err (refusal.Fault record {})) ↔ (order_with self (arguments words.now) settings (mask_told mask.entry) ≡ None) }
        ensures limits { IfOk result KeepsLimits }
    {
        match self {
            Command::Check => Ok(Order::Check {
                description: description(alloc, words)?,
                settings,
            }),
            Command::Parse => Ok(Order::Parse {
                description: description(alloc, words)?,
                settings,
                mask: mask.mask(alloc)?,
            }),
            Command::Print => Ok(Order::Print {
                description: description(alloc, words)?,
                settings,
            }),
            Command::Summary => Ok(Order::Summary {
                description: description(alloc, words)?,
                settings,
                mask: mask.mask(alloc)?,
            }),
            Command::Query => Ok(Order::Query {
                question: question(alloc, words)?,
                settings,
                mask: mask.mask(alloc)?,
            }),
            Command::Selftest => match records_asked(words) {
                Some(records) => Ok(Order::Selftest { records, settings }),
                None => Err(Refusal::Fault(Usage)),
            },
        }
    }
}
