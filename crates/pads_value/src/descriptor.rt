ghost use Rattle.std.specs.Prelude.{◌≡◌};
ghost use Rattle.pads_value.specs.Header.{all_clean, capped, counted, head, with_cause};
ghost use Rattle.pads_value.specs.declared.descriptor.Pd.{out-Pd};

use crate::{Cause, Items};

/// How a node was read.
#[derive(Clone, Copy, Debug, PartialEq, Eq)]
pub enum Class {
    /// Neither the node nor one below it has a cause.
    Ok,
    /// The node or one below it has a cause, and the node has taken its place in the record.
    Err,
    /// The node couldn't be read: it took no byte and has no value.
    Fail,
}

/// A run of bytes, by offsets in bytes: `end` is that of the first byte after it.
#[derive(Clone, Copy, Debug, PartialEq, Eq)]
pub struct Span {
    pub begin: u64,
    pub end: u64,
}

/// A node's own cause, and whether the node fails with it.
#[derive(Clone, Copy, Debug, PartialEq, Eq)]
pub struct Own {
    pub cause: Cause,
    pub fails: bool,
}

/// Descriptors in their order, as those of a node's kids.
pub type Pds = Items<Pd>;

/// The parse descriptor of a node (the PADS manual's `Pbase_pd` and its kin, with the totals of all
/// nodes below).
#[derive(Debug, Drop)]
pub struct Pd {
    /// How many nodes have a cause, this one and all below it; it stands still at 2^64 - 1.
    pub nerr: u64,
    pub class: Class,
    /// The node's own cause.
    pub cause: Option<Cause>,
    /// From the place where the node begins to that where it ends.
    pub span: Span,
    /// One descriptor for each part that was read, in the order of the record.
    pub kids: Pds,
}

impl Pd {
    /// The descriptor of a node by the header rule: its class, cause and count follow from its own
    /// cause and its kids.
    pub fn of(own: Option<Own>, span: Span, kids: Pds) -> Pd
        ensures header { result ≡ head own span kids }
    {
        let mut nerr = total(kids.as_slice());
        let mut class = if all_ok(kids.as_slice()) {
            Class::Ok
        } else {
            Class::Err
        };
        let mut cause = None;
        if let Some(own) = own {
            nerr = nerr.saturating_add(1);
            class = if own.fails { Class::Fail } else { Class::Err };
            cause = Some(own.cause);
        }
        Pd {
            nerr,
            class,
            cause,
            span,
            kids,
        }
    }

    /// Gives a clean node a cause of its own and a new begin of its span, as where bytes were passed
    /// over before it.
    pub fn add_cause(&mut self, cause: Cause, begin: u64)
        requires { (out-Pd self.old).class ≡ Class.Ok }
        ensures header { self.new ≡ with_cause cause begin self.old }
    {
        self.nerr = 1;
        self.class = Class::Err;
        self.cause = Some(cause);
        self.span.begin = begin;
    }
}

/// How many nodes of these descriptors have a cause.
fn total(kids: &[Pd]) -> u64
    ensures total { result ≡ capped (counted kids.now) }
{
    let mut nerr: u64 = 0;
    for kid in kids {
        nerr = nerr.saturating_add(kid.nerr);
    }
    nerr
}

fn all_ok(kids: &[Pd]) -> bool
    ensures all { result ≡ all_clean kids.now }
{
    kids.iter().all(|kid| kid.class == Class::Ok)
}
