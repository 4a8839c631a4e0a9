ghost use Rattle.std.specs.Prelude.{◌≡◌, ℕ, ◌+◌, ◌<◌, ◌≤◌, ◌^◌, true, [], IfOk, None};
ghost use Rattle.pads_calc.specs.Choices.{branch_of};
ghost use Rattle.pads_calc.specs.Readings.{node as node_of, leaf as leaf_of, fails as fails_of, faulty as faulty_of, is_ok as is_ok_reading, blame as blame_of};
ghost use Rattle.pads_calc.specs.Wrappers.{absorb_of, constrained as constrained_of, found_at};

use pads_value::{Boxed, Cause, Class, Items, Memory, Own, Pd, Pds, Span, Val};
use std::alloc::Global;

/// What a term reads as at a place of a record.
#[derive(Debug, Drop)]
pub struct Reading {
    pub value: Val,
    pub pd: Pd,
    /// Where the reading ended, counted in bytes from the record's first.
    pub place: u64,
}

impl Reading {
    /// A node from `begin` to `place` of a record whose first byte has the offset `origin`.
    pub fn node(
        origin: u64,
        own: Option<Own>,
        value: Val,
        begin: u64,
        place: u64,
        kids: Pds,
    ) -> Reading
        requires origin { origin ≤ 2 ^ 62 }
        requires begin { begin ≤ 2 ^ 62 }
        requires place { place ≤ 2 ^ 62 }
        ensures node { result ≡ node_of origin own value begin place kids }
    {
        let span = Span {
            begin: origin + begin,
            end: origin + place,
        };
        Reading {
            value,
            pd: Pd::of(own, span, kids),
            place,
        }
    }

    /// A node without a cause and without kids.
    pub fn leaf(alloc: Global, origin: u64, value: Val, begin: u64, place: u64) -> Reading
        requires origin { origin ≤ 2 ^ 62 }
        requires begin { begin ≤ 2 ^ 62 }
        requires place { place ≤ 2 ^ 62 }
        ensures leaf { result ≡ leaf_of origin value begin place }
    {
        Reading::node(origin, None, value, begin, place, Items::new(alloc))
    }

    /// A node that couldn't be read: no value, and no byte.
    pub fn fails(alloc: Global, origin: u64, cause: Cause, place: u64) -> Reading
        requires origin { origin ≤ 2 ^ 62 }
        requires place { place ≤ 2 ^ 62 }
        ensures fails { result ≡ fails_of origin cause place }
    {
        let own = Own { cause, fails: true };
        Reading::node(
            origin,
            Some(own),
            Val::Missing,
            place,
            place,
            Items::new(alloc),
        )
    }

    /// A node that takes bytes and has no value.
    pub fn faulty(alloc: Global, origin: u64, cause: Cause, begin: u64, place: u64) -> Reading
        requires origin { origin ≤ 2 ^ 62 }
        requires begin { begin ≤ 2 ^ 62 }
        requires place { place ≤ 2 ^ 62 }
        ensures faulty { result ≡ faulty_of origin cause begin place }
    {
        let own = Own {
            cause,
            fails: false,
        };
        Reading::node(
            origin,
            Some(own),
            Val::Missing,
            begin,
            place,
            Items::new(alloc),
        )
    }

    /// Whether neither the node nor one below it has a cause.
    pub fn is_ok(&self) -> bool
        ensures ok { result ≡ is_ok_reading self.now }
    {
        match self.pd.class {
            Class::Ok => true,
            Class::Err | Class::Fail => false,
        }
    }

    /// The cause for which a search gives up where it reads so.
    pub fn blame(&self) -> Cause
        ensures blame { result ≡ blame_of self.now }
    {
        self.pd.cause.unwrap_or(Cause::MissingLiteral)
    }

    /// The same descriptor and place, with a value that says only whether it reads without a fault.
    pub fn absorbed(self) -> Reading
        ensures absorbed { result ≡ absorb_of self }
    {
        let value = if self.is_ok() {
            Val::Unit
        } else {
            Val::Missing
        };
        let Reading {
            value: _,
            pd,
            place,
        } = self;
        Reading { value, pd, place }
    }

    /// A clean reading whose value doesn't meet its constraint.
    pub fn constrained(self) -> Reading
        requires { is_ok_reading self ≡ true }
        ensures constrained { result ≡ constrained_of self }
    {
        let Reading {
            value,
            mut pd,
            place,
        } = self;
        let begin = pd.span.begin;
        pd.add_cause(Cause::Constraint, begin);
        Reading { value, pd, place }
    }

    /// A clean reading at `at` of what was looked for from `from` on.
    pub fn found(self, origin: u64, from: u64, at: u64) -> Reading
        requires ok { is_ok_reading self ≡ true }
        requires origin { origin ≤ 2 ^ 62 }
        requires from { from ≤ 2 ^ 62 }
        ensures found { result ≡ found_at origin from at self }
    {
        if at <= from {
            return self;
        }
        let Reading {
            value,
            mut pd,
            place,
        } = self;
        pd.add_cause(Cause::Skipped, origin + from);
        Reading { value, pd, place }
    }

    /// The reading of a union that stands at `begin` and has this branch.
    pub fn branch(
        self,
        alloc: Global,
        origin: u64,
        number: u16,
        begin: u64,
    ) -> Result<Reading, Memory>
        requires origin { origin ≤ 2 ^ 62 }
        requires begin { begin ≤ 2 ^ 62 }
        requires place { self.place ≤ 2 ^ 62 }
        ensures branch { IfOk result (λ r. r ≡ branch_of origin number self begin) }
    {
        let Reading { value, pd, place } = self;
        let value = Val::Branch(number, Boxed::new(alloc, value)?);
        let mut kids = Items::new(alloc);
        kids.push(pd)?;
        Ok(Reading::node(origin, None, value, begin, place, kids))
    }
}
