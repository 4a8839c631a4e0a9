ghost use Rattle.std.specs.Prelude.{◌≡◌, [], ◌∷◌, ◌++◌, List, None, Some, true, false, OnOk};
ghost use Rattle.pads_value.specs.Refusals.{OnFault};
ghost use Rattle.pads_value.specs.declared.row.Row.{Row as RowOf};
ghost use Rattle.pads_accum.specs.Limits.{limit_of, merge_limit};
ghost use Rattle.pads_accum.specs.States.{IsChunkOf, is_memory};

use crate::Limit;
use crate::sums::Sums;
use pads_value::{Refusal, Row};
use std::marker::Model;

/// A chunk of rows: their summary in which all values of each part are tracked, so that it can be merged
/// into a summary of earlier rows. Contracts see it as they see a summary. It is spent once a call has
/// answered `Memory`, and takes nothing then.
#[derive(Drop)]
pub struct Chunk {
    pub(crate) sums: Sums,
}

impl Model for Chunk {
    ghost use Rattle.std.specs.Prelude.{◌≡◌, None, map};
    ghost use Rattle.pads_accum.specs.Guides.{plan_of};
    ghost use Rattle.pads_accum.specs.States.{State};

    ghost Value = { State };

    ghost view = { λ chunk. record { plan = map plan_of chunk.sums.guides; lists = chunk.sums.lists; spent = chunk.sums.spent } };

    ghost invariant = { λ chunk. chunk.sums.room ≡ None };
}

impl Chunk {
    /// Adds a row. Without memory the chunk is spent. `Limit` comes exactly where a count would pass 2^62,
    /// and then nothing is changed.
    pub fn add(&mut self, row: &Row) -> Result<(), Refusal<Limit>>
        requires unspent { self.old.spent ≡ false }
        ensures added { OnOk result ((rows : List RowOf) → IsChunkOf self.old rows → IsChunkOf self.new (rows ++ row.now ∷ [])) }
        ensures within { OnOk result (limit_of self.old.plan self.old.lists row.now ≡ None) }
        ensures limit { OnFault result (λ limit. limit_of self.old.plan self.old.lists row.now ≡ Some limit) }
        ensures unchanged { OnFault result (λ limit. self.new ≡ self.old) }
        ensures plan { self.new.plan ≡ self.old.plan }
        ensures spent { self.new.spent ≡ is_memory result }
    {
        self.sums.add(row)
    }

    /// Merges the chunk of later rows for the same plan. Without memory this chunk is spent. `Limit` comes
    /// exactly where a count would pass 2^62, and then nothing is changed.
    pub fn merge(&mut self, later: Chunk) -> Result<(), Refusal<Limit>>
        requires unspent { self.old.spent ≡ false }
        requires later_unspent { later.spent ≡ false }
        requires plans { later.plan ≡ self.old.plan }
        ensures merged { OnOk result ((rows more : List RowOf) → IsChunkOf self.old rows → IsChunkOf later more → IsChunkOf self.new (rows ++ more)) }
        ensures within { OnOk result (merge_limit self.old.lists later.lists ≡ None) }
        ensures memory { is_memory result ≡ true → merge_limit self.old.lists later.lists ≡ None }
        ensures limit { OnFault result (λ limit. merge_limit self.old.lists later.lists ≡ Some limit) }
        ensures unchanged { OnFault result (λ limit. self.new ≡ self.old) }
        ensures plan { self.new.plan ≡ self.old.plan }
        ensures spent { self.new.spent ≡ is_memory result }
    {
        self.sums.merge(later.sums)
    }

    /// Whether a call has answered `Memory`.
    pub fn is_spent(&self) -> bool
        ensures spent { result ≡ self.now.spent }
    {
        self.sums.spent
    }
}
