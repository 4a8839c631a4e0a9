ghost use Rattle.std.specs.Prelude.{◌≡◌, ◌<◌, ◌≤◌, [], ◌∷◌, ◌++◌, List, length, Bool, not, None, Some, is_some, true, false, IfOk, IfSome, OnOk};
ghost use Rattle.pads_module.specs.Modules.{contents};
ghost use Rattle.pads_plan.specs.Plans.{lists_of, size, most};
ghost use Rattle.pads_value.specs.Refusals.{OnFault};
ghost use Rattle.pads_value.specs.declared.row.Row.{Row as RowOf};
ghost use Rattle.pads_accum.specs.Limits.{limit_of, merge_limit};
ghost use Rattle.pads_accum.specs.States.{IsChunkOf, IsSummaryOf, has_others as has_others_of, is_memory};

use crate::Limit;
use crate::chunk::Chunk;
use crate::others::has_others;
use crate::sums::Sums;
use pads_module::Module;
use pads_plan::{PlanLists, TooManyParts, plan_of};
use pads_sums::SumLists;
use pads_value::{Memory, Refusal, Row};
use std::alloc::Global;
use std::marker::Model;

/// How many values of each part a summary tracks.
const MOST_TRACKED: u64 = 1000;

/// The summary of rows: what each part of a module's record types gave. Contracts see it as its plan,
/// the sums of each record type, and whether it is spent. It is spent once a call has answered `Memory`,
/// and takes no row then.
#[derive(Drop)]
pub struct Summary {
    sums: Sums,
}

impl Model for Summary {
    ghost use Rattle.std.specs.Prelude.{◌≡◌, Some, map};
    ghost use Rattle.pads_sums.specs.Sums.{most};
    ghost use Rattle.pads_accum.specs.Guides.{plan_of};
    ghost use Rattle.pads_accum.specs.States.{State};

    ghost Value = { State };

    ghost view = { λ summary. record { plan = map plan_of summary.sums.guides; lists = summary.sums.lists; spent = summary.sums.spent } };

    ghost invariant = { λ summary. summary.sums.room ≡ Some most };
}

/// The summary of no rows for a plan.
fn of_plan(alloc: Global, plan: PlanLists) -> Result<Summary, Memory>
    requires few { length plan ≤ 2 }
    ensures plan { IfOk result (λ summary. summary.plan ≡ plan) }
    ensures empty { IfOk result (λ summary. IsSummaryOf summary []) }
    ensures unspent { IfOk result (λ summary. summary.spent ≡ false) }
{
    let sums = Sums::new(alloc, plan, Some(MOST_TRACKED))?;
    Ok(Summary { sums })
}

impl Summary {
    /// The summary of no rows, for the parts of a module's record types; `TooManyParts` exactly where they
    /// are more than 65,536 in all.
    #[tactic(auto, using(crate::proofs::FewLists::few_lists))]
    pub fn new(alloc: Global, description: &Module) -> Result<Summary, Refusal<TooManyParts>>
        ensures plan { IfOk result (λ summary. summary.plan ≡ lists_of (contents description.now)) }
        ensures empty { IfOk result (λ summary. IsSummaryOf summary []) }
        ensures unspent { IfOk result (λ summary. summary.spent ≡ false) }
        ensures few { OnOk result (size (lists_of (contents description.now)) ≤ most) }
        ensures many { OnFault result (λ fault. most < size (lists_of (contents description.now))) }
    {
        let plan = plan_of(alloc, description)?;
        Ok(of_plan(alloc, plan)?)
    }

    /// Adds a row. Without memory the summary is spent. `Limit` comes exactly where a count would pass
    /// 2^62, and then nothing is changed.
    pub fn add(&mut self, row: &Row) -> Result<(), Refusal<Limit>>
        requires unspent { self.old.spent ≡ false }
        ensures added { OnOk result ((rows : List RowOf) → IsSummaryOf self.old rows → IsSummaryOf self.new (rows ++ row.now ∷ [])) }
        ensures within { OnOk result (limit_of self.old.plan self.old.lists row.now ≡ None) }
        ensures limit { OnFault result (λ limit. limit_of self.old.plan self.old.lists row.now ≡ Some limit) }
        ensures unchanged { OnFault result (λ limit. self.new ≡ self.old) }
        ensures plan { self.new.plan ≡ self.old.plan }
        ensures spent { self.new.spent ≡ is_memory result }
    {
        self.sums.add(row)
    }

    /// A chunk of no rows for the same plan.
    pub fn blank_chunk(&self) -> Result<Chunk, Memory>
        ensures plan { IfOk result (λ chunk. chunk.plan ≡ self.now.plan) }
        ensures empty { IfOk result (λ chunk. IsChunkOf chunk []) }
        ensures unspent { IfOk result (λ chunk. chunk.spent ≡ false) }
    {
        let sums = self.sums.blank()?;
        Ok(Chunk { sums })
    }

    /// Merges the chunk of later rows for the same plan. Without memory the summary is spent. `Limit` comes
    /// exactly where a count would pass 2^62, and then nothing is changed.
    pub fn merge(&mut self, later: Chunk) -> Result<(), Refusal<Limit>>
        requires unspent { self.old.spent ≡ false }
        requires later_unspent { later.spent ≡ false }
        requires plans { later.plan ≡ self.old.plan }
        ensures merged { OnOk result ((rows more : List RowOf) → IsSummaryOf self.old rows → IsChunkOf later more → IsSummaryOf self.new (rows ++ more)) }
        ensures within { OnOk result (merge_limit self.old.lists later.lists ≡ None) }
        ensures memory { is_memory result ≡ true → merge_limit self.old.lists later.lists ≡ None }
        ensures limit { OnFault result (λ limit. merge_limit self.old.lists later.lists ≡ Some limit) }
        ensures unchanged { OnFault result (λ limit. self.new ≡ self.old) }
        ensures plan { self.new.plan ≡ self.old.plan }
        ensures spent { self.new.spent ≡ is_memory result }
    {
        self.sums.merge(later.sums)
    }

    /// The summary as a chunk for the same plan; `None` exactly where some part has samples whose values
    /// aren't tracked.
    pub fn chunk(&self) -> Result<Option<Chunk>, Memory>
        requires unspent { self.now.spent ≡ false }
        ensures there { IfOk result (λ found. is_some found ≡ not (has_others_of self.now.lists)) }
        ensures plan { IfOk result (λ found. IfSome found (λ chunk. chunk.plan ≡ self.now.plan)) }
        ensures lists { IfOk result (λ found. IfSome found (λ chunk. chunk.lists ≡ self.now.lists)) }
        ensures rows { IfOk result (λ found. IfSome found (λ chunk. (rows : List RowOf) → IsSummaryOf self.now rows → IsChunkOf chunk rows)) }
        ensures unspent { IfOk result (λ found. IfSome found (λ chunk. chunk.spent ≡ false)) }
    {
        if has_others(self.sums.lists.as_slice()) {
            return Ok(None);
        }
        let sums = self.sums.whole()?;
        Ok(Some(Chunk { sums }))
    }

    /// Whether a call has answered `Memory`.
    pub fn is_spent(&self) -> bool
        ensures spent { result ≡ self.now.spent }
    {
        self.sums.spent
    }

    /// The sums of each record type, the header type's first, where there is one.
    pub fn lists(&self) -> &SumLists
        ensures lists { result.now ≡ self.now.lists }
    {
        &self.sums.lists
    }
}
