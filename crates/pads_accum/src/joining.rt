ghost use Rattle.std.specs.Prelude.{◌≡◌, ◌++◌, [], List, map, true, false, IfOk, OnOk, None, Some};
ghost use Rattle.pads_value.specs.Refusals.{OnFault};
ghost use Rattle.pads_value.specs.declared.row.Row.{Row as RowOf};
ghost use Rattle.pads_accum.specs.Guides.{plan_of};
ghost use Rattle.pads_accum.specs.Limits.{merge_limit};
ghost use Rattle.pads_accum.specs.States.{is_memory};
ghost use Rattle.pads_accum.specs.Summaries.{summed};

use crate::Limit;
use crate::copies::{copy_lists, copy_plan};
use crate::guides::guides_of;
use crate::merge::merge_all;
use crate::sums::Sums;
use pads_value::{Memory, Refusal};

impl Sums {
    /// Merges the sums of later rows for the same plan, of which all values are tracked.
    pub(crate) fn merge(&mut self, later: Sums) -> Result<(), Refusal<Limit>>
        requires unspent { self.old.spent ≡ false }
        requires later_unspent { later.spent ≡ false }
        ensures merged { OnOk result ((rows more : List RowOf) → self.old.lists ≡ summed self.old.room (map plan_of self.old.guides) rows → later.lists ≡ summed None (map plan_of self.old.guides) more → self.new.lists ≡ summed self.old.room (map plan_of self.old.guides) (rows ++ more)) }
        ensures within { OnOk result (merge_limit self.old.lists later.lists ≡ None) }
        ensures memory { is_memory result ≡ true → merge_limit self.old.lists later.lists ≡ None }
        ensures limit { OnFault result (λ limit. merge_limit self.old.lists later.lists ≡ Some limit) }
        ensures unchanged { OnFault result (λ limit. self.new.lists ≡ self.old.lists) }
        ensures guides { self.new.guides ≡ self.old.guides }
        ensures room { self.new.room ≡ self.old.room }
        ensures spent { self.new.spent ≡ is_memory result }
    {
        match merge_all(
            self.alloc,
            self.room,
            &mut self.lists,
            self.bound,
            later.lists,
            later.bound,
        ) {
            Ok(next) => {
                self.bound = next;
                Ok(())
            }
            Err(Refusal::Fault(limit)) => Err(Refusal::Fault(limit)),
            Err(Refusal::Memory) => {
                self.spent = true;
                Err(Refusal::Memory)
            }
        }
    }

    /// The sums of no rows for the same plan, where all values are tracked.
    pub(crate) fn blank(&self) -> Result<Sums, Memory>
        ensures plan { IfOk result (λ sums. map plan_of sums.guides ≡ map plan_of self.now.guides) }
        ensures room { IfOk result (λ sums. sums.room ≡ None) }
        ensures empty { IfOk result (λ sums. sums.lists ≡ summed None (map plan_of self.now.guides) []) }
        ensures unspent { IfOk result (λ sums. sums.spent ≡ false) }
    {
        let plan = copy_plan(self.alloc, self.guides.as_slice())?;
        Sums::new(self.alloc, plan, None)
    }

    /// Equal sums for the same plan, where from now on all values are tracked.
    pub(crate) fn whole(&self) -> Result<Sums, Memory>
        requires unspent { self.now.spent ≡ false }
        ensures plan { IfOk result (λ sums. map plan_of sums.guides ≡ map plan_of self.now.guides) }
        ensures room { IfOk result (λ sums. sums.room ≡ None) }
        ensures lists { IfOk result (λ sums. sums.lists ≡ self.now.lists) }
        ensures unspent { IfOk result (λ sums. sums.spent ≡ false) }
    {
        let plan = copy_plan(self.alloc, self.guides.as_slice())?;
        let guides = guides_of(self.alloc, plan)?;
        Ok(Sums {
            room: None,
            guides,
            lists: copy_lists(self.alloc, self.lists.as_slice())?,
            bound: self.bound,
            spent: false,
            alloc: self.alloc,
        })
    }
}
