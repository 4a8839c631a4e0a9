ghost use Rattle.std.specs.Prelude.{◌≡◌, ◌≤◌, ◌^◌, ◌++◌, ◌∷◌, [], List, length, map, true, false, IfOk, OnOk, None, Some};
ghost use Rattle.pads_value.specs.Refusals.{OnFault};
ghost use Rattle.pads_value.specs.declared.row.Row.{Row as RowOf};
ghost use Rattle.pads_accum.specs.Feeding.{lists_within};
ghost use Rattle.pads_accum.specs.Guides.{plan_of};
ghost use Rattle.pads_accum.specs.Limits.{limit_of};
ghost use Rattle.pads_accum.specs.States.{is_memory};
ghost use Rattle.pads_accum.specs.Summaries.{summed};

use crate::Limit;
use crate::add::add_to_lists;
use crate::empty::empty_lists;
use crate::guide::Guide;
use crate::guides::guides_of;
use pads_plan::PlanLists;
use pads_sums::SumLists;
use pads_value::{Items, Memory, Refusal, Row};
use std::alloc::Global;

/// The sums of rows, part by part, where so many values of each part are tracked, or all (`None`).
#[derive(Drop)]
pub(crate) struct Sums {
    pub(crate) room: Option<u64>,
    pub(crate) guides: Items<Guide>,
    pub(crate) lists: SumLists,
    /// No count is above this.
    pub(crate) bound: u64,
    pub(crate) spent: bool,
    pub(crate) alloc: Global,
    pub(crate) ghost few: { length guides ≤ 2 },
    pub(crate) ghost few_lists: { spent ≡ false → length lists ≤ 2 },
    pub(crate) ghost small: { bound ≤ 2 ^ 62 },
    pub(crate) ghost within: { spent ≡ false → lists_within bound lists ≡ true },
}

impl Sums {
    /// The sums of no rows.
    pub(crate) fn new(alloc: Global, plan: PlanLists, room: Option<u64>) -> Result<Sums, Memory>
        requires few { length plan ≤ 2 }
        ensures plan { IfOk result (λ sums. map plan_of sums.guides ≡ plan) }
        ensures room { IfOk result (λ sums. sums.room ≡ room) }
        ensures empty { IfOk result (λ sums. sums.lists ≡ summed room plan []) }
        ensures unspent { IfOk result (λ sums. sums.spent ≡ false) }
    {
        let lists = empty_lists(alloc, plan.as_slice())?;
        let guides = guides_of(alloc, plan)?;
        Ok(Sums {
            room,
            guides,
            lists,
            bound: 0,
            spent: false,
            alloc,
        })
    }

    /// Adds a row.
    pub(crate) fn add(&mut self, row: &Row) -> Result<(), Refusal<Limit>>
        requires unspent { self.old.spent ≡ false }
        ensures added { OnOk result ((rows : List RowOf) → self.old.lists ≡ summed self.old.room (map plan_of self.old.guides) rows → self.new.lists ≡ summed self.old.room (map plan_of self.old.guides) (rows ++ row.now ∷ [])) }
        ensures within { OnOk result (limit_of (map plan_of self.old.guides) self.old.lists row.now ≡ None) }
        ensures limit { OnFault result (λ limit. limit_of (map plan_of self.old.guides) self.old.lists row.now ≡ Some limit) }
        ensures unchanged { OnFault result (λ limit. self.new.lists ≡ self.old.lists) }
        ensures guides { self.new.guides ≡ self.old.guides }
        ensures room { self.new.room ≡ self.old.room }
        ensures spent { self.new.spent ≡ is_memory result }
    {
        match add_to_lists(
            self.alloc,
            self.room,
            self.guides.as_slice(),
            &mut self.lists,
            self.bound,
            row,
        ) {
            Ok(next) => {
                self.bound = next;
                Ok(())
            }
            Err(Refusal::Fault(limit)) => Err(Refusal::Fault(limit)),
            Err(Refusal::Memory) => {
                self.spent = true;
                Err(Refusal::Memory)
            }
        }
    }
}
