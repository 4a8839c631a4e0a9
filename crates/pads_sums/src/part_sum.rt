ghost use Rattle.std.specs.Prelude.{◌≡◌, [], ℕ, nat_eq, Option, IfOk, OnOk, if◌then◌else◌};
ghost use Rattle.std.specs.Int.{int_min, int_max};
ghost use Rattle.std.specs.Option.{option_copied};
ghost use Rattle.pads_sums.specs.Samples.{num, text};
ghost use Rattle.pads_sums.specs.declared.form.PartForm.{PartForm as FormOf};
ghost use Rattle.pads_sums.specs.Adding.{with_class, with_node, with_number, with_value};
ghost use Rattle.pads_sums.specs.Merging.{merged, outermost, with_counts};
ghost use Rattle.pads_sums.specs.Sums.{part_sum};

use crate::{Given, PartForm, Tracked, sample_given};
use pads_value::{Bytes, Items, Memory, Val};
use std::alloc::Global;

/// What is kept of a part's nodes.
#[derive(Drop)]
pub struct PartSum {
    /// The part's place, as reports tell it.
    pub place: Bytes,
    /// How many of its nodes are clean, and how many aren't.
    pub good: u64,
    pub bad: u64,
    /// How many samples are numbers, with the least, the greatest and the sum of them; 0 where there are
    /// none.
    pub nums: u64,
    pub least: i128,
    pub greatest: i128,
    pub sum: i128,
    /// The values that came first.
    pub tracked: Tracked,
    /// How many samples have a value that isn't tracked.
    pub others: u64,
}

/// The lesser of a number and the least of so many, if there are any.
fn lesser(count: u64, least: i128, number: i128) -> i128
    ensures least { result ≡ (if nat_eq count 0 then number else int_min least number) }
{
    if count == 0 {
        number
    } else {
        least.min(number)
    }
}

/// The greater of a number and the greatest of so many, if there are any.
fn greater(count: u64, greatest: i128, number: i128) -> i128
    ensures greatest { result ≡ (if nat_eq count 0 then number else int_max greatest number) }
{
    if count == 0 {
        number
    } else {
        greatest.max(number)
    }
}

/// The lesser of the least of so many numbers and of so many later ones, if there are any.
fn least_of(count: u64, least: i128, more: u64, later: i128) -> i128
    ensures least { result ≡ outermost int_min count least more later }
{
    if more == 0 {
        least
    } else if count == 0 {
        later
    } else {
        least.min(later)
    }
}

/// The greater of the greatest of both.
fn greatest_of(count: u64, greatest: i128, more: u64, later: i128) -> i128
    ensures greatest { result ≡ outermost int_max count greatest more later }
{
    if more == 0 {
        greatest
    } else if count == 0 {
        later
    } else {
        greatest.max(later)
    }
}

impl PartSum {
    /// The sum of no nodes.
    pub fn new(alloc: Global, place: Bytes) -> PartSum
        ensures none { (room : Option ℕ) (form : FormOf) → result ≡ part_sum room place form [] }
    {
        PartSum {
            place,
            good: 0,
            bad: 0,
            nums: 0,
            least: 0,
            greatest: 0,
            sum: 0,
            tracked: Tracked::new(alloc),
            others: 0,
        }
    }

    fn add_class(&mut self, clean: bool)
        ensures class { self.new ≡ with_class clean self.old }
    {
        if clean {
            self.good = self.good.saturating_add(1);
        } else {
            self.bad = self.bad.saturating_add(1);
        }
    }

    fn add_number(&mut self, number: i128)
        ensures number { self.new ≡ with_number number self.old }
    {
        self.least = lesser(self.nums, self.least, number);
        self.greatest = greater(self.nums, self.greatest, number);
        self.sum = self.sum.saturating_add(number);
        self.nums = self.nums.saturating_add(1);
    }

    fn count_number(&mut self, room: Option<u64>, number: i128) -> Result<(), Memory>
        ensures counted { OnOk result (self.new ≡ with_value room (num number) self.old) }
    {
        if !self.tracked.count_number(room, number)? {
            self.others = self.others.saturating_add(1);
        }
        Ok(())
    }

    fn count_text(&mut self, room: Option<u64>, points: &[u8]) -> Result<(), Memory>
        ensures counted { OnOk result (self.new ≡ with_value room (text points.now) self.old) }
    {
        if !self.tracked.count_text(room, points)? {
            self.others = self.others.saturating_add(1);
        }
        Ok(())
    }

    /// Adds a node of a part of this form: whether it is clean, and its value, where that is known. So many
    /// values are tracked, or all (`None`). Without memory it is partly added.
    pub fn add(
        &mut self,
        room: Option<u64>,
        form: &PartForm,
        clean: bool,
        value: Option<&Val>,
    ) -> Result<(), Memory>
        ensures added { OnOk result (self.new ≡ with_node room form.now self.old (record { value = option_copied value.entry; clean = clean })) }
    {
        self.add_class(clean);
        if !clean {
            return Ok(());
        }
        let Some(value) = value else {
            return Ok(());
        };
        match sample_given(form, value) {
            None => Ok(()),
            Some(Given::Num(number)) => {
                self.add_number(number);
                self.count_number(room, number)
            }
            Some(Given::Text(points)) => self.count_text(room, points),
            Some(Given::Address(points)) => self.count_text(room, points.as_slice()),
        }
    }

    fn add_counts(&mut self, later: &PartSum)
        ensures counts { self.new ≡ with_counts later.now self.old }
    {
        self.least = least_of(self.nums, self.least, later.nums, later.least);
        self.greatest = greatest_of(self.nums, self.greatest, later.nums, later.greatest);
        self.sum = self.sum.saturating_add(later.sum);
        self.good = self.good.saturating_add(later.good);
        self.bad = self.bad.saturating_add(later.bad);
        self.nums = self.nums.saturating_add(later.nums);
    }

    /// Adds the sum of later nodes of the same part, which tracks all its values. So many values are
    /// tracked, or all (`None`). Without memory it is partly added.
    pub fn merge(&mut self, room: Option<u64>, later: PartSum) -> Result<(), Memory>
        ensures merged { OnOk result (self.new ≡ merged room self.old later) }
    {
        self.add_counts(&later);
        let others = self.tracked.merge(room, self.others, later.tracked)?;
        self.others = others.saturating_add(later.others);
        Ok(())
    }

    /// A sum equal to this one.
    pub fn copy(&self, alloc: Global) -> Result<PartSum, Memory>
        ensures equal { IfOk result (λ copied. copied ≡ self.now) }
    {
        Ok(PartSum {
            place: Items::from_slice(alloc, self.place.as_slice())?,
            tracked: self.tracked.copy()?,
            ..*self
        })
    }
}

/// The sums of parts, in document order.
pub type PartSums = Items<PartSum>;

/// The sums of the parts of one record type.
#[derive(Drop)]
pub struct SumList {
    /// The record type's name.
    pub name: Bytes,
    pub parts: PartSums,
}

/// The sums of all record types: the header type's first, where there is one.
pub type SumLists = Items<SumList>;
