//! The slots that rows are put into while a tree is written.
ghost use Rattle.std.specs.Prelude.{◌≡◌, ◌+◌, ◌<◌, ◌≤◌, length, map, Some, IfOk};
ghost use Rattle.std.specs.List.{All};
ghost use Rattle.tqd_base.specs.declared.limits.TheConstants.{SUPPLIERS_MAX};
ghost use Rattle.tqd_instance.specs.Job.{suppliers};
ghost use Rattle.interval_box.specs.Ranges.{IsBoxOf, IsRangeOf};
ghost use Rattle.bound_tree.specs.Prices.{Fits};
ghost use Rattle.bound_tree.specs.OtherBox.{widened};
ghost use Rattle.bound_tree.specs.Shared.{none_given, next_slot, with_next, has_row, slot_with, given_row};
ghost use Rattle.bound_tree.specs.SlotTree.{row_in};
ghost use Rattle.bound_tree.specs.SlotTable.{kept_row, KeptFits, given_of, IsTable, named};

use crate::other_box::same_places;
use crate::row::Row;
use interval_box::IntervalBox;
use std::alloc::Global;
use tqd_base::Memory;
use tqd_instance::Job;

/// The number of slots for rows.
pub const SLOTS_MAX: usize = 64;

/// A row and its box. In a slot it stands for the row of the root with the same prices, and price 0 at all other places.
#[derive(Clone, Copy)]
pub(crate) struct KeptRow<'t> {
    row: &'t Row,
    area: IntervalBox,
}

/// The slot of a row.
#[derive(Clone, Copy)]
pub(crate) enum Named {
    /// The slot has the row.
    Held(usize),
    /// The row was put into the slot.
    Next(usize),
}

/// What the slots hold, and how many rows were put into slots.
#[derive(Drop)]
pub(crate) struct SlotTable<'t> {
    slots: Vec<Option<KeptRow<'t>>>,
    count: usize,
}

impl<'t> KeptRow<'t> {
    /// Whether the row of the root, narrowed to a box, is this row.
    fn is(&self, job: &Job, area: &IntervalBox, row: &Row) -> bool
        requires kept_of_job { IsBoxOf job.now self.now.area }
        requires kept_fits { Fits job.now self.now.area self.now.row.now }
        requires of_job { IsBoxOf job.now area.now }
        requires fits { Fits job.now area.now row.now }
        ensures { result ≡ has_row job.now area.now row.now (Some (widened job.now self.now.area self.now.row.now)) }
    {
        self.row.goods() == row.goods()
            && same_places(job, &self.area, self.row.places(), area, row.places())
    }
}

impl<'t> SlotTable<'t> {
    /// A table in which no slot has a row.
    pub(crate) fn new(alloc: Global) -> Result<SlotTable<'t>, Memory>
        ensures none { IfOk result (λ table. (job : Job) → given_of job table ≡ none_given) }
        ensures slots { IfOk result (λ table. (job : Job) → IsTable job table) }
    {
        Ok(SlotTable {
            slots: Vec::from_array(alloc, [None; SLOTS_MAX])?,
            count: 0,
        })
    }

    /// The slot that has a row, or the next one, into which the row is put.
    pub(crate) fn name(&mut self, job: &Job, area: &IntervalBox, row: &'t Row) -> Named
        requires table { IsTable job.now self.old }
        requires room { self.old.count < usize.MAX }
        requires of_job { IsBoxOf job.now area.now }
        requires fits { Fits job.now area.now row.now }
        ensures slot { result ≡ named (given_of job.now self.old) (slot_with job.now area.now (given_of job.now self.old).slots row.now) }
        ensures given { given_of job.now self.new ≡ given_row job.now area.now (given_of job.now self.old) row.now }
        ensures table { IsTable job.now self.new }
    {
        match self.slot_with(job, area, row) {
            Some(slot) => Named::Held(slot),
            None => Named::Next(self.put(job, area, row)),
        }
    }

    // The first slot that has a row.
    fn slot_with(&self, job: &Job, area: &IntervalBox, row: &Row) -> Option<usize>
        requires table { IsTable job.now self.now }
        requires of_job { IsBoxOf job.now area.now }
        requires fits { Fits job.now area.now row.now }
        ensures { result ≡ slot_with job.now area.now (given_of job.now self.now).slots row.now }
    {
        for slot in 0..self.slots.len() {
            if self.has_row(job, area, row, slot) {
                return Some(slot);
            }
        }
        None
    }

    // Whether a slot has a row.
    fn has_row(&self, job: &Job, area: &IntervalBox, row: &Row, slot: usize) -> bool
        requires table { IsTable job.now self.now }
        requires of_job { IsBoxOf job.now area.now }
        requires fits { Fits job.now area.now row.now }
        requires slot { slot < SLOTS_MAX }
        ensures { result ≡ has_row job.now area.now row.now (row_in (given_of job.now self.now).slots slot) }
    {
        match &self.slots[slot] {
            Some(kept) => kept.is(job, area, row),
            None => false,
        }
    }

    // Puts a row into the next slot.
    fn put(&mut self, job: &Job, area: &IntervalBox, row: &'t Row) -> usize
        requires table { IsTable job.now self.old }
        requires room { self.old.count < usize.MAX }
        requires of_job { IsBoxOf job.now area.now }
        requires fits { Fits job.now area.now row.now }
        ensures slot { result ≡ next_slot (given_of job.now self.old) }
        ensures given { given_of job.now self.new ≡ with_next (given_of job.now self.old) (widened job.now area.now row.now) }
        ensures table { IsTable job.now self.new }
    {
        let slot = self.count % SLOTS_MAX;
        self.slots[slot] = Some(KeptRow { row, area: *area });
        self.count += 1;
        slot
    }
}
