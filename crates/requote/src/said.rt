ghost use Rattle.std.specs.Prelude.{◌≡◌, pos, int_le};
ghost use Rattle.interval_box.specs.Ranges.{IsBoxOf};

use crate::row::LeafRow;
use bound_tree::{Leaf, LineHead, Row};
use interval_box::IntervalBox;
use std::alloc::Global;
use tqd_base::Memory;
use tqd_instance::Job;
use tree_checker::{RowSlots, named_slot, prices_wanted, read_row, split_place};

/// What a line says of a box.
#[derive(Debug, Drop)]
pub(crate) enum Said {
    /// A proper split of the box, at the number `at` of the range of a supplier.
    Splits { supplier: usize, at: u8 },
    /// A leaf that kills the box.
    Kills(Leaf),
    /// A leaf that does not kill the box: by the winner limits, or with a row that fits the box.
    FallsShort,
    /// Nothing that can be read.
    Nothing,
}

/// The leaves that have a row.
#[derive(Clone, Copy)]
pub(crate) enum RowLeaf {
    Bound,
    Empty,
}

impl RowLeaf {
    ghost use Rattle.std.specs.Prelude.{◌≡◌};
    ghost use Rattle.requote.specs.Reading.{row_leaf};

    // The leaf with a row.
    fn with(self, row: Row) -> Leaf
        ensures { result ≡ row_leaf self row }
    {
        match self {
            RowLeaf::Bound => Leaf::Bound(row),
            RowLeaf::Empty => Leaf::Empty(row),
        }
    }
}

/// A box of a job, of which lines are read, and the cost of the best plan in millionths of the currency, or none.
#[derive(Clone, Copy)]
pub(crate) struct Target<'a> {
    pub(crate) job: &'a Job,
    pub(crate) area: IntervalBox,
    pub(crate) best: Option<u128>,
    pub ghost of_job: { IsBoxOf job.now area },
}

impl<'a> Target<'a> {
    ghost use Rattle.std.specs.Prelude.{◌≡◌, ◌≤◌, length, Some, IfOk};
    ghost use Rattle.bound_tree.specs.LineHead.{head_of, prices_of, IsRowOf};
    ghost use Rattle.tree_checker.specs.declared.leaf.TheConstants.{PRICES_MAX};
    ghost use Rattle.tree_checker.specs.SlotRows.{AreSlotRows};
    ghost use Rattle.requote.specs.Said.{split_said, winners_said};
    ghost use Rattle.requote.specs.Reading.{
      CanDoIn,
      FitsAs,
      IsLeafSaid,
      IsSaid,
      NamesRow,
      row_in_box,
      row_kills,
      target_row,
    };

    /// What a line says of the box, by its head. In format 2 a leaf has the row in the slot that it names, else its
    /// prices are read to the front of the places. A `row` line says nothing.
    pub(crate) fn said(
        &self,
        alloc: Global,
        head: Option<LineHead>,
        line: &[u8],
        slots: &RowSlots,
        places: &mut [i64],
    ) -> Result<Said, Memory>
        requires head { head ≡ head_of line.now }
        requires rows { AreSlotRows self.now.job.now slots.now }
        requires room { PRICES_MAX ≤ length places.old }
        ensures says { IfOk result (IsSaid self.now slots.now head (prices_of line.now)) }
        ensures can_do { IfOk result (CanDoIn self.now) }
    {
        match head {
            Some(LineHead::Split { supplier, at }) => Ok(self.split(supplier, at)),
            Some(LineHead::Bound { count }) => {
                self.leaf(alloc, RowLeaf::Bound, line, count, slots, places)
            }
            Some(LineHead::Empty { count }) => {
                self.leaf(alloc, RowLeaf::Empty, line, count, slots, places)
            }
            Some(LineHead::Winners) => Ok(self.winners()),
            _ => Ok(Said::Nothing),
        }
    }

    // A split.
    fn split(&self, supplier: u128, at: u128) -> Said
        ensures says { result ≡ split_said self.now.job.now self.now.area supplier at }
        ensures can_do { CanDoIn self.now result }
    {
        match split_place(self.job, &self.area, supplier, at) {
            Some((supplier, at)) => Said::Splits { supplier, at },
            None => Said::Nothing,
        }
    }

    // A leaf by the winner limits.
    fn winners(&self) -> Said
        ensures says { result ≡ winners_said self.now.job.now self.now.area }
        ensures can_do { CanDoIn self.now result }
    {
        if self.area.winners_fail(self.job) {
            Said::Kills(Leaf::Winners)
        } else {
            Said::FallsShort
        }
    }

    // A leaf with a row, of which the line has so many prices, or of whose slot it has the number.
    fn leaf(
        &self,
        alloc: Global,
        leaf: RowLeaf,
        line: &[u8],
        count: u64,
        slots: &RowSlots,
        places: &mut [i64],
    ) -> Result<Said, Memory>
        requires row { IsRowOf count (head_of line.now) }
        requires rows { AreSlotRows self.now.job.now slots.now }
        requires room { PRICES_MAX ≤ length places.old }
        ensures says { IfOk result (IsLeafSaid self.now leaf (target_row self.now slots.now (prices_of line.now))) }
        ensures can_do { IfOk result (CanDoIn self.now) }
    {
        if slots.are_in_use() {
            let named = named_slot(line, count, places);
            return match self.row_in(slots, named) {
                Some(prices) => self.judged(alloc, leaf, LeafRow::OfRoot(prices)),
                None => Ok(Said::Nothing),
            };
        }
        if read_row(self.job, &self.area, line, count, places).is_some() {
            return Ok(Said::Nothing);
        }
        let wanted = prices_wanted(self.job, &self.area);
        self.judged(alloc, leaf, LeafRow::OfBox(&places[..wanted]))
    }

    // The row in the slot that a leaf names, where there is one.
    fn row_in<'s>(&self, slots: &'s RowSlots, named: Option<u128>) -> Option<&'s [i64]>
        requires { AreSlotRows self.now.job.now slots.now }
        ensures { NamesRow self.now.job.now slots.now named result }
    {
        slots.row(named?)
    }

    // A leaf with a row that fits the box.
    fn judged(&self, alloc: Global, leaf: RowLeaf, row: LeafRow<'_>) -> Result<Said, Memory>
        requires { FitsAs self.now.job.now self.now.area row }
        ensures says { IfOk result
            (IsLeafSaid self.now leaf (Some (row_in_box self.now.job.now self.now.area row.entry))) }
        ensures can_do { IfOk result (CanDoIn self.now) }
    {
        if !self.is_killed_by(leaf, row) {
            return Ok(Said::FallsShort);
        }
        Ok(Said::Kills(leaf.with(row.build(alloc, self.job, &self.area)?)))
    }

    // Whether a leaf with this row kills the box.
    fn is_killed_by(&self, leaf: RowLeaf, row: LeafRow<'_>) -> bool
        requires { FitsAs self.now.job.now self.now.area row }
        ensures { result ≡ row_kills self.now leaf (row_in_box self.now.job.now self.now.area row.entry) }
    {
        match (leaf, self.best) {
            (RowLeaf::Bound, Some(best)) => reaches(row.value(self.job, &self.area), best),
            (RowLeaf::Bound, None) => false,
            (RowLeaf::Empty, _) => 0 < row.value_free(self.job, &self.area),
        }
    }
}

fn reaches(value: i128, cost: u128) -> bool
    ensures { result ≡ int_le (pos cost) value }
{
    0 <= value && cost <= value as u128
}
