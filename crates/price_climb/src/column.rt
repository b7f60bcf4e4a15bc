ghost use Rattle.std.specs.Prelude.{ℕ, ℤ, ◌≡◌, ◌<◌, ◌≤◌, ◌+◌, IsTrue, ◌↔◌};
ghost use Rattle.tqd_instance.specs.Job.{suppliers};
ghost use Rattle.interval_box.specs.Ranges.{IsBoxOf};
ghost use Rattle.bound_tree.specs.Prices.{IsPrice, places_to};
ghost use Rattle.price_climb.specs.PriceList.{price_count, with_price};
ghost use Rattle.price_climb.specs.Columns.{segment_in, value_in, Keeps, IsColumn, Touches};
ghost use Rattle.price_climb.specs.Table.{IsFitting};

use crate::prices::Change;
use crate::segment::{segment_after, segment_in};
use bound_tree::{Row, count_of};
use interval_box::IntervalBox;
use tqd_instance::Job;

/// The values of a supplier's segments in a row, by their numbers, and the least of those in its range.
#[derive(Clone, Copy, Debug)]
pub(crate) struct Column {
    values: [i128; 17],
    pub(crate) least: i128,
}

impl Column {
    /// What is kept where a range begins, at a segment of this value.
    fn first(j: u8, value: i128) -> Column
        requires { j ≤ 16 }
        ensures { (f : ℕ → ℤ) → value ≡ f j → Keeps j 0 f result }
    {
        let mut values = [0; 17];
        values[usize::from(j)] = value;
        Column {
            values,
            least: value,
        }
    }

    /// Keeps the value of the next segment.
    fn add(&mut self, j: u8, value: i128)
        requires { j ≤ 16 }
        ensures { (low n : ℕ) → (f : ℕ → ℤ) → Keeps low n f self.old → j ≡ low + (n + 1) → value ≡ f j
            → Keeps low (n + 1) f self.new }
    {
        self.values[usize::from(j)] = value;
        self.least = self.least.min(value);
    }

    /// The value of a segment.
    #[tactic(auto, unfolding(crate::specs::Columns::value_in))]
    fn value(&self, j: u8) -> i128
        requires { j ≤ 16 }
        ensures { result ≡ value_in self.now j }
    {
        self.values[usize::from(j)]
    }

    /// The values of a supplier's segments in a row, whose places begin at `from`.
    pub(crate) fn of(job: &Job, area: &IntervalBox, row: &Row, i: usize, from: usize) -> Column
        requires fitting { IsFitting job.now area.now row.now }
        requires supplier { i < suppliers job.now }
        requires from { from ≡ places_to area.now i }
        ensures { IsColumn job.now area.now row.now i result }
    {
        let (low, high) = (area.low_of(i), area.high_of(i));
        let mut column = Column::first(low, segment_in(job, area, row, i, from, low));
        for j in low + 1..high + 1 {
            column.add(j, segment_in(job, area, row, i, from, j));
        }
        column
    }

    /// The values of the segments after a change of one price.
    pub(crate) fn after(
        &self,
        job: &Job,
        area: &IntervalBox,
        row: &Row,
        change: Change,
        i: usize,
        from: usize,
    ) -> Column
        requires fitting { IsFitting job.now area.now row.now }
        requires place { change.place < price_count job.now area.now }
        requires price { IsPrice change.price }
        requires supplier { i < suppliers job.now }
        requires from { from ≡ places_to area.now i }
        requires column { IsColumn job.now area.now row.now i self.now }
        ensures { IsColumn job.now area.now (with_price job.now row.now change.place change.price) i result }
    {
        if !touches(job, area, change.place, i, from) {
            return *self;
        }
        let (low, high) = (area.low_of(i), area.high_of(i));
        let first = segment_after(job, area, row, change, i, from, low, self.value(low));
        let mut column = Column::first(low, first);
        for j in low + 1..high + 1 {
            let value = segment_after(job, area, row, change, i, from, j, self.value(j));
            column.add(j, value);
        }
        column
    }
}

/// Whether a change of the price at a place may touch the segments of a supplier, whose places begin at `from`.
fn touches(job: &Job, area: &IntervalBox, place: usize, i: usize, from: usize) -> bool
    requires fitting { IsBoxOf job.now area.now }
    requires supplier { i < suppliers job.now }
    requires from { from ≡ places_to area.now i }
    requires few { from ≤ 1024 }
    ensures { IsTrue result ↔ Touches job.now area.now place i }
{
    if place < job.goods() {
        return true;
    }
    let at = place - job.goods();
    from <= at && at < from + count_of(area, i)
}
