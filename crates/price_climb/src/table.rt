ghost use Rattle.std.specs.Prelude.{
  ◌≡◌,
  ◌<◌,
  ◌≤◌,
  ◌≤ℤ◌,
  ◌^◌,
  neg_ℤ,
  pos,
  IfOk,
  IsTrue,
  ◌↔◌,
  SomeIff,
  if◌then◌else◌,
};
ghost use Rattle.tqd_instance.specs.Job.{suppliers};
ghost use Rattle.interval_box.specs.Ranges.{IsBoxOf};
ghost use Rattle.bound_tree.specs.Prices.{IsPrice, Fits};
ghost use Rattle.bound_tree.specs.Value.{value};
ghost use Rattle.price_climb.specs.PriceList.{price_count, with_price};
ghost use Rattle.price_climb.specs.Table.{
  value_of,
  IsPlace,
  price_after,
  after,
  IsFitting,
  AreColumns,
  IsTable,
};

use crate::column::Column;
use crate::prices::{Change, raised, set_price};
use crate::segment::goods_after;
use bound_tree::{Row, count_of, goods_value, place_count};
use interval_box::IntervalBox;
use std::alloc::Global;
use std::marker::Model;
use tqd_base::Memory;
use tqd_instance::Job;

/// A row of a box with the value of each segment and the least one of each supplier, so that the value after a change
/// of one price takes only the work that the price touches.
///
/// Every value of the type keeps what its row says. Prices are in millionths of the currency a unit, and places number
/// the goods first, then the segments, but segment 0, of each supplier's range.
#[derive(Debug, Drop)]
pub struct ClimbTable<'j> {
    job: &'j Job,
    area: IntervalBox,
    row: Row,
    columns: Vec<Column>,
    goods_sum: i128,
}

impl<'j> Model for ClimbTable<'j> {
    ghost use Rattle.price_climb.specs.Table.{TableState};

    ghost Value = { TableState };

    ghost use Rattle.price_climb.specs.Table.{IsTable};

    ghost view = { λ t. record { job = t.job.now; area = t.area; row = t.row } };

    ghost invariant = { λ t. IsTable
        (record { job = t.job.now; area = t.area; row = t.row })
        t.columns.items t.goods_sum };
}

impl<'j> ClimbTable<'j> {
    /// The table of a row.
    pub fn new(
        alloc: Global,
        job: &'j Job,
        area: IntervalBox,
        row: Row,
    ) -> Result<ClimbTable<'j>, Memory>
        requires of_job { IsBoxOf job.now area }
        requires fits { Fits job.now area row }
        ensures { IfOk result (λ table. table ≡ record { job = job.now; area = area; row = row }) }
    {
        let columns = columns_of(alloc, job, &area, &row)?;
        let goods_sum = goods_value(job, row.goods());
        Ok(ClimbTable {
            job,
            area,
            row,
            columns,
            goods_sum,
        })
    }

    /// How many places the row has, which number the goods, then the segments of the box: at most 2,024.
    pub fn places(&self) -> usize
        ensures count { result ≡ price_count self.now.job self.now.area }
        ensures few { result ≤ 2024 }
    {
        self.job.goods() + place_count(self.job, &self.area)
    }

    /// The value of the row, in millionths of the currency and within 10^30 of 0: no feasible purchase in the box costs
    /// less.
    pub fn value(&self) -> i128
        ensures value { result ≡ value_of self.now }
        ensures not_less { neg_ℤ (pos (10 ^ 30)) ≤ℤ result }
        ensures not_more { result ≤ℤ pos (10 ^ 30) }
    {
        value_of(
            self.job,
            &self.area,
            &self.row,
            &self.columns,
            self.goods_sum,
        )
    }

    /// The value after the price at a place is raised by `delta`, or none exactly where the price would leave the limit
    /// of prices.
    pub fn after(&self, place: usize, delta: i64) -> Option<i128>
        requires place { IsPlace self.now place }
        requires delta { IsPrice delta }
        ensures { SomeIff result (IsPrice (price_after self.now place delta)) (value_of (after self.now place delta)) }
    {
        let price = raised(self.job, &self.area, &self.row, place, delta)?;
        let change = Change { place, price };
        Some(value_after(
            self.job,
            &self.area,
            &self.row,
            &self.columns,
            self.goods_sum,
            change,
        ))
    }

    /// Raises the price at a place by `delta` and answers true, or answers false and leaves the row as it was exactly
    /// where the price would leave the limit of prices.
    pub fn change(&mut self, place: usize, delta: i64) -> bool
        requires place { IsPlace self.old place }
        requires delta { IsPrice delta }
        ensures in_range { IsTrue result ↔ IsPrice (price_after self.old place delta) }
        ensures changed { self.new ≡ (if result then after self.old place delta else self.old) }
    {
        let Some(price) = raised(self.job, &self.area, &self.row, place, delta) else {
            return false;
        };
        let change = Change { place, price };
        self.goods_sum = goods_after(self.job, &self.area, &self.row, change, self.goods_sum);
        change_columns(self.job, &self.area, &self.row, &mut self.columns, change);
        set_price(self.job, &self.area, &mut self.row, change);
        true
    }

    /// The row.
    pub fn row(self) -> Row
        ensures row { result ≡ self.entry.row }
        ensures of_job { IsBoxOf self.entry.job self.entry.area }
        ensures fits { Fits self.entry.job self.entry.area result }
    {
        let ClimbTable { row, .. } = self;
        row
    }
}

/// What is kept of each supplier in a row.
fn columns_of(
    alloc: Global,
    job: &Job,
    area: &IntervalBox,
    row: &Row,
) -> Result<Vec<Column>, Memory>
    requires { IsFitting job.now area.now row.now }
    ensures { IfOk result (λ columns. AreColumns job.now area.now row.now (suppliers job.now) columns.items) }
{
    let mut columns = Vec::with_capacity(alloc, job.suppliers())?;
    let mut from = 0;
    for i in 0..job.suppliers() {
        columns.push(Column::of(job, area, row, i, from))?;
        from += count_of(area, i);
    }
    Ok(columns)
}

/// The value of a row: the sum of the goods' terms and of the suppliers' least values.
fn value_of(job: &Job, area: &IntervalBox, row: &Row, columns: &[Column], goods_sum: i128) -> i128
    requires { IsTable (record { job = job.now; area = area.now; row = row.now }) columns.now goods_sum }
    ensures value { result ≡ value job.now area.now row.now }
    ensures not_less { neg_ℤ (pos (10 ^ 30)) ≤ℤ result }
    ensures not_more { result ≤ℤ pos (10 ^ 30) }
{
    let mut sum = goods_sum;
    for i in 0..job.suppliers() {
        sum += columns[i].least;
    }
    sum
}

/// The value of a row after a change of one price.
fn value_after(
    job: &Job,
    area: &IntervalBox,
    row: &Row,
    columns: &[Column],
    goods_sum: i128,
    change: Change,
) -> i128
    requires table { IsTable (record { job = job.now; area = area.now; row = row.now }) columns.now goods_sum }
    requires place { change.place < price_count job.now area.now }
    requires price { IsPrice change.price }
    ensures { result ≡ value job.now area.now (with_price job.now row.now change.place change.price) }
{
    let mut sum = goods_after(job, area, row, change, goods_sum);
    let mut from = 0;
    for i in 0..job.suppliers() {
        sum += columns[i].after(job, area, row, change, i, from).least;
        from += count_of(area, i);
    }
    sum
}

/// Makes a change of one price in what is kept of each supplier.
fn change_columns(job: &Job, area: &IntervalBox, row: &Row, columns: &mut [Column], change: Change)
    requires fitting { IsFitting job.now area.now row.now }
    requires columns { AreColumns job.now area.now row.now (suppliers job.now) columns.old }
    requires place { change.place < price_count job.now area.now }
    requires price { IsPrice change.price }
    ensures { AreColumns job.now area.now (with_price job.now row.now change.place change.price) (suppliers job.now)
        columns.new }
{
    let mut from = 0;
    for i in 0..job.suppliers() {
        columns[i] = columns[i].after(job, area, row, change, i, from);
        from += count_of(area, i);
    }
}
