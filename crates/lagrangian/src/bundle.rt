ghost use Rattle.std.specs.Prelude.{ℕ, ◌≡◌, ◌<◌, ◌≤◌, length, slice_index, IfOk};
ghost use Rattle.std.specs.List.{All};
ghost use Rattle.tqd_instance.specs.Job.{goods, suppliers, segments};
ghost use Rattle.interval_box.specs.Ranges.{IsBoxOf};
ghost use Rattle.lagrangian.specs.Priced.{IsGoodPrice};
ghost use Rattle.lagrangian.specs.PricingState.{units};
ghost use Rattle.lagrangian.specs.Pricing.{IsMadeFor, IsPricedFor};
ghost use Rattle.lagrangian.specs.Columns.{KeepsAll};
ghost use Rattle.lagrangian.specs.Bundle.{mixture_at, AreAllCapsOf, IsBundleOf, AreInBox, AreWholeIn};

use crate::columns::Columns;
use crate::pricing::Pricing;
use crate::scale::Pace;
use crate::trial::Trial;
use interval_box::IntervalBox;
use std::alloc::Global;
use tqd_base::Memory;
use tqd_instance::Job;

/// How many rounds a column stays without weight.
const AGE_MAX: u64 = 12;

/// How often in a round weight is moved at each supplier.
const PASSES: u64 = 3;

/// What part of the gap it is not worth to move weight for.
const GAP_PARTS: i128 = 10_000_000;

/// The columns of all suppliers of a job, the prices that a climb tries, and a place for the units of one column.
#[derive(Debug, Drop)]
pub(crate) struct Bundle {
    suppliers: Vec<Columns>,
    trial: Trial,
    units: Vec<u64>,
}

/// Copies the units that a pricing has for a supplier.
fn copy_units(pricing: &Pricing, i: usize, out: &mut Vec<u64>)
    requires supplier { i < length pricing.now.suppliers }
    requires width { length out.old.items ≡ length pricing.now.goods }
    ensures width { length out.new.items ≡ length out.old.items }
    ensures each { (k : ℕ) → k < length out.new.items → slice_index out.new.items k ≡ units pricing.now i k }
{
    for k in 0..out.len() {
        out[k] = pricing.units(i, k);
    }
}

/// What units cost in a segment, with the fee.
fn cost_of(job: &Job, i: usize, j: u8, units: &[u64]) -> i128
    requires supplier { i < suppliers job.now }
    requires segment { j ≤ segments job.now i }
{
    if j == 0 {
        return 0;
    }
    let mut cost = i128::from(job.fee(i));
    for (price, number) in job.prices(i, j).iter().zip(units.iter()) {
        cost = cost.wrapping_add(i128::from(*price).wrapping_mul(i128::from(*number)));
    }
    cost
}

/// No columns of the suppliers of a job.
fn no_columns(alloc: Global, job: &Job) -> Result<Vec<Columns>, Memory>
    ensures count { IfOk result (λ list. length list.items ≡ suppliers job.now) }
    ensures caps { IfOk result (λ list. AreAllCapsOf job.now list.items) }
{
    let mut list = Vec::with_capacity(alloc, job.suppliers())?;
    for i in 0..job.suppliers() {
        list.push(Columns::new(alloc, job, i)?)?;
    }
    Ok(list)
}

impl Bundle {
    pub(crate) fn new(alloc: Global, job: &Job) -> Result<Bundle, Memory>
        ensures { IfOk result (IsBundleOf job.now) }
    {
        Ok(Bundle {
            suppliers: no_columns(alloc, job)?,
            trial: Trial::new(alloc, job)?,
            units: vec![in alloc; 0; job.goods()]?,
        })
    }

    /// Drops the columns that are outside a box, and scales the rest of each supplier to a whole.
    pub(crate) fn confine(&mut self, job: &Job, area: &IntervalBox)
        requires of_job { IsBoxOf job.now area.now }
        requires made { IsBundleOf job.now self.old }
        ensures made { IsBundleOf job.now self.new }
        ensures inside { AreInBox job.now area.now self.new }
    {
        for i in 0..job.suppliers() {
            self.suppliers[i].confine(area.low_of(i), area.high_of(i));
        }
    }

    /// Adds, for each supplier, the cheapest units of a pricing as a column. The weights of each supplier are then a
    /// whole.
    pub(crate) fn add(&mut self, job: &Job, area: &IntervalBox, pricing: &Pricing)
        requires of_job { IsBoxOf job.now area.now }
        requires made { IsBundleOf job.now self.old }
        requires inside { AreInBox job.now area.now self.old }
        requires priced { IsPricedFor job.now area.now pricing.now.goods pricing.now }
        ensures made { IsBundleOf job.now self.new }
        ensures whole { AreWholeIn job.now area.now self.new }
    {
        for i in 0..job.suppliers() {
            let segment = pricing.least(i);
            copy_units(pricing, i, &mut self.units);
            let cost = cost_of(job, i, segment, &self.units);
            self.suppliers[i].add(segment, cost, &self.units, pricing.goods());
        }
    }

    /// Moves weight to columns that are cheaper at the prices that the mixture asks for, one step from the centre, and
    /// writes these prices.
    pub(crate) fn aim(&mut self, centre: &[i64], pace: Pace, gap: i128, tried: &mut Vec<i64>)
        requires { All IsGoodPrice tried.old.items }
        ensures kept { KeepsAll self.old.suppliers.items self.new.suppliers.items }
        ensures width { length self.new.units.items ≡ length self.old.units.items }
        ensures count { length tried.new.items ≡ length tried.old.items }
        ensures tried { All IsGoodPrice tried.new.items }
    {
        forget(&mut self.suppliers);
        self.trial.begin(centre, pace);
        buy(&self.suppliers, &mut self.trial);
        self.trial.settle();
        passes(
            &mut self.suppliers,
            &mut self.trial,
            pace.fine_amount(gap) / GAP_PARTS,
        );
        grow(&mut self.suppliers);
        self.trial.prices_into(tried);
    }

    /// The columns of a supplier.
    pub(crate) fn supplier(&self, i: usize) -> &Columns
        requires { i < length self.now.suppliers.items }
        ensures { result.now ≡ mixture_at self.now i }
    {
        &self.suppliers[i]
    }
}

/// Drops columns that had no weight for long.
fn forget(list: &mut Vec<Columns>)
    ensures { KeepsAll list.old.items list.new.items }
{
    for i in 0..list.len() {
        list[i].forget(AGE_MAX);
    }
}

/// One round more for all columns.
fn grow(list: &mut Vec<Columns>)
    ensures { KeepsAll list.old.items list.new.items }
{
    for i in 0..list.len() {
        list[i].grow();
    }
}

/// Has a trial buy what the columns are together.
fn buy(list: &Vec<Columns>, trial: &mut Trial) {
    for columns in list {
        columns.buy(trial);
    }
}

/// Moves weight at each supplier, until little is gained by it.
fn passes(list: &mut Vec<Columns>, trial: &mut Trial, little: i128)
    ensures { KeepsAll list.old.items list.new.items }
{
    for _ in 0..PASSES {
        if pass(list, trial) <= little {
            break;
        }
    }
}

/// Moves weight at each supplier, and answers by how much the reduced costs differed.
fn pass(list: &mut Vec<Columns>, trial: &mut Trial) -> i128
    ensures { KeepsAll list.old.items list.new.items }
{
    let mut gains: i128 = 0;
    for i in 0..list.len() {
        gains = gains.wrapping_add(list[i].step(trial));
    }
    gains
}
