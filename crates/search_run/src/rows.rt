//! Rows that show that the totals of a box can't be bought, or that too little can.
ghost use Rattle.std.specs.Prelude.{◌<◌, IfOk, IfSome, None};
ghost use Rattle.tqd_instance.specs.Job.{suppliers};
ghost use Rattle.interval_box.specs.Ranges.{IsBoxOf};
ghost use Rattle.bound_tree.specs.Kills.{Kills};
ghost use Rattle.lagrangian.specs.Limits.{AreLimits};

use bound_tree::{Leaf, Row, place_count, prices_fit};
use interval_box::IntervalBox;
use lagrangian::Limits;
use std::alloc::Global;
use tqd_base::Memory;
use tqd_instance::Job;

/// The leaf of a box whose suppliers sell more at least than may be bought: goods at -1 and places at 1. None where that
/// row shows nothing.
pub(crate) fn lows_leaf(
    alloc: Global,
    job: &Job,
    area: &IntervalBox,
) -> Result<Option<Leaf>, Memory>
    requires { IsBoxOf job.now area.now }
    ensures { IfOk result (λ leaf. IfSome leaf (Kills job.now area.now None)) }
{
    let count = place_count(job, area);
    let mut prices = Vec::with_capacity(alloc, job.goods() + count)?;
    push_copies(&mut prices, -1, job.goods())?;
    push_copies(&mut prices, 1, count)?;
    leaf_of(alloc, job, area, &prices)
}

/// The leaf of a box whose suppliers sell less at most than is needed: goods at 1, and places at -1 where the segment's
/// high is below what the supplier has, else at 0. None where that row shows nothing.
pub(crate) fn highs_leaf(
    alloc: Global,
    job: &Job,
    limits: &Limits,
    area: &IntervalBox,
) -> Result<Option<Leaf>, Memory>
    requires of_job { IsBoxOf job.now area.now }
    requires limits { AreLimits job.now limits.now }
    ensures { IfOk result (λ leaf. IfSome leaf (Kills job.now area.now None)) }
{
    let mut prices = Vec::with_capacity(alloc, job.goods() + place_count(job, area))?;
    push_copies(&mut prices, 1, job.goods())?;
    for i in 0..job.suppliers() {
        push_highs(job, limits, area, &mut prices, i)?;
    }
    leaf_of(alloc, job, area, &prices)
}

fn push_highs(
    job: &Job,
    limits: &Limits,
    area: &IntervalBox,
    prices: &mut Vec<i64>,
    i: usize,
) -> Result<(), Memory>
    requires of_job { IsBoxOf job.now area.now }
    requires limits { AreLimits job.now limits.now }
    requires supplier { i < suppliers job.now }
{
    prove!(i < job.suppliers());
    for j in area.low_of(i).max(1)..=area.high_of(i) {
        let is_short = job.high(i, j) < limits.caps[i];
        prices.push(if is_short { -1 } else { 0 })?;
    }
    Ok(())
}

/// Adds a price so often.
fn push_copies(prices: &mut Vec<i64>, price: i64, count: usize) -> Result<(), Memory> {
    for _copy in 0..count {
        prices.push(price)?;
    }
    Ok(())
}

/// An Empty leaf of prices in one list, those of the goods first, where they are a row that kills the box.
fn leaf_of(
    alloc: Global,
    job: &Job,
    area: &IntervalBox,
    prices: &[i64],
) -> Result<Option<Leaf>, Memory>
    requires { IsBoxOf job.now area.now }
    ensures { IfOk result (λ leaf. IfSome leaf (Kills job.now area.now None)) }
{
    if !prices_fit(job, area, prices) {
        return Ok(None);
    }
    let (goods, places) = prices.split_at(job.goods());
    let row = Row::build(alloc, job, area, goods, places)?;
    if row.value_free(job, area) <= 0 {
        return Ok(None);
    }
    Ok(Some(Leaf::Empty(row)))
}
