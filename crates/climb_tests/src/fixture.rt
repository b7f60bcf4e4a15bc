//! A small job, and rows of prices for its root.

ghost use Rattle.std.specs.Prelude.{IfOk};
ghost use Rattle.interval_box.specs.Ranges.{IsBoxOf};
ghost use Rattle.bound_tree.specs.Prices.{Fits};

use bound_tree::{Row, prices_fit};
use interval_box::IntervalBox;
use std::alloc::Global;
use std::process::Abort;
use tqd_base::{Memory, Stop};
use tqd_instance::{Job, JobFault, JobParts, PriceRow};

fn price(from: u64, price: u64) -> PriceRow {
    PriceRow {
        supplier: 0,
        from,
        good: 0,
        price,
    }
}

/// One good at one supplier, with two intervals: 0.10 from 1 and 0.08 from 100. The need is 100.
pub(crate) fn steps(rt: &impl Abort, alloc: Global) -> Result<Job, Stop<JobFault>> {
    let mut parts = JobParts::new(alloc, 1)?;
    parts.add_need(100)?;
    parts.add_price(price(1, 100_000))?;
    parts.add_price(price(100, 80_000))?;
    let formed = parts.is_well_formed(alloc)?;
    assert!(rt; formed);
    Job::build(alloc, &parts)
}

/// The row of these prices, that of the good first.
pub(crate) fn row(
    rt: &impl Abort,
    alloc: Global,
    job: &Job,
    area: &IntervalBox,
    prices: &[i64],
) -> Result<Row, Memory>
    requires { IsBoxOf job.now area.now }
    ensures { IfOk result (λ row. Fits job.now area.now row) }
{
    assert!(rt; prices_fit(job, area, prices));
    let (goods, places) = prices.split_at(job.goods());
    Row::build(alloc, job, area, goods, places)
}
