//! Small jobs, and rows of prices for their boxes.

ghost use Rattle.std.specs.Prelude.{IfOk};
ghost use Rattle.interval_box.specs.Ranges.{IsBoxOf};
ghost use Rattle.bound_tree.specs.Prices.{Fits};

use bound_tree::{Row, prices_fit};
use interval_box::IntervalBox;
use std::alloc::Global;
use std::process::Abort;
use tqd_base::{Memory, Stop};
use tqd_instance::{FeeRow, Job, JobFault, JobParts, Over, OverRow, PriceRow, StockRow};

/// Parts of these needs and prices, each a supplier, the total from which it holds, a good and the price of a unit.
pub(crate) fn parts_of(
    alloc: Global,
    suppliers: u32,
    needs: &[u64],
    prices: &[(u32, u64, u32, u64)],
) -> Result<JobParts, Memory> {
    let mut parts = JobParts::new(alloc, suppliers)?;
    for need in needs {
        parts.add_need(*need)?;
    }
    for (supplier, from, good, price) in prices {
        parts.add_price(PriceRow {
            supplier: *supplier,
            from: *from,
            good: *good,
            price: *price,
        })?;
    }
    Ok(parts)
}

/// One good at one supplier, with two intervals: 0.10 from 1 and 0.08 from 100.
pub(crate) fn steps(
    alloc: Global,
    need: u64,
    stock: u64,
    fee: u64,
    any: bool,
) -> Result<JobParts, Memory> {
    let prices = [(0, 1, 0, 100_000), (0, 100, 0, 80_000)];
    let mut parts = parts_of(alloc, 1, &[need], prices.as_slice())?;
    parts.add_stock(StockRow {
        supplier: 0,
        good: 0,
        units: stock,
    })?;
    parts.add_fee(FeeRow { supplier: 0, fee })?;
    if any {
        parts.add_over(OverRow {
            good: None,
            over: Over::Any,
        })?;
    }
    Ok(parts)
}

/// Two goods at two suppliers, of which the first has two intervals.
const TWO: [(u32, u64, u32, u64); 6] = [
    (0, 1, 0, 1_000_000),
    (0, 1, 1, 2_000_000),
    (0, 150, 0, 900_000),
    (0, 150, 1, 1_500_000),
    (1, 1, 0, 950_000),
    (1, 1, 1, 1_600_000),
];

pub(crate) fn two_suppliers(alloc: Global, least: u64) -> Result<JobParts, Memory> {
    let mut parts = parts_of(alloc, 2, &[100, 50], TWO.as_slice())?;
    parts.set_winners(least, 64);
    Ok(parts)
}

pub(crate) fn built(
    rt: &impl Abort,
    alloc: Global,
    parts: &JobParts,
) -> Result<Job, Stop<JobFault>> {
    let formed = parts.is_well_formed(alloc)?;
    assert!(rt; formed);
    Job::build(alloc, parts)
}

/// The job of one good, of which so many are needed, at a supplier that has so many.
pub(crate) fn job_of(
    rt: &impl Abort,
    alloc: Global,
    need: u64,
    stock: u64,
) -> Result<Job, Stop<JobFault>> {
    let parts = steps(alloc, need, stock, 0, false)?;
    built(rt, alloc, &parts)
}

/// The row of these prices, those of the goods first.
pub(crate) fn row(
    rt: &impl Abort,
    alloc: Global,
    job: &Job,
    area: &IntervalBox,
    prices: &[i64],
) -> Result<Row, Memory>
    requires { IsBoxOf job.now area.now }
    ensures { IfOk result (λ row. Fits job.now area.now row) }
{
    assert!(rt; prices_fit(job, area, prices));
    let (goods, places) = prices.split_at(job.goods());
    Row::build(alloc, job, area, goods, places)
}
