//! Small jobs.

use std::alloc::Global;
use std::process::Abort;
use tqd_base::{Memory, Stop};
use tqd_instance::{Job, JobFault, JobParts, PriceRow, StockRow};

/// A supplier, the total from which a price holds, a good and the price of a unit in millionths of the currency.
pub(crate) type Price = (u32, u64, u32, u64);

/// One good at one supplier, with two intervals: 0.10 from 1 and 0.08 from 100.
pub(crate) const ONE: [Price; 2] = [(0, 1, 0, 100_000), (0, 100, 0, 80_000)];

/// Two goods at two suppliers, of which the first has two intervals. The last price is the second supplier's of the
/// second good.
pub(crate) const TWO: [Price; 6] = [
    (0, 1, 0, 1_000_000),
    (0, 1, 1, 2_000_000),
    (0, 150, 0, 900_000),
    (0, 150, 1, 1_500_000),
    (1, 1, 0, 950_000),
    (1, 1, 1, 1_600_000),
];

/// The same with 1.30 in place of 1.60.
pub(crate) const CHEAPER: [Price; 6] = [
    (0, 1, 0, 1_000_000),
    (0, 1, 1, 2_000_000),
    (0, 150, 0, 900_000),
    (0, 150, 1, 1_500_000),
    (1, 1, 0, 950_000),
    (1, 1, 1, 1_300_000),
];

/// Parts of these needs and prices, where at least so many suppliers have to be bought from.
pub(crate) fn parts_of(
    alloc: Global,
    suppliers: u32,
    needs: &[u64],
    prices: &[Price],
    least: u64,
) -> Result<JobParts, Memory> {
    let mut parts = JobParts::new(alloc, suppliers)?;
    for need in needs {
        parts.add_need(*need)?;
    }
    for &(supplier, from, good, price) in prices {
        parts.add_price(PriceRow {
            supplier,
            from,
            good,
            price,
        })?;
    }
    parts.set_winners(least, 64);
    Ok(parts)
}

/// The job of parts that are well-formed.
pub(crate) fn built(
    rt: &impl Abort,
    alloc: Global,
    parts: &JobParts,
) -> Result<Job, Stop<JobFault>> {
    let formed = parts.is_well_formed(alloc)?;
    assert!(rt; formed);
    Job::build(alloc, parts)
}

/// The job of one good, of which so many are needed.
pub(crate) fn one_supplier(
    rt: &impl Abort,
    alloc: Global,
    need: u64,
) -> Result<Job, Stop<JobFault>> {
    let parts = parts_of(alloc, 1, &[need], ONE.as_slice(), 0)?;
    built(rt, alloc, &parts)
}

/// The same where the supplier has 5 units.
pub(crate) fn small_stock(
    rt: &impl Abort,
    alloc: Global,
    need: u64,
) -> Result<Job, Stop<JobFault>> {
    let mut parts = parts_of(alloc, 1, &[need], ONE.as_slice(), 0)?;
    parts.add_stock(StockRow {
        supplier: 0,
        good: 0,
        units: 5,
    })?;
    built(rt, alloc, &parts)
}

/// The job of two goods, of which 100 and 50 are needed, at these prices, with at least so many suppliers.
pub(crate) fn two_suppliers(
    rt: &impl Abort,
    alloc: Global,
    prices: &[Price],
    least: u64,
) -> Result<Job, Stop<JobFault>> {
    let parts = parts_of(alloc, 2, &[100, 50], prices, least)?;
    built(rt, alloc, &parts)
}
