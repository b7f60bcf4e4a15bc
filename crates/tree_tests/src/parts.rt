//! Jobs that are built of parts, and how plans stand in them.

ghost use Rattle.std.specs.Prelude.{IfOk};
ghost use Rattle.tqd_instance.specs.Plan.{IsSizedFor};

use std::alloc::Global;
use std::process::Abort;
use std::test::Fail;
use tqd_base::limits::QTY_MAX;
use tqd_base::{Memory, Stop};
use tqd_instance::{
    FeeRow, Job, JobFault, JobParts, Over, OverRow, Plan, PriceRow, ShareRow, Standing, StockRow,
    TotalRow, laws,
};

/// Parts of these needs and prices, each a supplier, the total from which it holds, a good and the price of a unit.
fn parts_of(
    alloc: Global,
    suppliers: u32,
    needs: &[u64],
    prices: &[(u32, u64, u32, u64)],
) -> Result<JobParts, Memory> {
    let mut parts = JobParts::new(alloc, suppliers)?;
    for need in needs {
        parts.add_need(*need)?;
    }
    for (supplier, from, good, price) in prices {
        parts.add_price(PriceRow {
            supplier: *supplier,
            from: *from,
            good: *good,
            price: *price,
        })?;
    }
    Ok(parts)
}

/// Two goods at two suppliers, of which the first has two intervals.
const TWO: [(u32, u64, u32, u64); 6] = [
    (0, 1, 0, 1_000_000),
    (0, 1, 1, 2_000_000),
    (0, 150, 0, 900_000),
    (0, 150, 1, 1_500_000),
    (1, 1, 0, 950_000),
    (1, 1, 1, 1_600_000),
];

fn two_suppliers(alloc: Global) -> Result<JobParts, Memory> {
    parts_of(alloc, 2, &[100, 50], TWO.as_slice())
}

fn built(rt: &impl Abort, alloc: Global, parts: &JobParts) -> Result<Job, Stop<JobFault>> {
    let formed = parts.is_well_formed(alloc)?;
    assert!(rt; formed);
    Job::build(alloc, parts)
}

fn is_sent_and_shared<T: Send + Sync>(_value: &T) {}

/// How a plan and its copy stand that buys these units, each a supplier, a good and a number.
fn standing_of(
    rt: &impl Abort,
    alloc: Global,
    job: &Job,
    cells: &[(usize, usize, u64)],
) -> Result<Standing, Memory> {
    let plan = plan_of(rt, alloc, job, cells)?;
    let copy = plan.copy(alloc)?;
    is_sent_and_shared(&plan);
    let standing = job.standing(&plan);
    assert_eq!(rt; job.standing(&copy), standing);
    Ok(standing)
}

/// How a plan stands that buys so many units of one good at one supplier with two intervals: 0.10 from `first` and 0.08
/// from 100.
fn standing_in_steps(
    rt: &impl Abort,
    alloc: Global,
    need: u64,
    first: u64,
    bought: u64,
) -> Result<Standing, Stop<JobFault>> {
    let prices = [(0, first, 0, 100_000), (0, 100, 0, 80_000)];
    let parts = parts_of(alloc, 1, &[need], prices.as_slice())?;
    let job = built(rt, alloc, &parts)?;
    is_sent_and_shared(&job);
    Ok(standing_of(rt, alloc, &job, &[(0, 0, bought)])?)
}

#[test]
fn an_interval_prices_every_unit(rt: HostRuntime) -> Result<(), Fail> {
    for (need, first, bought, want) in [
        (100, 1, 100, Standing::Feasible(8_000_000)),
        (100, 1, 99, Standing::Need { good: 0, sum: 99 }),
        (99, 1, 99, Standing::Feasible(9_900_000)),
        (
            30,
            50,
            30,
            Standing::Gap {
                supplier: 0,
                total: 30,
            },
        ),
    ] {
        let standing = standing_in_steps(&rt, rt.alloc(), need, first, bought)?;
        assert_eq!(rt; standing, want);
    }
    Ok(())
}

/// Two suppliers, the first with a total and a share.
fn with_limits(alloc: Global, units: u64, low: u64, high: Option<u64>) -> Result<JobParts, Memory> {
    let mut parts = two_suppliers(alloc)?;
    parts.add_total(TotalRow { supplier: 0, units })?;
    parts.add_share(ShareRow {
        supplier: 0,
        low,
        high,
    })?;
    Ok(parts)
}

/// The segments of the first supplier of a job, and the pick of a total there.
fn segments_of(
    rt: &impl Abort,
    alloc: Global,
    job: &Job,
    total: u64,
) -> Result<(Vec<(u64, u64)>, Option<u8>), Memory> {
    assert!(rt; 0 < job.suppliers());
    let mut segments = Vec::new(alloc);
    for j in 1..=job.segments(0) {
        segments.push((job.low(0, j), job.high(0, j)))?;
    }
    Ok((segments, job.pick(0, total)))
}

/// The same, of the job with a total and a share.
fn limited(
    rt: &impl Abort,
    alloc: Global,
    (units, low, high): (u64, u64, Option<u64>),
    total: u64,
) -> Result<(Vec<(u64, u64)>, Option<u8>), Stop<JobFault>> {
    let parts = with_limits(alloc, units, low, high)?;
    let job = built(rt, alloc, &parts)?;
    Ok(segments_of(rt, alloc, &job, total)?)
}

#[test]
fn terms_cut_the_intervals(rt: HostRuntime) -> Result<(), Fail> {
    for (limits, want, total, picked) in [
        (
            (QTY_MAX, 0, None),
            [(1, 149), (150, QTY_MAX)].as_slice(),
            150,
            Some(2),
        ),
        ((200, 0, None), [(1, 149), (150, 200)].as_slice(), 201, None),
        ((149, 0, None), [(1, 149)].as_slice(), 150, None),
        (
            (QTY_MAX, 334, None),
            [(51, 149), (150, QTY_MAX)].as_slice(),
            50,
            None,
        ),
        ((QTY_MAX, 0, Some(999)), [(1, 149)].as_slice(), 0, Some(0)),
    ] {
        let (segments, pick) = limited(&rt, rt.alloc(), limits, total)?;
        assert_eq!(rt; segments.as_slice(), want);
        assert_eq!(rt; pick, picked);
    }
    Ok(())
}

/// Two suppliers with faults of which each is tested before the one before it: so many of them.
fn with_faults(alloc: Global, faults: u32) -> Result<JobParts, Memory> {
    let mut parts = two_suppliers(alloc)?;
    parts.set_winners(2, 1);
    if 1 < faults {
        parts.add_share(ShareRow {
            supplier: 1,
            low: 900,
            high: Some(100),
        })?;
    }
    if 2 < faults {
        parts.add_price(PriceRow {
            supplier: 1,
            from: 150,
            good: 1,
            price: 1_400_000,
        })?;
    }
    if 3 < faults {
        for _ in 2..1001 {
            parts.add_need(1)?;
        }
    }
    Ok(parts)
}

/// The fault that parts with so many faults are refused with, if they are.
fn refused(rt: &impl Abort, alloc: Global, faults: u32) -> Option<JobFault> {
    let Ok(parts) = with_faults(alloc, faults) else {
        return None;
    };
    match built(rt, alloc, &parts) {
        Err(Stop::Refused(fault)) => Some(fault),
        Ok(_) | Err(Stop::Memory) => None,
    }
}

#[test]
fn parts_are_refused_by_the_first_test(rt: HostRuntime) {
    for (faults, want) in [
        (1, JobFault::WinnerOrder),
        (2, JobFault::ShareOrder { supplier: 1 }),
        (
            3,
            JobFault::MissingPrice {
                supplier: 1,
                from: 150,
                good: 0,
            },
        ),
        (4, JobFault::TooManyGoods(1001)),
    ] {
        assert_eq!(rt; refused(&rt, rt.alloc(), faults), Some(want));
    }
}

/// Two suppliers and a third good, with stocks and overs.
fn with_stocks(alloc: Global) -> Result<JobParts, Memory> {
    let mut parts = two_suppliers(alloc)?;
    parts.add_need(7)?;
    parts.add_price(PriceRow {
        supplier: 1,
        from: 1,
        good: 2,
        price: 1_000_000,
    })?;
    for (supplier, good, units) in [(1, 0, 60), (0, 2, 5)] {
        parts.add_stock(StockRow {
            supplier,
            good,
            units,
        })?;
    }
    for (good, over) in [(None, Over::Any), (Some(0), Over::Percent(10))] {
        parts.add_over(OverRow { good, over })?;
    }
    Ok(parts)
}

/// The job of these, with a fee and winner limits too.
fn with_terms(rt: &impl Abort, alloc: Global) -> Result<Job, Stop<JobFault>> {
    let mut parts = with_stocks(alloc)?;
    parts.add_fee(FeeRow {
        supplier: 0,
        fee: 9_990_000,
    })?;
    parts.set_winners(1, 2);
    built(rt, alloc, &parts)
}

#[test]
fn a_job_has_the_numbers_of_its_goods(rt: HostRuntime) -> Result<(), Fail> {
    let job = with_terms(&rt, rt.alloc())?;
    for (k, need, most) in [(0, 100, 110), (1, 50, 2 * QTY_MAX), (2, 7, QTY_MAX)] {
        assert!(rt; k < job.goods());
        assert_eq!(rt; (job.need(k), job.most(k)), (need, most));
    }
    Ok(())
}

/// The fee of a supplier, its stock of a good, how many segments it has, and the price of the good in the last of them.
fn numbers_of(rt: &impl Abort, job: &Job, i: usize, k: usize) -> (u64, u64, u8, u64) {
    assert!(rt; i < job.suppliers());
    assert!(rt; k < job.goods());
    let last = job.segments(i);
    assert!(rt; 1 <= last);
    assert_eq!(rt; job.prices(i, last).len(), 3);
    (job.fee(i), job.stock(i, k), last, job.price(i, last, k))
}

#[test]
fn a_job_has_the_numbers_of_its_suppliers(rt: HostRuntime) -> Result<(), Fail> {
    let job = with_terms(&rt, rt.alloc())?;
    assert_eq!(rt; job.winners(), (1, 2));
    for (i, k, want) in [
        (0, 0, (9_990_000, QTY_MAX, 2, 900_000)),
        (0, 2, (9_990_000, 0, 2, 0)),
        (1, 0, (0, 60, 1, 950_000)),
    ] {
        assert_eq!(rt; numbers_of(&rt, &job, i, k), want);
    }
    Ok(())
}

/// A plan of the job's size with these units at these places.
fn plan_of(
    rt: &impl Abort,
    alloc: Global,
    job: &Job,
    cells: &[(usize, usize, u64)],
) -> Result<Plan, Memory>
    ensures { IfOk result (λ plan. IsSizedFor job.now plan) }
{
    let mut plan = Plan::zero(alloc, job.suppliers(), job.goods())?;
    for (i, k, n) in cells {
        assert!(rt; *i < plan.suppliers());
        assert!(rt; *k < plan.goods());
        assert!(rt; *n <= QTY_MAX);
        plan.set(*i, *k, *n);
    }
    Ok(plan)
}

#[test]
fn a_plan_stands_by_the_first_test_that_it_fails(rt: HostRuntime) -> Result<(), Fail> {
    let job = with_terms(&rt, rt.alloc())?;
    for (cells, want) in [
        (
            [(0, 0, 100), (0, 1, 50), (1, 2, 7)],
            Standing::Feasible(174_990_000 + 7_000_000),
        ),
        (
            [(0, 0, 111), (0, 1, 50), (1, 2, 7)],
            Standing::Need { good: 0, sum: 111 },
        ),
        (
            [(1, 0, 100), (0, 1, 50), (0, 2, 7)],
            Standing::Stock {
                supplier: 0,
                good: 2,
            },
        ),
        (
            [(1, 0, 100), (0, 1, 50), (1, 2, 7)],
            Standing::Stock {
                supplier: 1,
                good: 0,
            },
        ),
    ] {
        let standing = standing_of(&rt, rt.alloc(), &job, cells.as_slice())?;
        assert_eq!(rt; standing, want);
    }
    Ok(())
}

/// How a plan stands in the job of two suppliers with these limits of its winners.
fn standing_within(
    rt: &impl Abort,
    alloc: Global,
    (least, most): (u64, u64),
    cells: &[(usize, usize, u64)],
) -> Result<Standing, Stop<JobFault>> {
    let mut parts = two_suppliers(alloc)?;
    parts.set_winners(least, most);
    let job = built(rt, alloc, &parts)?;
    Ok(standing_of(rt, alloc, &job, cells)?)
}

#[test]
fn a_plan_stands_where_its_winners_are_within_the_limits(rt: HostRuntime) -> Result<(), Fail> {
    for (limits, second, want) in [
        ((1, 1), 0, Standing::Feasible(165_000_000)),
        ((2, 64), 0, Standing::Winners(1)),
        ((0, 0), 0, Standing::Winners(1)),
        ((2, 2), 1, Standing::Feasible(180_000_000)),
        ((0, 1), 1, Standing::Winners(2)),
        ((3, 64), 1, Standing::Winners(2)),
    ] {
        let cells = [(0, 0, 100), (second, 1, 50)];
        let standing = standing_within(&rt, rt.alloc(), limits, cells.as_slice())?;
        assert_eq!(rt; standing, want);
    }
    Ok(())
}

/// Whether a job is the same as one of the same parts, and as one without terms.
fn same(rt: &impl Abort, alloc: Global, job: &Job) -> Result<(bool, bool), Stop<JobFault>> {
    let again = with_terms(rt, alloc)?;
    let parts = two_suppliers(alloc)?;
    let other = built(rt, alloc, &parts)?;
    Ok((job.same(&again), job.same(&other)))
}

#[test]
fn a_job_is_the_same_as_one_of_the_same_parts(rt: HostRuntime) -> Result<(), Fail> {
    let job = with_terms(&rt, rt.alloc())?;
    assert_eq!(rt; same(&rt, rt.alloc(), &job)?, (true, false));
    laws::job_is_in_range(&job);
    laws::total_picks_where_it_lies(&job);
    Ok(())
}
