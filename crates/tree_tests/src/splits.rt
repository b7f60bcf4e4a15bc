//! The choice of a split.

ghost use Rattle.std.specs.Prelude.{IfOk};
ghost use Rattle.tqd_instance.specs.Plan.{IsSizedFor};

use branching::{choose, keeps_totals};
use interval_box::IntervalBox;
use std::alloc::Global;
use std::process::Abort;
use std::test::Fail;
use tqd_base::limits::QTY_MAX;
use tqd_base::{Memory, Stop};
use tqd_instance::{Job, JobFault, JobParts, Plan, PriceRow};

/// The job of these needs and offers, each a supplier, a beginning, a good and a price in hundredths.
fn built(
    rt: &impl Abort,
    alloc: Global,
    needs: &[u64],
    offers: &[(u32, u64, u32, u64)],
) -> Result<Job, Stop<JobFault>> {
    let mut parts = JobParts::new(alloc, 2)?;
    for need in needs {
        parts.add_need(*need)?;
    }
    for (supplier, from, good, hundredths) in offers.iter().copied() {
        assert!(rt; hundredths <= QTY_MAX);
        let price = hundredths * 10_000;
        parts.add_price(PriceRow {
            supplier,
            from,
            good,
            price,
        })?;
    }
    let formed = parts.is_well_formed(alloc)?;
    assert!(rt; formed);
    Job::build(alloc, &parts)
}

/// A plan that buys from one supplier these units, good by good.
fn plan_of(
    rt: &impl Abort,
    alloc: Global,
    job: &Job,
    supplier: usize,
    units: &[u64],
) -> Result<Plan, Memory>
    ensures { IfOk result (λ plan. IsSizedFor job.now plan) }
{
    let mut plan = Plan::zero(alloc, job.suppliers(), job.goods())?;
    for (k, n) in units.iter().copied().enumerate() {
        assert!(rt; supplier < plan.suppliers());
        assert!(rt; k < plan.goods());
        assert!(rt; n <= QTY_MAX);
        plan.set(supplier, k, n);
    }
    Ok(plan)
}

/// The split that is chosen for the root, where a supplier sells these units.
fn chosen(
    rt: &impl Abort,
    alloc: Global,
    job: &Job,
    supplier: usize,
    units: &[u64],
) -> Result<(usize, u8), Memory> {
    let plan = plan_of(rt, alloc, job, supplier, units)?;
    let root = IntervalBox::root(job);
    assert!(rt; !root.is_single(job));
    assert!(rt; keeps_totals(job, &root, &plan));
    Ok(choose(job, &root, &plan))
}

#[test]
fn the_split_is_beside_the_pick_of_the_first_greatest_gap(rt: HostRuntime) -> Result<(), Fail> {
    let offers = [
        (0, 1, 0, 100),
        (0, 1, 1, 200),
        (0, 150, 0, 90),
        (0, 150, 1, 150),
        (1, 1, 0, 95),
        (1, 1, 1, 160),
        (1, 200, 0, 94),
        (1, 200, 1, 160),
    ];
    let job = built(&rt, rt.alloc(), [100, 50].as_slice(), offers.as_slice())?;
    for (supplier, units, want) in [
        (0, [100, 50].as_slice(), (0, 1)),
        (0, [99, 50].as_slice(), (0, 1)),
        (1, [100, 50].as_slice(), (1, 1)),
        (1, [0, 50].as_slice(), (0, 0)),
    ] {
        assert_eq!(rt; chosen(&rt, rt.alloc(), &job, supplier, units)?, want);
    }
    Ok(())
}

#[test]
fn a_total_without_a_pick_splits_after_segment_zero(rt: HostRuntime) -> Result<(), Fail> {
    let job = built(
        &rt,
        rt.alloc(),
        [30].as_slice(),
        [(0, 50, 0, 10)].as_slice(),
    )?;
    assert_eq!(rt; chosen(&rt, rt.alloc(), &job, 0, [30].as_slice())?, (0, 0));
    Ok(())
}
