//! Boxes, their halves, and the purchases and winners in them.

ghost use Rattle.std.specs.Prelude.{IfOk};
ghost use Rattle.tqd_instance.specs.Plan.{IsSizedFor};

use interval_box::IntervalBox;
use std::alloc::Global;
use std::process::Abort;
use std::test::Fail;
use tqd_base::limits::QTY_MAX;
use tqd_base::{Memory, Stop};
use tqd_instance::{Job, JobFault, JobParts, Plan, PriceRow};

fn price(supplier: u32, from: u64, price: u64) -> PriceRow {
    PriceRow {
        supplier,
        from,
        good: 0,
        price,
    }
}

/// One good at two suppliers: the first has segments from 1 to 99 and from 100, the second one segment from 10.
fn two_suppliers(alloc: Global, least: u64, most: u64) -> Result<JobParts, Memory> {
    let mut parts = JobParts::new(alloc, 2)?;
    parts.add_need(100)?;
    parts.add_price(price(0, 1, 100_000))?;
    parts.add_price(price(0, 100, 80_000))?;
    parts.add_price(price(1, 10, 90_000))?;
    parts.set_winners(least, most);
    Ok(parts)
}

fn built(rt: &impl Abort, alloc: Global, least: u64, most: u64) -> Result<Job, Stop<JobFault>> {
    let parts = two_suppliers(alloc, least, most)?;
    let formed = parts.is_well_formed(alloc)?;
    assert!(rt; formed);
    Job::build(alloc, &parts)
}

/// A plan that buys so many units from the first supplier and from the second.
fn plan_of(
    rt: &impl Abort,
    alloc: Global,
    job: &Job,
    first: u64,
    second: u64,
) -> Result<Plan, Memory>
    ensures { IfOk result (λ plan. IsSizedFor job.now plan) }
{
    let mut plan = Plan::zero(alloc, job.suppliers(), job.goods())?;
    assert!(rt; 1 < plan.suppliers());
    assert!(rt; 0 < plan.goods());
    assert!(rt; first <= QTY_MAX);
    assert!(rt; second <= QTY_MAX);
    plan.set(0, 0, first);
    plan.set(1, 0, second);
    Ok(plan)
}

fn is_sent_and_shared<T: Send + Sync>(_value: &T) {}

#[test]
fn the_root_has_all_segments(rt: HostRuntime) -> Result<(), Fail> {
    let job = built(&rt, rt.alloc(), 0, 64)?;
    let root = IntervalBox::root(&job);
    is_sent_and_shared(&root);
    for (i, low, high) in [(0, 0, 2), (1, 0, 1), (2, 0, 0), (63, 0, 0)] {
        assert_eq!(rt; (root.low_of(i), root.high_of(i)), (low, high));
    }
    assert!(rt; root == IntervalBox::root(&job));
    assert!(rt; !root.is_single(&job));
    Ok(())
}

/// The halves of the root at the first supplier's segment 1.
fn halved(rt: &impl Abort, job: &Job) -> (IntervalBox, IntervalBox) {
    let root = IntervalBox::root(job);
    assert!(rt; root.low_of(0) <= 1);
    assert!(rt; 1 < root.high_of(0));
    root.halves(0, 1)
}

#[test]
fn halves_are_parts_of_the_root(rt: HostRuntime) -> Result<(), Fail> {
    let job = built(&rt, rt.alloc(), 0, 64)?;
    let (low, high) = halved(&rt, &job);
    for (i, of_low, of_high) in [
        (0, (0, 1), (2, 2)),
        (1, (0, 1), (0, 1)),
        (2, (0, 0), (0, 0)),
    ] {
        assert_eq!(rt; (low.low_of(i), low.high_of(i)), of_low);
        assert_eq!(rt; (high.low_of(i), high.high_of(i)), of_high);
    }
    assert!(rt; low != high);
    Ok(())
}

/// Whether a purchase is in the root, and in its halves at the first supplier's segment 1.
fn places(
    rt: &impl Abort,
    alloc: Global,
    first: u64,
    second: u64,
) -> Result<(bool, bool, bool), Stop<JobFault>> {
    let job = built(rt, alloc, 0, 64)?;
    let plan = plan_of(rt, alloc, &job, first, second)?;
    let root = IntervalBox::root(&job);
    let in_root = root.holds(&job, &plan);
    assert!(rt; root.low_of(0) <= 1);
    assert!(rt; 1 < root.high_of(0));
    let (low, high) = root.halves(0, 1);
    let in_low = low.holds(&job, &plan);
    let in_high = high.holds(&job, &plan);
    Ok((in_root, in_low, in_high))
}

#[test]
fn a_purchase_is_in_the_box_of_its_picks(rt: HostRuntime) -> Result<(), Fail> {
    for (first, second, want) in [
        (0, 0, (true, true, false)),
        (99, 10, (true, true, false)),
        (100, 10, (true, false, true)),
        (100, 9, (false, false, false)),
    ] {
        assert_eq!(rt; places(&rt, rt.alloc(), first, second)?, want);
    }
    Ok(())
}

/// Whether the winners fail in the root, where the second supplier is left out, and where both have to be bought from.
fn failures(
    rt: &impl Abort,
    alloc: Global,
    least: u64,
    most: u64,
) -> Result<(bool, bool, bool), Stop<JobFault>> {
    let job = built(rt, alloc, least, most)?;
    let root = IntervalBox::root(&job);
    let fails = root.winners_fail(&job);
    assert!(rt; root.low_of(1) == 0);
    assert!(rt; 0 < root.high_of(1));
    let (without, with) = root.halves(1, 0);
    let fails_without = without.winners_fail(&job);
    assert!(rt; with.low_of(0) <= 1);
    assert!(rt; 1 < with.high_of(0));
    let (_few, many) = with.halves(0, 1);
    assert!(rt; many.is_single(&job));
    let fails_with = many.winners_fail(&job);
    Ok((fails, fails_without, fails_with))
}

#[test]
fn winners_fail_where_no_purchase_can_meet_the_limits(rt: HostRuntime) -> Result<(), Fail> {
    for (least, most, wants) in [
        (0, 64, (false, false, false)),
        (2, 2, (false, true, false)),
        (1, 1, (false, false, true)),
        (0, 2, (false, false, false)),
    ] {
        assert_eq!(rt; failures(&rt, rt.alloc(), least, most)?, wants);
    }
    Ok(())
}
