//! The bounds of boxes of small jobs.

ghost use Rattle.interval_box.specs.Ranges.{IsBoxOf};
ghost use Rattle.box_bound.specs.Bounded.{IsBounded};

use crate::jobs::{built, parts_of, row, steps, two_suppliers};
use box_bound::{Bounded, bound, bound_from, laws};
use interval_box::IntervalBox;
use std::alloc::Global;
use std::process::Abort;
use std::test::Fail;
use tqd_base::limits::QTY_MAX;
use tqd_base::{Memory, Stop};
use tqd_instance::{Job, JobFault, JobParts, Standing};

/// A part of the first supplier's segments: all of them, those up to a segment, or those after it.
#[derive(Clone, Copy)]
enum Part {
    All,
    UpTo(u8),
    After(u8),
}

/// The box of a job in which the first supplier has a part of its segments, and any other one all of them.
fn box_of(rt: &impl Abort, job: &Job, part: Part) -> IntervalBox
    ensures { IsBoxOf job.now result }
{
    let root = IntervalBox::root(job);
    let s = match part {
        Part::All => return root,
        Part::UpTo(s) => s,
        Part::After(s) => s,
    };
    assert!(rt; root.low_of(0) <= s);
    assert!(rt; s < root.high_of(0));
    let (low, high) = root.halves(0, s);
    match part {
        Part::UpTo(_) => low,
        _ => high,
    }
}

/// The relaxed cost of a flow and what its plan buys from the first supplier, or none where the box is empty. The
/// row has the value that it has to have.
fn read(rt: &impl Abort, job: &Job, area: &IntervalBox, bounded: &Bounded) -> Option<(u128, u64)>
    requires of_job { IsBoxOf job.now area.now }
    requires bounded { IsBounded job.now area.now bounded.now }
{
    match bounded {
        Bounded::Flow { plan, relaxed, row } => {
            let value = row.value(job, area);
            assert!(rt; 0 <= value && *relaxed <= value as u128);
            assert!(rt; 0 < job.suppliers());
            Some((*relaxed, job.total(plan, 0)))
        }
        Bounded::Empty(row) => {
            assert!(rt; 0 < row.value_free(job, area));
            None
        }
    }
}

/// The bound of a box, read.
fn found(
    rt: &impl Abort,
    alloc: Global,
    job: &Job,
    part: Part,
) -> Result<Option<(u128, u64)>, Memory> {
    let area = box_of(rt, job, part);
    let bounded = bound(alloc, job, &area)?;
    Ok(read(rt, job, &area, &bounded))
}

/// Takes a value that may go to other threads, and be read by several.
fn is_shared<T: Send + Sync>(_value: &T) {}

/// The bound of a box of the job of two suppliers, of which so many have to be bought from.
fn found_in_two(
    rt: &impl Abort,
    alloc: Global,
    least: u64,
    part: Part,
) -> Result<Option<(u128, u64)>, Stop<JobFault>> {
    let parts = two_suppliers(alloc, least)?;
    let job = built(rt, alloc, &parts)?;
    Ok(found(rt, alloc, &job, part)?)
}

#[test]
fn all_is_bought_where_a_range_has_the_least_prices(rt: HostRuntime) -> Result<(), Fail> {
    for (least, part, want) in [
        (0, Part::All, Some((165_000_000, 150))),
        (0, Part::UpTo(0), Some((175_000_000, 0))),
        (0, Part::UpTo(1), Some((175_000_000, 0))),
        (0, Part::After(1), Some((165_000_000, 150))),
        (2, Part::All, Some((165_000_000, 150))),
        (2, Part::UpTo(0), Some((175_000_000, 0))),
        (2, Part::UpTo(1), Some((175_000_000, 0))),
        (2, Part::After(1), Some((165_000_000, 150))),
    ] {
        let found = found_in_two(&rt, rt.alloc(), least, part)?;
        assert_eq!(rt; found, want);
    }
    Ok(())
}

/// The bound of a box of the job of one good.
fn found_in_steps(
    rt: &impl Abort,
    alloc: Global,
    (need, stock, fee, any): (u64, u64, u64, bool),
    part: Part,
) -> Result<Option<(u128, u64)>, Stop<JobFault>> {
    let parts = steps(alloc, need, stock, fee, any)?;
    let job = built(rt, alloc, &parts)?;
    Ok(found(rt, alloc, &job, part)?)
}

#[test]
fn the_bound_of_one_good_is_that_of_the_rule(rt: HostRuntime) -> Result<(), Fail> {
    for (numbers, part, want) in [
        ((10, 5, 0, false), Part::All, None),
        (
            (100, QTY_MAX, 0, false),
            Part::After(1),
            Some((8_000_000, 100)),
        ),
        ((100, QTY_MAX, 0, false), Part::UpTo(0), None),
        ((99, QTY_MAX, 0, false), Part::After(1), None),
        (
            (99, QTY_MAX, 0, false),
            Part::UpTo(1),
            Some((9_900_000, 99)),
        ),
        ((100, QTY_MAX, 7, false), Part::All, Some((8_000_000, 100))),
        (
            (100, QTY_MAX, 7, false),
            Part::After(0),
            Some((8_000_007, 100)),
        ),
        (
            (90, QTY_MAX, 0, true),
            Part::After(1),
            Some((8_000_000, 100)),
        ),
    ] {
        let found = found_in_steps(&rt, rt.alloc(), numbers, part)?;
        assert_eq!(rt; found, want);
    }
    Ok(())
}

#[test]
fn nothing_is_bought_where_there_are_no_goods(rt: HostRuntime) -> Result<(), Fail> {
    let parts = JobParts::new(rt.alloc(), 1)?;
    let job = built(&rt, rt.alloc(), &parts)?;
    let found = found(&rt, rt.alloc(), &job, Part::All)?;
    assert_eq!(rt; found, Some((0, 0)));
    Ok(())
}

/// How the plan of a flow stands.
fn standing(job: &Job, area: &IntervalBox, bounded: &Bounded) -> Option<Standing>
    requires { IsBounded job.now area.now bounded.now }
{
    match bounded {
        Bounded::Flow { plan, .. } => Some(job.standing(plan)),
        Bounded::Empty(_) => None,
    }
}

/// How the plan of the root's flow stands.
fn relaxed_standing(
    rt: &impl Abort,
    alloc: Global,
    parts: &JobParts,
) -> Result<Option<Standing>, Stop<JobFault>> {
    let job = built(rt, alloc, parts)?;
    let root = IntervalBox::root(&job);
    let bounded = bound(alloc, &job, &root)?;
    is_shared(&bounded);
    Ok(standing(&job, &root, &bounded))
}

#[test]
fn a_relaxed_purchase_may_have_too_few_winners(rt: HostRuntime) -> Result<(), Fail> {
    let parts = two_suppliers(rt.alloc(), 2)?;
    let standing = relaxed_standing(&rt, rt.alloc(), &parts)?;
    assert_eq!(rt; standing, Some(Standing::Winners(1)));
    Ok(())
}

#[test]
fn a_relaxed_purchase_may_lie_in_a_gap(rt: HostRuntime) -> Result<(), Fail> {
    let parts = parts_of(rt.alloc(), 1, &[30], &[(0, 50, 0, 100_000)])?;
    let gap = Standing::Gap {
        supplier: 0,
        total: 30,
    };
    let standing = relaxed_standing(&rt, rt.alloc(), &parts)?;
    assert_eq!(rt; standing, Some(gap));
    laws::feasible_is_relaxed();
    laws::relaxed_is_no_dearer();
    Ok(())
}

/// Whether the row of a flow has at least such a value.
fn reaches(job: &Job, area: &IntervalBox, bounded: &Bounded, least: i128) -> bool
    requires of_job { IsBoxOf job.now area.now }
    requires bounded { IsBounded job.now area.now bounded.now }
{
    match bounded {
        Bounded::Flow { row, .. } => least <= row.value(job, area),
        Bounded::Empty(_) => false,
    }
}

/// The bound of the root from a row of these prices, read, and whether its row has at least such a value.
fn found_from(
    rt: &impl Abort,
    alloc: Global,
    job: &Job,
    prices: &[i64],
    least: i128,
) -> Result<(Option<(u128, u64)>, bool), Memory> {
    let root = IntervalBox::root(job);
    let start = row(rt, alloc, job, &root, prices)?;
    let bounded = bound_from(alloc, job, &root, &start)?;
    Ok((
        read(rt, job, &root, &bounded),
        reaches(job, &root, &bounded, least),
    ))
}

#[test]
fn a_bound_from_a_row_keeps_its_value(rt: HostRuntime) -> Result<(), Fail> {
    let parts = two_suppliers(rt.alloc(), 0)?;
    let job = built(&rt, rt.alloc(), &parts)?;
    let found = found_from(&rt, rt.alloc(), &job, &[0, 0, 0, 0, 0], 165_000_000)?;
    assert_eq!(rt; found, (Some((165_000_000, 150)), true));
    Ok(())
}

#[test]
fn a_bound_from_the_best_row_has_its_value(rt: HostRuntime) -> Result<(), Fail> {
    let parts = steps(rt.alloc(), 99, QTY_MAX, 0, false)?;
    let job = built(&rt, rt.alloc(), &parts)?;
    let found = found_from(&rt, rt.alloc(), &job, &[100_000, 0, 1_980_000], 9_900_000)?;
    assert_eq!(rt; found, (Some((7_920_000, 99)), true));
    Ok(())
}
