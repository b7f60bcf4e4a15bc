//! Rows of prices, their values, and the leaves that they make.

ghost use Rattle.interval_box.specs.Ranges.{IsBoxOf};
ghost use Rattle.bound_tree.specs.Prices.{Fits};

use crate::jobs::{built, job_of, row, steps, two_suppliers};
use bound_tree::{Leaf, Row, TreeNode, laws, place_count, prices_fit, value_free_in, value_in};
use interval_box::IntervalBox;
use std::alloc::Global;
use std::process::Abort;
use std::test::Fail;
use tqd_base::Memory;
use tqd_base::limits::{DUAL_MAX, QTY_MAX};
use tqd_instance::Job;

/// The value and the free value of a row in the root, by both ways.
fn values(
    rt: &impl Abort,
    alloc: Global,
    job: &Job,
    prices: &[i64],
) -> Result<(i128, i128), Memory> {
    let root = IntervalBox::root(job);
    let row = row(rt, alloc, job, &root, prices)?;
    let value = row.value(job, &root);
    let free = row.value_free(job, &root);
    assert!(rt; (value, free) == values_in(rt, job, &root, prices));
    Ok((value, free))
}

/// The value and the free value of prices in one list.
fn values_in(rt: &impl Abort, job: &Job, area: &IntervalBox, prices: &[i64]) -> (i128, i128)
    requires { IsBoxOf job.now area.now }
{
    assert!(rt; prices_fit(job, area, prices));
    (
        value_in(job, area, prices),
        value_free_in(job, area, prices),
    )
}

/// The values of a row of the job of one good.
fn values_of_one(
    rt: &impl Abort,
    alloc: Global,
    (need, stock, fee, any): (u64, u64, u64, bool),
    prices: &[i64],
) -> Result<(i128, i128), Fail> {
    let parts = steps(alloc, need, stock, fee, any)?;
    let job = built(rt, alloc, &parts)?;
    Ok(values(rt, alloc, &job, prices)?)
}

#[test]
fn a_row_of_one_good_has_the_value_of_the_rule(rt: HostRuntime) -> Result<(), Fail> {
    for (numbers, prices, want) in [
        ((100, QTY_MAX, 0, false), [80_000, 0, 0], (8_000_000, 0)),
        ((100, QTY_MAX, 0, false), [80_001, 0, 0], (8_000_000, 0)),
        ((100, QTY_MAX, 0, false), [79_999, 0, 0], (7_999_900, 0)),
        ((100, QTY_MAX, 0, false), [0, -1, 0], (-99, -99)),
        (
            (99, QTY_MAX, 0, false),
            [100_000, 0, 1_980_000],
            (9_900_000, 0),
        ),
        (
            (100, QTY_MAX, 1_000_000, false),
            [90_000, 0, 0],
            (9_000_000, 0),
        ),
        (
            (100, QTY_MAX, 1_000_000, false),
            [80_000, 0, 0],
            (8_000_000, 0),
        ),
        ((10, 5, 0, false), [1, 0, 0], (10, 5)),
        ((10, 5, 0, false), [0, 0, 0], (0, 0)),
        (
            (90, QTY_MAX, 0, true),
            [-1, 0, 0],
            (-100_000_000, -100_000_000),
        ),
    ] {
        let values = values_of_one(&rt, rt.alloc(), numbers, prices.as_slice())?;
        assert_eq!(rt; values, want);
    }
    Ok(())
}

fn is_sent_and_shared<T: Send + Sync>(_value: &T) {}

#[test]
fn a_row_fits_where_each_place_has_a_price_in_range(rt: HostRuntime) -> Result<(), Fail> {
    let job = job_of(&rt, rt.alloc(), 100, QTY_MAX)?;
    let root = IntervalBox::root(&job);
    assert_eq!(rt; place_count(&job, &root), 2);
    for (prices, fits) in [
        ([DUAL_MAX, -DUAL_MAX, 0].as_slice(), true),
        ([DUAL_MAX + 1, 0, 0].as_slice(), false),
        ([0, 0, -DUAL_MAX - 1].as_slice(), false),
        ([80_000, 0].as_slice(), false),
        ([80_000, 0, 0, 0].as_slice(), false),
    ] {
        assert_eq!(rt; prices_fit(&job, &root, prices), fits);
    }
    Ok(())
}

/// The row of the root with these prices in the half where the first supplier is in segment 2.
fn narrowed(
    rt: &impl Abort,
    alloc: Global,
    job: &Job,
    prices: &[i64],
) -> Result<((i64, i64), (i64, i64), i128), Memory> {
    let root = IntervalBox::root(job);
    let whole = row(rt, alloc, job, &root, prices)?;
    is_sent_and_shared(&whole);
    assert!(rt; root.low_of(0) <= 1);
    assert!(rt; 1 < root.high_of(0));
    let (_low, half) = root.halves(0, 1);
    let part = whole.narrowed(alloc, job, &root, &half)?;
    Ok(read(rt, job, &half, &part))
}

/// The prices of two goods and of two places of a row, and its value.
fn read(rt: &impl Abort, job: &Job, area: &IntervalBox, row: &Row) -> ((i64, i64), (i64, i64), i128)
    requires of_job { IsBoxOf job.now area.now }
    requires fits { Fits job.now area.now row.now }
{
    assert_eq!(rt; place_count(job, area), 2);
    assert_eq!(rt; job.goods(), 2);
    let goods = (row.good(0), row.good(1));
    let places = (row.place(0), row.place(1));
    (goods, places, row.value(job, area))
}

#[test]
fn a_narrowed_row_keeps_the_prices_of_its_part(rt: HostRuntime) -> Result<(), Fail> {
    let alloc = rt.alloc();
    let parts = two_suppliers(alloc, 0)?;
    let job = built(&rt, alloc, &parts)?;
    let goods = (900_000, 1_500_000);
    for (prices, want) in [
        ([900_000, 1_500_000, 0, 0, 0], (goods, (0, 0), 165_000_000)),
        ([900_000, 1_500_000, 7, 0, 9], (goods, (0, 9), 165_000_000)),
    ] {
        let (value, _free) = values(&rt, alloc, &job, prices.as_slice())?;
        assert_eq!(rt; value, 165_000_000);
        assert_eq!(rt; narrowed(&rt, alloc, &job, prices.as_slice())?, want);
    }
    Ok(())
}

/// Whether a bound of these prices kills the root against a best cost.
fn bound_kills(
    rt: &impl Abort,
    alloc: Global,
    job: &Job,
    prices: &[i64],
    best: Option<u128>,
) -> Result<bool, Memory> {
    let root = IntervalBox::root(job);
    let node = TreeNode::Leaf(Leaf::Bound(row(rt, alloc, job, &root, prices)?));
    is_sent_and_shared(&node);
    match node {
        TreeNode::Leaf(leaf) => Ok(leaf.kills(job, &root, best)),
        TreeNode::Split { .. } => Ok(false),
    }
}

#[test]
fn a_leaf_kills_where_its_value_reaches_the_best_cost(rt: HostRuntime) -> Result<(), Fail> {
    let job = job_of(&rt, rt.alloc(), 100, QTY_MAX)?;
    for (best, kills) in [
        (Some(8_000_000), true),
        (Some(8_000_001), false),
        (None, false),
    ] {
        let found = bound_kills(&rt, rt.alloc(), &job, &[80_000, 0, 0], best)?;
        assert_eq!(rt; found, kills);
    }
    let root = IntervalBox::root(&job);
    assert!(rt; !Leaf::Winners.kills(&job, &root, None));
    Ok(())
}

/// Whether an empty leaf of these prices kills the root.
fn empty_kills(rt: &impl Abort, alloc: Global, job: &Job, prices: &[i64]) -> Result<bool, Memory> {
    let root = IntervalBox::root(job);
    let empty = Leaf::Empty(row(rt, alloc, job, &root, prices)?);
    Ok(empty.kills(job, &root, None))
}

#[test]
fn an_empty_leaf_kills_where_its_free_value_is_above_zero(rt: HostRuntime) -> Result<(), Fail> {
    let job = job_of(&rt, rt.alloc(), 10, 5)?;
    for (prices, kills) in [([1, 0, 0], true), ([0, 0, 0], false)] {
        let found = empty_kills(&rt, rt.alloc(), &job, prices.as_slice())?;
        assert_eq!(rt; found, kills);
    }
    Ok(())
}

#[test]
fn laws_may_be_cited() {
    laws::killing_leaves_are_sound();
    laws::no_purchase_costs_less_than_a_value();
    laws::no_purchase_has_a_free_value_above_zero();
    laws::prices_fit_as_one_list();
    laws::halves_are_parts();
    laws::tree_texts_differ();
    laws::no_tree_text_begins_another();
}
