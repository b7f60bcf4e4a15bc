//! Texts of trees, and what becomes of them in jobs that they were or were not made for.

ghost use Rattle.std.specs.Prelude.{◌≤◌};

use crate::books::{
    CLOSED, CLOSED_CLOSED, CLOSED_OPEN, Case, OPEN, OPEN_CLOSED, OPEN_OPEN, expect, has_states,
    lines,
};
use crate::jobs::{CHEAPER, TWO, one_supplier, small_stock, two_suppliers};
use requote::{OLD_MAX, replant};
use search_book::{BookVerdict, State};
use std::alloc::Global;
use std::process::Abort;
use std::test::Fail;
use tqd_base::Memory;
use tqd_instance::Job;

/// A tree of the job of two suppliers.
const OF_TWO: &str =
    "tqd-tree 1/plan 165000000 2/buy 0 0 100/buy 0 1 50/bound 900000 1500000 0 0 0/";

/// In the job of one supplier, of which 100 are bought for 8.00.
const FORMAT_1: [Case; 14] = [
    (
        "tqd-tree 1/plan 8000000 1/buy 0 0 100/bound 80000 0 0/",
        Some(8_000_000),
        CLOSED,
    ),
    // What the plan is said to cost has no part in it.
    (
        "tqd-tree 1/plan 7 1/buy 0 0 100/bound 80000 0 0/",
        Some(8_000_000),
        CLOSED,
    ),
    (
        "tqd-tree 1/plan 8000000 1/buy 0 0 100/bound 79999 0 0/",
        Some(8_000_000),
        OPEN,
    ),
    (
        "tqd-tree 1/plan 8000000 1/buy 0 0 100/split 0 0/bound 80000/",
        Some(8_000_000),
        CLOSED_OPEN,
    ),
    (
        "tqd-tree 1/plan 8000000 1/buy 0 0 100/split 0 0/bound 80000/bound 80000 0 0/winners/",
        Some(8_000_000),
        CLOSED_CLOSED,
    ),
    // A leaf that falls short opens its box, and the next one is read.
    (
        "tqd-tree 1/plan 8000000 1/buy 0 0 100/split 0 0/bound 79999/bound 80000 0 0/",
        Some(8_000_000),
        OPEN_CLOSED,
    ),
    (
        "tqd-tree 1/plan 8000000 1/buy 0 0 100/split 0 0/winners/bound 80000 0 0/",
        Some(8_000_000),
        OPEN_CLOSED,
    ),
    (
        "tqd-tree 1/plan 8000000 1/buy 0 0 100/split 0 0/empty 0/bound 80000 0 0/",
        Some(8_000_000),
        OPEN_CLOSED,
    ),
    // A line that is none, or whose row does not fit, ends the reading.
    (
        "tqd-tree 1/plan 8000000 1/buy 0 0 100/split 0 0/bound 080000/bound 80000 0 0/",
        Some(8_000_000),
        OPEN_OPEN,
    ),
    (
        "tqd-tree 1/plan 8000000 1/buy 0 0 100/split 0 0/bound 80000 0/bound 80000 0 0/",
        Some(8_000_000),
        OPEN_OPEN,
    ),
    (
        "tqd-tree 1/plan 8000000 1/buy 0 0 100/split 0 2/bound 80000 0 0/",
        Some(8_000_000),
        OPEN,
    ),
    // Rows of slots are no lines of this format.
    (
        "tqd-tree 1/plan 8000000 1/buy 0 0 100/row 0 80000 0 0/bound 80000 0 0/",
        Some(8_000_000),
        OPEN,
    ),
    // A plan that is not feasible is none.
    (
        "tqd-tree 1/plan 7920000 1/buy 0 0 99/bound 80000 0 0/",
        None,
        OPEN,
    ),
    (
        "tqd-tree 1/none/split 0 0/bound 80000/empty 0 0 0/",
        None,
        OPEN_OPEN,
    ),
];

/// The same job.
const FORMAT_2: [Case; 9] = [
    (
        "tqd-tree 2/plan 8000000 1/buy 0 0 100/row 0 80000 0 0/bound 0/",
        Some(8_000_000),
        CLOSED,
    ),
    (
        "tqd-tree 2/plan 8000000 1/buy 0 0 100/split 0 0/row 63 80000 0 0/bound 63/bound 63/",
        Some(8_000_000),
        CLOSED_CLOSED,
    ),
    // The latest row of a slot counts.
    (
        "tqd-tree 2/plan 8000000 1/buy 0 0 100/row 0 0 0 0/row 0 80000 0 0/bound 0/",
        Some(8_000_000),
        CLOSED,
    ),
    // A leaf that falls short opens its box, and the next one is read.
    (
        "tqd-tree 2/plan 8000000 1/buy 0 0 100/split 0 0/row 0 79999 0 0/bound 0/row 0 80000 0 0/bound 0/",
        Some(8_000_000),
        OPEN_CLOSED,
    ),
    // A row of a wrong length or in no slot, a slot without a row, and prices in a leaf end the reading.
    (
        "tqd-tree 2/plan 8000000 1/buy 0 0 100/row 0 80000 0/row 0 80000 0 0/bound 0/",
        Some(8_000_000),
        OPEN,
    ),
    (
        "tqd-tree 2/plan 8000000 1/buy 0 0 100/row 64 80000 0 0/row 0 80000 0 0/bound 0/",
        Some(8_000_000),
        OPEN,
    ),
    (
        "tqd-tree 2/plan 8000000 1/buy 0 0 100/split 0 0/row 0 80000 0 0/bound 1/bound 0/",
        Some(8_000_000),
        OPEN_OPEN,
    ),
    (
        "tqd-tree 2/plan 8000000 1/buy 0 0 100/bound 80000 0 0/",
        Some(8_000_000),
        OPEN,
    ),
    (
        "tqd-tree 2/plan 8000000 1/buy 0 0 100/row 0 80000 0 0/",
        Some(8_000_000),
        OPEN,
    ),
];

/// The same job.
const NO_TREES: [Case; 9] = [
    ("", None, OPEN),
    ("hello", None, OPEN),
    ("hello/", None, OPEN),
    (
        "tqd-tree 3/plan 8000000 1/buy 0 0 100/bound 80000 0 0/",
        None,
        OPEN,
    ),
    ("tqd-tree 1/bound 80000 0 0/", None, OPEN),
    ("tqd-tree 1/plan 8000000 1/bound 80000 0 0/", None, OPEN),
    // A good that the job does not have, and none bought.
    (
        "tqd-tree 1/plan 8000000 1/buy 0 1 100/bound 80000 0 0/",
        None,
        OPEN,
    ),
    (
        "tqd-tree 1/plan 8000000 1/buy 0 0 0/bound 80000 0 0/",
        None,
        OPEN,
    ),
    (OF_TWO, None, OPEN),
];

/// Each of the cases in a job.
fn expect_all(rt: &impl Abort, alloc: Global, job: &Job, cases: &[Case]) -> Result<(), Memory> {
    for case in cases {
        expect(rt, alloc, job, case)?;
    }
    Ok(())
}

#[test]
fn leaves_that_still_kill_stay_closed(rt: HostRuntime) -> Result<(), Fail> {
    let job = one_supplier(&rt, rt.alloc(), 100)?;
    expect_all(&rt, rt.alloc(), &job, FORMAT_1.as_slice())?;
    expect_all(&rt, rt.alloc(), &job, FORMAT_2.as_slice())?;
    assert!(rt; OLD_MAX == 268_435_456);
    Ok(())
}

#[test]
fn no_text_is_refused(rt: HostRuntime) -> Result<(), Fail> {
    let job = one_supplier(&rt, rt.alloc(), 100)?;
    expect_all(&rt, rt.alloc(), &job, NO_TREES.as_slice())?;
    Ok(())
}

/// A text, and what the book comes to where it has 0, 1, .. line feeds: its best cost and its states.
const WHOLE: &str =
    "tqd-tree 2/plan 8000000 1/buy 0 0 100/split 0 0/row 0 80000 0 0/bound 0/bound 0/";

const BY_FEEDS: [(Option<u128>, &[State]); 8] = [
    (None, OPEN),
    (None, OPEN),
    (None, OPEN),
    (Some(8_000_000), OPEN),
    (Some(8_000_000), OPEN_OPEN),
    (Some(8_000_000), OPEN_OPEN),
    (Some(8_000_000), CLOSED_OPEN),
    (Some(8_000_000), CLOSED_CLOSED),
];

/// How many line feeds there are, or 7 where there are more.
fn feeds(bytes: &[u8]) -> usize
    ensures { result ≤ 7 }
{
    bytes.iter().filter(|byte| **byte == b'\n').count().min(7)
}

#[test]
fn a_text_may_be_cut_anywhere(rt: HostRuntime) -> Result<(), Fail> {
    let job = one_supplier(&rt, rt.alloc(), 100)?;
    let whole = lines(rt.alloc(), WHOLE)?;
    for at in 0..whole.len() + 1 {
        let (best, states) = BY_FEEDS[feeds(&whole[..at])];
        let book = replant(rt.alloc(), &job, &whole[..at])?;
        assert_eq!(rt; book.best(), best, "at {at}");
        assert!(rt; has_states(&book, states), "at {at}");
    }
    Ok(())
}

/// What a search would have to go on with: the verdict of the book of a text in a job.
fn verdict(alloc: Global, job: &Job, text: &str) -> Result<Option<BookVerdict>, Memory> {
    let bytes = lines(alloc, text)?;
    let book = replant(alloc, job, &bytes)?;
    Ok(book.verdict())
}

#[test]
fn a_tree_of_the_same_job_leaves_nothing_to_search(rt: HostRuntime) -> Result<(), Fail> {
    let alloc = rt.alloc();
    let job = two_suppliers(&rt, alloc, TWO.as_slice(), 0)?;
    expect(&rt, alloc, &job, &(OF_TWO, Some(165_000_000), CLOSED))?;
    let least = Some(BookVerdict::Least(165_000_000));
    assert!(rt; verdict(alloc, &job, OF_TWO)? == least);
    Ok(())
}

#[test]
fn a_bound_that_is_short_at_new_prices_is_opened(rt: HostRuntime) -> Result<(), Fail> {
    let alloc = rt.alloc();
    let job = two_suppliers(&rt, alloc, CHEAPER.as_slice(), 0)?;
    expect(&rt, alloc, &job, &(OF_TWO, Some(165_000_000), OPEN))?;
    // The tree of a job with one good buys nothing of the other, and its rows are too short.
    let other = "tqd-tree 1/plan 8000000 1/buy 0 0 100/bound 80000 0 0/";
    expect(&rt, alloc, &job, &(other, None, OPEN))?;
    Ok(())
}

#[test]
fn leaves_without_a_plan_are_judged_too(rt: HostRuntime) -> Result<(), Fail> {
    let alloc = rt.alloc();
    let few = two_suppliers(&rt, alloc, TWO.as_slice(), 3)?;
    expect(
        &rt,
        alloc,
        &few,
        &("tqd-tree 1/none/winners/", None, CLOSED),
    )?;
    assert!(rt; verdict(alloc, &few, "tqd-tree 1/none/winners/")? == Some(BookVerdict::NoPurchase));
    let small = small_stock(&rt, alloc, 10)?;
    expect(
        &rt,
        alloc,
        &small,
        &("tqd-tree 1/none/empty 1 0 0/", None, CLOSED),
    )?;
    expect(
        &rt,
        alloc,
        &small,
        &("tqd-tree 1/none/empty 0 0 0/", None, OPEN),
    )?;
    expect(
        &rt,
        alloc,
        &small,
        &("tqd-tree 2/none/row 5 1 0 0/empty 5/", None, CLOSED),
    )?;
    Ok(())
}
