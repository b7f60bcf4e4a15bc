//! What the search finds on small jobs, on one thread and by several workers.

ghost use Rattle.std.specs.Prelude.{◌≤◌};

use search_book::{Book, BookVerdict};
use search_run::{NoGate, search_many, search_one, settle};
use std::alloc::Global;
use std::process::Abort;
use std::sync::Wait;
use std::test::Fail;
use std::thread::Threads;
use tqd_base::{Memory, Stop};
use tqd_instance::{Job, JobFault, JobParts, PriceRow};

/// Supplier, least quantity of the interval, good and price of each row.
const TWO_SUPPLIERS: [(u32, u64, u32, u64); 6] = [
    (0, 1, 0, 1_000_000),
    (0, 1, 1, 2_000_000),
    (0, 150, 0, 900_000),
    (0, 150, 1, 1_500_000),
    (1, 1, 0, 950_000),
    (1, 1, 1, 1_600_000),
];

/// Two goods at two suppliers, of which the first has two intervals, with a least number of winners.
fn two_suppliers(alloc: Global, least: u64) -> Result<JobParts, Memory> {
    let mut parts = JobParts::new(alloc, 2)?;
    for need in [100, 50] {
        parts.add_need(need)?;
    }
    for (supplier, from, good, price) in TWO_SUPPLIERS {
        parts.add_price(PriceRow {
            supplier,
            from,
            good,
            price,
        })?;
    }
    parts.set_winners(least, 64);
    Ok(parts)
}

/// One good, of which less is needed than the only supplier sells at least.
fn too_few(alloc: Global) -> Result<JobParts, Memory> {
    let mut parts = JobParts::new(alloc, 1)?;
    parts.add_need(30)?;
    parts.add_price(PriceRow {
        supplier: 0,
        from: 50,
        good: 0,
        price: 100_000,
    })?;
    Ok(parts)
}

/// What the search on one thread finds out on the job of these parts, and the search by so many workers, where there are
/// some.
fn found<R: Abort + Threads + Wait + Sync>(
    rt: &R,
    alloc: Global,
    parts: &JobParts,
    workers: u32,
) -> Result<Option<BookVerdict>, Stop<JobFault>>
    requires { workers ≤ 64 }
{
    let formed = parts.is_well_formed(alloc)?;
    assert!(rt; formed);
    let job = Job::build(alloc, parts)?;
    if workers == 0 {
        return Ok(search_one(alloc, &job)?.verdict());
    }
    Ok(search_many(rt, alloc, &job, workers, &NoGate)?.verdict())
}

#[test]
fn the_interval_of_the_total_is_found(rt: HostRuntime) -> Result<(), Fail> {
    for (least, want) in [(0, 165_000_000), (2, 175_050_000)] {
        let parts = two_suppliers(rt.alloc(), least)?;
        for workers in [0, 1, 2, 64] {
            assert_eq!(rt;
                found(&rt, rt.alloc(), &parts, workers)?,
                Some(BookVerdict::Least(want))
            );
        }
    }
    Ok(())
}

#[test]
fn a_total_in_a_gap_is_no_purchase(rt: HostRuntime) -> Result<(), Fail> {
    let parts = too_few(rt.alloc())?;
    for workers in [0, 2] {
        assert_eq!(rt;
            found(&rt, rt.alloc(), &parts, workers)?,
            Some(BookVerdict::NoPurchase)
        );
    }
    Ok(())
}

#[test]
fn nothing_is_needed_where_there_is_no_good(rt: HostRuntime) -> Result<(), Fail> {
    let parts = JobParts::new(rt.alloc(), 0)?;
    assert_eq!(rt;
        found(&rt, rt.alloc(), &parts, 0)?,
        Some(BookVerdict::Least(0))
    );
    Ok(())
}

/// What is found out where a box was left Taken before.
fn resumed(rt: &impl Abort, alloc: Global) -> Result<Option<BookVerdict>, Stop<JobFault>> {
    let parts = too_few(alloc)?;
    let formed = parts.is_well_formed(alloc)?;
    assert!(rt; formed);
    let job = Job::build(alloc, &parts)?;
    let mut book = Book::open(alloc, &job)?;
    let taken = book.take_first();
    assert!(rt; taken.is_some());
    settle(alloc, &mut book)?;
    Ok(book.verdict())
}

#[test]
fn a_box_left_taken_is_worked_on(rt: HostRuntime) -> Result<(), Fail> {
    assert_eq!(rt; resumed(&rt, rt.alloc())?, Some(BookVerdict::NoPurchase));
    Ok(())
}
