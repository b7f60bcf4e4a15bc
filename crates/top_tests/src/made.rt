//! Made jobs, and files that state them.

use crate::runs::{desk_with, empty_desk, ran};
use order_gen::make_job;
use std::alloc::Global;
use std::process::Abort;
use std::sync::Wait;
use std::test::Fail;
use std::thread::Threads;
use tqd_instance::Job;

/// The orders of what a job needs.
pub(crate) fn orders_of(alloc: Global, job: &Job) -> Result<String, Fail> {
    let mut orders = String::from_str(alloc, "product,quantity\n")?;
    for k in 0..job.goods() {
        let need = job.need(k);
        let row = format!(in alloc; "g{k},{need}\n")?;
        orders.push_str(&row)?;
    }
    Ok(orders)
}

/// The prices in a segment of a supplier, one in a row: those of the job, or prices 1 % dearer.
fn rows_of(
    rt: &impl Abort,
    alloc: Global,
    job: &Job,
    i: usize,
    j: u8,
    dearer: bool,
) -> Result<String, Fail> {
    assert!(rt; i < job.suppliers());
    assert!(rt; 1 <= j && j <= job.segments(i));
    let from = job.low(i, j);
    let mut rows = String::new(alloc);
    for k in 0..job.goods() {
        let price = job.price(i, j, k);
        let price = price.saturating_add(if dearer { price / 100 } else { 0 });
        let (whole, rest) = (price / 1_000_000, price % 1_000_000);
        let row = format!(in alloc; "s{i},{from},g{k},{whole}.{rest:06}\n")?;
        rows.push_str(&row)?;
    }
    Ok(rows)
}

/// The offers of suppliers with three segments each, so many in all, of which the first may be dearer.
pub(crate) fn offers_of(
    rt: &impl Abort,
    alloc: Global,
    job: &Job,
    segments: usize,
    dearer: bool,
) -> Result<String, Fail> {
    let mut offers = String::from_str(alloc, "supplier,from,part,price\n")?;
    for at in 0..segments {
        let rows = rows_of(
            rt,
            alloc,
            job,
            at / 3,
            (at % 3) as u8 + 1,
            dearer && at == 0,
        )?;
        offers.push_str(&rows)?;
    }
    Ok(offers)
}

/// The cost that `make` prints of 200 goods and four suppliers, up to the line feed.
fn made_cost<R: Threads + Wait + Abort + Sync>(
    rt: &R,
    alloc: Global,
    plain: bool,
) -> Result<Vec<u8>, Fail> {
    let before = b"made\t7\t200\t4\t".as_slice();
    let mut desk = empty_desk(alloc)?;
    assert_eq!(rt; ran(rt, alloc, plain, &mut desk, "make 7 200 4")?, 0);
    let printed = desk.output();
    assert!(rt; printed.starts_with(before) && before.len() <= printed.len());
    Ok(Vec::from_slice(alloc, &printed[before.len()..])?)
}

/// A word and a cost behind it.
fn line_of(alloc: Global, word: &[u8], cost: &[u8]) -> Result<Vec<u8>, Fail> {
    let mut line = Vec::from_slice(alloc, word)?;
    line.extend_from_slice(cost)?;
    Ok(line)
}

/// What `solve` of two files and `check` of the tree that it wrote print.
fn checked<R: Threads + Wait + Abort + Sync>(
    rt: &R,
    alloc: Global,
    plain: bool,
    orders: &str,
    offers: &str,
) -> Result<Vec<u8>, Fail> {
    let mut desk = desk_with(alloc, &[("o", orders), ("f", offers)])?;
    let solved = ran(rt, alloc, plain, &mut desk, "solve o - f - tree")?;
    let accepted = ran(rt, alloc, plain, &mut desk, "check o - f - tree")?;
    assert_eq!(rt; (solved, accepted), (0, 0));
    Ok(Vec::from_slice(alloc, desk.output())?)
}

/// Whether what is printed has this cost in its first line and in its last.
fn has_cost(alloc: Global, printed: &[u8], cost: &[u8]) -> Result<bool, Fail> {
    let first = line_of(alloc, b"solved\t", cost)?;
    let last = line_of(alloc, b"accepted\t", cost)?;
    Ok(printed.starts_with(&first) && printed.ends_with(&last))
}

/// Whether the files of a job cost what `make` prints of it.
fn costs_the_same<R: Threads + Wait + Abort + Sync>(
    rt: &R,
    alloc: Global,
    plain: bool,
    orders: &str,
    offers: &str,
) -> Result<bool, Fail> {
    let cost = made_cost(rt, alloc, plain)?;
    let printed = checked(rt, alloc, plain, orders, offers)?;
    has_cost(alloc, &printed, &cost)
}

/// The orders and the offers of the job of `make 7 200 4`.
fn files_of(rt: &impl Abort, alloc: Global) -> Result<(String, String), Fail> {
    let Ok(job) = make_job(alloc, 7, 200, 4) else {
        return Err("memory".into());
    };
    Ok((
        orders_of(alloc, &job)?,
        offers_of(rt, alloc, &job, 12, false)?,
    ))
}

#[test]
fn a_made_job_costs_what_its_files_do(rt: HostRuntime) -> Result<(), Fail> {
    let (orders, offers) = files_of(&rt, rt.alloc())?;
    for plain in [true, false] {
        let same = costs_the_same(&rt, rt.alloc(), plain, &orders, &offers)?;
        assert!(rt; same);
    }
    Ok(())
}
