//! Where climbs end.

use crate::fixture::{row, steps};
use interval_box::IntervalBox;
use price_climb::{Climbed, climb};
use std::alloc::Global;
use std::process::Abort;
use std::test::Fail;
use tqd_base::Memory;
use tqd_base::limits::DUAL_MAX;
use tqd_instance::Job;

/// Whether a climb of these prices in the root ends in a row that stands still, and the value of that row.
fn climbed(
    rt: &impl Abort,
    alloc: Global,
    job: &Job,
    prices: &[i64],
    step: i64,
    rounds: u64,
) -> Result<(bool, i128), Memory> {
    assert!(rt; 1 <= step);
    assert!(rt; step <= DUAL_MAX);
    assert!(rt; 1 <= rounds);
    assert!(rt; rounds <= 1_000_000);
    let root = IntervalBox::root(job);
    let from = row(rt, alloc, job, &root, prices)?;
    match climb(alloc, job, &root, from, step, rounds)? {
        Climbed::Still(row) => Ok((true, row.value(job, &root))),
        Climbed::Risen(row) => Ok((false, row.value(job, &root))),
    }
}

/// The greatest value is 8.00, at 0.08 a unit. Below it, each millionth of the good's price raises the value by 100.
#[test]
fn a_climb_ends_still_or_after_its_rounds(rt: HostRuntime) -> Result<(), Fail> {
    let job = steps(&rt, rt.alloc())?;
    for (prices, step, rounds, want) in [
        ([79_999, 0, 0], 1, 10, (true, 8_000_000)),
        ([80_000, 0, 0], 1, 1, (true, 8_000_000)),
        ([0, 0, 0], 1, 5, (false, 500)),
        ([0, 0, 0], 80_000, 1, (true, 8_000_000)),
        ([90_000, 0, 0], 10_000, 10, (true, 8_000_000)),
    ] {
        let got = climbed(&rt, rt.alloc(), &job, prices.as_slice(), step, rounds)?;
        assert_eq!(rt; got, want);
    }
    Ok(())
}
