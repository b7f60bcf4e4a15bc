//! The texts of the least costs of many jobs, and of cuts of a supplier's prices.

use crate::answers::{TWO, is_text, parts_of};
use break_even::CutAnswer;
use plan_report::{break_even_text, scenarios_text, winners_text};
use scenarios::{one_by_one, winner_table_plain};
use search_book::BookVerdict;
use search_run::search_one;
use std::alloc::Global;
use std::process::Abort;
use std::test::Fail;
use tqd_base::Memory;
use tqd_instance::{Job, Optimum, StockRow};

/// The least cost that a search finds.
struct BySearch;

impl Optimum for BySearch {
    fn least(&self, alloc: Global, job: &Job) -> Result<Option<u128>, Memory> {
        let book = search_one(alloc, job)?;
        match book.verdict() {
            Some(BookVerdict::Least(cost)) => Ok(Some(cost)),
            Some(BookVerdict::NoPurchase) => Ok(None),
            None => unreachable!(),
        }
    }
}

/// A stock: the supplier, the good, the units.
type Stocks = &'static [(u32, u32, u64)];

/// The job of two goods at two suppliers with stocks, and the least and the greatest number of winners.
fn job_with(
    rt: &impl Abort,
    alloc: Global,
    stocks: Stocks,
    winners: (u64, u64),
) -> Result<Job, Fail> {
    let mut parts = parts_of(alloc, 2, &[100, 50], TWO)?;
    for (supplier, good, units) in stocks {
        parts.add_stock(StockRow {
            supplier: *supplier,
            good: *good,
            units: *units,
        })?;
    }
    let (low, high) = winners;
    parts.set_winners(low, high);
    let formed = parts.is_well_formed(alloc)?;
    assert!(rt; formed);
    Ok(Job::build(alloc, &parts)?)
}

#[test]
fn scenarios_have_their_texts(rt: HostRuntime) -> Result<(), Fail> {
    let alloc = rt.alloc();
    let mut jobs = Vec::new(alloc);
    for (stocks, winners) in [
        ([(0, 0, 60)].as_slice(), (0, 64)),
        ([].as_slice(), (2, 64)),
        ([].as_slice(), (0, 64)),
        ([(0, 0, 60), (1, 1, 20)].as_slice(), (0, 1)),
    ] {
        jobs.push(job_with(&rt, alloc, stocks, winners)?)?;
    }
    let costs = one_by_one(alloc, &jobs, &BySearch)?;
    let text = "scenario\t1\t175.000000
scenario\t2\t175.050000
scenario\t3\t165.000000
scenario\t4\tinfeasible
";
    assert!(rt; is_text(scenarios_text(alloc, &costs), text));
    Ok(())
}

#[test]
fn winner_tables_have_their_texts(rt: HostRuntime) -> Result<(), Fail> {
    let alloc = rt.alloc();
    for (stocks, least, text) in [
        (
            [].as_slice(),
            0,
            "winners\t0\tinfeasible\nwinners\t1\t165.000000\nwinners\t2\t165.000000\n",
        ),
        (
            [(0, 0, 60), (1, 1, 20)].as_slice(),
            0,
            "winners\t0\tinfeasible\nwinners\t1\tinfeasible\nwinners\t2\t187.000000\n",
        ),
        // the numbers begin with the least that the terms ask for
        ([].as_slice(), 2, "winners\t2\t175.050000\n"),
    ] {
        let job = job_with(&rt, alloc, stocks, (least, 64))?;
        let costs = winner_table_plain(alloc, &job, &BySearch)?;
        assert!(rt; is_text(winners_text(alloc, least, &costs), text), "{text}");
    }
    Ok(())
}

#[test]
fn cuts_have_their_texts(rt: HostRuntime) {
    for (name, answer, text) in [
        (
            "B",
            CutAnswer::Cut {
                cut: 58,
                before: 165_000_000,
                after: 164_850_000,
            },
            "break-even\tB\t58\t165.000000\t164.850000\n",
        ),
        (
            "A",
            CutAnswer::Cut {
                cut: 1,
                before: 165_000_000,
                after: 164_835_000,
            },
            "break-even\tA\t1\t165.000000\t164.835000\n",
        ),
        ("A", CutAnswer::NoCut(0), "break-even\tA\tnone\t0.000000\n"),
        ("A", CutAnswer::NoPurchase, "infeasible\n"),
    ] {
        let printed = break_even_text(rt.alloc(), name.as_bytes(), answer);
        assert!(rt; is_text(printed, text), "{text}");
    }
}
