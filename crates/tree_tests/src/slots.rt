//! The verdicts of texts of trees whose leaves name slots.

use crate::verdicts::{lines, rejected, verdict_of};
use std::alloc::Global;
use std::process::Abort;
use std::test::Fail;
use tqd_base::Stop;
use tqd_instance::JobFault;
use tree_checker::{Verdict, Why};

/// The verdict of a text whose plan costs 8, with these lines after it.
fn after_plan(rt: &impl Abort, alloc: Global, nodes: &str) -> Result<Verdict, Stop<JobFault>> {
    let mut bytes = lines(alloc, "tqd-tree 2/plan 8000000 1/buy 0 0 100/")?;
    let nodes = lines(alloc, nodes)?;
    bytes.extend_from_slice(&nodes)?;
    verdict_of(rt, alloc, &bytes)
}

#[test]
fn leaves_take_the_latest_row_of_their_slot(rt: HostRuntime) -> Result<(), Fail> {
    for nodes in [
        "row 0 80000 0 0/bound 0/",
        "split 0 0/row 0 80000 0 0/bound 0/bound 0/",
        "row 63 0 0 0/row 63 80000 0 0/bound 63/",
        "row 1 0 0 0/row 0 80000 0 0/split 0 1/bound 0/bound 0/",
    ] {
        let found = after_plan(&rt, rt.alloc(), nodes)?;
        assert_eq!(rt; found, Verdict::Optimal(8_000_000), "in {nodes}");
    }
    let short = Why::BoundShort {
        value: 0,
        cost: 8_000_000,
    };
    let found = after_plan(&rt, rt.alloc(), "row 0 80000 0 0/row 0 0 0 0/bound 0/")?;
    assert_eq!(rt; found, rejected(6, short));
    Ok(())
}

#[test]
fn slots_and_rows_are_judged(rt: HostRuntime) -> Result<(), Fail> {
    let few = Why::RowLength {
        found: 2,
        wanted: 3,
    };
    let beyond = Why::PriceRange {
        value: -4_000_000_000_000_001,
    };
    for (nodes, line, why) in [
        ("row 0 80000 0 0/bound 1/", 5, Why::RowSlot { slot: 1 }),
        ("row 64 80000 0 0/bound 0/", 4, Why::RowSlot { slot: 64 }),
        // the slot comes before the number of prices, and that before a price out of range
        ("row 64 80000/", 4, Why::RowSlot { slot: 64 }),
        ("row 0 4000000000000001 0/", 4, few),
        ("row 0 0 -4000000000000001 0/", 4, beyond),
        (
            "bound 9999999999999999/",
            4,
            Why::RowSlot {
                slot: 9_999_999_999_999_999,
            },
        ),
        ("row 0 80000 0 0/bound 00/", 5, Why::Line),
        ("row 0 80000 0 0/bound -1/", 5, Why::Line),
        ("row 0 80000 0 0/bound 80000 0 0/", 5, Why::Line),
        ("row 0 80000 0 0/bound/", 5, Why::Line),
        ("row 0 80000 0 0/empty 0/", 5, Why::EmptyFails(0)),
        ("row 0 80000 0 0/winners/", 5, Why::WinnersFit),
        ("row 0 80000 0 0/split 0 2/", 5, Why::SplitRange),
        ("row 0 80000 0 0/bound 0/row 1 0 0 0/", 6, Why::Trailing),
        ("row 0 80000 0 0/", 5, Why::EarlyEnd),
    ] {
        let found = after_plan(&rt, rt.alloc(), nodes)?;
        assert_eq!(rt; found, rejected(line, why), "in {nodes}");
    }
    Ok(())
}
