//! Trees and bills of hostile use, in whole files and one byte at a time.
use crate::runs::{Row, check_rows};
use std::alloc::Global;
use std::process::Abort;
use std::sync::Wait;
use std::test::Fail;
use std::thread::Threads;

// Runs a row by both calls, on a desk that gives whole files and on one that gives one byte at a time.
fn check_in_pieces<R: Threads + Wait + Abort + Sync>(
    rt: &R,
    alloc: Global,
    row: Row<'_>,
) -> Result<(), Fail> {
    check_rows(rt, alloc, &[row], 65_536)?;
    check_rows(rt, alloc, &[row], 1)
}

// A tree whose leaf has so many prices of 0.
fn long_tree(alloc: Global, prices: u32) -> Result<String, Fail> {
    let mut tree = String::from_str(alloc, "tqd-tree 1\nplan 8000000 1\nbuy 0 0 100\nbound")?;
    for _ in 0..prices {
        tree.push_str(" 0")?;
    }
    tree.push_str("\n")?;
    Ok(tree)
}

/// The prices of a line of 65,535 bytes, and of one that is longer than any right line; and what is printed.
const LONG_LINES: [(u32, &str); 2] = [
    (32_765, "rejected\t4\t32765 prices, wanted 3\n"),
    (32_766, "rejected\t4\tbad line\n"),
];

#[test]
fn bounds_the_length_of_a_line(rt: HostRuntime) -> Result<(), Fail> {
    let alloc = rt.alloc();
    for (prices, output) in LONG_LINES {
        let tree = long_tree(alloc, prices)?;
        let row = Row {
            files: &[
                ("o", "product,quantity\nr,100\n"),
                ("f", "supplier,from,part,price\nA,1,r,0.10\nA,100,r,0.08\n"),
                ("tree", tree.as_str()),
            ],
            lines: &["check o - f - tree"],
            status: 4,
            output,
        };
        check_in_pieces(&rt, alloc, row)?;
    }
    Ok(())
}

// The lines of a chain of parts p0, p1, .., each with so many units of the next, and a last line.
fn chain(alloc: Global, lines: u32, units: u32, last: &str) -> Result<String, Fail> {
    let mut bill = String::from_str(alloc, "assembly,part,quantity\n")?;
    for n in 0..lines {
        let next = n + 1;
        let line = format!(in alloc; "p{n},p{next},{units}\n")?;
        bill.push_str(&line)?;
    }
    bill.push_str(last)?;
    Ok(bill)
}

/// The lines of a chain, the units, a last line, the status, and what is printed.
const CHAINS: [(u32, u32, &str, u8, &str); 4] = [
    (19_999, 1, "", 0, "need\tp19999\t1\n"),
    (
        19_999,
        1,
        "p19999,p0,1\n",
        3,
        "bad input: bill: circle through p0\n",
    ),
    (
        27,
        2,
        "",
        3,
        "bad input: bill: need of p27 above 100000000\n",
    ),
    (26, 2, "", 0, "need\tp26\t67108864\n"),
];

#[test]
fn follows_long_chains(rt: HostRuntime) -> Result<(), Fail> {
    let alloc = rt.alloc();
    for (lines, units, last, status, output) in CHAINS {
        let bill = chain(alloc, lines, units, last)?;
        let row = Row {
            files: &[("o", "product,quantity\np0,1\n"), ("b", bill.as_str())],
            lines: &["needs o b"],
            status,
            output,
        };
        check_in_pieces(&rt, alloc, row)?;
    }
    Ok(())
}
