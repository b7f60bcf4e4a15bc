//! Old trees that end anywhere, and an old tree of a made job in which a supplier has become dearer.
use crate::made::{offers_of, orders_of};
use crate::runs::{Row, check_rows, printed_by, tree_of};
use order_gen::make_job;
use std::alloc::Global;
use std::process::Abort;
use std::sync::Wait;
use std::test::Fail;
use std::thread::Threads;

const ORDERS: &str = "product,quantity\nx,100\ny,50\n";

/// B sells y for less than when the old tree was written.
const OFFERS: &str =
    "supplier,from,part,price\nA,1,x,1.00\nA,1,y,2.00\nA,150,x,0.90\nA,150,y,1.50\nB,1,x,0.95\nB,1,y,1.30\n";

const OLD: &str =
    "tqd-tree 2\nplan 165000000 2\nbuy 0 0 100\nbuy 0 1 50\nrow 0 900000 1500000 0 0 0\nsplit 0 1\nbound 0\nbound 0\n";

const TEXT: &str =
    "solved\t160.000000\nsupplier\tB\t150\t1\t160.000000\nbuy\tx\t100\t0.950000\t95.000000\n\
     buy\ty\t50\t1.300000\t65.000000\naccepted\t160.000000\n";

#[test]
fn an_old_tree_may_end_anywhere(rt: HostRuntime) -> Result<(), Fail> {
    for end in 0..=OLD.len() {
        let row = Row {
            files: &[
                ("o", ORDERS),
                ("f", OFFERS),
                ("old", OLD.get(..end).unwrap_or("")),
            ],
            lines: &["requote o - f - old tree", "check o - f - tree"],
            status: 0,
            output: TEXT,
        };
        check_rows(&rt, rt.alloc(), &[row], 65_536)?;
    }
    Ok(())
}

/// The segments of all suppliers of a made job: 12 suppliers have three each.
const SEGMENTS: usize = 36;

// The cost in the first line of what is printed of a purchase.
fn cost_in(printed: &str) -> &str {
    match printed.split_once('\n') {
        Some((line, _)) => line.strip_prefix("solved\t").unwrap_or(""),
        None => "",
    }
}

// Whether a job costs the same with an old tree as without one, and the new tree is accepted at that cost.
fn costs_the_same<R: Threads + Wait + Abort + Sync>(
    rt: &R,
    alloc: Global,
    plain: bool,
    files: &[(&str, &str)],
) -> Result<bool, Fail> {
    let solved = printed_by(rt, alloc, plain, files, &["solve o - f - -"])?;
    let lines = &["requote o - f - old tree", "check o - f - tree"];
    let requoted = printed_by(rt, alloc, plain, files, lines)?;
    let cost = cost_in(&solved);
    let first = format!(in alloc; "solved\t{cost}\n")?;
    let last = format!(in alloc; "accepted\t{cost}\n")?;
    Ok(
        !cost.is_empty()
            && requoted.starts_with(first.as_str())
            && requoted.ends_with(last.as_str()),
    )
}

// The orders of a made job, its offers, and its offers with a first interval that is dearer.
fn made_files(rt: &impl Abort, alloc: Global) -> Result<(String, String, String), Fail> {
    let Ok(job) = make_job(alloc, 3, 60, 12) else {
        return Err("memory".into());
    };
    let orders = orders_of(alloc, &job)?;
    let offers = offers_of(rt, alloc, &job, SEGMENTS, false)?;
    let dearer = offers_of(rt, alloc, &job, SEGMENTS, true)?;
    Ok((orders, offers, dearer))
}

#[test]
fn requotes_a_dearer_supplier(rt: HostRuntime) -> Result<(), Fail> {
    let alloc = rt.alloc();
    let (orders, offers, dearer) = made_files(&rt, alloc)?;
    for plain in [true, false] {
        let before = [("o", orders.as_str()), ("f", offers.as_str())];
        let old = tree_of(&rt, alloc, plain, &before, "solve o - f - tree")?;
        let after = [
            ("o", orders.as_str()),
            ("f", dearer.as_str()),
            ("old", old.as_str()),
        ];
        let same = costs_the_same(&rt, alloc, plain, &after)?;
        assert!(rt; same);
    }
    Ok(())
}
