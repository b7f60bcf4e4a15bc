//! Files that are made, and desks that are sure of their files.
ghost use Rattle.std.specs.Prelude.{IfOk};
ghost use Rattle.tqd_base.specs.World.{IsIdle};
ghost use Rattle.tqd_base.specs.SureState.{sure_state};

use crate::runs::{Row, check_rows, empty_desk, ran, set, words_of};
use command_words::usage_text;
use search_run::NoGate;
use std::alloc::Global;
use std::process::Abort;
use std::sync::Wait;
use std::test::Fail;
use std::thread::Threads;
use tqd_base::{DeskCall, SureDesk};
use tqd_top::{run, run_plain};

const OFFERS: &str = "supplier,from,part,price\nA,1,r,0.10\nA,100,r,0.08\n";

#[test]
fn refuses_too_many_goods(rt: HostRuntime) -> Result<(), Fail> {
    let alloc = rt.alloc();
    let mut orders = String::from_str(alloc, "product,quantity\n")?;
    for n in 0..1_001 {
        let line = format!(in alloc; "p{n},1\n")?;
        orders.push_str(&line)?;
    }
    let row = Row {
        files: &[("o", orders.as_str()), ("f", OFFERS)],
        lines: &["solve o - f - -"],
        status: 3,
        output: "bad input: job: 1001 goods, at most 1000\n",
    };
    check_rows(&rt, alloc, &[row], 65_536)
}

#[test]
fn refuses_a_file_that_is_too_long(rt: HostRuntime) -> Result<(), Fail> {
    let alloc = rt.alloc();
    let long = "x".repeat(alloc, 16_777_217)?;
    let row = Row {
        files: &[("o", long.as_str()), ("f", OFFERS)],
        lines: &["solve o - f - -"],
        status: 3,
        output: "bad input: orders: more than 16777216 bytes\n",
    };
    check_rows(&rt, alloc, &[row], 65_536)
}

// Whether a run writes the beginning of the tree to a file, where a call may fail.
fn check_begun<R: Threads + Wait + Abort + Sync>(
    rt: &R,
    alloc: Global,
    plain: bool,
    failing: Option<DeskCall>,
    name: &str,
    status: u8,
) -> Result<(), Fail> {
    let mut desk = empty_desk(alloc)?;
    set(&mut desk, "o", "product,quantity\nr,100\n").map_err(|_| "memory")?;
    set(&mut desk, "f", OFFERS).map_err(|_| "memory")?;
    if let Some(call) = failing {
        desk.fail(call, 1).map_err(|_| "memory")?;
    }
    let line = format!(in alloc; "solve o - f - {name}")?;
    assert_eq!(rt;
        ran(rt, alloc, plain, &mut desk, &line)?,
        status,
        "at {name}"
    );
    let tree = desk.file(name).unwrap_or(b"");
    assert!(rt;
        tree.starts_with(b"tqd-tree 2\nplan 8000000 1\nbuy 0 0 100\n"),
        "at {name}"
    );
    assert_eq!(rt; desk.output().is_empty(), status == 6, "at {name}");
    Ok(())
}

#[test]
fn writes_over_the_orders_and_before_closing(rt: HostRuntime) -> Result<(), Fail> {
    for plain in [true, false] {
        check_begun(&rt, rt.alloc(), plain, None, "o", 0)?;
        check_begun(&rt, rt.alloc(), plain, Some(DeskCall::Close), "tree", 6)?;
    }
    Ok(())
}

#[test]
fn answers_no_words(rt: HostRuntime) -> Result<(), Fail> {
    let alloc = rt.alloc();
    let text = usage_text(alloc).map_err(|_| "memory")?;
    let mut desk = empty_desk(alloc)?;
    assert_eq!(rt; run_plain(alloc, &[], &mut desk).status, 2);
    assert_eq!(rt; desk.output(), text.as_slice());
    let mut other = empty_desk(alloc)?;
    assert_eq!(rt; run(&rt, alloc, &[], &mut other, &NoGate).status, 2);
    assert_eq!(rt; other.output(), text.as_slice());
    Ok(())
}

// A desk without files, which reads names that are not there as empty.
fn sure_desk(alloc: Global) -> Result<SureDesk, Fail>
    ensures { IfOk result (λ desk. IsIdle (sure_state desk).world) }
{
    match SureDesk::new(alloc) {
        Ok(desk) => Ok(desk),
        Err(_) => Err("memory".into()),
    }
}

#[test]
fn takes_an_absent_file_for_an_empty_one(rt: HostRuntime) -> Result<(), Fail> {
    let alloc = rt.alloc();
    let words = words_of(alloc, "solve o - f - -")?;
    let mut desk = sure_desk(alloc)?;
    assert_eq!(rt; run_plain(alloc, &words, &mut desk).status, 3);
    assert_eq!(rt; desk.output(), b"bad input: orders: no header\n".as_slice());
    let mut other = sure_desk(alloc)?;
    assert_eq!(rt; run(&rt, alloc, &words, &mut other, &NoGate).status, 3);
    assert_eq!(rt; other.output(), desk.output());
    Ok(())
}
