//! The verdicts of texts of trees.

use crate::jobs::{built, job_of, two_suppliers};
use std::alloc::Global;
use std::process::Abort;
use std::test::Fail;
use tqd_base::{Desk, DeskCall, Memory, MemoryDesk, Stop};
use tqd_instance::{Job, JobFault, Standing};
use tree_checker::{CheckRun, CheckStop, Feed, Rejection, Verdict, Why, check, check_from, laws};

/// One good, of which 100 are needed, at one supplier that has 100: 0.10 from 1 and 0.08 from 100 units on.
fn one_supplier(rt: &impl Abort, alloc: Global) -> Result<Job, Stop<JobFault>> {
    job_of(rt, alloc, 100, 100)
}

/// The bytes of a text in which a slash stands for a line feed.
pub(crate) fn lines(alloc: Global, text: &str) -> Result<Vec<u8>, Memory> {
    let mut bytes = Vec::new(alloc);
    for byte in text.as_bytes() {
        bytes.push(if *byte == b'/' { b'\n' } else { *byte })?;
    }
    Ok(bytes)
}

/// The verdict of a text that is fed byte by byte.
fn check_bytewise(
    rt: &impl Abort,
    alloc: Global,
    job: &Job,
    text: &[u8],
) -> Result<Verdict, Memory> {
    let mut run = CheckRun::start(alloc, job)?;
    for at in 0..text.len() {
        assert!(rt; run.taken() <= 1_000_000);
        let _fed = run.feed(&text[at..at + 1]);
    }
    assert_eq!(rt; run.taken(), text.len() as u64);
    Ok(run.finish())
}

/// The verdict of bytes, whole and byte by byte.
fn both_ways(rt: &impl Abort, alloc: Global, job: &Job, bytes: &[u8]) -> Result<Verdict, Memory> {
    let whole = check(alloc, job, bytes)?;
    let bytewise = check_bytewise(rt, alloc, job, bytes)?;
    assert_eq!(rt; whole, bytewise);
    Ok(whole)
}

/// The verdict of a text, which does not hang on how it is cut.
fn verdict(rt: &impl Abort, alloc: Global, text: &str) -> Result<Verdict, Stop<JobFault>> {
    let bytes = lines(alloc, text)?;
    verdict_of(rt, alloc, &bytes)
}

/// The verdict of bytes, which does not hang on how they are cut.
pub(crate) fn verdict_of(
    rt: &impl Abort,
    alloc: Global,
    bytes: &[u8],
) -> Result<Verdict, Stop<JobFault>> {
    let job = one_supplier(rt, alloc)?;
    Ok(both_ways(rt, alloc, &job, bytes)?)
}

pub(crate) fn rejected(line: u64, why: Why) -> Verdict {
    Verdict::Rejected(Rejection { line, why })
}

const TREE: &str = "tqd-tree 1/plan 8000000 1/buy 0 0 100/bound 80000 0 0/";

#[test]
fn trees_are_accepted(rt: HostRuntime) -> Result<(), Fail> {
    laws::rejections_stay();
    let split = "tqd-tree 1/plan 8000000 1/buy 0 0 100/split 0 0/bound 80000/bound 80000 0 0/";
    for text in [TREE, split] {
        assert_eq!(rt;
            verdict(&rt, rt.alloc(), text)?,
            Verdict::Optimal(8_000_000),
            "in {text}"
        );
    }
    Ok(())
}

#[test]
fn a_tree_shows_that_no_purchase_is_feasible(rt: HostRuntime) -> Result<(), Fail> {
    let job = job_of(&rt, rt.alloc(), 100, 50)?;
    let bytes = lines(rt.alloc(), "tqd-tree 1/none/empty 1 0 0/")?;
    let found = both_ways(&rt, rt.alloc(), &job, &bytes)?;
    assert_eq!(rt; found, Verdict::NoPurchase);
    Ok(())
}

#[test]
fn plans_are_judged(rt: HostRuntime) -> Result<(), Fail> {
    let need = Why::PlanStanding(Standing::Need { good: 0, sum: 99 });
    let cost = Why::PlanCost {
        said: 7_999_999,
        real: 8_000_000,
    };
    for (text, want) in [
        ("tqd-tree 3/", rejected(1, Why::Header)),
        ("none/", rejected(1, Why::Header)),
        ("tqd-tree 1/plan 8000000 2/", rejected(2, Why::PlanForm)),
        ("tqd-tree 2/plan 8000000 2/", rejected(2, Why::PlanForm)),
        ("tqd-tree 2/tqd-tree 2/", rejected(2, Why::PlanForm)),
        (
            "tqd-tree 1/plan 8000000 1/buy 1 0 100/",
            rejected(3, Why::PlanForm),
        ),
        (
            "tqd-tree 1/plan 8000000 1/buy 0 0 0/",
            rejected(3, Why::PlanForm),
        ),
        (
            "tqd-tree 1/plan 8000000 1/buy 0  0 100/",
            rejected(3, Why::PlanForm),
        ),
        (
            "tqd-tree 1/plan 8000000 1/buy 0 0 0100/",
            rejected(3, Why::PlanForm),
        ),
        ("tqd-tree 1/plan 8000000 1/buy 0 0 99/", rejected(2, need)),
        ("tqd-tree 2/plan 8000000 1/buy 0 0 99/", rejected(2, need)),
        ("tqd-tree 1/plan 7999999 1/buy 0 0 100/", rejected(2, cost)),
    ] {
        assert_eq!(rt; verdict(&rt, rt.alloc(), text)?, want, "in {text}");
    }
    Ok(())
}

#[test]
fn what_is_bought_stands_in_rising_order(rt: HostRuntime) -> Result<(), Fail> {
    let parts = two_suppliers(rt.alloc(), 0)?;
    let job = built(&rt, rt.alloc(), &parts)?;
    for (text, want) in [
        (
            "tqd-tree 1/plan 165000000 2/buy 0 0 100/buy 0 1 50/bound 900000 1500000 0 0 0/",
            Verdict::Optimal(165_000_000),
        ),
        (
            "tqd-tree 1/plan 165000000 2/buy 0 1 50/buy 0 0 100/",
            rejected(4, Why::PlanForm),
        ),
        (
            "tqd-tree 1/plan 165000000 2/buy 0 0 100/buy 0 0 100/",
            rejected(4, Why::PlanForm),
        ),
    ] {
        let bytes = lines(rt.alloc(), text)?;
        let found = both_ways(&rt, rt.alloc(), &job, &bytes)?;
        assert_eq!(rt; found, want, "in {text}");
    }
    Ok(())
}

/// A text whose plan costs 8, with this node at the end, and so many zeros in it.
fn with_node(alloc: Global, node: &str, zeros: usize) -> Result<Vec<u8>, Memory> {
    let mut bytes = lines(alloc, "tqd-tree 1/plan 8000000 1/buy 0 0 100/")?;
    bytes.extend_from_slice(node.as_bytes())?;
    for _ in 0..zeros {
        bytes.extend_from_slice(b" 0")?;
    }
    bytes.push(b'\n')?;
    Ok(bytes)
}

/// The verdict of such a text.
fn node(
    rt: &impl Abort,
    alloc: Global,
    node: &str,
    zeros: usize,
) -> Result<Verdict, Stop<JobFault>> {
    let bytes = with_node(alloc, node, zeros)?;
    verdict_of(rt, alloc, &bytes)
}

#[test]
fn nodes_are_judged(rt: HostRuntime) -> Result<(), Fail> {
    let short = Why::BoundShort {
        value: 7_999_900,
        cost: 8_000_000,
    };
    let beyond = Why::PriceRange {
        value: 4_000_000_000_000_001,
    };
    let few = Why::RowLength {
        found: 1,
        wanted: 3,
    };
    let many = Why::RowLength {
        found: 32_765,
        wanted: 3,
    };
    for (text, zeros, why) in [
        ("bound 79999 0 0", 0, short),
        ("bound 4000000000000001 0 0", 0, beyond),
        ("bound -0 0 0", 0, Why::Line),
        ("bound 80000", 0, few),
        ("split 0 2", 0, Why::SplitRange),
        ("split 1 0", 0, Why::SplitRange),
        ("empty 0 0 0", 0, Why::EmptyFails(0)),
        ("winners", 0, Why::WinnersFit),
        ("none", 0, Why::Line),
        ("row 0 80000 0 0", 0, Why::Line),
        ("bound  80000 0 0", 0, Why::Line),
        ("bound 080000 0 0", 0, Why::Line),
        // the longest line, and one that is too long
        ("bound", 32_765, many),
        ("bound", 32_766, Why::Line),
    ] {
        let found = node(&rt, rt.alloc(), text, zeros)?;
        assert_eq!(rt; found, rejected(4, why), "in {text}");
    }
    Ok(())
}

#[test]
fn without_a_plan_nothing_is_bounded(rt: HostRuntime) -> Result<(), Fail> {
    for (text, want) in [
        ("", rejected(1, Why::EarlyEnd)),
        (
            "tqd-tree 1/none/bound 80000 0 0/",
            rejected(3, Why::BoundWithoutPlan),
        ),
        (
            "tqd-tree 1/none/empty 0 0 0/",
            rejected(3, Why::EmptyFails(0)),
        ),
        ("tqd-tree 1/none/split 0 0/", rejected(4, Why::EarlyEnd)),
    ] {
        assert_eq!(rt; verdict(&rt, rt.alloc(), text)?, want, "in {text}");
    }
    Ok(())
}

#[test]
fn a_tree_ends_with_its_last_node(rt: HostRuntime) -> Result<(), Fail> {
    let bytes = lines(rt.alloc(), TREE)?;
    let mut line = 1;
    for at in 0..bytes.len() {
        let cut = verdict_of(&rt, rt.alloc(), &bytes[..at])?;
        assert_eq!(rt; cut, rejected(line, Why::EarlyEnd), "at {at}");
        if bytes[at] == b'\n' && line < 5 {
            line += 1;
        }
    }
    Ok(())
}

#[test]
fn a_text_may_not_follow_a_tree(rt: HostRuntime) -> Result<(), Fail> {
    let longer = "tqd-tree 1/plan 8000000 1/buy 0 0 100/bound 80000 0 0/x";
    assert_eq!(rt;
        verdict(&rt, rt.alloc(), longer)?,
        rejected(5, Why::Trailing)
    );
    Ok(())
}

/// The verdict of a desk's file.
fn check_file<D: Desk>(alloc: Global, job: &Job, desk: &mut D) -> Result<Verdict, CheckStop> {
    let slot = desk.open(alloc, "tree")?;
    check_from(alloc, job, desk, slot)
}

/// A desk with a file, which it gives byte by byte, where the reading of this number fails.
fn desk_of(alloc: Global, text: &str, fails: u64) -> Result<MemoryDesk, Memory> {
    let bytes = lines(alloc, text)?;
    let mut desk = MemoryDesk::new(alloc)?;
    desk.set_file("tree", &bytes)?;
    desk.piece(1);
    desk.fail(DeskCall::Take, fails)?;
    Ok(desk)
}

/// What such a desk answers.
fn from_desk(
    rt: &impl Abort,
    alloc: Global,
    text: &str,
    fails: u64,
) -> Result<Result<Verdict, CheckStop>, Stop<JobFault>> {
    let job = one_supplier(rt, alloc)?;
    let mut desk = desk_of(alloc, text, fails)?;
    Ok(check_file(alloc, &job, &mut desk))
}

#[test]
fn a_desk_is_read_to_its_verdict(rt: HostRuntime) -> Result<(), Fail> {
    for (text, fails, want) in [
        (TREE, 1_000, Ok(Verdict::Optimal(8_000_000))),
        (TREE, 3, Err(CheckStop::Fault)),
        // the first line rejects the text, so that the fault behind it is not met
        ("tqd-tree 3/rest", 12, Ok(rejected(1, Why::Header))),
    ] {
        let found = from_desk(&rt, rt.alloc(), text, fails)?;
        assert_eq!(rt; found, want, "where {fails} fails");
    }
    Ok(())
}

fn is_sent<T: Send>(_value: &T) {}

#[test]
fn a_rejection_stays_as_it_is(rt: HostRuntime) -> Result<(), Fail> {
    let job = one_supplier(&rt, rt.alloc())?;
    let mut run = CheckRun::start(rt.alloc(), &job)?;
    is_sent(&run);
    assert_eq!(rt; run.feed(b"tqd-tree 1\nno"), Feed::More);
    let rejection = Rejection {
        line: 2,
        why: Why::PlanForm,
    };
    for piece in ["thing\n", "", "winners\n"] {
        assert!(rt; run.taken() <= 1_000);
        assert_eq!(rt; run.feed(piece.as_bytes()), Feed::Rejected(rejection));
    }
    assert_eq!(rt; run.finish(), Verdict::Rejected(rejection));
    Ok(())
}
