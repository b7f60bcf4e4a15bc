//! The text of trees, read and written line by line.

ghost use Rattle.std.specs.Prelude.{IfOk, IfSome};
ghost use Rattle.tqd_base.specs.World.{HasNoSlot};
ghost use Rattle.tqd_instance.specs.Plan.{IsSizedFor};

use crate::jobs::{job_of, row};
use bound_tree::{
    Leaf, LineGot, LineHead, Tree, TreeLine, TreeNode, TreeReader, WriteStop, line_head,
    prices_into, write_tree,
};
use interval_box::IntervalBox;
use std::alloc::Global;
use std::process::Abort;
use std::test::Fail;
use tqd_base::limits::QTY_MAX;
use tqd_base::{Desk, DeskCall, Memory, MemoryDesk};
use tqd_instance::{Job, Plan, Standing};

/// Lines, and what each says, if it is a line of a tree.
const HEADS: [(&str, Option<LineHead>); 38] = [
    ("tqd-tree 1", Some(LineHead::Header)),
    ("tqd-tree 01", None),
    ("tqd-tree 2", Some(LineHead::Header2)),
    ("tqd-tree 3", None),
    ("tqd-tree", None),
    ("none", Some(LineHead::NoPlan)),
    ("none ", None),
    ("winners", Some(LineHead::Winners)),
    ("plan 5 10", Some(LineHead::Plan { cost: 5, count: 10 })),
    ("plan 05 10", None),
    ("plan +5 10", None),
    ("plan -5 10", None),
    ("plan 5  10", None),
    (" plan 5 10", None),
    ("plan 5 10 ", None),
    ("plan 5 10\r", None),
    ("plan 5", None),
    ("plan 5 10 1", None),
    (
        "split 99999999999999999999999 0",
        Some(LineHead::Split {
            supplier: 99_999_999_999_999_999_999_999,
            at: 0,
        }),
    ),
    ("split 100000000000000000000000 0", None),
    ("", None),
    ("Winners", None),
    ("bound", Some(LineHead::Bound { count: 0 })),
    ("bound 0 5 -5", Some(LineHead::Bound { count: 3 })),
    ("bound 05", None),
    ("bound -0", None),
    ("bound +5", None),
    ("bound 5  5", None),
    ("bound ", None),
    ("bound 5\r", None),
    ("bound 5.0", None),
    (
        "buy 0 1 2",
        Some(LineHead::Buy {
            supplier: 0,
            good: 1,
            units: 2,
        }),
    ),
    ("empty 7", Some(LineHead::Empty { count: 1 })),
    ("row 63 0 5 -5", Some(LineHead::Row { slot: 63, count: 3 })),
    ("row 0", Some(LineHead::Row { slot: 0, count: 0 })),
    ("row", None),
    ("row -1 5", None),
    ("row 00 5", None),
];

#[test]
fn numbers_have_one_spelling(rt: HostRuntime) {
    for (line, head) in HEADS {
        assert_eq!(rt; line_head(line.as_bytes()), head, "in {line}");
    }
}

/// A text, and so many zeros after it, each after a space.
fn with_zeros(alloc: Global, text: &str, zeros: usize) -> Result<Vec<u8>, Memory> {
    let mut line = Vec::from_slice(alloc, text.as_bytes())?;
    for _zero in 0..zeros {
        line.extend_from_slice(b" 0")?;
    }
    Ok(line)
}

#[test]
fn a_line_has_at_most_65536_bytes(rt: HostRuntime) -> Result<(), Fail> {
    let alloc = rt.alloc();
    for (text, zeros, length, head) in [
        (
            "bound",
            32_765,
            65_535,
            Some(LineHead::Bound { count: 32_765 }),
        ),
        (
            "bound 10",
            32_764,
            65_536,
            Some(LineHead::Bound { count: 32_765 }),
        ),
        ("bound", 32_766, 65_537, None),
    ] {
        let line = with_zeros(alloc, text, zeros)?;
        assert_eq!(rt; line.len(), length);
        assert_eq!(rt; line_head(&line), head, "of {length} bytes");
    }
    Ok(())
}

/// Reads the prices of a row, which has to have as many as there are places.
fn read_prices(rt: &impl Abort, line: &[u8], out: &mut [i64]) -> Option<i128> {
    match line_head(line) {
        Some(LineHead::Bound { count }) => {
            assert_eq!(rt; count, out.len() as u64);
            prices_into(line, out)
        }
        Some(LineHead::Empty { count }) => {
            assert_eq!(rt; count, out.len() as u64);
            prices_into(line, out)
        }
        _ => panic!(rt; "no row"),
    }
}

#[test]
fn prices_are_read_up_to_their_limit(rt: HostRuntime) {
    let mut prices = [0; 3];
    for (line, beyond, read) in [
        (
            "bound 4000000000000000 -5 0",
            None,
            [4_000_000_000_000_000, -5, 0],
        ),
        (
            "empty 1 -4000000000000000 2",
            None,
            [1, -4_000_000_000_000_000, 2],
        ),
    ] {
        assert_eq!(rt; read_prices(&rt, line.as_bytes(), &mut prices), beyond);
        assert_eq!(rt; prices, read);
    }
    for (line, beyond) in [
        ("bound 4000000000000001 0 0", 4_000_000_000_000_001),
        (
            "empty 0 -4000000000000001 99999999999999999999999",
            -4_000_000_000_000_001,
        ),
    ] {
        assert_eq!(rt;
            read_prices(&rt, line.as_bytes(), &mut prices),
            Some(beyond)
        );
    }
}

/// The next line of a reader, shown in short.
fn next_of(alloc: Global, reader: &mut TreeReader<'_>) -> Result<&'static str, Memory> {
    Ok(match reader.next_line(alloc)? {
        LineGot::Line(TreeLine::Header) => "header",
        LineGot::Line(TreeLine::Header2) => "second header",
        LineGot::Line(TreeLine::NoPlan) => "none",
        LineGot::Line(TreeLine::Plan { .. }) => "plan",
        LineGot::Line(TreeLine::Buy { .. }) => "buy",
        LineGot::Line(TreeLine::Split { .. }) => "split",
        LineGot::Line(TreeLine::Row { .. }) => "row",
        LineGot::Line(TreeLine::Bound(_)) => "bound",
        LineGot::Line(TreeLine::Empty(_)) => "empty",
        LineGot::Line(TreeLine::Winners) => "winners",
        LineGot::Bad => "bad",
        LineGot::Cut => "cut",
        LineGot::End => "end",
    })
}

#[test]
fn a_reader_goes_line_by_line(rt: HostRuntime) -> Result<(), Fail> {
    let alloc = rt.alloc();
    let mut reader = TreeReader::over(
        b"tqd-tree 1\nnone\n\nsplit 0 1\r\nsplit 0 1\nplan 1 1\nwinn",
    );
    for want in [
        "header", "none", "bad", "bad", "split", "plan", "cut", "cut",
    ] {
        assert_eq!(rt; next_of(alloc, &mut reader)?, want);
    }
    let mut ended = TreeReader::over(b"winners\n");
    for want in ["winners", "end", "end"] {
        assert_eq!(rt; next_of(alloc, &mut ended)?, want);
    }
    Ok(())
}

#[test]
fn a_reader_gives_the_prices_of_a_row(rt: HostRuntime) -> Result<(), Fail> {
    let alloc = rt.alloc();
    let mut reader = TreeReader::over(b"bound 3 -99999999999999999999999\n");
    let LineGot::Line(TreeLine::Bound(prices)) = reader.next_line(alloc)? else {
        panic!(rt; "no row");
    };
    assert_eq!(rt; prices.len(), 2);
    assert_eq!(rt; prices.get(0), 3);
    assert_eq!(rt; prices.get(1), -99_999_999_999_999_999_999_999);
    Ok(())
}

/// A split of the first supplier behind segment 1, a row for its low half, and the winner limits for its high half.
fn split_tree(rt: &impl Abort, alloc: Global, job: &Job) -> Result<Tree, Memory> {
    let root = IntervalBox::root(job);
    let bound = Leaf::Bound(row(rt, alloc, job, &root, &[80_000, 0, -7])?);
    let mut tree = Tree::new(alloc);
    tree.push(TreeNode::Split { supplier: 0, at: 1 })?;
    tree.push(TreeNode::Leaf(bound))?;
    tree.push(TreeNode::Leaf(Leaf::Winners))?;
    Ok(tree)
}

/// One row that shows that the root is empty.
fn empty_tree(rt: &impl Abort, alloc: Global, job: &Job) -> Result<Tree, Memory> {
    let root = IntervalBox::root(job);
    let empty = Leaf::Empty(row(rt, alloc, job, &root, &[1, 0, 0])?);
    let mut tree = Tree::new(alloc);
    tree.push(TreeNode::Leaf(empty))?;
    assert_eq!(rt; tree.len(), 1);
    assert!(rt; matches!(tree.node(0), TreeNode::Leaf(Leaf::Empty(_))));
    Ok(tree)
}

/// Writes a tree to a new file.
fn write_new<D: Desk>(
    rt: &impl Abort,
    alloc: Global,
    job: &Job,
    plan: Option<&Plan>,
    tree: &Tree,
    desk: &mut D,
    name: &str,
) -> Result<(), WriteStop>
    requires sized { IfSome plan (λ p. IsSizedFor job.now p.now) }
    requires new { HasNoSlot (D.state desk.old).world name.now }
{
    let slot = desk.make(alloc, name)?;
    match plan {
        None => write_tree(alloc, job, None, tree, desk, slot),
        Some(plan) => match job.standing(plan) {
            Standing::Feasible(cost) => {
                write_tree(alloc, job, Some((plan, cost)), tree, desk, slot)
            }
            _ => panic!(rt; "not feasible"),
        },
    }
}

/// Whether writing a tree to a new file answers so, and leaves these bytes in it, where the nth piece fails.
fn is_written(
    rt: &impl Abort,
    alloc: Global,
    job: &Job,
    plan: Option<&Plan>,
    tree: &Tree,
    nth: u64,
    want: (Result<(), WriteStop>, &str),
) -> Result<bool, Memory>
    requires { IfSome plan (λ p. IsSizedFor job.now p.now) }
{
    let mut desk = MemoryDesk::new(alloc)?;
    desk.fail(DeskCall::Put, nth)?;
    let answer = write_new(rt, alloc, job, plan, tree, &mut desk, "t");
    Ok(answer == want.0 && desk.file("t") == Some(want.1.as_bytes()))
}

/// A plan that buys 100 units of the first good from the first supplier.
pub(crate) fn hundred(rt: &impl Abort, alloc: Global, job: &Job) -> Result<Plan, Memory>
    ensures { IfOk result (λ plan. IsSizedFor job.now plan) }
{
    let mut plan = Plan::zero(alloc, job.suppliers(), job.goods())?;
    assert!(rt; 0 < job.suppliers());
    assert!(rt; 0 < job.goods());
    plan.set(0, 0, 100);
    Ok(plan)
}

#[test]
fn a_tree_with_a_plan_is_written_line_by_line(rt: HostRuntime) -> Result<(), Fail> {
    let alloc = rt.alloc();
    let job = job_of(&rt, alloc, 100, QTY_MAX)?;
    let plan = hundred(&rt, alloc, &job)?;
    let tree = split_tree(&rt, alloc, &job)?;
    // The third piece is the line of what is bought. Half of a piece that fails is written.
    for (nth, answer, file) in [
        (
            7,
            Ok(()),
            "tqd-tree 1\nplan 8000000 1\nbuy 0 0 100\nsplit 0 1\nbound 80000 0 -7\nwinners\n",
        ),
        (
            3,
            Err(WriteStop::Fault),
            "tqd-tree 1\nplan 8000000 1\nbuy 0 ",
        ),
    ] {
        let written = is_written(&rt, alloc, &job, Some(&plan), &tree, nth, (answer, file))?;
        assert!(rt; written, "at {nth}");
    }
    Ok(())
}

#[test]
fn a_tree_without_a_plan_is_written(rt: HostRuntime) -> Result<(), Fail> {
    let alloc = rt.alloc();
    let job = job_of(&rt, alloc, 10, 5)?;
    let tree = empty_tree(&rt, alloc, &job)?;
    let want = (Ok(()), "tqd-tree 1\nnone\nempty 1 0 0\n");
    assert!(rt; is_written(&rt, alloc, &job, None, &tree, 4, want)?);
    Ok(())
}
