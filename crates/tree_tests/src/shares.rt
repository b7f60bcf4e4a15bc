//! Trees that are written with their rows in slots.

ghost use Rattle.std.specs.Prelude.{◌≡◌, IfOk};
ghost use Rattle.tqd_base.specs.World.{HasNoSlot};
ghost use Rattle.tqd_instance.specs.Plan.{IsSizedFor};
ghost use Rattle.interval_box.specs.Halves.{IsProper, low_half, high_half};
ghost use Rattle.bound_tree.specs.Root.{root_of};
ghost use Rattle.bound_tree.specs.Prices.{Fits};
ghost use Rattle.bound_tree.specs.Shared.{AreRootNodes};

use crate::jobs::{job_of, row};
use crate::texts::hundred;
use bound_tree::{Leaf, Row, Tree, TreeNode, WriteStop, laws, write_shared};
use interval_box::IntervalBox;
use std::alloc::Global;
use std::process::Abort;
use std::test::Fail;
use tqd_base::limits::QTY_MAX;
use tqd_base::{Desk, Memory, MemoryDesk};
use tqd_instance::{Job, Plan, Standing};

/// The root as a leaf with this row.
fn one_leaf(alloc: Global, _job: &Job, row: Row) -> Result<Tree, Memory>
    requires { Fits _job.now (root_of _job.now) row }
    ensures { IfOk result (λ tree. AreRootNodes _job.now tree) }
{
    let mut tree = Tree::new(alloc);
    tree.push(TreeNode::Leaf(Leaf::Bound(row)))?;
    Ok(tree)
}

/// The root split behind segment 0 of the first supplier, with a leaf for each half.
fn two_leaves(alloc: Global, _job: &Job, low: Row, high: Row) -> Result<Tree, Memory>
    requires proper { IsProper (root_of _job.now) 0 0 }
    requires low { Fits _job.now (low_half (root_of _job.now) 0 0) low }
    requires high { Fits _job.now (high_half (root_of _job.now) 0 0) high }
    ensures { IfOk result (λ tree. AreRootNodes _job.now tree) }
{
    let mut tree = Tree::new(alloc);
    tree.push(TreeNode::Split { supplier: 0, at: 0 })?;
    tree.push(TreeNode::Leaf(Leaf::Bound(low)))?;
    tree.push(TreeNode::Leaf(Leaf::Bound(high)))?;
    Ok(tree)
}

/// Writes a tree with a plan to a new file.
fn share_new<D: Desk>(
    rt: &impl Abort,
    alloc: Global,
    job: &Job,
    plan: &Plan,
    tree: &Tree,
    desk: &mut D,
    name: &str,
) -> Result<(), WriteStop>
    requires sized { IsSizedFor job.now plan.now }
    requires nodes { AreRootNodes job.now tree.now }
    requires new { HasNoSlot (D.state desk.old).world name.now }
{
    let slot = desk.make(alloc, name)?;
    match job.standing(plan) {
        Standing::Feasible(cost) => {
            write_shared(alloc, job, Some((plan, cost)), tree, desk, slot)
        }
        _ => panic!(rt; "not feasible"),
    }
}

/// Whether writing a tree with a plan to a new file answers Ok, and leaves these bytes in it.
fn is_shared(
    rt: &impl Abort,
    alloc: Global,
    job: &Job,
    plan: &Plan,
    tree: &Tree,
    want: &str,
) -> Result<bool, Memory>
    requires sized { IsSizedFor job.now plan.now }
    requires nodes { AreRootNodes job.now tree.now }
{
    let mut desk = MemoryDesk::new(alloc)?;
    let answer = share_new(rt, alloc, job, plan, tree, &mut desk, "t");
    Ok(answer == Ok(()) && desk.file("t") == Some(want.as_bytes()))
}

/// The root as a leaf with these prices.
fn root_leaf(rt: &impl Abort, alloc: Global, job: &Job) -> Result<Tree, Memory>
    ensures { IfOk result (λ tree. AreRootNodes job.now tree) }
{
    let root = IntervalBox::root(job);
    laws::root_is_one_box();
    let row = row(rt, alloc, job, &root, &[80_000, 0, 0])?;
    one_leaf(alloc, job, row)
}

/// The root split behind segment 0, with the same prices in both halves.
fn halves(rt: &impl Abort, alloc: Global, job: &Job) -> Result<Tree, Memory>
    ensures { IfOk result (λ tree. AreRootNodes job.now tree) }
{
    let root = IntervalBox::root(job);
    laws::root_is_one_box();
    assert!(rt; root.low_of(0) == 0);
    assert!(rt; 0 < root.high_of(0));
    let (low, high) = root.halves(0, 0);
    let low_row = row(rt, alloc, job, &low, &[80_000])?;
    let high_row = row(rt, alloc, job, &high, &[80_000, 0, 0])?;
    two_leaves(alloc, job, low_row, high_row)
}

#[test]
fn leaves_name_the_slots_of_their_rows(rt: HostRuntime) -> Result<(), Fail> {
    let alloc = rt.alloc();
    let job = job_of(&rt, alloc, 100, QTY_MAX)?;
    let plan = hundred(&rt, alloc, &job)?;
    let leaf = root_leaf(&rt, alloc, &job)?;
    let text = "tqd-tree 2\nplan 8000000 1\nbuy 0 0 100\nrow 0 80000 0 0\nbound 0\n";
    let written = is_shared(&rt, alloc, &job, &plan, &leaf, text)?;
    assert!(rt; written);
    let tree = halves(&rt, alloc, &job)?;
    let text =
        "tqd-tree 2\nplan 8000000 1\nbuy 0 0 100\nsplit 0 0\nrow 0 80000 0 0\nbound 0\nbound 0\n";
    let written = is_shared(&rt, alloc, &job, &plan, &tree, text)?;
    assert!(rt; written);
    Ok(())
}
