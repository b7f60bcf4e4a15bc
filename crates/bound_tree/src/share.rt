//! Writes a tree with rows in slots.
ghost use Rattle.std.specs.Prelude.{◌≡◌, ◌<◌, ◌∷◌, ◌++◌, [], map, IfOk, OnOk};
ghost use Rattle.tqd_base.specs.World.{Writes};
ghost use Rattle.interval_box.specs.Ranges.{IsBoxOf};
ghost use Rattle.bound_tree.specs.BoxTree.{BoxTree, nodes_of};
ghost use Rattle.bound_tree.specs.Kills.{LeafFits};
ghost use Rattle.bound_tree.specs.Prices.{Fits};
ghost use Rattle.bound_tree.specs.declared.line.TreeLine.TheVariants.{Row as RowLine};
ghost use Rattle.bound_tree.specs.TreeText.{all_prices, ended, lines_text};
ghost use Rattle.bound_tree.specs.WriteTree.{purchase_of, IsPriced, WriteGives};
ghost use Rattle.bound_tree.specs.SlotTree.{items_of};
ghost use Rattle.bound_tree.specs.SlotText.{item_line, slot_text};
ghost use Rattle.bound_tree.specs.Shared.{shared, shared_leaf, given_leaf, AreRootNodes};
ghost use Rattle.bound_tree.specs.OtherBox.{widened};
ghost use Rattle.bound_tree.specs.Root.{root_of};
ghost use Rattle.bound_tree.specs.SlotTable.{given_of, IsTable, NodeFits, IsSplitOf, items_at, given_at, boxes_at, named_text};

use crate::leaf::{Leaf, TreeNode};
use crate::row::Row;
use crate::slots::{Named, SlotTable};
use crate::text::slot_line;
use crate::tree::Tree;
use crate::word::{SLOTS, Word};
use crate::write::{WriteStop, put_counts, put_given, put_line};
use interval_box::IntervalBox;
use std::alloc::Global;
use tqd_base::{Desk, Memory};
use tqd_instance::{Job, Plan};

/// Writes the text of a tree of the root with its rows in slots to the end of a slot's file, with one `put` for each
/// line. A row that many leaves have, at the places of their boxes, is written once.
///
/// `plan` is a plan of the job's size with its cost in millionths of the currency. After any answer the file has grown
/// by a prefix of the text, after Ok by the whole, and all else on the desk is as it was. Fault comes only where the
/// count of faults of writing rose.
pub fn write_shared<D: Desk>(
    alloc: Global,
    job: &Job,
    plan: Option<(&Plan, u128)>,
    tree: &Tree,
    desk: &mut D,
    slot: u32,
) -> Result<(), WriteStop>
    requires writes { Writes ((D.state desk.old).world.slots slot) }
    requires priced { IsPriced job.now plan }
    requires nodes { AreRootNodes job.now tree.now }
    ensures { (whole : BoxTree) → tree.now ≡ nodes_of whole → WriteGives (D.state desk.old) (D.state desk.new) slot
        (slot_text job.now (purchase_of plan.entry) (items_of (shared job.now whole))) result }
{
    put_counts(alloc, Word::Header, &[SLOTS], desk, slot)?;
    put_given(alloc, job, plan, desk, slot)?;
    put_shared_nodes(alloc, job, tree, desk, slot)
}

// The nodes in order, from the root on.
fn put_shared_nodes<D: Desk>(
    alloc: Global,
    job: &Job,
    tree: &Tree,
    desk: &mut D,
    slot: u32,
) -> Result<(), WriteStop>
    requires writes { Writes ((D.state desk.old).world.slots slot) }
    requires nodes { AreRootNodes job.now tree.now }
    ensures { (whole : BoxTree) → tree.now ≡ nodes_of whole → WriteGives (D.state desk.old) (D.state desk.new) slot
        (lines_text (map item_line (items_of (shared job.now whole)))) result }
{
    let mut due = only_root(alloc, job)?;
    let mut table = SlotTable::new(alloc)?;
    for at in 0..tree.len() {
        let area = due.pop().unwrap();
        let node = tree.node(at);
        put_shared_node(alloc, job, &area, node, &mut table, desk, slot)?;
        add_halves(&area, node, &mut due)?;
    }
    Ok(())
}

// The root alone.
fn only_root(alloc: Global, job: &Job) -> Result<Vec<IntervalBox>, Memory>
    ensures { IfOk result (λ due. due.items ≡ root_of job.now ∷ []) }
{
    let mut due = Vec::new(alloc);
    due.push(IntervalBox::root(job))?;
    Ok(due)
}

// The boxes whose trees follow a node of a box.
fn add_halves(area: &IntervalBox, node: &TreeNode, due: &mut Vec<IntervalBox>) -> Result<(), Memory>
    requires { IsSplitOf area.now node.now }
    ensures { OnOk result (due.new.items ≡ due.old.items ++ boxes_at area.now node.now) }
{
    if let TreeNode::Split { supplier, at } = node {
        let (low, high) = area.halves(*supplier as usize, *at);
        due.push(high)?;
        due.push(low)?;
    }
    Ok(())
}

// A node of a box.
fn put_shared_node<'t, D: Desk>(
    alloc: Global,
    job: &Job,
    area: &IntervalBox,
    node: &'t TreeNode,
    table: &mut SlotTable<'t>,
    desk: &mut D,
    slot: u32,
) -> Result<(), WriteStop>
    requires writes { Writes ((D.state desk.old).world.slots slot) }
    requires of_job { IsBoxOf job.now area.now }
    requires fits { NodeFits job.now area.now node.now }
    requires table { IsTable job.now table.old }
    requires room { table.old.count < usize.MAX }
    ensures writes { WriteGives (D.state desk.old) (D.state desk.new) slot
        (lines_text (map item_line (items_at job.now area.now (given_of job.now table.old) node.now))) result }
    ensures given { given_of job.now table.new ≡ given_at job.now area.now (given_of job.now table.old) node.now }
    ensures table { IsTable job.now table.new }
{
    match node {
        TreeNode::Split { supplier, at } => put_counts(
            alloc,
            Word::Split,
            &[u128::from(*supplier), u128::from(*at)],
            desk,
            slot,
        ),
        TreeNode::Leaf(leaf) => put_shared_leaf(alloc, job, area, leaf, table, desk, slot),
    }
}

// A leaf of a box, after its row where no slot has it.
fn put_shared_leaf<'t, D: Desk>(
    alloc: Global,
    job: &Job,
    area: &IntervalBox,
    leaf: &'t Leaf,
    table: &mut SlotTable<'t>,
    desk: &mut D,
    slot: u32,
) -> Result<(), WriteStop>
    requires writes { Writes ((D.state desk.old).world.slots slot) }
    requires of_job { IsBoxOf job.now area.now }
    requires fits { LeafFits job.now area.now leaf.now }
    requires table { IsTable job.now table.old }
    requires room { table.old.count < usize.MAX }
    ensures writes { WriteGives (D.state desk.old) (D.state desk.new) slot
        (lines_text (map item_line (items_of (shared_leaf job.now area.now (given_of job.now table.old) leaf.now)))) result }
    ensures given { given_of job.now table.new ≡ given_leaf job.now area.now (given_of job.now table.old) leaf.now }
    ensures table { IsTable job.now table.new }
{
    match leaf {
        Leaf::Bound(row) => {
            let named = table.name(job, area, row);
            put_named(alloc, job, area, Word::Bound, row, named, desk, slot)
        }
        Leaf::Empty(row) => {
            let named = table.name(job, area, row);
            put_named(alloc, job, area, Word::Empty, row, named, desk, slot)
        }
        Leaf::Winners => put_counts(alloc, Word::Winners, &[], desk, slot),
    }
}

// A leaf with the slot of its row, after the line of the row where it was put into the slot.
fn put_named<D: Desk>(
    alloc: Global,
    job: &Job,
    area: &IntervalBox,
    word: Word,
    row: &Row,
    named: Named,
    desk: &mut D,
    slot: u32,
) -> Result<(), WriteStop>
    requires writes { Writes ((D.state desk.old).world.slots slot) }
    requires of_job { IsBoxOf job.now area.now }
    requires fits { Fits job.now area.now row.now }
    ensures { WriteGives (D.state desk.old) (D.state desk.new) slot
        (named_text word (widened job.now area.now row.now) named) result }
{
    match named {
        Named::Held(n) => put_counts(alloc, word, &[n as u128], desk, slot),
        Named::Next(n) => {
            put_row(alloc, job, n, area, row, desk, slot)?;
            put_counts(alloc, word, &[n as u128], desk, slot)
        }
    }
}

// A row of a box that is put into a slot, as a row of the root.
fn put_row<D: Desk>(
    alloc: Global,
    job: &Job,
    n: usize,
    area: &IntervalBox,
    row: &Row,
    desk: &mut D,
    slot: u32,
) -> Result<(), WriteStop>
    requires writes { Writes ((D.state desk.old).world.slots slot) }
    requires of_job { IsBoxOf job.now area.now }
    requires fits { Fits job.now area.now row.now }
    ensures { WriteGives (D.state desk.old) (D.state desk.new) slot
        (ended (RowLine n (all_prices (widened job.now area.now row.now)))) result }
{
    let line = slot_line(alloc, job, n, area, row)?;
    put_line(&line, desk, slot)
}
