ghost use Rattle.std.specs.Prelude.{ℕ, ◌≡◌, ◌≤◌, ◌+◌, ◌*◌, ◌++◌, length, IfOk, IfSome, OnOk};
ghost use Rattle.interval_box.specs.Ranges.{IsRoot};
ghost use Rattle.interval_box.specs.Size.{size};
ghost use Rattle.bound_tree.specs.BoxTree.{BoxTree, nodes_of};
ghost use Rattle.search_book.specs.Nodes.{area_of};
ghost use Rattle.search_book.specs.Events.{IsPlanAt};
ghost use Rattle.search_book.specs.TreeOf.{IsTreeAt, IsTreeFor};
ghost use Rattle.search_book.specs.Answers.{IsSettled, Decides};
ghost use Rattle.search_book.specs.Preorder.{IsNamedOnce, own_nodes, next_nodes};

use crate::book::Book;
use crate::node::{Node, Phase};
use bound_tree::{Tree, TreeNode};
use std::alloc::Global;
use std::mem;
use tqd_base::Memory;
use tqd_instance::Plan;

/// What a finished search hands out.
#[derive(Debug, Drop)]
pub struct Finished {
    /// A least purchase and its cost in millionths of the currency, or none where no purchase is feasible.
    pub plan: Option<(Plan, u128)>,
    /// The tree that shows it.
    pub tree: Tree,
}

impl<'j> Book<'j> {
    /// Hands out the best plan and the tree that shows that no purchase costs less, or that none is feasible. Without
    /// memory the book is dropped.
    pub fn finish(self, alloc: Global) -> Result<Finished, Memory>
        requires { IsSettled self }
        ensures decided { Decides self.entry }
        ensures plan { IfOk result (λ done. done.plan ≡ self.entry.best) }
        ensures plan_stands { IfOk result (λ done.
            IfSome done.plan (λ best. IsPlanAt self.entry.job best.0 best.1)) }
        ensures root { IsRoot self.entry.job (area_of self.entry.nodes 0) }
        ensures tree { IfOk result (λ done. IsTreeFor self.entry done.tree) }
        ensures bounded { IfOk result (λ done.
            length done.tree + 1 ≤ 2 * size self.entry.job (area_of self.entry.nodes 0)) }
    {
        let Book { nodes, best, .. } = self;
        let tree = preorder(alloc, nodes)?;
        Ok(Finished { plan: best, tree })
    }
}

/// The tree that is read from node 0 on. Its leaves are moved out of the nodes.
fn preorder(alloc: Global, mut nodes: Vec<Node>) -> Result<Tree, Memory>
    requires read { (tree : BoxTree) × IsTreeAt nodes.items 0 tree }
    requires once { IsNamedOnce nodes.items }
    ensures { IfOk result (λ done. (tree : BoxTree) × IsTreeAt nodes.items 0 tree × (done ≡ nodes_of tree)) }
{
    let mut tree = Tree::new(alloc);
    let mut todo = Vec::new(alloc);
    todo.push(0)?;
    while let Some(n) = todo.pop() {
        let phase = mem::replace(&mut nodes[n as usize].phase, Phase::Taken);
        visit(phase, &mut tree, &mut todo)?;
    }
    Ok(tree)
}

/// Adds a node to the tree. What is read after it is put on top of what there is to do.
fn visit(phase: Phase, tree: &mut Tree, todo: &mut Vec<u64>) -> Result<(), Memory>
    ensures tree { OnOk result (tree.new ≡ tree.old ++ own_nodes phase) }
    ensures todo { OnOk result (todo.new.items ≡ todo.old.items ++ next_nodes phase) }
{
    match phase {
        Phase::Split {
            low,
            high,
            supplier,
            at,
        } => {
            tree.push(TreeNode::Split { supplier, at })?;
            todo.push(high)?;
            todo.push(low)?;
        }
        Phase::Closed(leaf) => tree.push(TreeNode::Leaf(leaf))?,
        Phase::Open | Phase::Taken => {}
    }
    Ok(())
}
