use crate::leaf::TreeNode;
use std::alloc::Global;
use std::marker::Model;
use tqd_base::Memory;

/// A tree of boxes, as its nodes in preorder: the trees of the two halves of a split follow it.
#[derive(Debug, Drop)]
pub struct Tree {
    nodes: Vec<TreeNode>,
}

impl Model for Tree {
    ghost use Rattle.std.specs.Prelude.{List};
    ghost use Rattle.bound_tree.specs.declared.leaf.TreeNode.{TreeNode};

    ghost Value = { List TreeNode };

    ghost view = { λ t. t.nodes.items };
}

impl Tree {
    ghost use Rattle.std.specs.Prelude.{◌≡◌, ◌<◌, ◌∷◌, ◌++◌, [], length, slice_get, Some, MatchResult};

    /// The tree without nodes. It takes no memory.
    pub fn new(alloc: Global) -> Tree
        ensures { result ≡ [] }
    {
        Tree {
            nodes: Vec::new(alloc),
        }
    }

    /// Adds a node at the end. Where memory is wanting, the tree stays as it was and the node is dropped.
    pub fn push(&mut self, node: TreeNode) -> Result<(), Memory>
        ensures { MatchResult result (λ done. self.new ≡ self.old ++ node ∷ []) (λ stop. self.new ≡ self.old) }
    {
        Ok(self.nodes.push(node)?)
    }

    /// The number of nodes.
    pub fn len(&self) -> usize
        ensures { result ≡ length self.now }
    {
        self.nodes.len()
    }

    /// The node at a place, counted from 0.
    pub fn node(&self, at: usize) -> &TreeNode
        requires { at < length self.now }
        ensures { slice_get self.now at ≡ Some result.now }
    {
        &self.nodes[at]
    }
}
