use crate::node_box::NodeBox;
use bound_tree::Leaf;

/// What became of a node so far.
#[derive(Debug, Drop)]
pub enum Phase {
    Open,
    Taken,
    /// The nodes of the low and of the high half, and the supplier and the number at which the box was split.
    Split {
        low: u64,
        high: u64,
        supplier: u32,
        at: u8,
    },
    Closed(Leaf),
}

/// A box of the search, and what became of it so far. The box is held while the node is Open or Taken.
#[derive(Debug, Drop)]
pub struct Node {
    pub area: NodeBox,
    pub phase: Phase,
}
