use crate::row::Row;

/// What shows that a box has no feasible purchase that costs less than the best one known.
#[derive(Debug, Drop)]
pub enum Leaf {
    /// The value of the row is at least the cost of the best purchase.
    Bound(Row),
    /// The free value of the row is above 0.
    Empty(Row),
    /// No purchase in the box can meet the winner limits.
    Winners,
}

/// A node of a tree of boxes. The trees of the two halves of a split follow it.
#[derive(Debug, Drop)]
pub enum TreeNode {
    /// The box is split into the part of the supplier's range up to segment `at`, and that from the one after it on.
    Split { supplier: u32, at: u8 },
    Leaf(Leaf),
}
