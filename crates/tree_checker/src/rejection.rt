use tqd_instance::Standing;

/// Why a text of a tree is rejected. Suppliers and goods are numbers from 0.
#[derive(Clone, Copy, Debug, PartialEq, Eq)]
pub enum Why {
    /// The first line is not the header.
    Header,
    /// The line of the plan, or a line of what it buys, is wrong or out of range or order.
    PlanForm,
    /// The plan is not feasible, and this is the first test that it fails. It is never `Standing::Feasible`.
    PlanStanding(Standing),
    /// The plan costs `real` and not `said`, both in millionths of the currency.
    PlanCost { said: u128, real: u128 },
    /// The line is no node of a tree.
    Line,
    /// The split is not proper for its box.
    SplitRange,
    /// The slot is none of the 64, or a leaf names it and it has no row yet.
    RowSlot { slot: u128 },
    /// The row has so many prices, and its box calls for so many.
    RowLength { found: u64, wanted: u64 },
    /// A price of the row is beyond 4 * 10^15 millionths of the currency in absolute value.
    PriceRange { value: i128 },
    /// A bound stands where there is no plan.
    BoundWithoutPlan,
    /// The value of the row is below the cost of the plan, both in millionths of the currency.
    BoundShort { value: i128, cost: u128 },
    /// The free value of the row, in millionths of the currency, is not above 0.
    EmptyFails(i128),
    /// The winner limits can be met in the box.
    WinnersFit,
    /// A line is due, and no whole line is left.
    EarlyEnd,
    /// Bytes stand behind the last node of the tree.
    Trailing,
}

/// The first cause that rejects a text of a tree, and the number of the line in which it stands, counted from 1.
#[derive(Clone, Copy, Debug, PartialEq, Eq)]
pub struct Rejection {
    pub line: u64,
    pub why: Why,
}

/// What a text of a tree shows of a job.
#[derive(Clone, Copy, Debug, PartialEq, Eq)]
pub enum Verdict {
    /// The plan in the text is a least purchase, and costs so many millionths of the currency.
    Optimal(u128),
    /// No purchase is feasible.
    NoPurchase,
    /// The text shows nothing, and this is the first cause.
    Rejected(Rejection),
}

/// What a run over a text in pieces says after a piece.
#[derive(Clone, Copy, Debug, PartialEq, Eq)]
pub enum Feed {
    /// Nothing rejects what was fed so far, unless it is all.
    More,
    /// What was fed is rejected, and whatever follows it.
    Rejected(Rejection),
}
