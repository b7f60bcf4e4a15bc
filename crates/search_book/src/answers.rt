use interval_box::IntervalBox;

/// What became of a node so far.
#[derive(Clone, Copy, Debug, PartialEq, Eq)]
pub enum State {
    /// Nobody works on the box.
    Open,
    /// A worker has the box.
    Taken,
    /// The box was split: the numbers of the nodes of the low and of the high half.
    Split(u64, u64),
    /// A leaf killed the box.
    Closed,
}

/// What became of the wish to take a node.
#[derive(Clone, Copy, Debug, PartialEq, Eq)]
pub enum Take {
    /// The node is now Taken, and has this box.
    Got(IntervalBox),
    /// The node is not Open, but in this state.
    NotOpen(State),
}

/// What became of the offer of a plan.
#[derive(Clone, Copy, Debug, PartialEq, Eq)]
pub enum Improve {
    /// The plan is now the best one.
    Better,
    /// The best plan is kept, which costs this and not more than the plan offered, in millionths of the currency.
    Kept(u128),
}

/// What became of the offer of a leaf.
#[derive(Clone, Copy, Debug, PartialEq, Eq)]
pub enum Close {
    Closed,
    /// The leaf is a bound, and its value is below the cost of the best plan, or there is no plan: that cost, in
    /// millionths of the currency.
    Short(Option<u128>),
}

/// What a search found out.
#[derive(Clone, Copy, Debug, PartialEq, Eq)]
pub enum BookVerdict {
    /// The best plan is a least purchase and costs this, in millionths of the currency.
    Least(u128),
    /// No purchase is feasible.
    NoPurchase,
}
