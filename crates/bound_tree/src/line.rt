use std::marker::Model;

/// Signed whole numbers of up to 23 digits each, as they stand in a line.
#[derive(Debug, Drop)]
pub struct SignedList {
    pub(crate) numbers: Vec<i128>,
}

impl Model for SignedList {
    ghost use Rattle.std.specs.Prelude.{List, ℤ};

    ghost Value = { List ℤ };

    ghost view = { λ l. l.numbers.items };
}

impl SignedList {
    ghost use Rattle.std.specs.Prelude.{◌≡◌, ◌<◌, length, pos, slice_index_or};

    /// How many numbers there are.
    pub fn len(&self) -> usize
        ensures { result ≡ length self.now }
    {
        self.numbers.len()
    }

    /// The number at a place, counted from 0.
    pub fn get(&self, at: usize) -> i128
        requires { at < length self.now }
        ensures { result ≡ slice_index_or self.now at (pos 0) }
    {
        self.numbers[at]
    }
}

/// A line of a tree, with the numbers that stand in it.
#[derive(Debug, Drop)]
pub enum TreeLine {
    /// The first line of a tree with rows in its leaves, `tqd-tree 1`.
    Header,
    /// The first line of a tree with rows in slots, `tqd-tree 2`.
    Header2,
    /// There is no plan.
    NoPlan,
    /// The cost of the plan, in millionths of the currency, and the number of the `buy` lines that follow.
    Plan {
        cost: u128,
        count: u128,
    },
    /// The units that the plan buys of a good from a supplier.
    Buy {
        supplier: u128,
        good: u128,
        units: u128,
    },
    /// A split of a supplier's range behind a segment.
    Split {
        supplier: u128,
        at: u128,
    },
    /// A row of prices for the root, in millionths of the currency, that is put into a slot.
    Row {
        slot: u128,
        prices: SignedList,
    },
    /// A leaf with a row of prices, in millionths of the currency, or with the number of a slot alone.
    Bound(SignedList),
    /// A leaf with a row of prices whose free value is above 0, or with the number of a slot alone.
    Empty(SignedList),
    /// A leaf by the winner limits.
    Winners,
}

/// A line of a tree with the number of its prices in place of the prices.
#[derive(Clone, Copy, Debug, PartialEq, Eq)]
pub enum LineHead {
    Header,
    Header2,
    NoPlan,
    Plan {
        cost: u128,
        count: u128,
    },
    Buy {
        supplier: u128,
        good: u128,
        units: u128,
    },
    Split {
        supplier: u128,
        at: u128,
    },
    /// `count` is the number of prices, without the slot.
    Row {
        slot: u128,
        count: u64,
    },
    /// `count` is the number of prices.
    Bound {
        count: u64,
    },
    /// `count` is the number of prices.
    Empty {
        count: u64,
    },
    Winners,
}
