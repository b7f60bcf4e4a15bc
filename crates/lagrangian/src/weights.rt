ghost use Rattle.std.specs.Prelude.{◌≡◌, ◌<◌, ◌≤◌, length, sum, slice_index};
ghost use Rattle.lagrangian.specs.Weights.{AreWeights};

use std::marker::Model;

/// The greatest number of columns of a supplier.
pub const COLUMNS_MAX: usize = 6;

/// A whole weight, 2^30.
pub const WHOLE: u64 = 1_073_741_824;

/// How much of a mixture each of a supplier's columns is, in parts of `WHOLE`: by the places of the columns, and
/// together no more than a whole.
#[derive(Debug, Drop)]
pub(crate) struct Weights {
    items: [u64; 6],
}

impl Model for Weights {
    ghost use Rattle.std.specs.Prelude.{ℕ, List};
    ghost use Rattle.lagrangian.specs.Weights.{AreWeights};

    ghost Value = { List ℕ };

    ghost view = { λ w. w.items };

    ghost invariant = { λ w. AreWeights w.items };
}

impl Weights {
    /// No weight at all.
    pub(crate) fn none() -> Weights
        ensures { sum result ≡ 0 }
    {
        Weights { items: [0; 6] }
    }

    /// The weight of the column at a place.
    pub(crate) fn get(&self, at: usize) -> u64
        requires { at < COLUMNS_MAX }
        ensures value { result ≡ slice_index self.now at }
        ensures within { result ≤ WHOLE }
        ensures bounded { AreWeights self.now }
    {
        self.items[at]
    }

    /// All weights together.
    pub(crate) fn total(&self) -> u64
        ensures value { result ≡ sum self.now }
        ensures within { result ≤ WHOLE }
    {
        let mut total = 0;
        for weight in &self.items {
            total += *weight;
        }
        total
    }

    /// Takes all weight from a column.
    pub(crate) fn clear(&mut self, at: usize)
        requires { at < COLUMNS_MAX }
    {
        self.items[at] = 0;
    }

    /// Moves weight from one column to another.
    pub(crate) fn shift(&mut self, from: usize, to: usize, amount: u64)
        requires from { from < COLUMNS_MAX }
        requires to { to < COLUMNS_MAX }
        requires enough { amount ≤ slice_index self.old from }
        ensures total { sum self.new ≡ sum self.old }
        ensures count { length self.new ≡ COLUMNS_MAX }
    {
        let mut items = self.items;
        items[from] -= amount;
        items[to] += amount;
        self.items = items;
    }

    /// Gives a column what all weights together lack of a whole.
    pub(crate) fn fill(&mut self, at: usize)
        requires { at < COLUMNS_MAX }
        ensures total { sum self.new ≡ WHOLE }
        ensures count { length self.new ≡ COLUMNS_MAX }
    {
        let rest = WHOLE - self.total();
        self.items[at] += rest;
    }

    /// Scales the weights so that together they are a whole, each rounded down.
    pub(crate) fn scale(&mut self) {
        let total = self.total().max(1);
        let mut scaled = [0; 6];
        let mut left = WHOLE;
        for at in 0..COLUMNS_MAX {
            let weight = (self.items[at] * WHOLE / total).min(left);
            scaled[at] = weight;
            left -= weight;
        }
        self.items = scaled;
    }
}
