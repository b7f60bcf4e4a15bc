ghost use Rattle.std.specs.Prelude.{◌≡◌, ◌<◌, List, Option, None, ℕ, length, slice_index_or};

use std::marker::Model;

/// Least costs in millionths of the currency, one for each job; none for a job without a feasible purchase.
#[derive(Debug, Drop)]
pub struct CostList {
    items: Vec<Option<u128>>,
}

impl Model for CostList {
    ghost Value = { List (Option ℕ) };

    ghost view = { λ costs. costs.items.items };
}

impl CostList {
    pub(crate) fn of(items: Vec<Option<u128>>) -> Self
        ensures { result ≡ items.items }
    {
        CostList { items }
    }

    /// The number of jobs.
    pub fn len(&self) -> usize
        ensures { result ≡ length self.now }
    {
        self.items.len()
    }

    /// The least cost of a job, or `None` where it has no feasible purchase.
    pub fn get(&self, at: usize) -> Option<u128>
        requires { at < length self.now }
        ensures { result ≡ slice_index_or self.now at None }
    {
        self.items[at]
    }
}
