ghost use Rattle.std.specs.Prelude.{◌≡◌, ℕ, ◌<◌, pos, length, slice_index_or, IfOk};

use std::alloc::Global;
use std::marker::Model;
use tqd_base::Memory;

/// For each node of a net a number, in millionths of the currency a unit, by the numbers of the nodes.
#[derive(Drop)]
pub struct NumberList {
    numbers: Vec<i64>,
}

impl Model for NumberList {
    ghost use Rattle.std.specs.Prelude.{ℤ, List};

    ghost Value = { List ℤ };

    ghost view = { λ n. n.numbers.items };
}

impl NumberList {
    /// A list of these numbers.
    pub fn of(alloc: Global, numbers: &[i64]) -> Result<NumberList, Memory>
        ensures { IfOk result (λ list. list ≡ numbers.now) }
    {
        Ok(NumberList {
            numbers: numbers.to_vec(alloc)?,
        })
    }

    /// The list of these numbers, in their allocation.
    pub fn from_vec(numbers: Vec<i64>) -> NumberList
        ensures { result ≡ numbers.items }
    {
        NumberList { numbers }
    }

    /// The numbers, with their allocation.
    pub fn into_vec(self) -> Vec<i64>
        ensures { result.items ≡ self }
    {
        self.numbers
    }

    /// The number of node `n`.
    pub fn get(&self, n: u32) -> i64
        requires { n < length self.now }
        ensures { result ≡ slice_index_or self.now n (pos 0) }
    {
        self.numbers[n as usize]
    }
}
