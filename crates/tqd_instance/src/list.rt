ghost use Rattle.std.specs.Prelude.{◌≡◌, ◌<◌, List, ℕ, length, slice_index, slice_set, replicate, IfOk};

use std::alloc::Global;
use std::marker::Model;
use tqd_base::Memory;

/// A list of numbers, which contracts see as that list.
#[derive(Debug, Drop)]
pub struct Numbers {
    items: Vec<u64>,
}

impl Model for Numbers {
    ghost Value = { List ℕ };

    ghost view = { λ n. n.items.items };
}

impl Numbers {
    /// The list of a vector's items. It takes no memory.
    pub fn of(items: Vec<u64>) -> Self
        ensures { result ≡ items.items }
    {
        Numbers { items }
    }

    /// A list of so many zeros.
    pub fn zeros(alloc: Global, len: usize) -> Result<Self, Memory>
        ensures { IfOk result (λ n. n ≡ replicate len 0) }
    {
        let items = vec![in alloc; 0; len]?;
        Ok(Numbers { items })
    }

    pub fn len(&self) -> usize
        ensures { result ≡ length self.now }
    {
        self.items.len()
    }

    pub fn get(&self, at: usize) -> u64
        requires { at < length self.now }
        ensures { result ≡ slice_index self.now at }
    {
        self.items[at]
    }

    pub fn set(&mut self, at: usize, n: u64)
        requires { at < length self.old }
        ensures { self.new ≡ slice_set self.old at n }
    {
        self.items[at] = n;
    }

    pub fn as_slice(&self) -> &[u64]
        ensures { result.now ≡ self.now }
    {
        self.items.as_slice()
    }

    pub fn copy(&self, alloc: Global) -> Result<Self, Memory>
        ensures { IfOk result (λ n. n ≡ self.now) }
    {
        let items = self.items.as_slice().to_vec(alloc)?;
        Ok(Numbers { items })
    }
}
