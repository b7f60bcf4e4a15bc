ghost use Rattle.tqd_instance.specs.PlanFacts.{IsTable};

use crate::list::Numbers;
use std::alloc::Global;
use tqd_base::Memory;
use tqd_base::limits::QTY_MAX;

/// How many units are bought from each supplier of each good.
#[derive(Debug, Drop)]
pub struct Plan {
    suppliers: usize,
    goods: usize,
    cells: Numbers,
    pub ghost facts: { IsTable suppliers goods cells },
}

impl Plan {
    ghost use Rattle.std.specs.Prelude.{◌≡◌, ◌+◌, ◌*◌, ◌<◌, ◌≤◌, ℕ, length, IfOk};
    ghost use Rattle.tqd_instance.specs.Plan.{plan_suppliers, plan_goods, units};

    /// The plan of this size that buys nothing. A size that no memory holds is refused as such.
    #[tactic(auto, unfolding(crate::specs::Plan::plan_suppliers, crate::specs::Plan::plan_goods, crate::specs::Plan::units))]
    pub fn zero(alloc: Global, suppliers: usize, goods: usize) -> Result<Plan, Memory>
        ensures suppliers { IfOk result (λ plan. plan_suppliers plan ≡ suppliers) }
        ensures goods { IfOk result (λ plan. plan_goods plan ≡ goods) }
        ensures nothing { IfOk result (λ plan. (i k : ℕ) → units plan i k ≡ 0) }
    {
        let Some(size) = suppliers.checked_mul(goods) else {
            return Err(Memory);
        };
        let cells = Numbers::zeros(alloc, size)?;
        Ok(Plan {
            suppliers,
            goods,
            cells,
        })
    }

    /// The number of suppliers that the plan has a row for.
    #[tactic(auto, unfolding(crate::specs::Plan::plan_suppliers))]
    pub fn suppliers(&self) -> usize
        ensures { result ≡ plan_suppliers self.now }
    {
        self.suppliers
    }

    /// The number of goods that the plan has a column for.
    #[tactic(auto, unfolding(crate::specs::Plan::plan_goods))]
    pub fn goods(&self) -> usize
        ensures { result ≡ plan_goods self.now }
    {
        self.goods
    }

    /// How many units are bought from a supplier of a good, at most 100,000,000.
    #[tactic(auto, unfolding(crate::specs::Plan::plan_suppliers, crate::specs::Plan::plan_goods, crate::specs::Plan::units))]
    pub fn get(&self, i: usize, k: usize) -> u64
        requires supplier { i < plan_suppliers self.now }
        requires good { k < plan_goods self.now }
        ensures value { result ≡ units self.now i k }
        ensures within { result ≤ QTY_MAX }
    {
        self.cells.get(self.place(i, k))
    }

    /// Makes the units that are bought from a supplier of a good this number, at most 100,000,000.
    #[tactic(auto, unfolding(crate::specs::Plan::plan_suppliers, crate::specs::Plan::plan_goods, crate::specs::Plan::units))]
    pub fn set(&mut self, i: usize, k: usize, n: u64)
        requires supplier { i < plan_suppliers self.old }
        requires good { k < plan_goods self.old }
        requires within { n ≤ QTY_MAX }
        ensures suppliers { plan_suppliers self.new ≡ plan_suppliers self.old }
        ensures goods { plan_goods self.new ≡ plan_goods self.old }
        ensures changed { units self.new i k ≡ n }
        ensures others { (a b : ℕ) → b < plan_goods self.old → (a ≡ i → b ≡ k → ⊥)
            → units self.new a b ≡ units self.old a b }
    {
        let place = self.place(i, k);
        self.cells.set(place, n);
    }

    /// A plan of the same size that buys the same.
    #[tactic(auto, unfolding(crate::specs::Plan::plan_suppliers, crate::specs::Plan::plan_goods, crate::specs::Plan::units))]
    pub fn copy(&self, alloc: Global) -> Result<Plan, Memory>
        ensures suppliers { IfOk result (λ plan. plan_suppliers plan ≡ plan_suppliers self.now) }
        ensures goods { IfOk result (λ plan. plan_goods plan ≡ plan_goods self.now) }
        ensures same { IfOk result (λ plan. (i k : ℕ) → units plan i k ≡ units self.now i k) }
    {
        let cells = self.cells.copy(alloc)?;
        Ok(Plan {
            suppliers: self.suppliers,
            goods: self.goods,
            cells,
        })
    }

    #[tactic(auto, unfolding(crate::specs::Plan::plan_suppliers, crate::specs::Plan::plan_goods))]
    fn place(&self, i: usize, k: usize) -> usize
        requires supplier { i < plan_suppliers self.now }
        requires good { k < plan_goods self.now }
        ensures value { result ≡ i * self.now.goods + k }
        ensures in_range { result < length self.now.cells }
    {
        i * self.goods + k
    }
}
