ghost use Rattle.std.specs.Prelude.{◌≡◌, ◌+◌, ◌*◌, ◌<◌, ◌≤◌, ℕ, MatchOption};
ghost use Rattle.tqd_base.specs.Sum.{sum_to};
ghost use Rattle.tqd_instance.specs.Job.{goods, suppliers, stock, price, segments};
ghost use Rattle.tqd_instance.specs.Plan.{units, IsSizedFor};
ghost use Rattle.tqd_instance.specs.Purchase.{total, bought, winners};
ghost use Rattle.tqd_instance.specs.Feasible.{MeetsNeeds, MeetsStock, MeetsStocks, HasPicks};
ghost use Rattle.tqd_instance.specs.Cost.{goods_cost, fee_cost, cost};
ghost use Rattle.tqd_instance.specs.Standing.{FailsNeed, FailsStock, FailsPick, Stands};
ghost use Rattle.tqd_instance.specs.Over.{IsFirstOver};

use crate::job::Job;
use crate::plan::Plan;
use tqd_base::limits::{GOODS_MAX, PRICE_MAX, QTY_MAX, SUPPLIERS_MAX};

/// How a plan stands against a job: feasible with its cost in millionths of the currency, or the first test that it fails.
#[derive(Clone, Copy, Debug, PartialEq, Eq)]
pub enum Standing {
    /// The plan is feasible and costs so much.
    Feasible(u128),
    /// The first good whose units bought are below its need or above its most.
    Need { good: u32, sum: u64 },
    /// The first supplier, and its first good, from which more is bought than the stock.
    Stock { supplier: u32, good: u32 },
    /// The first supplier whose total lies in no segment.
    Gap { supplier: u32, total: u64 },
    /// The number of suppliers bought from, outside the winner limits.
    Winners(u64),
}

impl Job {
    /// How a plan of the job's size stands: the first test of feasibility that it fails, or its cost.
    /// The tests are those of the needs, the stocks, the totals and the winner limits, in this order.
    pub fn standing(&self, plan: &Plan) -> Standing
        requires { IsSizedFor self.now plan.now }
        ensures { Stands self.now (units plan.now) result }
    {
        if let Some((good, sum)) = self.failing_need(plan) {
            return Standing::Need { good, sum };
        }
        if let Some((supplier, good)) = self.failing_stock(plan) {
            return Standing::Stock { supplier, good };
        }
        if let Some((supplier, total)) = self.failing_pick(plan) {
            return Standing::Gap { supplier, total };
        }
        let number = self.winners_in(plan);
        let (least, most) = self.winners();
        if number < least || most < number {
            return Standing::Winners(number);
        }
        Standing::Feasible(self.cost(plan))
    }

    /// The units that a plan buys from a supplier, over all goods.
    #[tactic(auto, using(crate::proofs::SumLemmas::sums), unfolding(crate::specs::Purchase::total))]
    pub fn total(&self, plan: &Plan, i: usize) -> u64
        requires size { IsSizedFor self.now plan.now }
        requires supplier { i < suppliers self.now }
        ensures value { result ≡ total self.now (units plan.now) i }
        ensures within { result ≤ GOODS_MAX * QTY_MAX }
    {
        let mut sum = 0;
        for k in 0..self.goods() {
            sum += plan.get(i, k);
        }
        sum
    }

    /// The units that a plan buys of a good, over all suppliers.
    #[tactic(auto, using(crate::proofs::SumLemmas::sums), unfolding(crate::specs::Purchase::bought))]
    pub fn bought(&self, plan: &Plan, k: usize) -> u64
        requires size { IsSizedFor self.now plan.now }
        requires good { k < goods self.now }
        ensures value { result ≡ bought self.now (units plan.now) k }
        ensures within { result ≤ SUPPLIERS_MAX * QTY_MAX }
    {
        let mut sum = 0;
        for i in 0..self.suppliers() {
            sum += plan.get(i, k);
        }
        sum
    }

    fn failing_need(&self, plan: &Plan) -> Option<(u32, u64)>
        requires { IsSizedFor self.now plan.now }
        ensures { MatchOption result
            (MeetsNeeds self.now (units plan.now))
            (λ found. FailsNeed self.now (units plan.now) found.0 found.1) }
    {
        for k in 0..self.goods() {
            let sum = self.bought(plan, k);
            if sum < self.need(k) || self.most(k) < sum {
                return Some((k as u32, sum));
            }
        }
        None
    }

    fn failing_stock(&self, plan: &Plan) -> Option<(u32, u32)>
        requires size { IsSizedFor self.now plan.now }
        requires needs { MeetsNeeds self.now (units plan.now) }
        ensures { MatchOption result
            (MeetsStocks self.now (units plan.now))
            (λ found. FailsStock self.now (units plan.now) found.0 found.1) }
    {
        for i in 0..self.suppliers() {
            if let Some(k) = self.failing_stock_of(plan, i) {
                return Some((i as u32, k));
            }
        }
        None
    }

    fn failing_stock_of(&self, plan: &Plan, i: usize) -> Option<u32>
        requires size { IsSizedFor self.now plan.now }
        requires supplier { i < suppliers self.now }
        ensures { MatchOption result
            ((k : ℕ) → k < goods self.now → MeetsStock self.now (units plan.now) i k)
            (λ good. IsFirstOver self.now (units plan.now) i good) }
    {
        for k in 0..self.goods() {
            if self.stock(i, k) < plan.get(i, k) {
                return Some(k as u32);
            }
        }
        None
    }

    fn failing_pick(&self, plan: &Plan) -> Option<(u32, u64)>
        requires size { IsSizedFor self.now plan.now }
        requires needs { MeetsNeeds self.now (units plan.now) }
        requires stocks { MeetsStocks self.now (units plan.now) }
        ensures { MatchOption result
            (HasPicks self.now (units plan.now))
            (λ found. FailsPick self.now (units plan.now) found.0 found.1) }
    {
        for i in 0..self.suppliers() {
            let total = self.total(plan, i);
            if self.pick(i, total).is_none() {
                return Some((i as u32, total));
            }
        }
        None
    }

    #[tactic(auto, using(crate::proofs::SumLemmas::sums), unfolding(crate::specs::Purchase::winners, crate::specs::Purchase::wins))]
    fn winners_in(&self, plan: &Plan) -> u64
        requires { IsSizedFor self.now plan.now }
        ensures { result ≡ winners self.now (units plan.now) }
    {
        let mut number = 0;
        for i in 0..self.suppliers() {
            if self.total(plan, i) != 0 {
                number += 1;
            }
        }
        number
    }

    #[tactic(auto, using(crate::proofs::SumLemmas::sums), unfolding(crate::specs::Cost::cost))]
    fn cost(&self, plan: &Plan) -> u128
        requires { IsSizedFor self.now plan.now }
        ensures { result ≡ cost self.now (units plan.now) }
    {
        let mut sum = 0;
        for i in 0..self.suppliers() {
            sum += self.supplier_cost(plan, i);
        }
        sum
    }

    #[tactic(auto, unfolding(crate::specs::Cost::goods_cost, crate::specs::Cost::fee_cost, crate::specs::Cost::selected))]
    fn supplier_cost(&self, plan: &Plan, i: usize) -> u128
        requires size { IsSizedFor self.now plan.now }
        requires supplier { i < suppliers self.now }
        ensures value { result
            ≡ goods_cost self.now (units plan.now) i + fee_cost self.now (units plan.now) i }
        ensures within { result ≤ (GOODS_MAX * QTY_MAX + 1) * PRICE_MAX }
    {
        let total = self.total(plan, i);
        let goods_cost = match self.pick(i, total) {
            Some(j) => self.goods_cost(plan, i, j),
            None => self.goods_cost(plan, i, 0),
        };
        let fee = if total == 0 { 0 } else { self.fee(i) };
        goods_cost + u128::from(fee)
    }

    #[tactic(auto, using(crate::proofs::SumLemmas::sums))]
    fn goods_cost(&self, plan: &Plan, i: usize, j: u8) -> u128
        requires size { IsSizedFor self.now plan.now }
        requires supplier { i < suppliers self.now }
        requires segment { j ≤ segments self.now i }
        ensures value { result
            ≡ sum_to (goods self.now) (λ k. units plan.now i k * price self.now i j k) }
        ensures within { result ≤ GOODS_MAX * (QTY_MAX * PRICE_MAX) }
    {
        let mut sum = 0;
        for k in 0..self.goods() {
            sum += u128::from(plan.get(i, k)) * u128::from(self.price_in(i, j, k));
        }
        sum
    }
}
