ghost use Rattle.std.specs.Prelude.{ℕ, ℤ, pos, ◌≡◌, ◌+◌, ◌<◌, ◌≤◌, ◌-ℤ◌, length, take};
ghost use Rattle.std.specs.List.{sum_by};
ghost use Rattle.tqd_base.specs.declared.limits.TheConstants.{PRICE_MAX, QTY_MAX};
ghost use Rattle.tqd_instance.specs.Job.{goods, suppliers, segments};
ghost use Rattle.bound_tree.specs.Value.{cap};
ghost use Rattle.lagrangian.specs.declared.offer.TheConstants.{ZERO, TOP};
ghost use Rattle.lagrangian.specs.Levels.{AreOffersOf};
ghost use Rattle.lagrangian.specs.Priced.{IsGoodPrice, AreGoodPrices, level_of};

use crate::offer::{Offer, ZERO};
use tqd_instance::Job;

/// The level of a unit with such a price, of a good with such a price.
pub(crate) fn level_of(price: u64, good_price: i64) -> u64
    requires price { price ≤ PRICE_MAX }
    requires good_price { IsGoodPrice good_price }
    ensures value { pos result ≡ pos (ZERO + price) -ℤ good_price }
    ensures below_top { result < TOP }
{
    ((ZERO + price) as i64 - good_price) as u64
}

/// The most units of a good that a feasible purchase takes from a supplier.
#[tactic(auto, unfolding(bound_tree::specs::Value::cap))]
pub(crate) fn cap_of(job: &Job, i: usize, k: usize) -> u64
    requires supplier { i < suppliers job.now }
    requires good { k < goods job.now }
    ensures value { result ≡ cap job.now i k }
    ensures within { result ≤ QTY_MAX }
{
    job.stock(i, k).min(job.most(k))
}

/// Puts an offer after the first `count`, and answers how many there are then: one of no units is not counted. It is put
/// there all the same, so that no branch has to be guessed.
fn put(offers: &mut [Offer], count: usize, offer: Offer) -> usize
    requires { count < length offers.old }
    ensures len { length offers.new ≡ length offers.old }
    ensures next { result ≤ count + 1 }
    ensures added { (f : ℕ → ℕ → ℕ) → ((l : ℕ) → f l 0 ≡ 0)
        → sum_by (λ o. f o.level o.cap) (take result offers.new)
        ≡ sum_by (λ o. f o.level o.cap) (take count offers.old) + f offer.level offer.cap }
{
    let more = if offer.cap == 0 { 0 } else { 1 };
    offers[count] = offer;
    count + more
}

/// Puts what a supplier offers of the goods in a segment at the front of a list, and answers how many offers these are.
pub(crate) fn gather(offers: &mut [Offer], job: &Job, good_prices: &[i64], i: usize, j: u8) -> usize
    requires room { length offers.old ≡ goods job.now }
    requires prices { AreGoodPrices job.now good_prices.now }
    requires supplier { i < suppliers job.now }
    requires some { 1 ≤ j }
    requires segment { j ≤ segments job.now i }
    ensures len { length offers.new ≡ length offers.old }
    ensures few { result ≤ goods job.now }
    ensures gathered { AreOffersOf (goods job.now) (level_of job.now good_prices.now i j) (cap job.now i)
        (take result offers.new) }
{
    let prices = job.prices(i, j);
    let mut count = 0;
    for k in 0..job.goods() {
        let level = level_of(prices[k], good_prices[k]);
        let cap = cap_of(job, i, k);
        count = put(offers, count, Offer { level, cap });
    }
    count
}
