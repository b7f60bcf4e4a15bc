ghost use Rattle.std.specs.Prelude.{◌≡◌, ◌*◌, ◌^◌, ◌≤◌, ◌≤ℤ◌, neg_ℤ, pos};
ghost use Rattle.std.specs.Int.{int_max};
ghost use Rattle.bound_tree.specs.Value.{goods_value};
ghost use Rattle.lagrangian.specs.Priced.{IsGoodPrice, AreGoodPrices};

use tqd_instance::Job;

/// A price, or 0 where it is below 0.
fn above_zero(price: i64) -> u64
    requires { IsGoodPrice price }
    ensures value { pos result ≡ int_max price (pos 0) }
    ensures within { result ≤ 2 * 10 ^ 15 }
{
    price.max(0) as u64
}

/// The least that the prices of the goods come to, between their needs and what may be bought of them.
pub(crate) fn goods_value(job: &Job, good_prices: &[i64]) -> i128
    requires { AreGoodPrices job.now good_prices.now }
    ensures value { result ≡ goods_value job.now good_prices.now }
    ensures not_less { neg_ℤ (pos (128 * 10 ^ 26)) ≤ℤ result }
    ensures not_more { result ≤ℤ pos (128 * 10 ^ 26) }
{
    let mut paid: u128 = 0;
    let mut saved: u128 = 0;
    for k in 0..job.goods() {
        let price = good_prices[k];
        paid += u128::from(above_zero(price)) * u128::from(job.need(k));
        saved += u128::from(above_zero(-price)) * u128::from(job.most(k));
    }
    paid as i128 - saved as i128
}
