ghost use Rattle.std.specs.Prelude.{◌≡◌, ◌+◌, ◌-◌, ◌*◌, ◌^◌, ◌<◌, ◌≤◌, ◌≤ℤ◌, ◌-ℤ◌, neg_ℤ, pos, length};
ghost use Rattle.std.specs.List.{All};
ghost use Rattle.std.specs.Int.{int_min};
ghost use Rattle.tqd_base.specs.declared.limits.TheConstants.{PRICE_MAX, QTY_MAX, SUPPLIERS_MAX};
ghost use Rattle.tqd_instance.specs.Job.{goods, suppliers, segments};
ghost use Rattle.interval_box.specs.Ranges.{IsBoxOf, IsRangeOf};
ghost use Rattle.tqd_base.specs.Sum.{signed_sum_to};
ghost use Rattle.bound_tree.specs.Prices.{first_of, count_of, price_at, segment_price, IsPrice, Fits, row_of};
ghost use Rattle.bound_tree.specs.Value.{
  cap,
  least_times,
  least_gain,
  segment_value,
  supplier_value,
  goods_value,
  value_by,
  value,
  free_value,
};
ghost use Rattle.bound_tree.specs.Asked.{asked_of, charges_by};

use crate::places::count_of;
use interval_box::IntervalBox;
use tqd_instance::Job;

/// Whether the prices and fees of the job are asked, as in a value, or nothing, as in a free value.
#[derive(Clone, Copy)]
pub enum Asked {
    All,
    Nothing,
}

impl Asked {
    /// The amount, or 0.
    fn of(self, amount: u64) -> u64
        ensures value { result ≡ asked_of self amount }
        ensures within { result ≤ amount }
    {
        match self {
            Asked::All => amount,
            Asked::Nothing => 0,
        }
    }
}

/// The least of a price times a number of units from `low` to `high`.
#[tactic(auto, unfolding(crate::specs::Value::least_times))]
pub fn least_times(price: i64, low: u64, high: u64) -> i128
    requires price { IsPrice price }
    requires low { low ≤ SUPPLIERS_MAX * QTY_MAX }
    requires high { high ≤ SUPPLIERS_MAX * QTY_MAX }
    ensures value { result ≡ least_times price low high }
    ensures not_less { neg_ℤ (pos (256 * 10 ^ 23)) ≤ℤ result }
    ensures not_more { result ≤ℤ pos (256 * 10 ^ 23) }
{
    let units = if price < 0 { high } else { low };
    i128::from(price) * i128::from(units)
}

/// How much less is asked for a unit than its prices, or 0.
pub fn saving(good: i64, place: i64, charge: u64) -> u64
    requires good { IsPrice good }
    requires place { IsPrice place }
    requires charge { charge ≤ PRICE_MAX }
    ensures value { neg_ℤ (pos result) ≡ int_min (pos 0) (pos charge -ℤ good -ℤ place) }
    ensures within { result ≤ 8 * 10 ^ 15 }
{
    (good + place - charge as i64).max(0) as u64
}

/// The savings of all units that may be bought from a supplier in a segment.
fn savings(job: &Job, good_prices: &[i64], asked: Asked, place: i64, i: usize, j: u8) -> u128
    requires goods { length good_prices.now ≡ goods job.now }
    requires goods_in_range { All IsPrice good_prices.now }
    requires place { IsPrice place }
    requires supplier { i < suppliers job.now }
    requires some { 1 ≤ j }
    requires segment { j ≤ segments job.now i }
    ensures value { neg_ℤ (pos result) ≡ signed_sum_to (goods job.now)
        (λ k. least_gain (cap job.now i k) ((charges_by asked job.now).price i j k) (price_at good_prices.now k) place) }
    ensures within { result ≤ 8 * 10 ^ 26 }
{
    let prices = job.prices(i, j);
    let mut sum = 0;
    for k in 0..job.goods() {
        let units = job.stock(i, k).min(job.most(k));
        let charge = asked.of(prices[k]);
        sum += u128::from(units) * u128::from(saving(good_prices[k], place, charge));
    }
    sum
}

/// The least that buying from a supplier in a segment can cost beyond the prices of the goods. The price of the segment
/// is at place `at`, and segment 0 has none.
pub fn segment_value(
    job: &Job,
    good_prices: &[i64],
    place_prices: &[i64],
    asked: Asked,
    i: usize,
    j: u8,
    at: usize,
) -> i128
    requires goods { length good_prices.now ≡ goods job.now }
    requires goods_in_range { All IsPrice good_prices.now }
    requires places_in_range { All IsPrice place_prices.now }
    requires supplier { i < suppliers job.now }
    requires segment { j ≤ segments job.now i }
    requires place { 1 ≤ j → at < length place_prices.now }
    ensures value { result ≡ segment_value (charges_by asked job.now) job.now good_prices.now (price_at place_prices.now at) i j }
    ensures not_less { neg_ℤ (pos (10 ^ 27)) ≤ℤ result }
    ensures not_more { result ≤ℤ pos (10 ^ 27) }
{
    if j == 0 {
        return 0;
    }
    let place = place_prices[at];
    let savings = savings(job, good_prices, asked, place, i, j);
    let total = least_times(place, job.low(i, j), job.high(i, j));
    i128::from(asked.of(job.fee(i))) - savings as i128 + total
}

/// The least value of the segments in a supplier's range, whose prices are at the places from `at` on.
#[tactic(auto, unfolding(crate::specs::Prices::first_of, crate::specs::Prices::count_of))]
pub(crate) fn supplier_value(
    job: &Job,
    area: &IntervalBox,
    good_prices: &[i64],
    place_prices: &[i64],
    asked: Asked,
    i: usize,
    at: usize,
) -> i128
    requires goods { length good_prices.now ≡ goods job.now }
    requires goods_in_range { All IsPrice good_prices.now }
    requires places_in_range { All IsPrice place_prices.now }
    requires supplier { i < suppliers job.now }
    requires range { IsRangeOf job.now area.now i }
    requires place { at + count_of area.now i ≤ length place_prices.now }
    ensures value { result ≡ supplier_value (charges_by asked job.now) job.now area.now good_prices.now
        (λ j. price_at place_prices.now (at + (j - first_of area.now i))) i }
    ensures not_less { neg_ℤ (pos (10 ^ 27)) ≤ℤ result }
    ensures not_more { result ≤ℤ pos (10 ^ 27) }
{
    let (low, high) = (area.low_of(i), area.high_of(i));
    let first = low.max(1);
    let mut least = segment_value(job, good_prices, place_prices, asked, i, low, at);
    for j in low + 1..high + 1 {
        let place = at + usize::from(j - first);
        let value = segment_value(job, good_prices, place_prices, asked, i, j, place);
        least = least.min(value);
    }
    least
}

#[tactic(auto, using(crate::proofs::SignedSums::signed_sums, crate::proofs::BoxPlaces::places))]
fn suppliers_value(
    job: &Job,
    area: &IntervalBox,
    good_prices: &[i64],
    place_prices: &[i64],
    asked: Asked,
) -> i128
    requires of_job { IsBoxOf job.now area.now }
    requires fits { Fits job.now area.now (record { goods = good_prices.now; places = place_prices.now }) }
    ensures value { result ≡ signed_sum_to (suppliers job.now) (λ i. supplier_value (charges_by asked job.now) job.now area.now
        good_prices.now (segment_price area.now (record { goods = good_prices.now; places = place_prices.now }) i) i) }
    ensures not_less { neg_ℤ (pos (64 * 10 ^ 27)) ≤ℤ result }
    ensures not_more { result ≤ℤ pos (64 * 10 ^ 27) }
{
    let mut sum = 0;
    let mut at = 0;
    for i in 0..job.suppliers() {
        sum += supplier_value(job, area, good_prices, place_prices, asked, i, at);
        at += count_of(area, i);
    }
    sum
}

#[tactic(auto, using(crate::proofs::SignedSums::signed_sums), unfolding(crate::specs::Value::goods_value, crate::specs::Prices::price_at))]
pub fn goods_value(job: &Job, good_prices: &[i64]) -> i128
    requires goods { length good_prices.now ≡ goods job.now }
    requires goods_in_range { All IsPrice good_prices.now }
    ensures value { result ≡ goods_value job.now good_prices.now }
    ensures not_less { neg_ℤ (pos (256 * 10 ^ 26)) ≤ℤ result }
    ensures not_more { result ≤ℤ pos (256 * 10 ^ 26) }
{
    let mut sum = 0;
    for k in 0..job.goods() {
        sum += least_times(good_prices[k], job.need(k), job.most(k));
    }
    sum
}

/// The value of a row in a box, with the charges that are asked, in one pass over the job's prices.
#[tactic(auto, unfolding(crate::specs::Value::value_by))]
pub(crate) fn value_by(
    job: &Job,
    area: &IntervalBox,
    good_prices: &[i64],
    place_prices: &[i64],
    asked: Asked,
) -> i128
    requires of_job { IsBoxOf job.now area.now }
    requires fits { Fits job.now area.now (record { goods = good_prices.now; places = place_prices.now }) }
    ensures value { result ≡ value_by (charges_by asked job.now) job.now area.now
        (record { goods = good_prices.now; places = place_prices.now }) }
    ensures not_less { neg_ℤ (pos (10 ^ 30)) ≤ℤ result }
    ensures not_more { result ≤ℤ pos (10 ^ 30) }
{
    goods_value(job, good_prices) + suppliers_value(job, area, good_prices, place_prices, asked)
}

/// The value of the row of these prices, in millionths of the currency and within 10^30 of 0: no feasible purchase in the
/// box costs less. The prices of the goods stand first, then those of the places of the box.
#[tactic(auto, unfolding(crate::specs::Prices::row_of))]
pub fn value_in(job: &Job, area: &IntervalBox, prices: &[i64]) -> i128
    requires of_job { IsBoxOf job.now area.now }
    requires fits { Fits job.now area.now (row_of job.now prices.now) }
    ensures value { result ≡ value job.now area.now (row_of job.now prices.now) }
    ensures not_less { neg_ℤ (pos (10 ^ 30)) ≤ℤ result }
    ensures not_more { result ≤ℤ pos (10 ^ 30) }
{
    let (good_prices, place_prices) = prices.split_at(job.goods());
    value_by(job, area, good_prices, place_prices, Asked::All)
}

/// The free value of that row, with every price and every fee of the job taken as 0: where it is above 0, no purchase in
/// the box is feasible.
#[tactic(auto, unfolding(crate::specs::Prices::row_of))]
pub fn value_free_in(job: &Job, area: &IntervalBox, prices: &[i64]) -> i128
    requires of_job { IsBoxOf job.now area.now }
    requires fits { Fits job.now area.now (row_of job.now prices.now) }
    ensures value { result ≡ free_value job.now area.now (row_of job.now prices.now) }
    ensures not_less { neg_ℤ (pos (10 ^ 30)) ≤ℤ result }
    ensures not_more { result ≤ℤ pos (10 ^ 30) }
{
    let (good_prices, place_prices) = prices.split_at(job.goods());
    value_by(job, area, good_prices, place_prices, Asked::Nothing)
}
