//! The values in a box of a row of the root, without a copy of the row.
ghost use Rattle.std.specs.Prelude.{◌≡◌, ◌^◌, ◌*◌, ◌≤ℤ◌, neg_ℤ, pos};
ghost use Rattle.interval_box.specs.Ranges.{IsBoxOf};
ghost use Rattle.tqd_base.specs.Sum.{signed_sum_to};
ghost use Rattle.tqd_instance.specs.Job.{suppliers};
ghost use Rattle.bound_tree.specs.Prices.{Fits, row_of, segment_price};
ghost use Rattle.bound_tree.specs.Root.{root_of};
ghost use Rattle.bound_tree.specs.OtherBox.{narrowed};
ghost use Rattle.bound_tree.specs.Value.{supplier_value, value_by, value, free_value};
ghost use Rattle.bound_tree.specs.Asked.{charges_by};

use crate::value::{Asked, goods_value, supplier_value};
use interval_box::IntervalBox;
use tqd_instance::Job;

/// The value in a box of a row of the root: that of the row narrowed to the box, in millionths of the currency and
/// within 10^30 of 0. The prices of the goods stand first, then those of all segments, but segment 0, of each supplier.
#[tactic(auto, unfolding(crate::specs::Prices::row_of))]
pub fn root_value_in(job: &Job, area: &IntervalBox, prices: &[i64]) -> i128
    requires of_job { IsBoxOf job.now area.now }
    requires fits { Fits job.now (root_of job.now) (row_of job.now prices.now) }
    ensures value { result ≡ value job.now area.now (narrowed job.now (root_of job.now) area.now (row_of job.now prices.now)) }
    ensures not_less { neg_ℤ (pos (10 ^ 30)) ≤ℤ result }
    ensures not_more { result ≤ℤ pos (10 ^ 30) }
{
    let (good_prices, place_prices) = prices.split_at(job.goods());
    root_value_by(job, area, good_prices, place_prices, Asked::All)
}

/// The free value of that row, with every price and every fee of the job taken as 0.
#[tactic(auto, unfolding(crate::specs::Prices::row_of))]
pub fn root_value_free_in(job: &Job, area: &IntervalBox, prices: &[i64]) -> i128
    requires of_job { IsBoxOf job.now area.now }
    requires fits { Fits job.now (root_of job.now) (row_of job.now prices.now) }
    ensures value { result ≡ free_value job.now area.now (narrowed job.now (root_of job.now) area.now (row_of job.now prices.now)) }
    ensures not_less { neg_ℤ (pos (10 ^ 30)) ≤ℤ result }
    ensures not_more { result ≤ℤ pos (10 ^ 30) }
{
    let (good_prices, place_prices) = prices.split_at(job.goods());
    root_value_by(job, area, good_prices, place_prices, Asked::Nothing)
}

#[tactic(auto, unfolding(crate::specs::Value::value_by))]
fn root_value_by(
    job: &Job,
    area: &IntervalBox,
    good_prices: &[i64],
    place_prices: &[i64],
    asked: Asked,
) -> i128
    requires of_job { IsBoxOf job.now area.now }
    requires fits { Fits job.now (root_of job.now) (record { goods = good_prices.now; places = place_prices.now }) }
    ensures value { result ≡ value_by (charges_by asked job.now) job.now area.now
        (narrowed job.now (root_of job.now) area.now (record { goods = good_prices.now; places = place_prices.now })) }
    ensures not_less { neg_ℤ (pos (10 ^ 30)) ≤ℤ result }
    ensures not_more { result ≤ℤ pos (10 ^ 30) }
{
    goods_value(job, good_prices)
        + root_suppliers_value(job, area, good_prices, place_prices, asked)
}

#[tactic(auto, using(crate::proofs::SignedSums::signed_sums))]
fn root_suppliers_value(
    job: &Job,
    area: &IntervalBox,
    good_prices: &[i64],
    place_prices: &[i64],
    asked: Asked,
) -> i128
    requires of_job { IsBoxOf job.now area.now }
    requires fits { Fits job.now (root_of job.now) (record { goods = good_prices.now; places = place_prices.now }) }
    ensures value { result ≡ signed_sum_to (suppliers job.now) (λ i. supplier_value (charges_by asked job.now) job.now area.now
        good_prices.now (segment_price (root_of job.now) (record { goods = good_prices.now; places = place_prices.now }) i) i) }
    ensures not_less { neg_ℤ (pos (64 * 10 ^ 27)) ≤ℤ result }
    ensures not_more { result ≤ℤ pos (64 * 10 ^ 27) }
{
    let mut sum = 0;
    let mut at = 0;
    for i in 0..job.suppliers() {
        let first = at + usize::from(area.low_of(i).max(1)) - 1;
        sum += supplier_value(job, area, good_prices, place_prices, asked, i, first);
        at += usize::from(job.segments(i));
    }
    sum
}
