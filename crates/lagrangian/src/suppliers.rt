ghost use Rattle.std.specs.Prelude.{ℕ, ◌≡◌, ◌+◌, ◌*◌, ◌^◌, ◌<◌, ◌≤◌, ◌++◌, ◌≤ℤ◌, neg_ℤ, pos, length, take, drop, slice_index_or, IfOk};
ghost use Rattle.std.specs.List.{All};
ghost use Rattle.tqd_base.specs.Sum.{signed_sum_to};
ghost use Rattle.tqd_instance.specs.Job.{goods, suppliers};
ghost use Rattle.interval_box.specs.Ranges.{low_of, high_of, IsBoxOf};
ghost use Rattle.bound_tree.specs.Prices.{first_of, count_of};
ghost use Rattle.bound_tree.specs.Value.{charges_of, supplier_value};
ghost use Rattle.lagrangian.specs.Priced.{AreGoodPrices, IsInRange, IsSupplierPriced, place_of};
ghost use Rattle.lagrangian.specs.PricingState.{no_prices};

use crate::offer::Offer;
use crate::supplier::SupplierPrices;
use interval_box::IntervalBox;
use tqd_base::Memory;
use tqd_instance::Job;

/// Prices all suppliers, and answers what their least segments are worth together.
pub(crate) fn price_suppliers(
    found: &mut [SupplierPrices],
    offers: &mut [Offer],
    job: &Job,
    area: &IntervalBox,
    good_prices: &[i64],
) -> i128
    requires of_job { IsBoxOf job.now area.now }
    requires room { length offers.old ≡ goods job.now }
    requires prices { AreGoodPrices job.now good_prices.now }
    requires count { length found.old ≡ suppliers job.now }
    requires in_range { All (IsInRange (goods job.now)) found.old }
    ensures room { length offers.new ≡ goods job.now }
    ensures count { length found.new ≡ suppliers job.now }
    ensures in_range { All (IsInRange (goods job.now)) found.new }
    ensures priced { (i : ℕ) → i < suppliers job.now
        → IsSupplierPriced job.now area.now good_prices.now i (slice_index_or found.new i no_prices) }
    ensures value { result ≡ signed_sum_to (suppliers job.now) (λ i. supplier_value (charges_of job.now) job.now
        area.now good_prices.now (place_of (slice_index_or found.new i no_prices)) i) }
    ensures not_less { neg_ℤ (pos (64 * 10 ^ 27)) ≤ℤ result }
    ensures not_more { result ≤ℤ pos (64 * 10 ^ 27) }
{
    let mut paid = 0;
    for i in 0..job.suppliers() {
        paid += found[i].price(offers, job, area, good_prices, i);
    }
    paid
}

/// Adds the prices of a supplier's places in a box.
#[tactic(auto, unfolding(bound_tree::specs::Prices::first_of, bound_tree::specs::Prices::count_of))]
pub(crate) fn push_places(
    places: &mut Vec<i64>,
    found: &SupplierPrices,
    area: &IntervalBox,
    i: usize,
) -> Result<(), Memory>
    requires supplier { i < 64 }
    requires ordered { low_of area.now i ≤ high_of area.now i }
    requires few { high_of area.now i ≤ 16 }
    ensures { IfOk result (λ _. places.new.items
        ≡ places.old.items ++ take (count_of area.now i) (drop (first_of area.now i) found.now.places)) }
{
    let first = usize::from(area.low_of(i).max(1));
    places.extend_from_slice(&found.places[first..usize::from(area.high_of(i)) + 1])?;
    Ok(())
}
