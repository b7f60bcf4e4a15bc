ghost use Rattle.std.specs.Prelude.{◌≡◌, ◌<◌, ◌≤◌, ◌↔◌, IsTrue};
ghost use Rattle.std.specs.List.{All};
ghost use Rattle.tqd_base.specs.declared.limits.TheConstants.{SUPPLIERS_MAX};
ghost use Rattle.tqd_instance.specs.Job.{suppliers};
ghost use Rattle.interval_box.specs.Ranges.{low_of, high_of, IsBoxOf};
ghost use Rattle.bound_tree.specs.Prices.{count_of, places_to, IsPrice, AreFitting};

use interval_box::IntervalBox;
use tqd_base::limits::DUAL_MAX;
use tqd_instance::Job;

/// How many segments of a supplier's range something is bought in, at most 16.
#[tactic(auto, unfolding(crate::specs::Prices::first_of, crate::specs::Prices::count_of))]
pub fn count_of(area: &IntervalBox, i: usize) -> usize
    requires supplier { i < SUPPLIERS_MAX }
    requires ordered { low_of area.now i ≤ high_of area.now i }
    ensures { result ≡ count_of area.now i }
{
    usize::from(area.high_of(i)) + 1 - usize::from(area.low_of(i).max(1))
}

/// How many places a box has, which are the segments, but segment 0, of all ranges: at most 1,024.
#[tactic(auto, using(crate::proofs::BoxPlaces::places, crate::proofs::BoxPlaces::count_few))]
pub fn place_count(job: &Job, area: &IntervalBox) -> usize
    requires { IsBoxOf job.now area.now }
    ensures value { result ≡ places_to area.now (suppliers job.now) }
    ensures few { result ≤ 1024 }
{
    let mut sum = 0;
    for i in 0..job.suppliers() {
        sum += count_of(area, i);
    }
    sum
}

/// Whether prices in one list, those of the goods first, are a row that fits a box, for callers that do not know it:
/// there is one for each good and each place, and each is in range.
pub fn prices_fit(job: &Job, area: &IntervalBox, prices: &[i64]) -> bool
    requires { IsBoxOf job.now area.now }
    ensures { IsTrue result ↔ AreFitting job.now area.now prices.now }
{
    prices.len() == job.goods() + place_count(job, area) && are_prices(prices)
}

fn are_prices(prices: &[i64]) -> bool
    ensures { IsTrue result ↔ All IsPrice prices.now }
{
    for price in prices {
        if !is_price(*price) {
            return false;
        }
    }
    true
}

fn is_price(price: i64) -> bool
    ensures { IsTrue result ↔ IsPrice price }
{
    -DUAL_MAX <= price && price <= DUAL_MAX
}
