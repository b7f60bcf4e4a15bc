ghost use Rattle.std.specs.Prelude.{◌≡◌, ℕ, ◌<◌, ◌≤◌, min, length, slice_index};
ghost use Rattle.tqd_base.specs.declared.limits.TheConstants.{QTY_MAX};
ghost use Rattle.tqd_instance.specs.Job.{goods, suppliers};
ghost use Rattle.interval_box.specs.Ranges.{IsRangeOf};
ghost use Rattle.box_bound.specs.Relaxed.{least_total, greatest_total, least_price};

use interval_box::IntervalBox;
use tqd_instance::Job;

/// The least total in the first segment of a supplier's range, in units.
#[tactic(auto, unfolding(crate::specs::Relaxed::least_total))]
pub(crate) fn least_total(job: &Job, area: &IntervalBox, i: usize) -> u64
    requires supplier { i < suppliers job.now }
    requires range { IsRangeOf job.now area.now i }
    ensures value { result ≡ least_total job.now area.now i }
    ensures ordered { result ≤ greatest_total job.now area.now i }
{
    match area.low_of(i) {
        0 => 0,
        first => job.low(i, first),
    }
}

/// The greatest total in the last segment of a supplier's range, in units.
#[tactic(auto, unfolding(crate::specs::Relaxed::greatest_total))]
pub(crate) fn greatest_total(job: &Job, area: &IntervalBox, i: usize) -> u64
    requires supplier { i < suppliers job.now }
    requires range { IsRangeOf job.now area.now i }
    ensures value { result ≡ greatest_total job.now area.now i }
    ensures within { result ≤ QTY_MAX }
{
    match area.high_of(i) {
        0 => 0,
        last => job.high(i, last),
    }
}

/// Makes each number of a list the lesser of it and of a price.
fn lower(least: &mut [u64], prices: &[u64])
    requires { length prices.now ≡ length least.old }
    ensures len { length least.new ≡ length least.old }
    ensures each { (k : ℕ) → k < length least.old
        → slice_index least.new k ≡ min (slice_index least.old k) (slice_index prices.now k) }
{
    for k in 0..least.len() {
        least[k] = least[k].min(prices[k]);
    }
}

/// Makes a list the least price of each good in a supplier's range, in millionths of the currency, in one pass over the
/// prices of the range.
pub(crate) fn find_least_prices(least: &mut [u64], job: &Job, area: &IntervalBox, i: usize)
    requires goods { length least.old ≡ goods job.now }
    requires supplier { i < suppliers job.now }
    requires range { IsRangeOf job.now area.now i }
    ensures len { length least.new ≡ goods job.now }
    ensures each { (k : ℕ) → k < goods job.now → slice_index least.new k ≡ least_price job.now area.now i k }
{
    let high = area.high_of(i);
    if high == 0 {
        least.fill(0);
        return;
    }
    let first = area.low_of(i).max(1);
    least.copy_from_slice(job.prices(i, first));
    for j in first + 1..high + 1 {
        lower(least, job.prices(i, j));
    }
}
