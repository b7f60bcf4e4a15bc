ghost use Rattle.std.specs.Prelude.{ℕ, ◌≡◌, ◌*◌, ◌<◌, ◌≤◌, ◌-◌};
ghost use Rattle.tqd_base.specs.Sum.{sum_to};
ghost use Rattle.tqd_base.specs.declared.limits.TheConstants.{PRICE_MAX, QTY_MAX, GOODS_MAX};
ghost use Rattle.tqd_instance.specs.Job.{goods, suppliers, price, segments};
ghost use Rattle.tqd_instance.specs.Plan.{units, IsSizedFor};
ghost use Rattle.interval_box.specs.Ranges.{high_of, IsBoxOf};
ghost use Rattle.branching.specs.Totals.{KeepsTotals};
ghost use Rattle.branching.specs.Gap.{first_of, relaxed_price, gap};
ghost use Rattle.branching.specs.Chosen.{IsWide};

use interval_box::IntervalBox;
use tqd_instance::{Job, Plan};

/// The gap of a supplier whose range has more than one number, in millionths of the currency.
pub(crate) fn gap(job: &Job, area: &IntervalBox, plan: &Plan, i: usize) -> u128
    requires of_job { IsBoxOf job.now area.now }
    requires size { IsSizedFor job.now plan.now }
    requires wide { IsWide job.now area.now i }
    requires totals { KeepsTotals job.now area.now (units plan.now) }
    ensures { result ≡ gap job.now area.now (units plan.now) i }
{
    let total = job.total(plan, i);
    if total == 0 {
        return 0;
    }
    match job.pick(i, total) {
        Some(p) => gap_at(job, area, plan, i, p),
        None => gap_at(job, area, plan, i, 1),
    }
}

/// How much more a supplier's goods cost in a segment of the range than at the least prices of the range.
#[tactic(auto, using(tqd_instance::proofs::SumLemmas::sums))]
fn gap_at(job: &Job, area: &IntervalBox, plan: &Plan, i: usize, p: u8) -> u128
    requires of_job { IsBoxOf job.now area.now }
    requires size { IsSizedFor job.now plan.now }
    requires supplier { i < suppliers job.now }
    requires from_first { first_of area.now i ≤ p }
    requires to_last { p ≤ high_of area.now i }
    ensures { result ≡ sum_to (goods job.now)
        (λ k. units plan.now i k * price job.now i p k - units plan.now i k * relaxed_price job.now area.now i k) }
{
    let mut sum = 0;
    for k in 0..job.goods() {
        let more = job.price(i, p, k) - relaxed_price(job, area, i, k);
        sum += u128::from(plan.get(i, k)) * u128::from(more);
    }
    sum
}

/// The least price of a good over the segments of a supplier's range, but segment 0.
fn relaxed_price(job: &Job, area: &IntervalBox, i: usize, k: usize) -> u64
    requires of_job { IsBoxOf job.now area.now }
    requires supplier { i < suppliers job.now }
    requires some { 1 ≤ high_of area.now i }
    requires good { k < goods job.now }
    ensures value { result ≡ relaxed_price job.now area.now i k }
    ensures least { (j : ℕ) → first_of area.now i ≤ j → j ≤ high_of area.now i → result ≤ price job.now i j k }
    ensures within { result ≤ PRICE_MAX }
{
    let first = area.low_of(i).max(1);
    let mut least = job.price(i, first, k);
    for j in first + 1..area.high_of(i) + 1 {
        least = least.min(job.price(i, j, k));
    }
    least
}
