ghost use Rattle.std.specs.Prelude.{ℕ, ◌≡◌, ◌<◌, IsTrue, ◌↔◌};
ghost use Rattle.tqd_base.specs.declared.limits.TheConstants.{SUPPLIERS_MAX};
ghost use Rattle.tqd_instance.specs.Job.{suppliers, pick};
ghost use Rattle.tqd_instance.specs.Plan.{units, IsSizedFor};
ghost use Rattle.tqd_instance.specs.Purchase.{total};
ghost use Rattle.interval_box.specs.Ranges.{low_of, high_of, IsBoxOf, IsSingle};
ghost use Rattle.interval_box.specs.Halves.{IsProper};
ghost use Rattle.branching.specs.Totals.{KeepsTotals};
ghost use Rattle.branching.specs.Chosen.{number_by, HasGreatestGap, IsChosen, IsWide};

use crate::gap::gap;
use interval_box::IntervalBox;
use tqd_instance::{Job, Plan};

/// The split of a box that is not single, from a plan that keeps its bounds on totals: the number of a supplier, and a
/// number of its range below the last. It is the supplier with the greatest gap, the first of equals. The number is the
/// pick of its total, or the one before the pick where that is the last of the range, or 0 where the total has no pick.
pub fn choose(job: &Job, area: &IntervalBox, plan: &Plan) -> (usize, u8)
    requires of_job { IsBoxOf job.now area.now }
    requires size { IsSizedFor job.now plan.now }
    requires not_single { IsSingle job.now area.now → ⊥ }
    requires totals { KeepsTotals job.now area.now (units plan.now) }
    ensures by_rule { IsChosen job.now area.now (units plan.now) result.0 result.1 }
    ensures supplier { result.0 < suppliers job.now }
    ensures proper { IsProper area.now result.0 result.1 }
{
    let i = greatest_gap(job, area, plan);
    let total = job.total(plan, i);
    let s = match job.pick(i, total) {
        Some(p) => if area.high_of(i) <= p { p - 1 } else { p },
        None => 0,
    };
    (i, s)
}

/// The first of the suppliers with the greatest gap.
fn greatest_gap(job: &Job, area: &IntervalBox, plan: &Plan) -> usize
    requires of_job { IsBoxOf job.now area.now }
    requires size { IsSizedFor job.now plan.now }
    requires not_single { IsSingle job.now area.now → ⊥ }
    requires totals { KeepsTotals job.now area.now (units plan.now) }
    ensures { HasGreatestGap job.now area.now (units plan.now) result }
{
    let first = first_wide(job, area);
    let mut chosen = first;
    let mut greatest = gap(job, area, plan, first);
    for i in first + 1..job.suppliers() {
        if !is_wide(area, i) {
            continue;
        }
        let gap = gap(job, area, plan, i);
        if greatest < gap {
            chosen = i;
            greatest = gap;
        }
    }
    chosen
}

/// The first supplier whose range has more than one number.
fn first_wide(job: &Job, area: &IntervalBox) -> usize
    requires of_job { IsBoxOf job.now area.now }
    requires not_single { IsSingle job.now area.now → ⊥ }
    ensures wide { IsWide job.now area.now result }
    ensures first { (k : ℕ) → k < result → IsWide job.now area.now k → ⊥ }
{
    for i in 0..job.suppliers() {
        if is_wide(area, i) {
            return i;
        }
    }
    unreachable!()
}

fn is_wide(area: &IntervalBox, i: usize) -> bool
    requires { i < SUPPLIERS_MAX }
    ensures { IsTrue result ↔ (low_of area.now i < high_of area.now i) }
{
    area.low_of(i) < area.high_of(i)
}
