ghost use Rattle.std.specs.Prelude.{◌≡◌, ◌<◌, ◌≤◌, IsTrue, ◌↔◌};
ghost use Rattle.tqd_instance.specs.Job.{suppliers, segments, low, high};
ghost use Rattle.tqd_instance.specs.Plan.{units, IsSizedFor};
ghost use Rattle.interval_box.specs.Ranges.{IsBoxOf};
ghost use Rattle.branching.specs.Totals.{KeepsTotal, KeepsTotals};

use interval_box::IntervalBox;
use tqd_instance::{Job, Plan};

/// Whether a plan keeps the bounds of a box on totals, for callers that do not know it.
pub fn keeps_totals(job: &Job, area: &IntervalBox, plan: &Plan) -> bool
    requires of_job { IsBoxOf job.now area.now }
    requires size { IsSizedFor job.now plan.now }
    ensures { IsTrue result ↔ KeepsTotals job.now area.now (units plan.now) }
{
    for i in 0..job.suppliers() {
        if !keeps_total(job, area, plan, i) {
            return false;
        }
    }
    true
}

fn keeps_total(job: &Job, area: &IntervalBox, plan: &Plan, i: usize) -> bool
    requires of_job { IsBoxOf job.now area.now }
    requires size { IsSizedFor job.now plan.now }
    requires supplier { i < suppliers job.now }
    ensures { IsTrue result ↔ KeepsTotal job.now area.now (units plan.now) i }
{
    let total = job.total(plan, i);
    low(job, i, area.low_of(i)) <= total && total <= high(job, i, area.high_of(i))
}

/// The least total in a segment, and 0 in segment 0.
fn low(job: &Job, i: usize, j: u8) -> u64
    requires supplier { i < suppliers job.now }
    requires segment { j ≤ segments job.now i }
    ensures { result ≡ low job.now i j }
{
    if j == 0 { 0 } else { job.low(i, j) }
}

/// The greatest total in a segment, and 0 in segment 0.
fn high(job: &Job, i: usize, j: u8) -> u64
    requires supplier { i < suppliers job.now }
    requires segment { j ≤ segments job.now i }
    ensures { result ≡ high job.now i j }
{
    if j == 0 { 0 } else { job.high(i, j) }
}
