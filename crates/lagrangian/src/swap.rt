ghost use Rattle.std.specs.Prelude.{◌<◌, ◌≤◌, length, IfSome};
ghost use Rattle.tqd_base.specs.declared.limits.TheConstants.{INTERVALS_MAX};
ghost use Rattle.tqd_instance.specs.declared.job.Job.{Job};
ghost use Rattle.tqd_instance.specs.Job.{suppliers, segments};
ghost use Rattle.interval_box.specs.declared.boxes.IntervalBox.{IntervalBox};
ghost use Rattle.interval_box.specs.Ranges.{Admits, IsBoxOf};
ghost use Rattle.lagrangian.specs.Pricing.{IsMadeFor};
ghost use Rattle.lagrangian.specs.Repair.{ArePicks};
ghost use Rattle.lagrangian.specs.Limits.{AreLimits};
ghost use Rattle.lagrangian.specs.Swaps.{IsSwap};

use crate::lack::Lack;
use crate::pricing::Pricing;
use crate::totals::{Limits, high_at, low_at};
use interval_box::IntervalBox;
use tqd_instance::Job;

/// Another pick of a supplier: what it is worth beyond the present one, in millionths, and by how much it helps.
#[derive(Clone, Copy, Debug)]
pub(crate) struct Swap {
    pub(crate) supplier: usize,
    pub(crate) segment: u8,
    cost: u128,
    gain: u64,
}

impl Swap {
    /// Whether it costs less for as much help.
    fn is_cheaper(&self, other: &Swap) -> bool {
        let cost = self.cost.saturating_mul(u128::from(other.gain));
        cost < other.cost.saturating_mul(u128::from(self.gain))
    }

    /// The one of two that costs less for as much help, the earlier of equals. One that does not help is none.
    fn or_best(self, best: Option<Swap>) -> Option<Swap>
        ensures { (job : Job) → (area : IntervalBox) → IsSwap job area self → IfSome best (IsSwap job area)
            → IfSome result (IsSwap job area) }
    {
        if self.gain == 0 {
            return best;
        }
        match best {
            None => Some(self),
            Some(earlier) => Some(if self.is_cheaper(&earlier) {
                self
            } else {
                earlier
            }),
        }
    }
}

/// By how much it helps to change the pick of a supplier to segment j.
fn gain(job: &Job, limits: &Limits, lack: Lack, i: usize, pick: u8, j: u8) -> u64
    requires supplier { i < suppliers job.now }
    requires limits { AreLimits job.now limits.now }
    requires pick { pick ≤ segments job.now i }
    requires segment { j ≤ segments job.now i }
{
    if j == pick {
        return 0;
    }
    match lack {
        Lack::TooMany(excess) => {
            low_at(job, i, pick)
                .saturating_sub(low_at(job, i, j))
                .min(excess)
        }
        Lack::TooFew { full: true, .. } if pick == 0 => 0,
        Lack::TooFew { want, .. } => {
            let now = high_at(job, i, pick).min(limits.caps[i]);
            let then = high_at(job, i, j).min(limits.caps[i]);
            then.saturating_sub(now).min(want)
        }
        Lack::ManyWinners => u64::from(j == 0),
        Lack::FewWinners => u64::from(pick == 0),
    }
}

/// What segment j of a supplier is worth beyond its pick, or 0.
fn cost(pricing: &Pricing, i: usize, pick: u8, j: u8) -> u128
    requires supplier { i < length pricing.now.suppliers }
    requires pick { pick ≤ INTERVALS_MAX }
    requires segment { j ≤ INTERVALS_MAX }
{
    (pricing.worth(i, j) - pricing.worth(i, pick)).max(0) as u128
}

/// The best change of a supplier's pick, or an earlier one that is as good.
fn best_of(
    job: &Job,
    area: &IntervalBox,
    limits: &Limits,
    pricing: &Pricing,
    lack: Lack,
    i: usize,
    pick: u8,
    earlier: Option<Swap>,
) -> Option<Swap>
    requires of_job { IsBoxOf job.now area.now }
    requires limits { AreLimits job.now limits.now }
    requires made { IsMadeFor job.now pricing.now }
    requires supplier { i < suppliers job.now }
    requires pick { Admits area.now i pick }
    requires earlier { IfSome earlier (IsSwap job.now area.now) }
    ensures { IfSome result (IsSwap job.now area.now) }
{
    let mut best = earlier;
    for j in area.low_of(i)..area.high_of(i) + 1 {
        let swap = Swap {
            supplier: i,
            segment: j,
            cost: cost(pricing, i, pick, j),
            gain: gain(job, limits, lack, i, pick, j),
        };
        best = swap.or_best(best);
    }
    best
}

/// The change of one pick that costs the least for what it helps, the first of equals, or none where none helps.
pub(crate) fn best_swap(
    job: &Job,
    area: &IntervalBox,
    limits: &Limits,
    pricing: &Pricing,
    picks: &[u8],
    lack: Lack,
) -> Option<Swap>
    requires of_job { IsBoxOf job.now area.now }
    requires limits { AreLimits job.now limits.now }
    requires made { IsMadeFor job.now pricing.now }
    requires picks { ArePicks job.now area.now picks.now }
    ensures { IfSome result (IsSwap job.now area.now) }
{
    let mut best = None;
    for i in 0..job.suppliers() {
        best = best_of(job, area, limits, pricing, lack, i, picks[i], best);
    }
    best
}
