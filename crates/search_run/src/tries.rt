//! Plans near a pick for each supplier.
ghost use Rattle.std.specs.Prelude.{◌≡◌, ◌<◌, ◌≤◌, IfOk, IfSome, Some, length};
ghost use Rattle.tqd_instance.specs.Job.{suppliers, segments};
ghost use Rattle.interval_box.specs.Ranges.{IsBoxOf};
ghost use Rattle.bound_tree.specs.Narrowed.{IsPartOf};
ghost use Rattle.search_run.specs.declared.thought.Stage.{Stage};
ghost use Rattle.search_run.specs.Minds.{IsMindOf};
ghost use Rattle.search_run.specs.Stages.{rank};
ghost use Rattle.search_run.specs.Thoughts.{IsOffer, IsThought};

use crate::flow::{offer_of, reaches};
use crate::mind::Mind;
use crate::thought::{Act, Offer, Stage, Thought};
use box_bound::{Bounded, bound_from};
use interval_box::IntervalBox;
use std::alloc::Global;
use tqd_base::Memory;
use tqd_instance::Job;

/// Tries a plan near the segments in which the weighted totals lie.
pub(crate) fn try_weighted(
    alloc: Global,
    job: &Job,
    mind: &mut Mind,
    best: Option<u128>,
    area: &IntervalBox,
) -> Result<Thought, Memory>
    requires of_job { IsBoxOf job.now area.now }
    requires mind { IsMindOf job.now mind.old }
    ensures thought { IfOk result (λ thought. (stage : Stage) → 0 < rank stage → IsThought job.now area.now stage thought) }
    ensures mind { IsMindOf job.now mind.new }
{
    mind.price(job, area);
    let mut picks = [0; 64];
    for i in 0..job.suppliers() {
        picks[i] = weighted_pick(job, mind, i).unwrap_or(1);
    }
    try_picks(alloc, job, mind, best, area, &picks)
}

/// Tries a plan near the segments of least worth.
pub(crate) fn try_least(
    alloc: Global,
    job: &Job,
    mind: &mut Mind,
    best: Option<u128>,
    area: &IntervalBox,
) -> Result<Thought, Memory>
    requires of_job { IsBoxOf job.now area.now }
    requires mind { IsMindOf job.now mind.old }
    ensures thought { IfOk result (λ thought. (stage : Stage) → 0 < rank stage → IsThought job.now area.now stage thought) }
    ensures mind { IsMindOf job.now mind.new }
{
    mind.price(job, area);
    let mut picks = [0; 64];
    for i in 0..job.suppliers() {
        picks[i] = mind.pricing.least(i);
    }
    try_picks(alloc, job, mind, best, area, &picks)
}

/// The segment in which a supplier's weighted total lies, rounded to whole units; none in a gap.
pub(crate) fn weighted_pick(job: &Job, mind: &Mind, i: usize) -> Option<u8>
    requires mind { IsMindOf job.now mind.now }
    requires supplier { i < suppliers job.now }
    ensures { IfSome result (λ j. j ≤ segments job.now i) }
{
    job.pick(i, mind.climber.rounded_total(job, i))
}

/// Looks for a plan in a single box near these picks.
fn try_picks(
    alloc: Global,
    job: &Job,
    mind: &mut Mind,
    best: Option<u128>,
    area: &IntervalBox,
    picks: &[u8],
) -> Result<Thought, Memory>
    requires of_job { IsBoxOf job.now area.now }
    requires picks { suppliers job.now ≤ length picks.now }
    requires mind { IsMindOf job.now mind.old }
    requires priced { mind.old.priced ≡ Some area.now }
    ensures thought { IfOk result (λ thought. (stage : Stage) → 0 < rank stage → IsThought job.now area.now stage thought) }
    ensures mind { IsMindOf job.now mind.new }
{
    let Some(near) = mind.near(job, area, picks) else {
        return Ok(Thought::of(Act::Stay));
    };
    let offer = plan_in(alloc, job, mind, area, &near)?;
    judged(alloc, job, mind, best, area, offer)
}

/// The thought of a try. Where the least cost known is no more than the value of the pricing's row, that row closes the
/// box.
fn judged(
    alloc: Global,
    job: &Job,
    mind: &Mind,
    best: Option<u128>,
    area: &IntervalBox,
    offer: Option<Offer>,
) -> Result<Thought, Memory>
    requires of_job { IsBoxOf job.now area.now }
    requires mind { IsMindOf job.now mind.now }
    requires priced { mind.now.priced ≡ Some area.now }
    requires offer { IfSome offer (IsOffer job.now) }
    ensures { IfOk result (λ thought. (stage : Stage) → 0 < rank stage → IsThought job.now area.now stage thought) }
{
    if !reaches(least_cost(best, &offer), mind.pricing.value()) {
        return Ok(Thought {
            offer,
            act: Act::Stay,
        });
    }
    let row = mind.pricing.row(alloc, job, area)?;
    Ok(Thought {
        offer,
        act: Act::Reach(row),
    })
}

/// A feasible plan in a part of the box that the pricing is of.
fn plan_in(
    alloc: Global,
    job: &Job,
    mind: &Mind,
    area: &IntervalBox,
    part: &IntervalBox,
) -> Result<Option<Offer>, Memory>
    requires of_job { IsBoxOf job.now area.now }
    requires mind { IsMindOf job.now mind.now }
    requires priced { mind.now.priced ≡ Some area.now }
    requires part_of_job { IsBoxOf job.now part.now }
    requires part { IsPartOf job.now part.now area.now }
    ensures { IfOk result (λ offer. IfSome offer (IsOffer job.now)) }
{
    let row = mind.pricing.row(alloc, job, area)?;
    let start = row.narrowed(alloc, job, area, part)?;
    match bound_from(alloc, job, part, &start)? {
        Bounded::Empty(_) => Ok(None),
        Bounded::Flow { plan, .. } => Ok(offer_of(job, plan)),
    }
}

/// The lesser of the cost that is known and of that of a plan.
fn least_cost(best: Option<u128>, offer: &Option<Offer>) -> Option<u128> {
    match (best, offer) {
        (Some(best), Some(offer)) => Some(best.min(offer.cost)),
        (None, Some(offer)) => Some(offer.cost),
        (best, None) => best,
    }
}
