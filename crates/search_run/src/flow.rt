//! What the bound of a box says.
ghost use Rattle.std.specs.Prelude.{ℕ, ◌≡◌, IsTrue, ◌↔◌, IfOk, IfSome, IsSomeAnd};
ghost use Rattle.tqd_instance.specs.Plan.{units, IsSizedFor};
ghost use Rattle.tqd_instance.specs.Standing.{Costs};
ghost use Rattle.interval_box.specs.Ranges.{IsBoxOf};
ghost use Rattle.interval_box.specs.Winners.{WinnersFail};
ghost use Rattle.search_run.specs.Thoughts.{IsBoundThought, IsFlowOf, IsOffer, Reaches};

use crate::thought::{Act, Offer, Thought};
use bound_tree::{Leaf, Row};
use box_bound::{Bounded, bound};
use interval_box::IntervalBox;
use std::alloc::Global;
use tqd_base::Memory;
use tqd_instance::{Job, Plan, Standing};

/// Bounds a box. One that leaves no choice is killed or solved; of another one the plan is offered where it is feasible.
pub(crate) fn bounded(alloc: Global, job: &Job, area: &IntervalBox) -> Result<Thought, Memory>
    requires of_job { IsBoxOf job.now area.now }
    ensures { IfOk result (IsBoundThought job.now area.now) }
{
    if area.winners_fail(job) {
        return Ok(Thought::of(Act::Kill(Leaf::Winners)));
    }
    Ok(match bound(alloc, job, area)? {
        Bounded::Empty(row) => Thought::of(Act::Kill(Leaf::Empty(row))),
        Bounded::Flow { plan, row, .. } => flow_thought(job, area, plan, row),
    })
}

/// Judges the plan and the row of a box's bound.
fn flow_thought(job: &Job, area: &IntervalBox, plan: Plan, row: Row) -> Thought
    requires of_job { IsBoxOf job.now area.now }
    requires winners { WinnersFail job.now area.now → ⊥ }
    requires flow { IsFlowOf job.now area.now plan row }
    ensures { IsBoundThought job.now area.now result }
{
    let value = row.value(job, area);
    let Some(offer) = offer_of(job, plan) else {
        return Thought::of(Act::Stay);
    };
    if reaches(Some(offer.cost), value) {
        return Thought {
            offer: Some(offer),
            act: Act::Solve(row),
        };
    }
    Thought {
        offer: Some(offer),
        act: Act::Stay,
    }
}

/// A plan with its cost, where it is feasible.
pub(crate) fn offer_of(job: &Job, plan: Plan) -> Option<Offer>
    requires { IsSizedFor job.now plan }
    ensures some { IfSome result (IsOffer job.now) }
    ensures none { (amount : ℕ) → Costs job.now (units plan) amount → IsSomeAnd result (λ offer. offer.cost ≡ amount) }
{
    match job.standing(&plan) {
        Standing::Feasible(cost) => Some(Offer { plan, cost }),
        _ => None,
    }
}

/// Whether a plan is known whose cost a value reaches.
pub(crate) fn reaches(best: Option<u128>, value: i128) -> bool
    ensures { IsTrue result ↔ Reaches best value }
{
    match best {
        Some(cost) => 0 <= value && cost <= value as u128,
        None => false,
    }
}
