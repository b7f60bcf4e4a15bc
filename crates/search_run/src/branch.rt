//! The split of a box.
ghost use Rattle.std.specs.Prelude.{◌≡◌, IfOk, IsTrue, MatchOption, None, Some};
ghost use Rattle.interval_box.specs.Ranges.{IsBoxOf, IsSingle};
ghost use Rattle.interval_box.specs.Halves.{IsProper};
ghost use Rattle.bound_tree.specs.Prices.{Fits};
ghost use Rattle.search_run.specs.declared.thought.Stage.TheVariants.{Split};
ghost use Rattle.search_run.specs.Branches.{IsWide, IsChoice};
ghost use Rattle.search_run.specs.Minds.{IsMindOf};
ghost use Rattle.search_run.specs.Thoughts.{IsFlowOf, IsThought};

use crate::flow::{bounded, offer_of, reaches};
use crate::mind::Mind;
use crate::thought::{Act, Branch, Thought};
use crate::tries::weighted_pick;
use bound_tree::{Leaf, Row};
use box_bound::{Bounded, bound_from};
use branching::choose;
use interval_box::IntervalBox;
use lagrangian::WHOLE;
use price_climb::{Climbed, climb};
use std::alloc::Global;
use tqd_base::Memory;
use tqd_instance::{Job, Plan};

/// The step and the rounds of a climb after the flow of a box: rules of this program.
const STEP: i64 = 1_000;

const ROUNDS: u64 = 16;

/// How far the weighted purchase is off at a supplier: what its weighted units cost in the segment of their total beyond
/// what they cost in the climb, in millionths of the currency and times `WHOLE`.
#[derive(Clone, Copy, Debug)]
pub(crate) struct Choice {
    pub(crate) supplier: usize,
    pub(crate) score: i128,
}

/// Splits a box at the supplier at which the weighted purchase is off the most. Where that does not explain what the value
/// of the pricing's row lacks of the best cost, the box is bounded by a flow, and the split is that of its plan. A box that
/// leaves no choice is killed or solved.
pub(crate) fn branch(
    alloc: Global,
    job: &Job,
    mind: &mut Mind,
    best: Option<u128>,
    area: &IntervalBox,
) -> Result<Thought, Memory>
    requires of_job { IsBoxOf job.now area.now }
    requires mind { IsMindOf job.now mind.old }
    ensures thought { IfOk result (IsThought job.now area.now Split) }
    ensures mind { IsMindOf job.now mind.new }
{
    mind.price(job, area);
    let Some(choice) = greatest_score(job, mind, area) else {
        return bounded(alloc, job, area);
    };
    if let Some(best) = best {
        if !explains(choice.score, best, mind.pricing.value()) {
            return branch_by_flow(alloc, job, mind, best, area);
        }
    }
    let branch = branch_at(job, mind, area, choice.supplier);
    Ok(Thought::of(Act::Split {
        bound: None,
        branch,
    }))
}

/// Whether a supplier's score is at least a thousandth of what a value lacks of the best cost.
fn explains(score: i128, best: u128, value: i128) -> bool {
    let best = i128::try_from(best).unwrap_or(i128::MAX);
    let gap = best.saturating_sub(value);
    gap <= (score / i128::from(WHOLE)).saturating_mul(1_000)
}

/// The first of the suppliers with the greatest score, of those whose ranges have more than one number.
fn greatest_score(job: &Job, mind: &Mind, area: &IntervalBox) -> Option<Choice>
    requires of_job { IsBoxOf job.now area.now }
    requires mind { IsMindOf job.now mind.now }
    ensures { MatchOption result (IsSingle job.now area.now) (IsChoice job.now area.now) }
{
    let mut greatest: Option<Choice> = None;
    for supplier in 0..job.suppliers() {
        if area.low_of(supplier) == area.high_of(supplier) {
            continue;
        }
        let score = score(job, mind, area, supplier);
        if is_greater(score, &greatest) {
            greatest = Some(Choice { supplier, score });
        }
    }
    greatest
}

fn is_greater(score: i128, greatest: &Option<Choice>) -> bool
    ensures { (greatest.now ≡ None) → IsTrue result }
{
    match greatest {
        Some(choice) => choice.score < score,
        None => true,
    }
}

/// What a supplier's weighted units cost in the segment of their total, beyond the weighted cost of its columns; at least 0.
fn score(job: &Job, mind: &Mind, area: &IntervalBox, i: usize) -> i128
    requires of_job { IsBoxOf job.now area.now }
    requires mind { IsMindOf job.now mind.now }
    requires wide { IsWide job.now area.now i }
{
    prove!(i < job.suppliers());
    let first = area.low_of(i).max(1);
    let pick = weighted_pick(job, mind, i).unwrap_or(1);
    let pick = pick.max(first).min(area.high_of(i));
    let mut cost: i128 = 0;
    for k in 0..job.goods() {
        let units = i128::from(mind.climber.weighted(job, i, k));
        cost = cost.saturating_add(units.saturating_mul(i128::from(job.price(i, pick, k))));
    }
    if mind.climber.weighted_total(job, i) > 0 {
        cost = cost.saturating_add(i128::from(job.fee(i)).saturating_mul(i128::from(WHOLE)));
    }
    cost.saturating_sub(mind.climber.weighted_cost(job, i))
        .max(0)
}

/// The split of a supplier's range at the segment of its weighted total, or at 0 in a gap, and the half that has the
/// greater weight.
fn branch_at(job: &Job, mind: &Mind, area: &IntervalBox, i: usize) -> Branch
    requires of_job { IsBoxOf job.now area.now }
    requires mind { IsMindOf job.now mind.now }
    requires wide { IsWide job.now area.now i }
    ensures { IsProper area.now result.supplier result.at }
{
    prove!(i < job.suppliers());
    let (low, high) = (area.low_of(i), area.high_of(i));
    prove!(low < high);
    let pick = weighted_pick(job, mind, i).unwrap_or(0);
    let at = pick.min(high - 1).max(low);
    let mut below: u64 = 0;
    for j in low..=at {
        below = below.saturating_add(mind.climber.weight(job, i, j));
    }
    Branch {
        supplier: i,
        at,
        keep_low: WHOLE <= below.saturating_mul(2),
    }
}

/// Bounds a box by a flow from the prices of the pricing's row. Its row closes the box where it reaches the best cost, or
/// does after a climb; else the box is split by the flow's plan.
fn branch_by_flow(
    alloc: Global,
    job: &Job,
    mind: &Mind,
    best: u128,
    area: &IntervalBox,
) -> Result<Thought, Memory>
    requires of_job { IsBoxOf job.now area.now }
    requires not_single { IsSingle job.now area.now → ⊥ }
    requires mind { IsMindOf job.now mind.now }
    requires priced { mind.now.priced ≡ Some area.now }
    ensures { IfOk result (IsThought job.now area.now Split) }
{
    let start = mind.pricing.row(alloc, job, area)?;
    let (plan, row) = match bound_from(alloc, job, area, &start)? {
        Bounded::Empty(row) => return Ok(Thought::of(Act::Kill(Leaf::Empty(row)))),
        Bounded::Flow { plan, row, .. } => (plan, row),
    };
    let branch = branch_of(job, area, &plan, &row);
    let row = raised(alloc, job, area, row, best)?;
    Ok(Thought {
        offer: offer_of(job, plan),
        act: Act::Split {
            bound: Some(row),
            branch,
        },
    })
}

/// The split of a flow's plan, with the half that has the segment which the plan picks.
fn branch_of(job: &Job, area: &IntervalBox, plan: &Plan, _row: &Row) -> Branch
    requires of_job { IsBoxOf job.now area.now }
    requires not_single { IsSingle job.now area.now → ⊥ }
    requires flow { IsFlowOf job.now area.now plan.now _row.now }
    ensures { IsProper area.now result.supplier result.at }
{
    let (supplier, at) = choose(job, area, plan);
    let keep_low = match job.pick(supplier, job.total(plan, supplier)) {
        Some(p) => p <= at,
        None => true,
    };
    Branch {
        supplier,
        at,
        keep_low,
    }
}

/// A row that reaches the best cost, or else the row of a climb from it.
fn raised(alloc: Global, job: &Job, area: &IntervalBox, row: Row, best: u128) -> Result<Row, Memory>
    requires of_job { IsBoxOf job.now area.now }
    requires fits { Fits job.now area.now row }
    ensures { IfOk result (Fits job.now area.now) }
{
    if reaches(Some(best), row.value(job, area)) {
        return Ok(row);
    }
    match climb(alloc, job, area, row, STEP, ROUNDS)? {
        Climbed::Still(row) => Ok(row),
        Climbed::Risen(row) => Ok(row),
    }
}
