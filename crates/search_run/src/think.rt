//! What a worker finds out about a box at each stage, without a look at the book.
ghost use Rattle.std.specs.Prelude.{◌<◌, IfOk};
ghost use Rattle.interval_box.specs.Ranges.{IsBoxOf};
ghost use Rattle.search_run.specs.declared.thought.Stage.{Stage};
ghost use Rattle.search_run.specs.Minds.{IsMindOf};
ghost use Rattle.search_run.specs.Stages.{rank};
ghost use Rattle.search_run.specs.Thoughts.{IsThought};

use crate::branch::branch;
use crate::flow::bounded;
use crate::mind::Mind;
use crate::thought::{Act, Stage, Task, Thought};
use crate::totals::{cut_by_totals, totals_leaf};
use crate::tries::{try_least, try_weighted};
use crate::winners::cut_by_winners;
use crate::worths::cut_by_worths;
use bound_tree::Leaf;
use interval_box::IntervalBox;
use lagrangian::Climb;
use std::alloc::Global;
use tqd_base::Memory;
use tqd_instance::Job;

/// What is to be done with the box of a task at its stage. `best` is the cost of the best plan, as far as it is known. The
/// root is split without cuts, so that the first split leaves a half for other workers.
pub(crate) fn think(
    alloc: Global,
    job: &Job,
    mind: &mut Mind,
    best: Option<u128>,
    task: &Task,
) -> Result<Thought, Memory>
    requires of_job { IsBoxOf job.now task.now.area }
    requires mind { IsMindOf job.now mind.old }
    ensures thought { IfOk result (IsThought job.now task.now.area task.now.stage) }
    ensures mind { IsMindOf job.now mind.new }
{
    let area = &task.area;
    match task.stage {
        Stage::Enter => enter(alloc, job, mind, best, area),
        Stage::Winners | Stage::Totals | Stage::Worths => cut(alloc, job, mind, best, task),
        Stage::Climb => climb(alloc, job, mind, best, area),
        Stage::Weighted => try_weighted(alloc, job, mind, best, area),
        Stage::Least => try_least(alloc, job, mind, best, area),
        Stage::Split => branch(alloc, job, mind, best, area),
    }
}

/// Kills a box whose winners fail, or whose totals can't be bought or are too small. Where no plan is known, or the box
/// leaves no choice, it is bounded.
#[tactic(auto, using(crate::proofs::Thoughts::of_bound))]
fn enter(
    alloc: Global,
    job: &Job,
    mind: &Mind,
    best: Option<u128>,
    area: &IntervalBox,
) -> Result<Thought, Memory>
    requires of_job { IsBoxOf job.now area.now }
    requires mind { IsMindOf job.now mind.now }
    ensures { IfOk result (IsThought job.now area.now Stage.Enter) }
{
    if area.winners_fail(job) {
        return Ok(Thought::of(Act::Kill(Leaf::Winners)));
    }
    if let Some(leaf) = totals_leaf(alloc, job, &mind.limits, area)? {
        return Ok(Thought::of(Act::Kill(leaf)));
    }
    if best.is_none() || area.is_single(job) {
        return bounded(alloc, job, area);
    }
    Ok(Thought::of(Act::Stay))
}

/// Cuts ends of ranges off a box that is not the root.
fn cut(
    alloc: Global,
    job: &Job,
    mind: &mut Mind,
    best: Option<u128>,
    task: &Task,
) -> Result<Thought, Memory>
    requires of_job { IsBoxOf job.now task.now.area }
    requires mind { IsMindOf job.now mind.old }
    requires stage { 0 < rank task.now.stage }
    ensures thought { IfOk result (IsThought job.now task.now.area task.now.stage) }
    ensures mind { IsMindOf job.now mind.new }
{
    if task.number == 0 {
        return Ok(Thought::of(Act::Stay));
    }
    match task.stage {
        Stage::Winners => Ok(Thought::of(cut_by_winners(alloc, job, &task.area)?)),
        Stage::Totals => narrow(alloc, job, mind, &task.area),
        _ => Ok(Thought::of(cut_by_worths(alloc, job, mind, best, &task.area)?)),
    }
}

/// Kills a box whose totals can't be bought or are too small, and else cuts off the ends that would make them so.
fn narrow(alloc: Global, job: &Job, mind: &Mind, area: &IntervalBox) -> Result<Thought, Memory>
    requires of_job { IsBoxOf job.now area.now }
    requires mind { IsMindOf job.now mind.now }
    ensures { IfOk result (λ thought. (stage : Stage) → 0 < rank stage → IsThought job.now area.now stage thought) }
{
    if let Some(leaf) = totals_leaf(alloc, job, &mind.limits, area)? {
        return Ok(Thought::of(Act::Kill(leaf)));
    }
    Ok(Thought::of(cut_by_totals(alloc, job, &mind.limits, area)?))
}

/// Raises the goods' prices until the value of their row reaches the cost of the best plan, or no longer rises.
#[tactic(auto, using(crate::proofs::Thoughts::of_bound))]
fn climb(
    alloc: Global,
    job: &Job,
    mind: &mut Mind,
    best: Option<u128>,
    area: &IntervalBox,
) -> Result<Thought, Memory>
    requires of_job { IsBoxOf job.now area.now }
    requires mind { IsMindOf job.now mind.old }
    ensures thought { IfOk result (IsThought job.now area.now Stage.Climb) }
    ensures mind { IsMindOf job.now mind.new }
{
    if area.is_single(job) {
        return bounded(alloc, job, area);
    }
    match mind.climb(job, area, best) {
        Climb::Reached => Ok(Thought::of(Act::Reach(mind.pricing.row(alloc, job, area)?))),
        Climb::Stopped => Ok(Thought::of(Act::Stay)),
    }
}
