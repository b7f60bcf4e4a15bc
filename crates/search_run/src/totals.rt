//! Cuts by what may be bought in all, and by what is needed.
ghost use Rattle.std.specs.Prelude.{◌<◌, ◌≤◌, IfOk, IfSome, None};
ghost use Rattle.tqd_instance.specs.Job.{suppliers, segments};
ghost use Rattle.interval_box.specs.Ranges.{IsBoxOf, IsRangeOf};
ghost use Rattle.bound_tree.specs.Kills.{Kills};
ghost use Rattle.lagrangian.specs.Limits.{AreLimits};
ghost use Rattle.search_run.specs.Trims.{IsEndOf, IsTrimOf, IsTrimming};

use crate::rows::{highs_leaf, lows_leaf};
use crate::thought::Act;
use crate::trim::{End, Segments, Trim};
use bound_tree::Leaf;
use interval_box::IntervalBox;
use lagrangian::{Limits, high_at, highs, low_at, lows};
use std::alloc::Global;
use tqd_base::Memory;
use tqd_instance::Job;

/// The leaf of a box whose suppliers sell more at least than may be bought, or less at most than is needed.
pub(crate) fn totals_leaf(
    alloc: Global,
    job: &Job,
    limits: &Limits,
    area: &IntervalBox,
) -> Result<Option<Leaf>, Memory>
    requires of_job { IsBoxOf job.now area.now }
    requires limits { AreLimits job.now limits.now }
    ensures { IfOk result (λ leaf. IfSome leaf (Kills job.now area.now None)) }
{
    if limits.mosts < lows(job, area) {
        return lows_leaf(alloc, job, area);
    }
    if highs(job, limits, area) < limits.needs {
        return highs_leaf(alloc, job, limits, area);
    }
    Ok(None)
}

/// Cuts off the last segments of each range that would lift the sum of lows beyond what may be bought, and the first
/// ones that would leave too little.
pub(crate) fn cut_by_totals(
    alloc: Global,
    job: &Job,
    limits: &Limits,
    area: &IntervalBox,
) -> Result<Act, Memory>
    requires of_job { IsBoxOf job.now area.now }
    requires limits { AreLimits job.now limits.now }
    ensures { IfOk result (IsTrimming job.now area.now) }
{
    let spare = limits.mosts.saturating_sub(lows(job, area));
    let excess = highs(job, limits, area).saturating_sub(limits.needs);
    let mut trim = Trim::of(alloc, job, area);
    for i in 0..job.suppliers() {
        let dying = too_large(job, area, spare, i);
        let end = trim.high_end(job, area, i, dying);
        cut_too_large(alloc, job, area, &mut trim, end)?;
        let dying = too_small(job, limits, area, excess, i);
        let end = trim.low_end(job, area, i, dying);
        cut_too_small(alloc, job, limits, area, &mut trim, end)?;
    }
    Ok(trim.act(job, area))
}

/// The segments whose low exceeds that of the first one of the range by more than so many units.
fn too_large(job: &Job, area: &IntervalBox, spare: u64, i: usize) -> Segments
    requires supplier { i < suppliers job.now }
    requires range { IsRangeOf job.now area.now i }
{
    prove!(i < job.suppliers());
    let mut dying = Segments::none();
    let bound = low_at(job, i, area.low_of(i)).saturating_add(spare);
    for j in area.low_of(i)..=area.high_of(i) {
        if bound < low_at(job, i, j) {
            dying.add(j);
        }
    }
    dying
}

/// The most units that a supplier can sell in a segment.
fn most_at(job: &Job, limits: &Limits, i: usize, j: u8) -> u64
    requires limits { AreLimits job.now limits.now }
    requires supplier { i < suppliers job.now }
    requires segment { j ≤ segments job.now i }
{
    prove!(i < job.suppliers());
    high_at(job, i, j).min(limits.caps[i])
}

/// The segments whose high is below that of the last one of the range by more than so many units.
fn too_small(job: &Job, limits: &Limits, area: &IntervalBox, excess: u64, i: usize) -> Segments
    requires limits { AreLimits job.now limits.now }
    requires supplier { i < suppliers job.now }
    requires range { IsRangeOf job.now area.now i }
{
    prove!(i < job.suppliers());
    let mut dying = Segments::none();
    let bound = most_at(job, limits, i, area.high_of(i)).saturating_sub(excess);
    for j in area.low_of(i)..=area.high_of(i) {
        if most_at(job, limits, i, j) < bound {
            dying.add(j);
        }
    }
    dying
}

fn cut_too_large(
    alloc: Global,
    job: &Job,
    area: &IntervalBox,
    trim: &mut Trim,
    end: Option<End>,
) -> Result<(), Memory>
    requires trim { IsTrimOf job.now area.now trim.old }
    requires end { IfSome end (IsEndOf job.now area.now trim.old.rest) }
    ensures { IfOk result (λ _. IsTrimOf job.now area.now trim.new) }
{
    let Some(end) = end else { return Ok(()) };
    if let Some(leaf) = lows_leaf(alloc, job, &end.dead)? {
        trim.cut(job, area, &end, leaf)?;
    }
    Ok(())
}

fn cut_too_small(
    alloc: Global,
    job: &Job,
    limits: &Limits,
    area: &IntervalBox,
    trim: &mut Trim,
    end: Option<End>,
) -> Result<(), Memory>
    requires limits { AreLimits job.now limits.now }
    requires trim { IsTrimOf job.now area.now trim.old }
    requires end { IfSome end (IsEndOf job.now area.now trim.old.rest) }
    ensures { IfOk result (λ _. IsTrimOf job.now area.now trim.new) }
{
    let Some(end) = end else { return Ok(()) };
    if let Some(leaf) = highs_leaf(alloc, job, limits, &end.dead)? {
        trim.cut(job, area, &end, leaf)?;
    }
    Ok(())
}
