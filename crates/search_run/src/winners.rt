//! Cuts by the winner limits.
ghost use Rattle.std.specs.Prelude.{IfOk, IfSome};
ghost use Rattle.interval_box.specs.Ranges.{IsBoxOf};
ghost use Rattle.search_run.specs.Trims.{IsEndOf, IsTrimOf, IsTrimming};

use crate::thought::Act;
use crate::trim::{End, Segments, Trim};
use bound_tree::Leaf;
use interval_box::IntervalBox;
use std::alloc::Global;
use tqd_base::Memory;
use tqd_instance::Job;

/// Where as many suppliers win for sure as may win, no other one wins; where only as many can win as must, all of them
/// do: what is left of their ranges else is cut off by Winners leaves.
pub(crate) fn cut_by_winners(alloc: Global, job: &Job, area: &IntervalBox) -> Result<Act, Memory>
    requires { IsBoxOf job.now area.now }
    ensures { IfOk result (IsTrimming job.now area.now) }
{
    let mut trim = Trim::of(alloc, job, area);
    for i in 0..job.suppliers() {
        let end = trim.low_end(job, area, i, Segments::zero());
        cut_where_winners_fail(job, area, &mut trim, end)?;
        let end = trim.high_end(job, area, i, Segments::above_zero());
        cut_where_winners_fail(job, area, &mut trim, end)?;
    }
    Ok(trim.act(job, area))
}

fn cut_where_winners_fail(
    job: &Job,
    area: &IntervalBox,
    trim: &mut Trim,
    end: Option<End>,
) -> Result<(), Memory>
    requires trim { IsTrimOf job.now area.now trim.old }
    requires end { IfSome end (IsEndOf job.now area.now trim.old.rest) }
    ensures { IfOk result (λ _. IsTrimOf job.now area.now trim.new) }
{
    if let Some(end) = end {
        if end.dead.winners_fail(job) {
            trim.cut(job, area, &end, Leaf::Winners)?;
        }
    }
    Ok(())
}
