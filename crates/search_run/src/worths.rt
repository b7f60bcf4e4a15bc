//! Cuts of segments that can't pay.
ghost use Rattle.std.specs.Prelude.{◌≡◌, ◌<◌, IfOk, IfSome, Some};
ghost use Rattle.tqd_instance.specs.Job.{suppliers};
ghost use Rattle.interval_box.specs.Ranges.{IsBoxOf};
ghost use Rattle.bound_tree.specs.Prices.{Fits};
ghost use Rattle.lagrangian.specs.Pricing.{IsMadeFor};
ghost use Rattle.search_run.specs.Minds.{IsMindOf};
ghost use Rattle.search_run.specs.Trims.{IsEndOf, IsTrimOf, IsTrimming};

use crate::mind::Mind;
use crate::thought::Act;
use crate::trim::{End, Segments, Trim};
use bound_tree::{Leaf, Row};
use interval_box::IntervalBox;
use lagrangian::Pricing;
use std::alloc::Global;
use tqd_base::Memory;
use tqd_instance::Job;

/// Cuts off the segments at the ends of each range in which the value of the pricing's row reaches the cost of the best
/// plan: its value, less the supplier's least worth, with the segment's worth.
pub(crate) fn cut_by_worths(
    alloc: Global,
    job: &Job,
    mind: &mut Mind,
    best: Option<u128>,
    area: &IntervalBox,
) -> Result<Act, Memory>
    requires of_job { IsBoxOf job.now area.now }
    requires mind { IsMindOf job.now mind.old }
    ensures trimming { IfOk result (IsTrimming job.now area.now) }
    ensures mind { IsMindOf job.now mind.new }
{
    let Some(best) = best else {
        return Ok(Act::Stay);
    };
    mind.price(job, area);
    let row = mind.pricing.row(alloc, job, area)?;
    let mut trim = Trim::of(alloc, job, area);
    for i in 0..job.suppliers() {
        let dying = dear_segments(job, &mind.pricing, area, best, i);
        let end = trim.low_end(job, area, i, dying);
        cut_dear(alloc, job, area, &row, &mut trim, end)?;
        let end = trim.high_end(job, area, i, dying);
        cut_dear(alloc, job, area, &row, &mut trim, end)?;
    }
    Ok(trim.act(job, area))
}

/// The segments of a supplier's range that no purchase cheaper than the best one picks.
fn dear_segments(job: &Job, pricing: &Pricing, area: &IntervalBox, best: u128, i: usize) -> Segments
    requires of_job { IsBoxOf job.now area.now }
    requires made { IsMadeFor job.now pricing.now }
    requires supplier { i < suppliers job.now }
{
    prove!(i < job.suppliers());
    let best = i128::try_from(best).unwrap_or(i128::MAX);
    let others = pricing
        .value()
        .saturating_sub(pricing.worth(i, pricing.least(i)));
    let mut dying = Segments::none();
    for j in area.low_of(i)..=area.high_of(i) {
        prove!(j <= job.segments(i));
        if best <= others.saturating_add(pricing.worth(i, j)) {
            dying.add(j);
        }
    }
    dying
}

fn cut_dear(
    alloc: Global,
    job: &Job,
    area: &IntervalBox,
    row: &Row,
    trim: &mut Trim,
    end: Option<End>,
) -> Result<(), Memory>
    requires of_job { IsBoxOf job.now area.now }
    requires fits { Fits job.now area.now row.now }
    requires trim { IsTrimOf job.now area.now trim.old }
    requires end { IfSome end (IsEndOf job.now area.now trim.old.rest) }
    ensures { IfOk result (λ _. IsTrimOf job.now area.now trim.new) }
{
    let Some(end) = end else { return Ok(()) };
    let dear = row.narrowed(alloc, job, area, &end.dead)?;
    trim.cut(job, area, &end, Leaf::Bound(dear))
}
