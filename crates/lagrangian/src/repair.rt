ghost use Rattle.std.specs.Prelude.{◌≡◌, length, IfSome, Some};
ghost use Rattle.tqd_instance.specs.Job.{suppliers};
ghost use Rattle.interval_box.specs.declared.boxes.IntervalBox.{IntervalBox};
ghost use Rattle.interval_box.specs.Ranges.{IsBoxOf};
ghost use Rattle.lagrangian.specs.Pricing.{IsMadeFor};
ghost use Rattle.lagrangian.specs.Repair.{IsRepaired, HasRoomFor, ArePicks, AreHeld, IsHeld};

use crate::lack::lack_of;
use crate::pricing::Pricing;
use crate::swap::best_swap;
use crate::totals::Limits;
use interval_box::IntervalBox;
use tqd_instance::Job;

/// The picks held within the ranges of a box.
fn clamped(job: &Job, area: &IntervalBox, picks: &[u8]) -> [u8; 64]
    requires of_job { IsBoxOf job.now area.now }
    requires picks { length picks.now ≡ suppliers job.now }
    ensures picks { ArePicks job.now area.now result }
    ensures held { AreHeld job.now area.now picks.now result }
{
    let mut clamped = [0; 64];
    for i in 0..job.suppliers() {
        clamped[i] = picks[i].max(area.low_of(i)).min(area.high_of(i));
    }
    clamped
}

/// A single box near a pick for each supplier, within a box, whose totals and winners leave room for a feasible
/// purchase. The picks are held within the box, which is kept where it has room; else they are changed one at a time,
/// each time where a change costs the least for what it helps, by the worths of a pricing. None where there is no room
/// after 2 * N + 2 changes, with N suppliers, or where no change helps. It takes no memory. This is a rule of this
/// program.
pub fn repaired(
    job: &Job,
    area: &IntervalBox,
    picks: &[u8],
    pricing: &Pricing,
) -> Option<IntervalBox>
    requires of_job { IsBoxOf job.now area.now }
    requires picks { length picks.now ≡ suppliers job.now }
    requires made { IsMadeFor job.now pricing.now }
    ensures repaired { IfSome result (IsRepaired job.now area.now) }
    ensures kept { (single : IntervalBox) → IsHeld job.now area.now picks.now single → HasRoomFor job.now single
        → result ≡ Some single }
{
    let limits = Limits::of(job);
    let mut chosen = clamped(job, area, picks);
    for _change in 0..2 * job.suppliers() + 3 {
        let single = IntervalBox::of_picks(job, &chosen);
        let Some(lack) = lack_of(job, &limits, &single) else {
            return Some(single);
        };
        let swap = best_swap(job, area, &limits, pricing, &chosen, lack)?;
        chosen[swap.supplier] = swap.segment;
    }
    None
}
