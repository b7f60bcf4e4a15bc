ghost use Rattle.std.specs.Prelude.{◌≡◌, ◌+◌, ◌-◌, ◌<◌, ◌≤◌, length, take, drop, IfOk};
ghost use Rattle.std.specs.List.{All};
ghost use Rattle.tqd_base.specs.declared.limits.TheConstants.{SUPPLIERS_MAX};
ghost use Rattle.tqd_instance.specs.Job.{suppliers};
ghost use Rattle.interval_box.specs.Ranges.{low_of, high_of, IsBoxOf};
ghost use Rattle.bound_tree.specs.Prices.{first_of, count_of, places_to, IsPrice};
ghost use Rattle.bound_tree.specs.Narrowed.{IsPartAt, IsPartOf, AreNarrowedPlaces};

use crate::places::{count_of, place_count};
use interval_box::IntervalBox;
use std::alloc::Global;
use tqd_base::Memory;
use tqd_instance::Job;

/// The prices of the places of a box that are places of a part of it too.
pub(crate) fn narrowed_places(
    alloc: Global,
    job: &Job,
    area: &IntervalBox,
    part: &IntervalBox,
    places: &[i64],
) -> Result<Vec<i64>, Memory>
    requires of_job { IsBoxOf job.now area.now }
    requires part_of_job { IsBoxOf job.now part.now }
    requires within { IsPartOf job.now part.now area.now }
    requires in_range { All IsPrice places.now }
    requires places { length places.now ≡ places_to area.now (suppliers job.now) }
    ensures { IfOk result (λ narrowed. AreNarrowedPlaces job.now area.now part.now places.now narrowed.items) }
{
    let mut narrowed = Vec::with_capacity(alloc, place_count(job, part))?;
    let mut at = 0;
    for i in 0..job.suppliers() {
        narrowed.extend_from_slice(shared_places(area, part, places, i, at))?;
        at += count_of(area, i);
    }
    Ok(narrowed)
}

/// The prices of a supplier's places in a box, from place `at` on, that are places of a part of it too.
#[tactic(auto, unfolding(crate::specs::Prices::first_of, crate::specs::Prices::count_of))]
fn shared_places<'a>(
    area: &IntervalBox,
    part: &IntervalBox,
    places: &'a [i64],
    i: usize,
    at: usize,
) -> &'a [i64]
    requires supplier { i < SUPPLIERS_MAX }
    requires ordered { low_of part.now i ≤ high_of part.now i }
    requires within { IsPartAt part.now area.now i }
    requires places { at + count_of area.now i ≤ length places.now }
    ensures { result.now ≡ take (count_of part.now i) (drop (at + (first_of part.now i - first_of area.now i)) places.now) }
{
    let from = at + usize::from(part.low_of(i).max(1) - area.low_of(i).max(1));
    &places[from..from + count_of(part, i)]
}
