//! The prices of two boxes compared, without a copy of either.
ghost use Rattle.std.specs.Prelude.{◌≡◌, ◌+◌, ◌<◌, ◌≤◌, ◌↔◌, IsTrue, length};
ghost use Rattle.tqd_base.specs.declared.limits.TheConstants.{SUPPLIERS_MAX};
ghost use Rattle.tqd_instance.specs.Job.{suppliers};
ghost use Rattle.interval_box.specs.Ranges.{IsBoxOf, Admits};
ghost use Rattle.interval_box.specs.Ranges.{low_of, high_of};
ghost use Rattle.bound_tree.specs.Prices.{count_of, places_to};
ghost use Rattle.bound_tree.specs.OtherPlaces.{price_from, price_from_or_zero, SameRange, SamePlaces};

use crate::places::count_of;
use interval_box::IntervalBox;
use tqd_instance::Job;

/// Whether the prices at the places of a box are those of another box, and 0 where that has no place.
pub(crate) fn same_places(
    job: &Job,
    kept_area: &IntervalBox,
    kept: &[i64],
    area: &IntervalBox,
    places: &[i64],
) -> bool
    requires kept_of_job { IsBoxOf job.now kept_area.now }
    requires kept_places { length kept.now ≡ places_to kept_area.now (suppliers job.now) }
    requires of_job { IsBoxOf job.now area.now }
    requires places { length places.now ≡ places_to area.now (suppliers job.now) }
    ensures { IsTrue result ↔ SamePlaces job.now kept_area.now kept.now area.now places.now }
{
    let (mut kept_at, mut at) = (0, 0);
    for i in 0..job.suppliers() {
        if !same_range(kept_area, kept, kept_at, area, places, at, i) {
            return false;
        }
        kept_at += count_of(kept_area, i);
        at += count_of(area, i);
    }
    true
}

// The same of a supplier's range, whose places in the two boxes are those from `kept_at` and from `at` on.
fn same_range(
    kept_area: &IntervalBox,
    kept: &[i64],
    kept_at: usize,
    area: &IntervalBox,
    places: &[i64],
    at: usize,
    i: usize,
) -> bool
    requires supplier { i < SUPPLIERS_MAX }
    requires few { high_of area.now i ≤ 16 }
    requires kept_places { kept_at + count_of kept_area.now i ≤ length kept.now }
    requires places { at + count_of area.now i ≤ length places.now }
    ensures { IsTrue result ↔ SameRange kept_area.now kept.now kept_at area.now places.now at i }
{
    let first = area.low_of(i).max(1);
    for j in first..area.high_of(i) + 1 {
        let price = price_from(area, places, at, i, j);
        if price != price_from_or_zero(kept_area, kept, kept_at, i, j) {
            return false;
        }
    }
    true
}

// The price of a segment of a supplier's range, whose places are those from `at` on.
#[tactic(auto, unfolding(crate::specs::Prices::first_of, crate::specs::Prices::count_of, crate::specs::Prices::price_at))]
fn price_from(area: &IntervalBox, places: &[i64], at: usize, i: usize, j: u8) -> i64
    requires supplier { i < SUPPLIERS_MAX }
    requires some { 1 ≤ j }
    requires admits { Admits area.now i j }
    requires places { at + count_of area.now i ≤ length places.now }
    ensures { result ≡ price_from area.now places.now at i j }
{
    places[at + usize::from(j - area.low_of(i).max(1))]
}

// The same, or 0 where the range does not have the segment.
fn price_from_or_zero(area: &IntervalBox, places: &[i64], at: usize, i: usize, j: u8) -> i64
    requires supplier { i < SUPPLIERS_MAX }
    requires some { 1 ≤ j }
    requires places { at + count_of area.now i ≤ length places.now }
    ensures { result ≡ price_from_or_zero area.now places.now at i j }
{
    if area.admits(i, j) {
        price_from(area, places, at, i, j)
    } else {
        0
    }
}
