ghost use Rattle.std.specs.Prelude.{◌≡◌, ◌<◌, ◌≤◌, ◌^◌, ◌*◌, ◌≤ℤ◌, ◌-ℤ◌, ◌+ℤ◌, neg_ℤ, pos};
ghost use Rattle.tqd_base.specs.declared.limits.TheConstants.{QTY_MAX, SUPPLIERS_MAX};
ghost use Rattle.tqd_instance.specs.Job.{goods, suppliers};
ghost use Rattle.interval_box.specs.Ranges.{Admits};
ghost use Rattle.bound_tree.specs.Prices.{IsPrice, places_to, place_of};
ghost use Rattle.bound_tree.specs.Value.{goods_value};
ghost use Rattle.price_climb.specs.PriceList.{price_count, with_price};
ghost use Rattle.price_climb.specs.Columns.{segment_in};
ghost use Rattle.price_climb.specs.Table.{IsFitting};

use crate::prices::Change;
use bound_tree::{Asked, Row, least_times, saving, segment_value};
use interval_box::IntervalBox;
use tqd_instance::Job;

/// The place of a segment among those of the box, where the supplier's begin at `from`. Segment 0 has none.
#[tactic(auto, unfolding(bound_tree::specs::Prices::first_of, bound_tree::specs::Prices::place_of))]
fn place_of(area: &IntervalBox, i: usize, from: usize, j: u8) -> usize
    requires supplier { i < SUPPLIERS_MAX }
    requires from { from ≡ places_to area.now i }
    requires few { from ≤ 1024 }
    ensures { result ≡ place_of area.now i j }
{
    from + usize::from(j.saturating_sub(area.low_of(i).max(1)))
}

/// The value of a segment in a row of a box, where the supplier's places begin at `from`.
pub(crate) fn segment_in(
    job: &Job,
    area: &IntervalBox,
    row: &Row,
    i: usize,
    from: usize,
    j: u8,
) -> i128
    requires fitting { IsFitting job.now area.now row.now }
    requires supplier { i < suppliers job.now }
    requires from { from ≡ places_to area.now i }
    requires segment { Admits area.now i j }
    ensures { result ≡ segment_in job.now area.now row.now i j }
{
    let at = place_of(area, i, from, j);
    segment_value(job, row.goods(), row.places(), Asked::All, i, j, at)
}

/// A segment's value where so many units of a good save another amount each.
fn moved(value: i128, units: u64, old: u64, new: u64) -> i128
    requires not_less { neg_ℤ (pos (10 ^ 27)) ≤ℤ value }
    requires not_more { value ≤ℤ pos (10 ^ 27) }
    requires units { units ≤ QTY_MAX }
    requires old { old ≤ 8 * 10 ^ 15 }
    requires new { new ≤ 8 * 10 ^ 15 }
    ensures { result ≡ (value +ℤ pos (units * old)) -ℤ pos (units * new) }
{
    let saved = u128::from(units) * u128::from(old);
    let saves = u128::from(units) * u128::from(new);
    value + saved as i128 - saves as i128
}

/// The value of a segment after a change of the price of a good, `value` being the one before it.
fn segment_after_good(
    job: &Job,
    area: &IntervalBox,
    row: &Row,
    change: Change,
    i: usize,
    from: usize,
    j: u8,
    value: i128,
) -> i128
    requires fitting { IsFitting job.now area.now row.now }
    requires good { change.place < goods job.now }
    requires price { IsPrice change.price }
    requires supplier { i < suppliers job.now }
    requires from { from ≡ places_to area.now i }
    requires some { 1 ≤ j }
    requires segment { Admits area.now i j }
    requires value { value ≡ segment_in job.now area.now row.now i j }
    ensures { result ≡ segment_in job.now area.now (with_price job.now row.now change.place change.price) i j }
{
    let k = change.place;
    let units = job.stock(i, k).min(job.most(k));
    let charge = job.price(i, j, k);
    let place = row.place(place_of(area, i, from, j));
    let old = saving(row.good(k), place, charge);
    let new = saving(change.price, place, charge);
    moved(value, units, old, new)
}

/// The value of a segment after a change of one price, `value` being the one before it.
pub(crate) fn segment_after(
    job: &Job,
    area: &IntervalBox,
    row: &Row,
    change: Change,
    i: usize,
    from: usize,
    j: u8,
    value: i128,
) -> i128
    requires fitting { IsFitting job.now area.now row.now }
    requires place { change.place < price_count job.now area.now }
    requires price { IsPrice change.price }
    requires supplier { i < suppliers job.now }
    requires from { from ≡ places_to area.now i }
    requires segment { Admits area.now i j }
    requires value { value ≡ segment_in job.now area.now row.now i j }
    ensures { result ≡ segment_in job.now area.now (with_price job.now row.now change.place change.price) i j }
{
    if j == 0 {
        return 0;
    }
    if change.place < job.goods() {
        return segment_after_good(job, area, row, change, i, from, j, value);
    }
    if change.place - job.goods() != place_of(area, i, from, j) {
        return value;
    }
    segment_value(job, row.goods(), &[change.price], Asked::All, i, j, 0)
}

/// The sum of the goods' terms after a change of one price, `sum` being the one before it.
pub(crate) fn goods_after(
    job: &Job,
    area: &IntervalBox,
    row: &Row,
    change: Change,
    sum: i128,
) -> i128
    requires fitting { IsFitting job.now area.now row.now }
    requires place { change.place < price_count job.now area.now }
    requires price { IsPrice change.price }
    requires sum { sum ≡ goods_value job.now row.now.goods }
    ensures { result ≡ goods_value job.now (with_price job.now row.now change.place change.price).goods }
{
    let k = change.place;
    if job.goods() <= k {
        return sum;
    }
    let (need, most) = (job.need(k), job.most(k));
    let old = least_times(row.good(k), need, most);
    let new = least_times(change.price, need, most);
    replaced(sum, old, new)
}

/// A sum in which one term is another.
fn replaced(sum: i128, old: i128, new: i128) -> i128
    requires sum_not_less { neg_ℤ (pos (10 ^ 30)) ≤ℤ sum }
    requires sum_not_more { sum ≤ℤ pos (10 ^ 30) }
    requires old_not_less { neg_ℤ (pos (10 ^ 30)) ≤ℤ old }
    requires old_not_more { old ≤ℤ pos (10 ^ 30) }
    requires new_not_less { neg_ℤ (pos (10 ^ 30)) ≤ℤ new }
    requires new_not_more { new ≤ℤ pos (10 ^ 30) }
    ensures { result ≡ (sum -ℤ old) +ℤ new }
{
    sum - old + new
}
