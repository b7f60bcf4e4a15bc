ghost use Rattle.std.specs.Prelude.{◌≡◌, ◌<◌, ◌+ℤ◌, SomeIff};
ghost use Rattle.bound_tree.specs.Prices.{IsPrice, Fits};
ghost use Rattle.price_climb.specs.PriceList.{price_count, price_of, with_price};

use bound_tree::Row;
use interval_box::IntervalBox;
use tqd_base::limits::DUAL_MAX;
use tqd_instance::Job;

/// A price for a place of a row. Places number the goods, then the segments of the box.
#[derive(Clone, Copy, Debug)]
pub(crate) struct Change {
    pub(crate) place: usize,
    pub(crate) price: i64,
}

/// The price at a place.
pub(crate) fn price_of(job: &Job, _area: &IntervalBox, row: &Row, place: usize) -> i64
    requires fits { Fits job.now _area.now row.now }
    requires place { place < price_count job.now _area.now }
    ensures value { result ≡ price_of row.now place }
    ensures in_range { IsPrice result }
{
    let goods = job.goods();
    if place < goods {
        row.good(place)
    } else {
        row.place(place - goods)
    }
}

/// The price at a place raised by `delta`, or none exactly where it would leave the limit of prices.
pub(crate) fn raised(
    job: &Job,
    area: &IntervalBox,
    row: &Row,
    place: usize,
    delta: i64,
) -> Option<i64>
    requires fits { Fits job.now area.now row.now }
    requires place { place < price_count job.now area.now }
    requires delta { IsPrice delta }
    ensures { SomeIff result (IsPrice (price_of row.now place +ℤ delta)) (price_of row.now place +ℤ delta) }
{
    let price = price_of(job, area, row, place) + delta;
    if -DUAL_MAX <= price && price <= DUAL_MAX {
        Some(price)
    } else {
        None
    }
}

/// Makes a change in a row.
pub(crate) fn set_price(job: &Job, _area: &IntervalBox, row: &mut Row, change: Change)
    requires fits { Fits job.now _area.now row.old }
    requires place { change.place < price_count job.now _area.now }
    ensures { row.new ≡ with_price job.now row.old change.place change.price }
{
    let goods = job.goods();
    if change.place < goods {
        row.set_good(change.place, change.price);
    } else {
        row.set_place(change.place - goods, change.price);
    }
}
