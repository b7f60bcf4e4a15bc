ghost use Rattle.std.specs.Prelude.{◌≡◌, ◌<◌, ◌≤ℤ◌, ◌^◌, neg_ℤ, pos, length, set, IfOk};
ghost use Rattle.interval_box.specs.Ranges.{IsBoxOf};
ghost use Rattle.bound_tree.specs.Prices.{price_at, Fits};
ghost use Rattle.bound_tree.specs.Value.{value, free_value};
ghost use Rattle.bound_tree.specs.Narrowed.{IsPartOf, IsNarrowed};

use crate::narrow::narrowed_places;
use crate::value::{Asked, value_by};
use interval_box::IntervalBox;
use std::alloc::Global;
use std::marker::Model;
use tqd_base::Memory;
use tqd_instance::Job;

/// Prices for a box, in millionths of the currency, each at most 4 * 10^15 in absolute value: a price of a unit of each
/// good, and a price of a unit of the total in each segment, but segment 0, of each supplier's range.
#[derive(Debug, Drop)]
pub struct Row {
    goods: Vec<i64>,
    places: Vec<i64>,
}

impl Model for Row {
    ghost use Rattle.bound_tree.specs.Prices.{Prices};

    ghost Value = { Prices };

    ghost view = { λ r. record { goods = r.goods.items; places = r.places.items } };
}

impl Row {
    /// A row of these prices: one for each good, and one for each segment, but segment 0, of each supplier's range,
    /// supplier by supplier.
    pub fn build(
        alloc: Global,
        _job: &Job,
        _area: &IntervalBox,
        goods: &[i64],
        places: &[i64],
    ) -> Result<Row, Memory>
        requires { Fits _job.now _area.now (record { goods = goods.now; places = places.now }) }
        ensures { IfOk result (λ row. row ≡ record { goods = goods.now; places = places.now }) }
    {
        Ok(Row {
            goods: goods.to_vec(alloc)?,
            places: places.to_vec(alloc)?,
        })
    }

    /// The price of a good, in millionths of the currency a unit.
    #[tactic(auto, unfolding(crate::specs::Prices::price_at))]
    pub fn good(&self, k: usize) -> i64
        requires { k < length self.now.goods }
        ensures { result ≡ price_at self.now.goods k }
    {
        self.goods[k]
    }

    /// The price at a place of the box, in millionths of the currency a unit of the total.
    #[tactic(auto, unfolding(crate::specs::Prices::price_at))]
    pub fn place(&self, at: usize) -> i64
        requires { at < length self.now.places }
        ensures { result ≡ price_at self.now.places at }
    {
        self.places[at]
    }

    /// Changes the price of a good.
    pub fn set_good(&mut self, k: usize, price: i64)
        requires { k < length self.old.goods }
        ensures { self.new ≡ record { goods = set self.old.goods k price; places = self.old.places } }
    {
        self.goods[k] = price;
    }

    /// Changes the price at a place of the box.
    pub fn set_place(&mut self, at: usize, price: i64)
        requires { at < length self.old.places }
        ensures { self.new ≡ record { goods = self.old.goods; places = set self.old.places at price } }
    {
        self.places[at] = price;
    }

    /// The prices of the goods.
    pub fn goods(&self) -> &[i64]
        ensures { result.now ≡ self.now.goods }
    {
        &self.goods
    }

    /// The prices at the places of the box.
    pub fn places(&self) -> &[i64]
        ensures { result.now ≡ self.now.places }
    {
        &self.places
    }

    /// The value of the row in its box, in millionths of the currency and within 10^30 of 0: no feasible purchase in the
    /// box costs less.
    pub fn value(&self, job: &Job, area: &IntervalBox) -> i128
        requires of_job { IsBoxOf job.now area.now }
        requires fits { Fits job.now area.now self.now }
        ensures value { result ≡ value job.now area.now self.now }
        ensures not_less { neg_ℤ (pos (10 ^ 30)) ≤ℤ result }
        ensures not_more { result ≤ℤ pos (10 ^ 30) }
    {
        value_by(job, area, &self.goods, &self.places, Asked::All)
    }

    /// The value with every price and every fee of the job taken as 0: where it is above 0, no purchase in the box is
    /// feasible.
    pub fn value_free(&self, job: &Job, area: &IntervalBox) -> i128
        requires of_job { IsBoxOf job.now area.now }
        requires fits { Fits job.now area.now self.now }
        ensures value { result ≡ free_value job.now area.now self.now }
        ensures not_less { neg_ℤ (pos (10 ^ 30)) ≤ℤ result }
        ensures not_more { result ≤ℤ pos (10 ^ 30) }
    {
        value_by(job, area, &self.goods, &self.places, Asked::Nothing)
    }

    /// The same prices for a part of the box. The values of the new row in the part are not below those in the box.
    pub fn narrowed(
        &self,
        alloc: Global,
        job: &Job,
        area: &IntervalBox,
        part: &IntervalBox,
    ) -> Result<Row, Memory>
        requires of_job { IsBoxOf job.now area.now }
        requires part_of_job { IsBoxOf job.now part.now }
        requires within { IsPartOf job.now part.now area.now }
        requires fits { Fits job.now area.now self.now }
        ensures { IfOk result (λ row. IsNarrowed job.now area.now part.now self.now row) }
    {
        let places = narrowed_places(alloc, job, area, part, &self.places)?;
        Ok(Row {
            goods: self.goods.as_slice().to_vec(alloc)?,
            places,
        })
    }
}
