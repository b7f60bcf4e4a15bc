ghost use Rattle.std.specs.Prelude.{ℕ, ◌≡◌, ◌<◌, ◌≤◌, ◌≤ℤ◌, ◌<ℤ◌, length, IfOk};
ghost use Rattle.std.specs.List.{All};
ghost use Rattle.tqd_base.specs.declared.limits.TheConstants.{INTERVALS_MAX};
ghost use Rattle.tqd_instance.specs.Job.{goods, suppliers, segments};
ghost use Rattle.interval_box.specs.Ranges.{low_of, high_of, Admits, IsBoxOf};
ghost use Rattle.bound_tree.specs.Prices.{price_at};
ghost use Rattle.bound_tree.specs.Value.{charges_of, supplier_value};
ghost use Rattle.lagrangian.specs.Priced.{IsWorth};

use crate::fill::fill;
use crate::offer::Offer;
use crate::place::best_place;
use interval_box::IntervalBox;
use std::alloc::Global;
use tqd_base::Memory;
use tqd_instance::{Job, Numbers};

/// What was found for a supplier: by the numbers of its segments the price of each place and what the segment is worth
/// there, in millionths, and the first segment that is worth the least, with the units of each good in it.
#[derive(Debug, Drop)]
pub struct SupplierPrices {
    pub(crate) places: [i64; 17],
    pub(crate) worths: [i128; 17],
    pub(crate) least: u8,
    pub(crate) units: Numbers,
}

impl SupplierPrices {
    ghost use Rattle.lagrangian.specs.Priced.{
      AreGoodPrices,
      IsFoundPlace,
      IsSupplierPriced,
      IsInRange,
      place_of,
      worth_of,
    };

    /// All numbers 0.
    pub(crate) fn new(alloc: Global, goods: usize) -> Result<SupplierPrices, Memory>
        ensures { IfOk result (IsInRange goods) }
    {
        Ok(SupplierPrices {
            places: [0; 17],
            worths: [0; 17],
            least: 0,
            units: Numbers::zeros(alloc, goods)?,
        })
    }

    /// Prices the places of the supplier's range.
    fn price_places(
        &mut self,
        offers: &mut [Offer],
        job: &Job,
        area: &IntervalBox,
        good_prices: &[i64],
        i: usize,
    )
        requires of_job { IsBoxOf job.now area.now }
        requires room { length offers.old ≡ goods job.now }
        requires prices { AreGoodPrices job.now good_prices.now }
        requires supplier { i < suppliers job.now }
        requires in_range { IsInRange (goods job.now) self.old }
        ensures len { length offers.new ≡ length offers.old }
        ensures in_range { IsInRange (goods job.now) self.new }
        ensures found { (j : ℕ) → Admits area.now i j
            → IsFoundPlace job.now good_prices.now i j (place_of self.new j) (worth_of self.new j) }
    {
        for j in area.low_of(i)..area.high_of(i) + 1 {
            let (place, worth) = best_place(offers, job, good_prices, i, j);
            self.places[usize::from(j)] = place;
            self.worths[usize::from(j)] = worth;
        }
    }

    /// Prices the places of the supplier's range and fills the first segment that is worth the least. Answers what that
    /// segment is worth.
    pub(crate) fn price(
        &mut self,
        offers: &mut [Offer],
        job: &Job,
        area: &IntervalBox,
        good_prices: &[i64],
        i: usize,
    ) -> i128
        requires of_job { IsBoxOf job.now area.now }
        requires room { length offers.old ≡ goods job.now }
        requires prices { AreGoodPrices job.now good_prices.now }
        requires supplier { i < suppliers job.now }
        requires in_range { IsInRange (goods job.now) self.old }
        ensures len { length offers.new ≡ length offers.old }
        ensures in_range { IsInRange (goods job.now) self.new }
        ensures priced { IsSupplierPriced job.now area.now good_prices.now i self.new }
        ensures value { result
            ≡ supplier_value (charges_of job.now) job.now area.now good_prices.now (place_of self.new) i }
        ensures value_range { IsWorth result }
    {
        self.price_places(offers, job, area, good_prices, i);
        let least = first_least(&self.worths, area.low_of(i), area.high_of(i));
        let place = self.places[usize::from(least)];
        let worth = self.worths[usize::from(least)];
        self.least = least;
        fill(&mut self.units, offers, job, good_prices, i, least, place);
        worth
    }
}

/// The first of the places from `low` to `high` that has the least number of these.
fn first_least(worths: &[i128], low: u8, high: u8) -> u8
    requires ordered { low ≤ high }
    requires places { high < length worths.now }
    requires few { high ≤ INTERVALS_MAX }
    requires in_range { All IsWorth worths.now }
    ensures from_low { low ≤ result }
    ensures to_high { result ≤ high }
    ensures least { (j : ℕ) → low ≤ j → j ≤ high → price_at worths.now result ≤ℤ price_at worths.now j }
    ensures first { (j : ℕ) → low ≤ j → j < result → price_at worths.now result <ℤ price_at worths.now j }
{
    let mut least = low;
    for j in low + 1..high + 1 {
        if worths[usize::from(j)] < worths[usize::from(least)] {
            least = j;
        }
    }
    least
}
