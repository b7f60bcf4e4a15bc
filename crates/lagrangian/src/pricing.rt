ghost use Rattle.std.specs.Prelude.{◌≡◌, ◌<◌, ◌≤◌, ◌≤ℤ◌, ◌*◌, ◌^◌, neg_ℤ, pos, length, IfOk};
ghost use Rattle.std.specs.List.{All};
ghost use Rattle.tqd_base.specs.declared.limits.TheConstants.{INTERVALS_MAX, QTY_MAX};
ghost use Rattle.tqd_instance.specs.Job.{goods, suppliers};
ghost use Rattle.interval_box.specs.Ranges.{IsBoxOf};
ghost use Rattle.bound_tree.specs.Prices.{IsPrice};
ghost use Rattle.lagrangian.specs.Priced.{IsGoodPrice, IsWorth, AreGoodPrices};
ghost use Rattle.lagrangian.specs.PricingState.{place, worth, least, units};
ghost use Rattle.lagrangian.specs.Pricing.{IsMadeFor, IsPricedFor, row_of};

use crate::goods::goods_value;
use crate::offer::{Offer, ZERO};
use crate::supplier::SupplierPrices;
use crate::suppliers::{price_suppliers, push_places};
use bound_tree::{Row, place_count};
use interval_box::IntervalBox;
use std::alloc::Global;
use std::marker::Model;
use tqd_base::Memory;
use tqd_instance::Job;

/// For prices of the goods the best price of each segment's place in a box, and the cheapest units at them. All prices
/// are in millionths of the currency.
#[derive(Debug, Drop)]
pub struct Pricing {
    good_prices: Vec<i64>,
    found: Vec<SupplierPrices>,
    amount: i128,
    offers: Vec<Offer>,
}

impl Model for Pricing {
    ghost use Rattle.lagrangian.specs.PricingState.{PricingState, IsPricingInRange};

    ghost Value = { PricingState };

    ghost view = { λ p. record { goods = p.good_prices.items; suppliers = p.found.items; value = p.amount } };

    ghost invariant = { λ p. IsPricingInRange p.good_prices.items p.found.items p.amount p.offers.items };
}

impl Pricing {
    /// A pricing for jobs of this size, with all the memory that any box of them needs. Until the first `price` all its
    /// numbers are 0.
    pub fn new(alloc: Global, job: &Job) -> Result<Pricing, Memory>
        ensures { IfOk result (IsMadeFor job.now) }
    {
        let mut found = Vec::with_capacity(alloc, job.suppliers())?;
        for _i in 0..job.suppliers() {
            found.push(SupplierPrices::new(alloc, job.goods())?)?;
        }
        let nothing = Offer {
            level: ZERO,
            cap: 0,
        };
        Ok(Pricing {
            good_prices: vec![in alloc; 0; job.goods()]?,
            found,
            amount: 0,
            offers: vec![in alloc; nothing; job.goods()]?,
        })
    }

    /// Makes it the pricing of these prices of the goods, each within 2 * 10^15 of 0, in a box. It takes no memory.
    pub fn price(&mut self, job: &Job, area: &IntervalBox, goods: &[i64])
        requires made { IsMadeFor job.now self.old }
        requires of_job { IsBoxOf job.now area.now }
        requires prices { AreGoodPrices job.now goods.now }
        ensures { IsPricedFor job.now area.now goods.now self.new }
    {
        self.good_prices.copy_from_slice(goods);
        let paid = price_suppliers(&mut self.found, &mut self.offers, job, area, goods);
        self.amount = goods_value(job, goods) + paid;
    }

    /// The prices of the goods that it is the pricing of.
    pub fn goods(&self) -> &[i64]
        ensures prices { result.now ≡ self.now.goods }
        ensures in_range { All IsGoodPrice result.now }
    {
        &self.good_prices
    }

    /// The value of its row, in millionths of the currency and within 10^30 of 0: no feasible purchase in the box costs
    /// less.
    pub fn value(&self) -> i128
        ensures value { result ≡ self.now.value }
        ensures not_less { neg_ℤ (pos (10 ^ 30)) ≤ℤ result }
        ensures not_more { result ≤ℤ pos (10 ^ 30) }
    {
        self.amount
    }

    /// The price of a segment's place, in millionths a unit of the total.
    #[tactic(auto, unfolding(crate::specs::PricingState::supplier_prices, crate::specs::Priced::place_of))]
    pub fn place(&self, i: usize, j: u8) -> i64
        requires supplier { i < length self.now.suppliers }
        requires segment { j ≤ INTERVALS_MAX }
        ensures value { result ≡ place self.now i j }
        ensures in_range { IsPrice result }
    {
        self.found[i].places[usize::from(j)]
    }

    /// The value of a segment in its row, in millionths and within 10^27 of 0, with the fee; 0 for segment 0.
    #[tactic(auto, unfolding(crate::specs::PricingState::supplier_prices, crate::specs::Priced::worth_of))]
    pub fn worth(&self, i: usize, j: u8) -> i128
        requires supplier { i < length self.now.suppliers }
        requires segment { j ≤ INTERVALS_MAX }
        ensures value { result ≡ worth self.now i j }
        ensures in_range { IsWorth result }
    {
        self.found[i].worths[usize::from(j)]
    }

    /// The first segment of a supplier's range that is worth the least.
    #[tactic(auto, unfolding(crate::specs::PricingState::supplier_prices))]
    pub fn least(&self, i: usize) -> u8
        requires supplier { i < length self.now.suppliers }
        ensures value { result ≡ least self.now i }
        ensures in_range { result ≤ INTERVALS_MAX }
    {
        self.found[i].least
    }

    /// The units of a good that are cheapest in that segment, at most 100,000,000.
    #[tactic(auto, unfolding(crate::specs::PricingState::supplier_prices, crate::specs::Priced::units_of))]
    pub fn units(&self, i: usize, k: usize) -> u64
        requires supplier { i < length self.now.suppliers }
        requires good { k < length self.now.goods }
        ensures value { result ≡ units self.now i k }
        ensures within { result ≤ QTY_MAX }
    {
        self.found[i].units.get(k)
    }

    /// The row of the goods' prices and of the places' prices of a box.
    pub fn row(&self, alloc: Global, job: &Job, area: &IntervalBox) -> Result<Row, Memory>
        requires made { IsMadeFor job.now self.now }
        requires of_job { IsBoxOf job.now area.now }
        ensures { IfOk result (λ row. row ≡ row_of job.now area.now self.now) }
    {
        let mut places = Vec::with_capacity(alloc, place_count(job, area))?;
        for i in 0..job.suppliers() {
            push_places(&mut places, &self.found[i], area, i)?;
        }
        Row::build(alloc, job, area, &self.good_prices, &places)
    }
}
