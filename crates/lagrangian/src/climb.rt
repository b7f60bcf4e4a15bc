ghost use Rattle.std.specs.Prelude.{ℕ, ◌≡◌, ◌+◌, ◌*◌, ◌/◌, ◌<◌, ◌≤◌, ◌↔◌, IfOk, IfSome, IsSome, IsNone};
ghost use Rattle.std.specs.List.{All};
ghost use Rattle.tqd_base.specs.declared.limits.TheConstants.{GOODS_MAX, QTY_MAX};
ghost use Rattle.tqd_base.specs.Sum.{sum_to};
ghost use Rattle.tqd_instance.specs.declared.job.Job.{Job};
ghost use Rattle.tqd_instance.specs.Job.{goods, suppliers};
ghost use Rattle.interval_box.specs.declared.boxes.IntervalBox.{IntervalBox};
ghost use Rattle.interval_box.specs.Ranges.{IsBoxOf};
ghost use Rattle.bound_tree.specs.Value.{cap};
ghost use Rattle.lagrangian.specs.Priced.{IsGoodPrice};
ghost use Rattle.lagrangian.specs.Pricing.{IsMadeFor, IsPricedFor};
ghost use Rattle.lagrangian.specs.Bundle.{AreWholeIn};
ghost use Rattle.lagrangian.specs.Climbing.{
  Reaches,
  NoRowIsAbove,
  goods_of,
  weight_of,
  weighted_of,
  IsClimberOf,
  IsMixedIn,
};
ghost use Rattle.lagrangian.specs.Rounds.{IsBelow, IsBestValue, IsRisen, IsPricedAbove};

use crate::bundle::Bundle;
use crate::first_prices::first_prices;
use crate::pricing::Pricing;
use crate::scale::{Pace, coarse_bits, fine_bits, gap, next_step, reaches};
use crate::weights::WHOLE;
use interval_box::IntervalBox;
use std::alloc::Global;
use std::mem::swap;
use tqd_base::Memory;
use tqd_instance::Job;

/// How many rounds a climb has at most.
const ROUNDS_MAX: u64 = 40;

/// After how many rounds in a row that gain little a climb stops.
const FLAT_MAX: u64 = 4;

/// The step of the first climb.
const FIRST_STEP: u64 = 16_777_216;

/// How a climb ended: its bound reached the target, or it stopped before.
#[derive(Clone, Copy, Debug, PartialEq, Eq)]
pub enum Climb {
    Reached,
    Stopped,
}

/// Raises prices of the goods towards the best bound of a box by a proximal bundle (Kiwiel 1990; Frangioni 2002): from
/// the prices that are best so far it goes one step along what a mixture of purchases lacks of the needs, and mixes
/// anew with the cheapest purchases at the prices that it tried. The prices, the step and the columns that are mixed
/// stay from box to box. All memory is taken when it is made.
#[derive(Debug, Drop)]
pub struct Climber {
    goods: Vec<i64>,
    tried: Vec<i64>,
    bundle: Bundle,
    step: u64,
    fine: u32,
    coarse: Option<u32>,
}

impl Climber {
    /// A climber for boxes of a job, at the least price of each good, with no columns.
    pub fn new(alloc: Global, job: &Job) -> Result<Climber, Memory>
        ensures { IfOk result (IsClimberOf job.now) }
    {
        Ok(Climber {
            goods: first_prices(alloc, job)?,
            tried: first_prices(alloc, job)?,
            bundle: Bundle::new(alloc, job)?,
            step: FIRST_STEP,
            fine: fine_bits(job),
            coarse: None,
        })
    }

    /// Raises the prices of the goods until their value in the box is at least the target, or little is gained. It
    /// takes no memory. At its end the pricing is that of the climber's prices in the box.
    pub fn climb(
        &mut self,
        job: &Job,
        area: &IntervalBox,
        pricing: &mut Pricing,
        target: Option<u128>,
    ) -> Climb
        requires of_job { IsBoxOf job.now area.now }
        requires made { IsClimberOf job.now self.old }
        requires pricing_made { IsMadeFor job.now pricing.old }
        ensures made { IsClimberOf job.now self.new }
        ensures priced { IsPricedFor job.now area.now (goods_of self.new) pricing.new }
        ensures reached { (result ≡ Climb.Reached) ↔ Reaches target pricing.new.value }
        ensures not_lower { NoRowIsAbove job.now area.now (goods_of self.old) pricing.new.value }
        ensures mixed { result ≡ Climb.Stopped → IsMixedIn job.now area.now self.new }
    {
        self.bundle.confine(job, area);
        pricing.price(job, area, &self.goods);
        if reaches(pricing.value(), target) {
            return Climb::Reached;
        }
        self.measure(job, pricing, target);
        self.bundle.add(job, area, pricing);
        self.rise(job, area, pricing, target)
    }

    /// Sets what a step is worth, in the first climb that comes so far.
    fn measure(&mut self, job: &Job, pricing: &Pricing, target: Option<u128>)
        requires made { IsMadeFor job.now pricing.now }
        ensures goods { self.new.goods ≡ self.old.goods }
        ensures tried { self.new.tried ≡ self.old.tried }
        ensures bundle { self.new.bundle ≡ self.old.bundle }
    {
        if self.coarse.is_none() {
            let gap = gap(pricing.value(), target, 20).max(1);
            self.coarse = Some(coarse_bits(missed(job, pricing), gap));
        }
    }

    /// The rounds of a climb, from a mixture of columns of the box.
    fn rise(
        &mut self,
        job: &Job,
        area: &IntervalBox,
        pricing: &mut Pricing,
        target: Option<u128>,
    ) -> Climb
        requires of_job { IsBoxOf job.now area.now }
        requires made { IsClimberOf job.now self.old }
        requires whole { AreWholeIn job.now area.now self.old.bundle }
        requires priced { IsPricedFor job.now area.now (goods_of self.old) pricing.old }
        requires below { IsBelow target pricing.old.value }
        ensures made { IsClimberOf job.now self.new }
        ensures priced { IsPricedFor job.now area.now (goods_of self.new) pricing.new }
        ensures reached { (result ≡ Climb.Reached) ↔ Reaches target pricing.new.value }
        ensures not_lower { NoRowIsAbove job.now area.now (goods_of self.old) pricing.new.value }
        ensures mixed { result ≡ Climb.Stopped → IsMixedIn job.now area.now self.new }
    {
        let mut best = pricing.value();
        let mut flat = 0;
        for _ in 0..ROUNDS_MAX {
            let gap = gap(best, target, 100);
            let Some(value) = self.round(job, area, pricing, target, best, gap) else {
                return Climb::Reached;
            };
            self.step = next_step(self.step, value > best);
            flat = flat_after(flat, is_steep(value, best, gap));
            best = value;
            if flat >= FLAT_MAX {
                break;
            }
        }
        pricing.price(job, area, &self.goods);
        Climb::Stopped
    }

    /// A round: tries prices one step on, and goes there where they are better. It answers the best value then, or None
    /// where what was tried reaches the target.
    fn round(
        &mut self,
        job: &Job,
        area: &IntervalBox,
        pricing: &mut Pricing,
        target: Option<u128>,
        best: i128,
        gap: i128,
    ) -> Option<i128>
        requires of_job { IsBoxOf job.now area.now }
        requires made { IsClimberOf job.now self.old }
        requires whole { AreWholeIn job.now area.now self.old.bundle }
        requires pricing_made { IsMadeFor job.now pricing.old }
        requires at_best { IsBestValue job.now area.now (goods_of self.old) best }
        requires below { IsBelow target best }
        ensures made { IsClimberOf job.now self.new }
        ensures pricing_made { IsMadeFor job.now pricing.new }
        ensures reached { IsNone result → IsPricedAbove job.now area.now (goods_of self.new) target best pricing.new }
        ensures risen { IfSome result (IsRisen job.now area.now (goods_of self.new) target best) }
        ensures whole { IsSome result → AreWholeIn job.now area.now self.new.bundle }
    {
        self.aim(gap);
        pricing.price(job, area, &self.tried);
        let value = pricing.value();
        if reaches(value, target) {
            swap(&mut self.goods, &mut self.tried);
            return None;
        }
        self.bundle.add(job, area, pricing);
        if value <= best {
            return Some(best);
        }
        swap(&mut self.goods, &mut self.tried);
        Some(value)
    }

    /// Writes the prices that are tried next.
    fn aim(&mut self, gap: i128)
        requires { All IsGoodPrice self.old.tried.items }
        ensures goods { self.new.goods ≡ self.old.goods }
        ensures made { (job : Job) → IsClimberOf job self.old → IsClimberOf job self.new }
        ensures whole { (job : Job) (area : IntervalBox) → IsClimberOf job self.old
            → AreWholeIn job area self.old.bundle → AreWholeIn job area self.new.bundle }
    {
        let pace = Pace {
            step: self.step,
            fine: self.fine,
            coarse: self.coarse.unwrap_or(0),
        };
        self.bundle.aim(&self.goods, pace, gap, &mut self.tried);
    }

    /// The prices of the goods, in millionths of the currency a unit.
    pub fn goods(&self) -> &[i64]
        ensures { result.now ≡ goods_of self.now }
    {
        &self.goods
    }

    /// The weight of the columns of a supplier's segment, in parts of 2^30.
    pub fn weight(&self, _job: &Job, i: usize, j: u8) -> u64
        requires made { IsClimberOf _job.now self.now }
        requires supplier { i < suppliers _job.now }
        ensures value { result ≡ weight_of self.now i j }
        ensures within { result ≤ WHOLE }
    {
        self.bundle.supplier(i).weight(j)
    }

    /// The units of a good from a supplier by the weights of its columns, in parts of 2^30: at most as often what the
    /// supplier can sell.
    pub fn weighted(&self, _job: &Job, i: usize, k: usize) -> u64
        requires made { IsClimberOf _job.now self.now }
        requires supplier { i < suppliers _job.now }
        requires good { k < goods _job.now }
        ensures value { result ≡ weighted_of self.now i k }
        ensures within { result ≤ cap _job.now i k * WHOLE }
        ensures small { result ≤ QTY_MAX * WHOLE }
    {
        self.bundle.supplier(i).weighted(k)
    }

    /// Those of all goods together.
    pub fn weighted_total(&self, job: &Job, i: usize) -> u128
        requires made { IsClimberOf job.now self.now }
        requires supplier { i < suppliers job.now }
        ensures value { result ≡ sum_to (goods job.now) (weighted_of self.now i) }
        ensures within { result ≤ GOODS_MAX * (QTY_MAX * WHOLE) }
    {
        let mut sum = 0;
        for k in 0..job.goods() {
            sum += u128::from(self.weighted(job, i, k));
        }
        sum
    }

    /// Those of all goods together in whole units, rounded.
    pub fn rounded_total(&self, job: &Job, i: usize) -> u64
        requires made { IsClimberOf job.now self.now }
        requires supplier { i < suppliers job.now }
        ensures { result ≡ (sum_to (goods job.now) (weighted_of self.now i) + WHOLE / 2) / WHOLE }
    {
        let whole = u128::from(WHOLE);
        ((self.weighted_total(job, i) + whole / 2) / whole) as u64
    }

    /// What the columns of a supplier cost by their weights, with the fee, in millionths of the currency and parts of
    /// 2^30. No clause speaks of it: it wraps where that is beyond its type.
    pub fn weighted_cost(&self, _job: &Job, i: usize) -> i128
        requires made { IsClimberOf _job.now self.now }
        requires supplier { i < suppliers _job.now }
    {
        self.bundle.supplier(i).weighted_cost()
    }
}

/// How many rounds in a row gained little.
fn flat_after(flat: u64, steep: bool) -> u64
    requires { flat < FLAT_MAX }
    ensures { result ≤ FLAT_MAX }
{
    if steep { 0 } else { flat + 1 }
}

/// Whether a round gained more than 3 % of the gap.
fn is_steep(value: i128, best: i128, gap: i128) -> bool {
    value.saturating_sub(best).saturating_mul(1000) > gap.saturating_mul(30)
}

/// The sum of the squares of what the units of a pricing miss the needs by, and 1.
fn missed(job: &Job, pricing: &Pricing) -> u128
    requires { IsMadeFor job.now pricing.now }
{
    let mut sum: u128 = 1;
    for k in 0..job.goods() {
        let apart = u128::from(bought(job, pricing, k).abs_diff(job.need(k)));
        sum = sum.wrapping_add(apart.wrapping_mul(apart));
    }
    sum
}

/// The units of a good that a pricing has of all suppliers.
fn bought(job: &Job, pricing: &Pricing, k: usize) -> u64
    requires made { IsMadeFor job.now pricing.now }
    requires good { k < goods job.now }
{
    let mut sum: u64 = 0;
    for i in 0..job.suppliers() {
        sum = sum.wrapping_add(pricing.units(i, k));
    }
    sum
}
