ghost use Rattle.std.specs.Prelude.{ℕ, ℤ, pos, ◌≡◌, ◌+◌, ◌-◌, ◌<◌, ◌≤◌, ◌+ℤ◌, max, min, ◌==◌, length, slice_index};
ghost use Rattle.std.specs.List.{All};
ghost use Rattle.tqd_base.specs.declared.limits.TheConstants.{QTY_MAX};
ghost use Rattle.tqd_instance.specs.Job.{goods, suppliers, segments};
ghost use Rattle.bound_tree.specs.Prices.{IsPrice};
ghost use Rattle.bound_tree.specs.Value.{cap, charges_of, segment_value};
ghost use Rattle.lagrangian.specs.declared.offer.TheConstants.{ZERO, TOP};
ghost use Rattle.lagrangian.specs.Levels.{filled};
ghost use Rattle.lagrangian.specs.Priced.{AreGoodPrices, level_of, IsFoundPlace, AreCheapest};
ghost use Rattle.lagrangian.specs.Filling.{tied, AreFilled};

use crate::gather::{cap_of, gather, level_of};
use crate::level::{under, units_under};
use crate::offer::{Offer, ZERO};
use tqd_instance::{Job, Numbers};

/// How many units a balanced level calls for, with so many under it.
#[tactic(auto, unfolding(crate::specs::Levels::filled))]
fn filled(below: u64, low: u64, high: u64, level: u64) -> u64
    ensures { result ≡ filled below low high level }
{
    if level < ZERO {
        high
    } else if ZERO < level {
        low
    } else {
        below.max(low)
    }
}

/// Units at the very level.
#[tactic(auto, unfolding(crate::specs::Filling::tied))]
fn tied(top: u64, level: u64, cap: u64) -> u64
    ensures value { result ≡ tied top level cap }
    ensures within { result ≤ cap }
{
    if level == top { cap } else { 0 }
}

/// Takes all units under a level, and of those at the level as many as are spare, those of earlier goods first.
fn fill_to(
    units: &mut Numbers,
    job: &Job,
    good_prices: &[i64],
    i: usize,
    j: u8,
    top: u64,
    spare: u64,
)
    requires room { length units.old ≡ goods job.now }
    requires prices { AreGoodPrices job.now good_prices.now }
    requires supplier { i < suppliers job.now }
    requires some { 1 ≤ j }
    requires segment { j ≤ segments job.now i }
    ensures { AreFilled (goods job.now) (level_of job.now good_prices.now i j) (cap job.now i) top spare units.new }
{
    let prices = job.prices(i, j);
    let mut spare = spare;
    for k in 0..job.goods() {
        let level = level_of(prices[k], good_prices[k]);
        let cap = cap_of(job, i, k);
        let tie = tied(top, level, cap);
        units.set(k, under(top, level, cap) + tie.min(spare));
        spare = spare.saturating_sub(tie);
    }
}

/// Takes nothing.
fn clear(units: &mut Numbers)
    ensures len { length units.new ≡ length units.old }
    ensures none { (k : ℕ) → k < length units.old → slice_index units.new k ≡ 0 }
{
    for k in 0..units.len() {
        units.set(k, 0);
    }
}

/// The level that a place's price stands for.
fn level_for(place: i64) -> u64
    requires { IsPrice place }
    ensures value { pos result ≡ pos ZERO +ℤ place }
    ensures within { result ≤ TOP }
{
    (ZERO as i64 + place) as u64
}

/// The cheapest units of a supplier in a segment whose place has the best price.
pub(crate) fn fill(
    units: &mut Numbers,
    offers: &mut [Offer],
    job: &Job,
    good_prices: &[i64],
    i: usize,
    j: u8,
    place: i64,
)
    requires room { length offers.old ≡ goods job.now }
    requires goods { length units.old ≡ goods job.now }
    requires prices { AreGoodPrices job.now good_prices.now }
    requires supplier { i < suppliers job.now }
    requires segment { j ≤ segments job.now i }
    requires found { IsFoundPlace job.now good_prices.now i j place
        (segment_value (charges_of job.now) job.now good_prices.now place i j) }
    ensures len { length offers.new ≡ length offers.old }
    ensures goods { length units.new ≡ goods job.now }
    ensures within { All (λ n. n ≤ QTY_MAX) units.new }
    ensures cheapest { AreCheapest job.now good_prices.now i j (slice_index units.new)
        (segment_value (charges_of job.now) job.now good_prices.now place i j) }
{
    if j == 0 {
        clear(units);
        return;
    }
    let level = level_for(place);
    let count = gather(offers, job, good_prices, i, j);
    let below = units_under(&offers[..count], level);
    let wanted = filled(below, job.low(i, j), job.high(i, j), level);
    fill_to(units, job, good_prices, i, j, level, wanted - below);
}
