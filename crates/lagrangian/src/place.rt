ghost use Rattle.std.specs.Prelude.{ℤ, pos, ◌≡◌, ◌+◌, ◌-◌, ◌*◌, ◌<◌, ◌≤◌, ◌-ℤ◌, length};
ghost use Rattle.tqd_base.specs.declared.limits.TheConstants.{GOODS_MAX, PRICE_MAX, QTY_MAX};
ghost use Rattle.tqd_instance.specs.Job.{goods, suppliers, segments};
ghost use Rattle.lagrangian.specs.declared.offer.TheConstants.{ZERO, TOP};
ghost use Rattle.lagrangian.specs.Levels.{losses_of};
ghost use Rattle.lagrangian.specs.Priced.{IsWorth, AreGoodPrices, IsFoundPlace};

use crate::gather::gather;
use crate::level::{balanced_level, losses};
use crate::offer::{Offer, ZERO};
use tqd_instance::Job;

/// What a segment with these offers, fee, low and high is worth at the place price that a level stands for.
fn worth_at(offers: &[Offer], fee: u64, low: u64, high: u64, level: u64) -> i128
    requires few { length offers.now ≤ GOODS_MAX }
    requires fee { fee ≤ PRICE_MAX }
    requires low { low ≤ QTY_MAX }
    requires high { high ≤ QTY_MAX }
    requires level { level ≤ TOP }
    ensures value { result
        ≡ pos (fee + (level - ZERO) * low) -ℤ pos (losses_of level offers.now + (ZERO - level) * high) }
    ensures in_range { IsWorth result }
{
    let paid = u128::from(fee) + u128::from(level.saturating_sub(ZERO)) * u128::from(low);
    let saved = losses(offers, level) + u128::from(ZERO.saturating_sub(level)) * u128::from(high);
    paid as i128 - saved as i128
}

/// The best price of the place of a segment in which something is bought, and what the segment is worth there.
fn found_place(offers: &mut [Offer], job: &Job, good_prices: &[i64], i: usize, j: u8) -> (i64, i128)
    requires room { length offers.old ≡ goods job.now }
    requires prices { AreGoodPrices job.now good_prices.now }
    requires supplier { i < suppliers job.now }
    requires some { 1 ≤ j }
    requires segment { j ≤ segments job.now i }
    ensures len { length offers.new ≡ length offers.old }
    ensures found { IsFoundPlace job.now good_prices.now i j result.0 result.1 }
{
    let count = gather(offers, job, good_prices, i, j);
    let offers = &mut offers[..count];
    let (low, high) = (job.low(i, j), job.high(i, j));
    let level = balanced_level(offers, low, high);
    let worth = worth_at(offers, job.fee(i), low, high, level);
    (level as i64 - ZERO as i64, worth)
}

/// The best price of a segment's place, and what the segment is worth there: both are 0 for segment 0.
pub(crate) fn best_place(
    offers: &mut [Offer],
    job: &Job,
    good_prices: &[i64],
    i: usize,
    j: u8,
) -> (i64, i128)
    requires room { length offers.old ≡ goods job.now }
    requires prices { AreGoodPrices job.now good_prices.now }
    requires supplier { i < suppliers job.now }
    requires segment { j ≤ segments job.now i }
    ensures len { length offers.new ≡ length offers.old }
    ensures found { IsFoundPlace job.now good_prices.now i j result.0 result.1 }
{
    if j == 0 {
        return (0, 0);
    }
    found_place(offers, job, good_prices, i, j)
}
