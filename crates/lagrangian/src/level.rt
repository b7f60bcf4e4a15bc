ghost use Rattle.std.specs.Prelude.{if◌then◌else◌, take, ◌≡◌, ◌*◌, ◌<◌, ◌≤◌, length};
ghost use Rattle.std.specs.List.{filter};
ghost use Rattle.std.specs.List.Sorted.{IsPermutation};
ghost use Rattle.tqd_base.specs.declared.limits.TheConstants.{GOODS_MAX, QTY_MAX};
ghost use Rattle.lagrangian.specs.declared.offer.TheConstants.{TOP};
ghost use Rattle.lagrangian.specs.Levels.{under, units_under, units_up_to, losses_of, is_between, IsBalanced, IsReached};

use crate::offer::{Offer, TOP, ZERO};

/// Units that all count, or none, by whether their level is under another.
#[tactic(auto, unfolding(crate::specs::Levels::under))]
pub(crate) fn under(top: u64, level: u64, cap: u64) -> u64
    ensures value { result ≡ under top level cap }
    ensures within { result ≤ cap }
{
    if level < top { cap } else { 0 }
}

/// How many units lie under a level.
pub(crate) fn units_under(offers: &[Offer], top: u64) -> u64
    requires { length offers.now ≤ GOODS_MAX }
    ensures value { result ≡ units_under top offers.now }
    ensures within { result ≤ GOODS_MAX * QTY_MAX }
{
    let mut units = 0;
    for offer in offers {
        units += under(top, offer.level, offer.cap);
    }
    units
}

/// By how much all units under a level are under it.
pub(crate) fn losses(offers: &[Offer], top: u64) -> u128
    requires few { length offers.now ≤ GOODS_MAX }
    requires top { top ≤ TOP }
    ensures value { result ≡ losses_of top offers.now }
    ensures within { result ≤ GOODS_MAX * (QTY_MAX * TOP) }
{
    let mut sum = 0;
    for offer in offers {
        sum += u128::from(offer.cap) * u128::from(top.saturating_sub(offer.level));
    }
    sum
}

/// 1 for a level from one level up to another, which is left out, else 0.
#[tactic(auto, unfolding(crate::specs::Levels::is_between))]
fn counted(from: u64, to: u64, offer: Offer) -> usize
    ensures { result ≡ (if is_between from to offer then 1 else 0) }
{
    if from <= offer.level && offer.level < to {
        1
    } else {
        0
    }
}

/// Puts those of the first `len` offers whose levels are from one level up to another, which is left out, at the front,
/// and answers how many these are.
fn keep_between(offers: &mut [Offer], len: usize, from: u64, to: u64) -> usize
    requires { len ≤ length offers.old }
    ensures same { IsPermutation offers.old offers.new }
    ensures few { result ≤ len }
    ensures kept { take result offers.new ≡ filter (is_between from to) (take len offers.old) }
{
    let mut count = 0;
    for n in 0..len {
        let offer = offers[n];
        offers.swap(count, n);
        count += counted(from, to, offer);
    }
    count
}

/// The first level up to which so many units are reached, by selection: at each offer that is tried, those on the wrong
/// side of its level are left out. It may change the order of the offers.
fn level_reaching(offers: &mut [Offer], wanted: u64) -> u64
    requires few { length offers.old ≤ GOODS_MAX }
    requires some { 1 ≤ wanted }
    requires enough { wanted ≤ units_under TOP offers.old }
    ensures same { IsPermutation offers.old offers.new }
    ensures reached { IsReached wanted (units_under result offers.old) (units_up_to result offers.old) result }
{
    let mut len = offers.len();
    let mut from = 0;
    let mut to = TOP;
    let mut below = 0;
    'select: loop {
        let tried = offers[len / 2];
        let level = tried.level;
        let under = below + units_under(&offers[..len], level);
        if wanted <= under {
            to = level;
        } else {
            let up_to = below + units_under(&offers[..len], level + 1);
            if wanted <= up_to {
                return level;
            }
            from = level + 1;
            below = up_to;
        }
        len = keep_between(offers, len, from, to);
    }
}

/// The level that balances offers with totals from `low` to `high`, in units. It may change the order of the offers.
pub(crate) fn balanced_level(offers: &mut [Offer], low: u64, high: u64) -> u64
    requires few { length offers.old ≤ GOODS_MAX }
    requires some { 1 ≤ low }
    requires ordered { low ≤ high }
    ensures same { IsPermutation offers.old offers.new }
    ensures level { IsBalanced (units_under result offers.new) (units_up_to result offers.new) low high result }
{
    let below = units_under(offers, ZERO);
    if low <= below && below <= high {
        return ZERO;
    }
    if units_under(offers, TOP) < low {
        return TOP;
    }
    level_reaching(offers, if high < below { high } else { low })
}
