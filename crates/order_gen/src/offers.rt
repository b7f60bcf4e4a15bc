ghost use Rattle.std.specs.Prelude.{◌≡◌, ◌+◌, ◌*◌, ◌<◌, ◌≤◌, ◌++◌, OnOk};
ghost use Rattle.tqd_base.specs.declared.limits.TheConstants.{GOODS_MAX};
ghost use Rattle.order_gen.specs.Draws.{state_after};
ghost use Rattle.order_gen.specs.GenParts.{base_price, discounts_from, good_offers, starts_by, supplier_offers};

use crate::draws::Draws;
use std::alloc::Global;
use tqd_base::Memory;
use tqd_instance::{JobParts, PriceRow};

/// Where the second and the third interval of each supplier begin.
#[derive(Clone, Copy)]
pub(crate) struct Starts {
    second: u64,
    third: u64,
}

impl Starts {
    /// By the sum of the needs and the number of suppliers.
    #[tactic(auto, unfolding(crate::specs::GenParts::starts_by))]
    pub(crate) fn by(sum: u64, suppliers: u64) -> Starts
        requires sum { sum ≤ GOODS_MAX * 1000 }
        requires some { 1 ≤ suppliers }
        requires few { suppliers ≤ 64 }
        ensures { result ≡ starts_by sum suppliers }
    {
        Starts {
            second: sum / (2 * suppliers) + 2,
            third: sum / suppliers + 3,
        }
    }
}

/// How many hundredths the second and the third interval of a supplier are cheaper than the first.
#[derive(Clone, Copy)]
struct Discounts {
    second: u64,
    third: u64,
}

impl Discounts {
    #[tactic(auto, unfolding(crate::specs::GenParts::discounts_from))]
    fn drawn(draws: &mut Draws) -> Discounts
        ensures value { result ≡ discounts_from draws.old.state }
        ensures second { result.second ≤ 5 }
        ensures third { result.third ≤ 10 }
        ensures draws { draws.new.state ≡ state_after draws.old.state 2 }
    {
        let second = 1 + draws.below(5);
        let third = second + 1 + draws.below(5);
        Discounts { second, third }
    }
}

/// Draws the discounts of a supplier and its base prices, and adds its offers of each good.
pub(crate) fn draw_supplier(
    parts: &mut JobParts,
    draws: &mut Draws,
    supplier: u32,
    starts: &Starts,
    goods: u32,
) -> Result<(), Memory>
    ensures parts { OnOk result (parts.new
        ≡ record parts.old { prices = parts.old.prices ++ supplier_offers draws.old.state supplier starts.now goods }) }
    ensures draws { OnOk result (draws.new.state ≡ state_after draws.old.state (2 + goods)) }
{
    let discounts = Discounts::drawn(draws);
    for good in 0..goods {
        let base = 10_000 + draws.below(10_000);
        add_good(parts, supplier, starts, &discounts, good, base)?;
    }
    Ok(())
}

/// Adds the offers of a good by a supplier, in its three intervals.
#[tactic(auto, unfolding(crate::specs::GenParts::good_offers))]
fn add_good(
    parts: &mut JobParts,
    supplier: u32,
    starts: &Starts,
    discounts: &Discounts,
    good: u32,
    base: u64,
) -> Result<(), Memory>
    requires base { base < 20000 }
    requires second { discounts.now.second ≤ 5 }
    requires third { discounts.now.third ≤ 10 }
    ensures { OnOk result (parts.new
        ≡ record parts.old { prices = parts.old.prices ++ good_offers supplier starts.now discounts.now good base }) }
{
    let full = 100 * base;
    let second = full - base * discounts.second;
    let third = full - base * discounts.third;
    parts.add_price(PriceRow {
        supplier,
        from: 1,
        good,
        price: full,
    })?;
    parts.add_price(PriceRow {
        supplier,
        from: starts.second,
        good,
        price: second,
    })?;
    parts.add_price(PriceRow {
        supplier,
        from: starts.third,
        good,
        price: third,
    })?;
    Ok(())
}
