//! What the parts state of one supplier.
ghost use Rattle.std.specs.Prelude.{◌≡◌, ◌<◌, ◌≤◌, ◌==◌, ℕ, IfOk, All, length, map, filter, find, false, slice_index_or};
ghost use Rattle.tqd_instance.specs.Parts.{AreFroms, IsWellFormed};
ghost use Rattle.tqd_instance.specs.Built.{offers, price_stated, stock_of};
ghost use Rattle.tqd_instance.specs.Rows.{rows_of, first_value, AreValues};

use crate::list::Numbers;
use crate::parts::{JobParts, PriceRow};
use std::alloc::Global;
use tqd_base::Memory;
use tqd_base::limits::QTY_MAX;

/// The price rows of a supplier.
pub fn rows_of(alloc: Global, parts: &JobParts, i: u32) -> Result<Vec<PriceRow>, Memory>
    ensures { IfOk result (λ rows. rows.items ≡ rows_of parts.now i) }
{
    let rows = parts
        .prices()
        .iter()
        .copied()
        .filter(|r| r.supplier == i)
        .collect(alloc)?;
    Ok(rows)
}

/// The numbers at which the intervals of a supplier begin, from its price rows.
pub fn froms_of(
    alloc: Global,
    parts: &JobParts,
    i: u32,
    rows: &[PriceRow],
) -> Result<Vec<u64>, Memory>
    requires { rows.now ≡ rows_of parts.now i }
    ensures { IfOk result (λ froms. AreFroms parts.now i froms.items) }
{
    let mut froms: Vec<u64> = rows.iter().map(|r| r.from).collect(alloc)?;
    froms.sort_unstable();
    froms.dedup();
    Ok(froms)
}

/// The value of the first pair of each good.
pub fn first_values(
    alloc: Global,
    pairs: &[(u32, u64)],
    goods: usize,
) -> Result<Vec<Option<u64>>, Memory>
    requires { All (λ e. e.0 < goods) pairs.now }
    ensures { IfOk result (λ values. AreValues goods None (first_value pairs.now) values.items) }
{
    let mut values: Vec<Option<u64>> = vec![in alloc; None; goods]?;
    for (good, value) in pairs {
        let at = *good as usize;
        if values[at].is_none() {
            values[at] = Some(*value);
        }
    }
    Ok(values)
}

fn goods_with_prices(alloc: Global, rows: &[PriceRow], from: u64) -> Result<Vec<(u32, u64)>, Memory>
    ensures { IfOk result (λ pairs. pairs.items ≡ map (λ r. (r.good, r.price)) (filter (λ r. r.from == from) rows.now)) }
{
    let pairs = rows
        .iter()
        .filter(|r| r.from == from)
        .map(|r| (r.good, r.price))
        .collect(alloc)?;
    Ok(pairs)
}

/// The prices of a supplier's goods in the interval that begins at `from`, where they are stated.
pub fn prices_at(
    alloc: Global,
    parts: &JobParts,
    i: u32,
    rows: &[PriceRow],
    from: u64,
) -> Result<Vec<Option<u64>>, Memory>
    requires formed { IsWellFormed parts.now }
    requires rows { rows.now ≡ rows_of parts.now i }
    ensures { IfOk result (λ prices. AreValues (length parts.now.needs) None (price_stated parts.now i from) prices.items) }
{
    let pairs = goods_with_prices(alloc, rows, from)?;
    let prices = first_values(alloc, &pairs, parts.needs().len())?;
    Ok(prices)
}

/// Which goods a supplier offers in any interval.
pub fn offers_of(
    alloc: Global,
    parts: &JobParts,
    i: u32,
    rows: &[PriceRow],
) -> Result<Vec<bool>, Memory>
    requires formed { IsWellFormed parts.now }
    requires rows { rows.now ≡ rows_of parts.now i }
    ensures { IfOk result (λ offered. AreValues (length parts.now.needs) false (offers parts.now i) offered.items) }
{
    let mut offered: Vec<bool> = vec![in alloc; false; parts.needs().len()]?;
    for row in rows {
        offered[row.good as usize] = true;
    }
    Ok(offered)
}
