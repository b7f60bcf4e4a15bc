//! The segments of a supplier: its intervals, cut to its share and total terms.
ghost use Rattle.std.specs.Prelude.{◌≡◌, ◌+◌, ◌*◌, ◌<◌, All, drop, ◌≤◌, IfOk, find, ◌==◌, length, sum, IfSome};
ghost use Rattle.tqd_instance.specs.Parts.{AreFroms, IsShareRow, IsWellFormed};
ghost use Rattle.tqd_instance.specs.Built.{
  FewGoods,
  end_before,
  limits_of,
  nothing_segment,
  segments_of,
  table,
};
ghost use Rattle.tqd_instance.specs.Rows.{price_or_zero, rows_of, share_most};

use crate::list::Numbers;
use crate::offers::prices_at;
use crate::parts::{JobParts, PriceRow, ShareRow, TotalRow};
use crate::supplier::{Segment, Segments};
use std::alloc::Global;
use tqd_base::Memory;
use tqd_base::limits::QTY_MAX;

/// The segments of a supplier whose intervals begin at these numbers.
pub fn segments_of(
    alloc: Global,
    parts: &JobParts,
    i: u32,
    rows: &[PriceRow],
    froms: &[u64],
) -> Result<Segments, Memory>
    requires formed { IsWellFormed parts.now }
    requires few { FewGoods parts.now }
    requires rows { rows.now ≡ rows_of parts.now i }
    requires froms { AreFroms parts.now i froms.now }
    ensures { IfOk result (λ segments. segments ≡ segments_of parts.now i froms.now) }
{
    let least = least_total(parts, i);
    let most = most_total(parts, i);
    let mut segments = Vec::new(alloc);
    segments.push(nothing_segment(alloc, parts)?)?;
    for at in 0..froms.len() {
        let end = end_before(froms, at);
        let low = least.max(froms[at]);
        let high = most.min(end);
        if low <= high {
            let prices = prices_or_zero(alloc, parts, i, rows, froms[at])?;
            segments.push(Segment::new(low, high, prices))?;
        }
    }
    Ok(Segments::of(segments))
}

fn end_before(froms: &[u64], at: usize) -> u64
    requires at { at < length froms.now }
    requires some { All (λ from. 1 ≤ from) froms.now }
    ensures { result ≡ end_before (drop (at + 1) froms.now) }
{
    if at + 1 < froms.len() {
        froms[at + 1] - 1
    } else {
        QTY_MAX
    }
}

#[tactic(auto, unfolding(crate::specs::Built::nothing_segment))]
fn nothing_segment(alloc: Global, parts: &JobParts) -> Result<Segment, Memory>
    ensures { IfOk result (λ segment. segment ≡ nothing_segment parts.now) }
{
    let prices = Numbers::zeros(alloc, parts.needs().len())?;
    Ok(Segment::new(0, 0, prices))
}

#[tactic(auto, using(crate::proofs::Tables::tables), unfolding(crate::specs::Rows::price_or_zero))]
fn prices_or_zero(
    alloc: Global,
    parts: &JobParts,
    i: u32,
    rows: &[PriceRow],
    from: u64,
) -> Result<Numbers, Memory>
    requires formed { IsWellFormed parts.now }
    requires rows { rows.now ≡ rows_of parts.now i }
    ensures { IfOk result (λ prices. prices
        ≡ table (length parts.now.needs) (price_or_zero parts.now i from)) }
{
    let stated = prices_at(alloc, parts, i, rows, from)?;
    let mut prices = Vec::with_capacity(alloc, stated.len())?;
    for k in 0..stated.len() {
        prices.push(stated[k].unwrap_or(0))?;
    }
    Ok(Numbers::of(prices))
}

#[tactic(auto, unfolding(crate::specs::Built::limits_of))]
fn least_total(parts: &JobParts, i: u32) -> u64
    requires formed { IsWellFormed parts.now }
    requires few { FewGoods parts.now }
    ensures { result ≡ (limits_of parts.now i).least }
{
    let all = needs_sum(parts);
    match share_of(parts, i) {
        Some(row) => (row.low * all + 999) / 1000,
        None => 0,
    }
}

#[tactic(auto, unfolding(crate::specs::Built::limits_of, crate::specs::Rows::share_most))]
fn most_total(parts: &JobParts, i: u32) -> u64
    requires formed { IsWellFormed parts.now }
    requires few { FewGoods parts.now }
    ensures { result ≡ (limits_of parts.now i).most }
{
    let share = share_most(parts, i);
    match total_of(parts, i) {
        Some(row) => row.units.min(share),
        None => QTY_MAX.min(share),
    }
}

#[tactic(auto, unfolding(crate::specs::Rows::share_most))]
fn share_most(parts: &JobParts, i: u32) -> u64
    requires formed { IsWellFormed parts.now }
    requires few { FewGoods parts.now }
    ensures { result ≡ share_most parts.now i }
{
    let all = needs_sum(parts);
    match share_of(parts, i) {
        Some(row) => match row.high {
            Some(high) => high * all / 1000,
            None => QTY_MAX,
        },
        None => QTY_MAX,
    }
}

/// The sum of the needs, at most 10^11 units.
pub fn needs_sum(parts: &JobParts) -> u64
    requires formed { IsWellFormed parts.now }
    requires few { FewGoods parts.now }
    ensures value { result ≡ sum parts.now.needs }
    ensures within { result ≤ 1000 * QTY_MAX }
{
    let mut all = 0;
    for need in parts.needs() {
        all += *need;
    }
    all
}

fn share_of(parts: &JobParts, i: u32) -> Option<ShareRow>
    requires { IsWellFormed parts.now }
    ensures value { result ≡ find (λ r. r.supplier == i) parts.now.shares }
    ensures formed { IfSome result (λ row. IsShareRow parts.now.suppliers row) }
{
    parts.shares().iter().copied().find(|r| r.supplier == i)
}

fn total_of(parts: &JobParts, i: u32) -> Option<TotalRow>
    ensures { result ≡ find (λ r. r.supplier == i) parts.now.totals }
{
    parts.totals().iter().copied().find(|r| r.supplier == i)
}
