//! Whether a supplier lacks a price: it offers a good in another of its intervals, and not in this one.
ghost use Rattle.std.specs.Prelude.{◌≡◌, ℕ, IfOk, MatchOption, length, false, Contains};
ghost use Rattle.tqd_instance.specs.Parts.{AreFroms, IsWellFormed, froms_stated};
ghost use Rattle.tqd_instance.specs.Built.{offers, FewGoods};
ghost use Rattle.tqd_instance.specs.Rows.{
  rows_of,
  AreValues,
  HasNoMissing,
  IsFirstMissing,
  LacksNoneAt,
  IsFirstLackAt,
  LacksNoneOf,
  IsFirstLackOf,
};

use crate::offers::prices_at;
use crate::parts::{JobParts, PriceRow};
use std::alloc::Global;
use tqd_base::Memory;

/// The beginning of the first interval in which a supplier lacks a price, and the first good that it lacks there.
pub fn first_lack(
    alloc: Global,
    parts: &JobParts,
    i: u32,
    rows: &[PriceRow],
    froms: &[u64],
    offered: &[bool],
) -> Result<Option<(u64, u32)>, Memory>
    requires formed { IsWellFormed parts.now }
    requires few { FewGoods parts.now }
    requires rows { rows.now ≡ rows_of parts.now i }
    requires froms { AreFroms parts.now i froms.now }
    requires offered { AreValues (length parts.now.needs) false (offers parts.now i) offered.now }
    ensures { IfOk result (λ lack. MatchOption lack
        (LacksNoneOf parts.now i)
        (λ found. IsFirstLackOf parts.now i found.0 found.1)) }
{
    for from in froms {
        if let Some(good) = lack_at(alloc, parts, i, rows, *from, offered)? {
            return Ok(Some((*from, good)));
        }
    }
    Ok(None)
}

fn lack_at(
    alloc: Global,
    parts: &JobParts,
    i: u32,
    rows: &[PriceRow],
    from: u64,
    offered: &[bool],
) -> Result<Option<u32>, Memory>
    requires formed { IsWellFormed parts.now }
    requires few { FewGoods parts.now }
    requires rows { rows.now ≡ rows_of parts.now i }
    requires from { Contains (froms_stated parts.now i) from }
    requires offered { AreValues (length parts.now.needs) false (offers parts.now i) offered.now }
    ensures { IfOk result (λ good. MatchOption good
        (LacksNoneAt parts.now i from)
        (λ k. IsFirstLackAt parts.now i from k)) }
{
    let prices = prices_at(alloc, parts, i, rows, from)?;
    match first_missing(offered, &prices) {
        Some(k) => Ok(Some(k as u32)),
        None => Ok(None),
    }
}

fn first_missing(offered: &[bool], prices: &[Option<u64>]) -> Option<usize>
    requires { length prices.now ≡ length offered.now }
    ensures { MatchOption result
        (HasNoMissing offered.now prices.now)
        (λ k. IsFirstMissing offered.now prices.now k) }
{
    for k in 0..offered.len() {
        if offered[k] && prices[k].is_none() {
            return Some(k);
        }
    }
    None
}
