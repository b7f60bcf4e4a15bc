//! A supplier of the job, from what the parts state of it.
ghost use Rattle.std.specs.Prelude.{◌≡◌, if◌then◌else◌, ◌<◌, ◌==◌, ℕ, IfOk, IfErr, OnOk, length, map, filter, find, option_map, unwrap_or, false, None, slice_index_or};
ghost use Rattle.tqd_instance.specs.Parts.{IsWellFormed};
ghost use Rattle.tqd_instance.specs.Offer.{no_supplier};
ghost use Rattle.tqd_instance.specs.Built.{offers, stock_of, table, FewGoods, LacksNone};
ghost use Rattle.tqd_instance.specs.Rows.{stock_stated, AreValues, IsBuilt, LacksNoneOf};
ghost use Rattle.tqd_instance.specs.Refused.{IfRefused, IsLackOf, IsFirstLackFault};

use crate::lacks::first_lack;
use crate::list::Numbers;
use crate::offers::{first_values, froms_of, offers_of, rows_of};
use crate::parts::{FeeRow, JobFault, JobParts};
use crate::segments::segments_of;
use crate::supplier::Supplier;
use std::alloc::Global;
use tqd_base::limits::QTY_MAX;
use tqd_base::{Memory, Stop};

/// The suppliers of the parts, or the first lack of a price.
pub fn suppliers_of(alloc: Global, parts: &JobParts) -> Result<Vec<Supplier>, Stop<JobFault>>
    requires formed { IsWellFormed parts.now }
    requires few { FewGoods parts.now }
    ensures count { IfOk result (λ suppliers. length suppliers.items ≡ parts.now.suppliers) }
    ensures built { IfOk result (λ suppliers. (i : ℕ) → i < parts.now.suppliers
        → IsBuilt parts.now i (slice_index_or suppliers.items i no_supplier)) }
    ensures complete { OnOk result (LacksNone parts.now) }
    ensures refused { IfErr result (λ stop. IfRefused stop (IsFirstLackFault parts.now)) }
{
    let mut suppliers = Vec::new(alloc);
    for i in 0..parts.suppliers() {
        match supplier_of(alloc, parts, i) {
            Ok(supplier) => suppliers.push(supplier)?,
            Err(stop) => return Err(stop),
        }
    }
    Ok(suppliers)
}

/// A supplier of the parts, or its first lack of a price.
pub fn supplier_of(alloc: Global, parts: &JobParts, i: u32) -> Result<Supplier, Stop<JobFault>>
    requires formed { IsWellFormed parts.now }
    requires few { FewGoods parts.now }
    ensures built { IfOk result (λ supplier. IsBuilt parts.now i supplier) }
    ensures complete { OnOk result (LacksNoneOf parts.now i) }
    ensures refused { IfErr result (λ stop. IfRefused stop (IsLackOf parts.now i)) }
{
    let rows = rows_of(alloc, parts, i)?;
    let froms = froms_of(alloc, parts, i, &rows)?;
    let offered = offers_of(alloc, parts, i, &rows)?;
    if let Some((from, good)) = first_lack(alloc, parts, i, &rows, &froms, &offered)? {
        return Err(Stop::Refused(JobFault::MissingPrice {
            supplier: i,
            from,
            good,
        }));
    }
    let segments = segments_of(alloc, parts, i, &rows, &froms)?;
    let stocks = stocks_of(alloc, parts, i, &offered)?;
    Ok(Supplier::new(fee_of(parts, i), stocks, segments))
}

#[tactic(auto, using(crate::proofs::Tables::tables), unfolding(crate::specs::Built::stock_of, crate::specs::Rows::stock_stated))]
fn stocks_of(alloc: Global, parts: &JobParts, i: u32, offered: &[bool]) -> Result<Numbers, Memory>
    requires formed { IsWellFormed parts.now }
    requires offered { AreValues (length parts.now.needs) false (offers parts.now i) offered.now }
    ensures { IfOk result (λ stocks. stocks ≡ table (length parts.now.needs) (stock_of parts.now i)) }
{
    let stated = stated_stocks(alloc, parts, i)?;
    let mut stocks = Vec::with_capacity(alloc, offered.len())?;
    for k in 0..offered.len() {
        stocks.push(stock_or(offered[k], stated[k]))?;
    }
    Ok(Numbers::of(stocks))
}

fn stock_or(offered: bool, stated: Option<u64>) -> u64
    ensures { result ≡ (if offered then unwrap_or stated QTY_MAX else 0) }
{
    if offered {
        stated.unwrap_or(QTY_MAX)
    } else {
        0
    }
}

fn stated_stocks(alloc: Global, parts: &JobParts, i: u32) -> Result<Vec<Option<u64>>, Memory>
    requires { IsWellFormed parts.now }
    ensures { IfOk result (λ stocks. AreValues (length parts.now.needs) None (stock_stated parts.now i) stocks.items) }
{
    let pairs = goods_with_stocks(alloc, parts, i)?;
    let stocks = first_values(alloc, &pairs, parts.needs().len())?;
    Ok(stocks)
}

fn goods_with_stocks(alloc: Global, parts: &JobParts, i: u32) -> Result<Vec<(u32, u64)>, Memory>
    ensures { IfOk result (λ pairs. pairs.items
        ≡ map (λ r. (r.good, r.units)) (filter (λ r. r.supplier == i) parts.now.stocks)) }
{
    let pairs = parts
        .stocks()
        .iter()
        .filter(|r| r.supplier == i)
        .map(|r| (r.good, r.units))
        .collect(alloc)?;
    Ok(pairs)
}

fn fee_of(parts: &JobParts, i: u32) -> u64
    ensures { result ≡ unwrap_or (option_map (λ r. r.fee) (find (λ r. r.supplier == i) parts.now.fees)) 0 }
{
    match fee_row(parts, i) {
        Some(row) => row.fee,
        None => 0,
    }
}

fn fee_row(parts: &JobParts, i: u32) -> Option<FeeRow>
    ensures { result ≡ find (λ r. r.supplier == i) parts.now.fees }
{
    parts.fees().iter().copied().find(|r| r.supplier == i)
}
