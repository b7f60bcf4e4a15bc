ghost use Rattle.std.specs.Prelude.{◌≡◌, ◌<◌, ◌≤◌, ◌*◌, ℕ, IfOk, IfErr, IfSome, IsSomeAnd, OnOk, MatchOption, IsTrue, ◌↔◌, length, find, slice_index_or};
ghost use Rattle.tqd_base.specs.Sum.{sum_to};
ghost use Rattle.tqd_instance.specs.Offer.{no_supplier};
ghost use Rattle.tqd_instance.specs.Parts.{IsOver, IsWellFormed};
ghost use Rattle.tqd_instance.specs.Built.{
  is_general,
  is_own,
  most_of,
  over_of,
  stock_of,
  table,
  FewGoods,
  GoodShares,
  HasBadShare,
  IsFirstBadShare,
  IsJobOf,
  Passes,
  Refuses,
};
ghost use Rattle.tqd_instance.specs.Rows.{IsBuilt};
ghost use Rattle.tqd_instance.specs.Refused.{IfRefused};

use crate::job::Job;
use crate::list::Numbers;
use crate::parts::{JobFault, JobParts, Over, OverRow, ShareRow};
use crate::seller::suppliers_of;
use crate::supplier::{Supplier, Suppliers};
use std::alloc::Global;
use tqd_base::limits::{GOODS_MAX, QTY_MAX, SUPPLIERS_MAX};
use tqd_base::{Memory, Stop};

impl Job {
    /// The job that well-formed parts describe, or the first test that they fail: the number of goods, the prices,
    /// the order of the shares, that of the winner limits.
    pub fn build(alloc: Global, parts: &JobParts) -> Result<Job, Stop<JobFault>>
        requires { IsWellFormed parts.now }
        ensures passes { OnOk result (Passes parts.now) }
        ensures job { IfOk result (λ job. IsJobOf parts.now job) }
        ensures refused { IfErr result (λ stop. IfRefused stop (Refuses parts.now)) }
    {
        let goods = parts.needs().len();
        if GOODS_MAX < goods {
            return Err(Stop::Refused(JobFault::TooManyGoods(goods as u64)));
        }
        let suppliers = match suppliers_of(alloc, parts) {
            Ok(suppliers) => suppliers,
            Err(stop) => return Err(stop),
        };
        if let Some(supplier) = first_bad_share(parts) {
            return Err(Stop::Refused(JobFault::ShareOrder { supplier }));
        }
        let (least, most) = parts.winners();
        if most < least {
            return Err(Stop::Refused(JobFault::WinnerOrder));
        }
        let mosts = mosts_of(alloc, parts, &suppliers)?;
        let needs = Numbers::of(parts.needs().to_vec(alloc)?);
        Ok(Job::of(needs, mosts, Suppliers::of(suppliers), least, most))
    }
}

/// The first supplier whose share has a low above its high.
fn first_bad_share(parts: &JobParts) -> Option<u32>
    requires { IsWellFormed parts.now }
    ensures { MatchOption result (GoodShares parts.now) (λ i. IsFirstBadShare parts.now i) }
{
    for i in 0..parts.suppliers() {
        if has_bad_share(parts, i) {
            return Some(i);
        }
    }
    None
}

fn has_bad_share(parts: &JobParts, i: u32) -> bool
    ensures { IsTrue result ↔ HasBadShare parts.now i }
{
    for row in parts.shares() {
        if row.supplier == i && is_bad(row) {
            return true;
        }
    }
    false
}

fn is_bad(row: &ShareRow) -> bool
    ensures { IsTrue result ↔ IsSomeAnd row.now.high (λ high. high < row.now.low) }
{
    match row.high {
        Some(high) => high < row.low,
        None => false,
    }
}

/// The most that may be bought of each good.
#[tactic(auto, using(crate::proofs::Tables::tables))]
fn mosts_of(alloc: Global, parts: &JobParts, suppliers: &[Supplier]) -> Result<Numbers, Memory>
    requires formed { IsWellFormed parts.now }
    requires few { FewGoods parts.now }
    requires count { length suppliers.now ≡ parts.now.suppliers }
    requires built { (i : ℕ) → i < parts.now.suppliers
        → IsBuilt parts.now i (slice_index_or suppliers.now i no_supplier) }
    ensures { IfOk result (λ mosts. mosts ≡ table (length parts.now.needs) (most_of parts.now)) }
{
    let goods = parts.needs().len();
    let mut mosts = Vec::with_capacity(alloc, goods)?;
    for k in 0..goods {
        let in_stock = stock_sum(parts, suppliers, k);
        mosts.push(most_at(parts, in_stock, k))?;
    }
    Ok(Numbers::of(mosts))
}

#[tactic(auto, using(crate::proofs::SumLemmas::sums))]
fn stock_sum(parts: &JobParts, suppliers: &[Supplier], k: usize) -> u64
    requires formed { IsWellFormed parts.now }
    requires count { length suppliers.now ≡ parts.now.suppliers }
    requires built { (i : ℕ) → i < parts.now.suppliers
        → IsBuilt parts.now i (slice_index_or suppliers.now i no_supplier) }
    requires good { k < length parts.now.needs }
    ensures { result ≡ sum_to parts.now.suppliers (λ i. stock_of parts.now i k) }
{
    let mut sum = 0;
    for i in 0..suppliers.len() {
        sum += stock_at(parts, suppliers, i, k);
    }
    sum
}

fn stock_at(parts: &JobParts, suppliers: &[Supplier], i: usize, k: usize) -> u64
    requires count { length suppliers.now ≡ parts.now.suppliers }
    requires built { (i : ℕ) → i < parts.now.suppliers
        → IsBuilt parts.now i (slice_index_or suppliers.now i no_supplier) }
    requires supplier { i < length suppliers.now }
    requires good { k < length parts.now.needs }
    ensures value { result ≡ stock_of parts.now i k }
    ensures within { result ≤ QTY_MAX }
{
    suppliers[i].stocks().get(k)
}

#[tactic(auto, unfolding(crate::specs::Built::most_of))]
fn most_at(parts: &JobParts, in_stock: u64, k: usize) -> u64
    requires formed { IsWellFormed parts.now }
    requires few { FewGoods parts.now }
    requires stock { in_stock ≡ sum_to parts.now.suppliers (λ i. stock_of parts.now i k) }
    requires good { k < length parts.now.needs }
    ensures { result ≡ most_of parts.now k }
{
    let need = parts.needs()[k];
    match over_of(parts, k as u32) {
        None => need,
        Some(Over::Percent(p)) => need + need * p / 100,
        Some(Over::Any) => need.max(in_stock),
    }
}

#[tactic(auto, unfolding(crate::specs::Built::over_of))]
fn over_of(parts: &JobParts, k: u32) -> Option<Over>
    requires { IsWellFormed parts.now }
    ensures value { result ≡ over_of parts.now k }
    ensures formed { IfSome result (λ over. IsOver over) }
{
    match own_over(parts, k) {
        Some(row) => Some(row.over),
        None => match general_over(parts) {
            Some(row) => Some(row.over),
            None => None,
        },
    }
}

fn own_over(parts: &JobParts, k: u32) -> Option<OverRow>
    requires { IsWellFormed parts.now }
    ensures value { result ≡ find (is_own k) parts.now.overs }
    ensures formed { IfSome result (λ row. IsOver row.over) }
{
    parts.overs().iter().copied().find(|r| match r.good {
        Some(good) => good == k,
        None => false,
    })
}

fn general_over(parts: &JobParts) -> Option<OverRow>
    requires { IsWellFormed parts.now }
    ensures value { result ≡ find is_general parts.now.overs }
    ensures formed { IfSome result (λ row. IsOver row.over) }
{
    parts.overs().iter().copied().find(|r| r.good.is_none())
}
