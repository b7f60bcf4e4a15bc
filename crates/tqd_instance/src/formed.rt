//! Whether parts are well formed, for callers that do not know it, as tests. It takes time with the square of the rows.
ghost use Rattle.std.specs.Prelude.{◌≡◌, ◌<◌, ◌≤◌, ◌↔◌, ℕ, All, IfOk, IsTrue, length, slice_index_or};
ghost use Rattle.std.specs.List.{AllPairs};
ghost use Rattle.tqd_instance.specs.Parts.{
  IsAtMost,
  IsBelow,
  IsFeeRow,
  IsOver,
  IsOverRow,
  IsPriceRow,
  IsShareRow,
  IsStockRow,
  IsTotalRow,
  IsWellFormed,
  SamePrice,
  SameStock,
};
ghost use Rattle.tqd_instance.specs.declared.parts.PriceRow.{PriceRow};
ghost use Rattle.tqd_instance.specs.declared.parts.StockRow.{StockRow};
ghost use Rattle.tqd_instance.specs.declared.parts.TotalRow.{TotalRow};
ghost use Rattle.tqd_instance.specs.declared.parts.ShareRow.{ShareRow};
ghost use Rattle.tqd_instance.specs.declared.parts.FeeRow.{FeeRow};
ghost use Rattle.tqd_instance.specs.declared.parts.OverRow.{OverRow};
ghost use Rattle.tqd_instance.specs.Formed.{HasFewIntervals, HasKeysOnce, IsInRanges};

use crate::offers::{froms_of, rows_of};
use crate::parts::{FeeRow, JobParts, Over, OverRow, PriceRow, ShareRow, StockRow, TotalRow};
use std::alloc::Global;
use tqd_base::Memory;
use tqd_base::limits::{INTERVALS_MAX, PRICE_MAX, QTY_MAX, SUPPLIERS_MAX};

impl JobParts {
    /// Whether the parts are well formed: every number in its range, no key twice, at most 16 intervals of a supplier.
    pub fn is_well_formed(&self, alloc: Global) -> Result<bool, Memory>
        ensures { IfOk result (λ formed. IsTrue formed ↔ IsWellFormed self.now) }
    {
        if !is_in_ranges(self) {
            return Ok(false);
        }
        if !has_keys_once(self) {
            return Ok(false);
        }
        let few = has_few_intervals(alloc, self)?;
        Ok(few)
    }
}

fn is_in_ranges(parts: &JobParts) -> bool
    ensures { IsTrue result ↔ IsInRanges parts.now }
{
    let goods = parts.needs().len();
    let suppliers = parts.suppliers();
    let (least, most) = parts.winners();
    if SUPPLIERS_MAX < suppliers as usize
        || (SUPPLIERS_MAX as u64) < least
        || (SUPPLIERS_MAX as u64) < most
    {
        return false;
    }
    if !are_needs(parts.needs()) || !are_over_rows(goods, parts.overs()) {
        return false;
    }
    if !are_price_rows(suppliers, goods, parts.prices())
        || !are_stock_rows(suppliers, goods, parts.stocks())
    {
        return false;
    }
    if !are_total_rows(suppliers, parts.totals()) || !are_share_rows(suppliers, parts.shares()) {
        return false;
    }
    are_fee_rows(suppliers, parts.fees())
}

fn are_needs(needs: &[u64]) -> bool
    ensures { IsTrue result ↔ All (λ n. (1 ≤ n) × (n ≤ QTY_MAX)) needs.now }
{
    for need in needs {
        if *need == 0 || QTY_MAX < *need {
            return false;
        }
    }
    true
}

fn are_price_rows(suppliers: u32, goods: usize, rows: &[PriceRow]) -> bool
    ensures { IsTrue result ↔ All (IsPriceRow suppliers goods) rows.now }
{
    for row in rows {
        if !is_price_row(suppliers, goods, row) {
            return false;
        }
    }
    true
}

fn is_price_row(suppliers: u32, goods: usize, row: &PriceRow) -> bool
    ensures { IsTrue result ↔ IsPriceRow suppliers goods row.now }
{
    row.supplier < suppliers
        && 1 <= row.from
        && row.from <= QTY_MAX
        && (row.good as usize) < goods
        && row.price <= PRICE_MAX
}

fn are_stock_rows(suppliers: u32, goods: usize, rows: &[StockRow]) -> bool
    ensures { IsTrue result ↔ All (IsStockRow suppliers goods) rows.now }
{
    for row in rows {
        if !is_stock_row(suppliers, goods, row) {
            return false;
        }
    }
    true
}

fn is_stock_row(suppliers: u32, goods: usize, row: &StockRow) -> bool
    ensures { IsTrue result ↔ IsStockRow suppliers goods row.now }
{
    row.supplier < suppliers && (row.good as usize) < goods && row.units <= QTY_MAX
}

fn are_total_rows(suppliers: u32, rows: &[TotalRow]) -> bool
    ensures { IsTrue result ↔ All (IsTotalRow suppliers) rows.now }
{
    for row in rows {
        if !is_total_row(suppliers, row) {
            return false;
        }
    }
    true
}

fn is_total_row(suppliers: u32, row: &TotalRow) -> bool
    ensures { IsTrue result ↔ IsTotalRow suppliers row.now }
{
    row.supplier < suppliers && row.units <= QTY_MAX
}

fn are_share_rows(suppliers: u32, rows: &[ShareRow]) -> bool
    ensures { IsTrue result ↔ All (IsShareRow suppliers) rows.now }
{
    for row in rows {
        if !is_share_row(suppliers, row) {
            return false;
        }
    }
    true
}

fn is_share_row(suppliers: u32, row: &ShareRow) -> bool
    ensures { IsTrue result ↔ IsShareRow suppliers row.now }
{
    row.supplier < suppliers && row.low <= 1000 && is_at_most(1000, row.high)
}

fn are_fee_rows(suppliers: u32, rows: &[FeeRow]) -> bool
    ensures { IsTrue result ↔ All (IsFeeRow suppliers) rows.now }
{
    for row in rows {
        if !is_fee_row(suppliers, row) {
            return false;
        }
    }
    true
}

fn is_fee_row(suppliers: u32, row: &FeeRow) -> bool
    ensures { IsTrue result ↔ IsFeeRow suppliers row.now }
{
    row.supplier < suppliers && row.fee <= PRICE_MAX
}

fn are_over_rows(goods: usize, rows: &[OverRow]) -> bool
    ensures { IsTrue result ↔ All (IsOverRow goods) rows.now }
{
    for row in rows {
        if !is_over_row(goods, row) {
            return false;
        }
    }
    true
}

fn is_over_row(goods: usize, row: &OverRow) -> bool
    ensures { IsTrue result ↔ IsOverRow goods row.now }
{
    is_below(goods, row.good) && is_over(row.over)
}

fn is_at_most(limit: u64, n: Option<u64>) -> bool
    ensures { IsTrue result ↔ IsAtMost limit n }
{
    match n {
        None => true,
        Some(n) => n <= limit,
    }
}

fn is_below(limit: usize, n: Option<u32>) -> bool
    ensures { IsTrue result ↔ IsBelow limit n }
{
    match n {
        None => true,
        Some(n) => (n as usize) < limit,
    }
}

fn is_over(over: Over) -> bool
    ensures { IsTrue result ↔ IsOver over }
{
    match over {
        Over::Percent(p) => p <= 1000,
        Over::Any => true,
    }
}

fn has_keys_once(parts: &JobParts) -> bool
    ensures { IsTrue result ↔ HasKeysOnce parts.now }
{
    if !has_one_price(parts.prices()) || !has_one_stock(parts.stocks()) {
        return false;
    }
    if !has_one_total(parts.totals()) || !has_one_share(parts.shares()) {
        return false;
    }
    if !has_one_fee(parts.fees()) {
        return false;
    }
    has_one_over(parts.overs())
}

fn has_one_price(rows: &[PriceRow]) -> bool
    ensures { IsTrue result ↔ AllPairs (λ a b. SamePrice a b → ⊥) rows.now }
{
    for j in 0..rows.len() {
        if !is_new_price(rows, j) {
            return false;
        }
    }
    true
}

fn is_new_price(rows: &[PriceRow], j: usize) -> bool
    requires { j < length rows.now }
    ensures { IsTrue result ↔ ((i : ℕ) (d : PriceRow) → i < j
        → SamePrice (slice_index_or rows.now i d) (slice_index_or rows.now j d) → ⊥) }
{
    for i in 0..j {
        if rows[i].supplier == rows[j].supplier
            && rows[i].from == rows[j].from
            && rows[i].good == rows[j].good
        {
            return false;
        }
    }
    true
}

fn has_one_stock(rows: &[StockRow]) -> bool
    ensures { IsTrue result ↔ AllPairs (λ a b. SameStock a b → ⊥) rows.now }
{
    for j in 0..rows.len() {
        if !is_new_stock(rows, j) {
            return false;
        }
    }
    true
}

fn is_new_stock(rows: &[StockRow], j: usize) -> bool
    requires { j < length rows.now }
    ensures { IsTrue result ↔ ((i : ℕ) (d : StockRow) → i < j
        → SameStock (slice_index_or rows.now i d) (slice_index_or rows.now j d) → ⊥) }
{
    for i in 0..j {
        if rows[i].supplier == rows[j].supplier && rows[i].good == rows[j].good {
            return false;
        }
    }
    true
}

fn has_one_total(rows: &[TotalRow]) -> bool
    ensures { IsTrue result ↔ AllPairs (λ a b. a.supplier ≡ b.supplier → ⊥) rows.now }
{
    for j in 0..rows.len() {
        if !is_new_total(rows, j) {
            return false;
        }
    }
    true
}

fn is_new_total(rows: &[TotalRow], j: usize) -> bool
    requires { j < length rows.now }
    ensures { IsTrue result ↔ ((i : ℕ) (d : TotalRow) → i < j
        → (slice_index_or rows.now i d).supplier ≡ (slice_index_or rows.now j d).supplier → ⊥) }
{
    for i in 0..j {
        if rows[i].supplier == rows[j].supplier {
            return false;
        }
    }
    true
}

fn has_one_share(rows: &[ShareRow]) -> bool
    ensures { IsTrue result ↔ AllPairs (λ a b. a.supplier ≡ b.supplier → ⊥) rows.now }
{
    for j in 0..rows.len() {
        if !is_new_share(rows, j) {
            return false;
        }
    }
    true
}

fn is_new_share(rows: &[ShareRow], j: usize) -> bool
    requires { j < length rows.now }
    ensures { IsTrue result ↔ ((i : ℕ) (d : ShareRow) → i < j
        → (slice_index_or rows.now i d).supplier ≡ (slice_index_or rows.now j d).supplier → ⊥) }
{
    for i in 0..j {
        if rows[i].supplier == rows[j].supplier {
            return false;
        }
    }
    true
}

fn has_one_fee(rows: &[FeeRow]) -> bool
    ensures { IsTrue result ↔ AllPairs (λ a b. a.supplier ≡ b.supplier → ⊥) rows.now }
{
    for j in 0..rows.len() {
        if !is_new_fee(rows, j) {
            return false;
        }
    }
    true
}

fn is_new_fee(rows: &[FeeRow], j: usize) -> bool
    requires { j < length rows.now }
    ensures { IsTrue result ↔ ((i : ℕ) (d : FeeRow) → i < j
        → (slice_index_or rows.now i d).supplier ≡ (slice_index_or rows.now j d).supplier → ⊥) }
{
    for i in 0..j {
        if rows[i].supplier == rows[j].supplier {
            return false;
        }
    }
    true
}

fn has_one_over(rows: &[OverRow]) -> bool
    ensures { IsTrue result ↔ AllPairs (λ a b. a.good ≡ b.good → ⊥) rows.now }
{
    for j in 0..rows.len() {
        if !is_new_over(rows, j) {
            return false;
        }
    }
    true
}

fn is_new_over(rows: &[OverRow], j: usize) -> bool
    requires { j < length rows.now }
    ensures { IsTrue result ↔ ((i : ℕ) (d : OverRow) → i < j
        → (slice_index_or rows.now i d).good ≡ (slice_index_or rows.now j d).good → ⊥) }
{
    for i in 0..j {
        if rows[i].good == rows[j].good {
            return false;
        }
    }
    true
}

fn has_few_intervals(alloc: Global, parts: &JobParts) -> Result<bool, Memory>
    requires { IsInRanges parts.now }
    ensures { IfOk result (λ few. IsTrue few ↔ HasFewIntervals parts.now) }
{
    for i in 0..parts.suppliers() {
        let rows = rows_of(alloc, parts, i)?;
        let froms = froms_of(alloc, parts, i, &rows)?;
        if INTERVALS_MAX < froms.len() {
            return Ok(false);
        }
    }
    Ok(true)
}
