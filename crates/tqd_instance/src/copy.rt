//! Copies of the parts of a job, with the prices as they are or cut.
ghost use Rattle.std.specs.Prelude.{◌≡◌, ◌≤◌, ◌<◌, ℕ, IfOk, length, map, slice_index_or};
ghost use Rattle.tqd_instance.specs.Change.{cut_price};
ghost use Rattle.tqd_instance.specs.Cuts.{cut_segment, cut_supplier, cut_nth, HasPrices, HasPricedSegments, HasPricedSuppliers};
ghost use Rattle.tqd_instance.specs.Offer.{no_supplier};

use crate::list::Numbers;
use crate::supplier::{Segment, Segments, Supplier, Suppliers};
use std::alloc::Global;
use tqd_base::Memory;
use tqd_base::limits::PRICE_MAX;

impl Numbers {
    /// The prices less so many thousandths, each rounded down.
    pub(crate) fn cut(&self, alloc: Global, cut: u64) -> Result<Numbers, Memory>
        requires share { cut ≤ 1000 }
        requires within { HasPrices self.now }
        ensures { IfOk result (λ prices. prices ≡ map (cut_price cut) self.now) }
    {
        let prices = self
            .as_slice()
            .iter()
            .map(|price| less(*price, cut))
            .collect(alloc)?;
        Ok(Numbers::of(prices))
    }
}

#[tactic(auto, unfolding(crate::specs::Change::cut_price))]
fn less(price: u64, cut: u64) -> u64
    requires within { price ≤ PRICE_MAX }
    requires share { cut ≤ 1000 }
    ensures { result ≡ cut_price cut price }
{
    price * (1000 - cut) / 1000
}

impl Segment {
    pub(crate) fn copy(&self, alloc: Global) -> Result<Segment, Memory>
        ensures { IfOk result (λ segment. segment ≡ self.now) }
    {
        let prices = self.prices().copy(alloc)?;
        Ok(Segment::new(self.low(), self.high(), prices))
    }

    #[tactic(auto, unfolding(crate::specs::Cuts::cut_segment))]
    pub(crate) fn cut(&self, alloc: Global, cut: u64) -> Result<Segment, Memory>
        requires share { cut ≤ 1000 }
        requires within { HasPrices self.now.prices }
        ensures { IfOk result (λ segment. segment ≡ cut_segment cut self.now) }
    {
        let prices = self.prices().cut(alloc, cut)?;
        Ok(Segment::new(self.low(), self.high(), prices))
    }
}

impl Segments {
    pub(crate) fn copy(&self, alloc: Global) -> Result<Segments, Memory>
        ensures { IfOk result (λ segments. segments ≡ self.now) }
    {
        let mut segments = Vec::with_capacity(alloc, self.len())?;
        for at in 0..self.len() {
            segments.push(self.get(at).copy(alloc)?)?;
        }
        Ok(Segments::of(segments))
    }

    pub(crate) fn cut(&self, alloc: Global, cut: u64) -> Result<Segments, Memory>
        requires share { cut ≤ 1000 }
        requires within { HasPricedSegments self.now }
        ensures { IfOk result (λ segments. segments ≡ map (cut_segment cut) self.now) }
    {
        let mut segments = Vec::with_capacity(alloc, self.len())?;
        for at in 0..self.len() {
            segments.push(self.get(at).cut(alloc, cut)?)?;
        }
        Ok(Segments::of(segments))
    }
}

impl Supplier {
    pub(crate) fn copy(&self, alloc: Global) -> Result<Supplier, Memory>
        ensures { IfOk result (λ supplier. supplier ≡ self.now) }
    {
        let stocks = self.stocks().copy(alloc)?;
        let segments = self.segments().copy(alloc)?;
        Ok(Supplier::new(self.fee(), stocks, segments))
    }

    #[tactic(auto, unfolding(crate::specs::Cuts::cut_supplier))]
    pub(crate) fn cut(&self, alloc: Global, cut: u64) -> Result<Supplier, Memory>
        requires share { cut ≤ 1000 }
        requires within { HasPricedSegments self.now.segments }
        ensures { IfOk result (λ supplier. supplier ≡ cut_supplier cut self.now) }
    {
        let fee = self.fee();
        let stocks = self.stocks().copy(alloc)?;
        let segments = self.segments().cut(alloc, cut)?;
        Ok(Supplier::new(fee, stocks, segments))
    }
}

impl Suppliers {
    pub(crate) fn copy(&self, alloc: Global) -> Result<Suppliers, Memory>
        ensures { IfOk result (λ suppliers. suppliers ≡ self.now) }
    {
        let mut suppliers = Vec::with_capacity(alloc, self.len())?;
        for at in 0..self.len() {
            suppliers.push(self.get(at).copy(alloc)?)?;
        }
        Ok(Suppliers::of(suppliers))
    }

    /// The suppliers, with the prices of one of them cut.
    pub(crate) fn cut(&self, alloc: Global, i: usize, cut: u64) -> Result<Suppliers, Memory>
        requires share { cut ≤ 1000 }
        requires within { HasPricedSuppliers self.now }
        ensures count { IfOk result (λ suppliers. length suppliers ≡ length self.now) }
        ensures each { IfOk result (λ suppliers. (n : ℕ) → n < length self.now
            → slice_index_or suppliers n no_supplier ≡ cut_nth i cut n (slice_index_or self.now n no_supplier)) }
    {
        let mut suppliers = Vec::with_capacity(alloc, self.len())?;
        for n in 0..self.len() {
            suppliers.push(self.nth_cut(alloc, n, i, cut)?)?;
        }
        Ok(Suppliers::of(suppliers))
    }

    #[tactic(auto, unfolding(crate::specs::Cuts::cut_nth))]
    fn nth_cut(&self, alloc: Global, n: usize, i: usize, cut: u64) -> Result<Supplier, Memory>
        requires known { n < length self.now }
        requires share { cut ≤ 1000 }
        requires within { HasPricedSuppliers self.now }
        ensures { IfOk result (λ supplier. supplier ≡ cut_nth i cut n (slice_index_or self.now n no_supplier)) }
    {
        if n == i {
            self.get(n).cut(alloc, cut)
        } else {
            self.get(n).copy(alloc)
        }
    }
}
