ghost use Rattle.tqd_instance.specs.JobFacts.{IsJob};

use crate::list::Numbers;
use crate::supplier::{Segment, Supplier, Suppliers};
use tqd_base::limits::{GOODS_MAX, INTERVALS_MAX, PRICE_MAX, QTY_MAX, SUPPLIERS_MAX};

/// A job: goods with what has to be bought of each, and suppliers with their segments.
#[derive(Debug, Drop)]
pub struct Job {
    needs: Numbers,
    mosts: Numbers,
    suppliers: Suppliers,
    least_winners: u64,
    most_winners: u64,
    pub ghost facts: { IsJob needs mosts suppliers least_winners most_winners },
}

impl Job {
    ghost use Rattle.std.specs.Prelude.{◌≡◌, ◌<◌, ◌≤◌, ◌*◌, ℕ, length, slice_index, IfSome, IsTrue, ◌↔◌};
    ghost use Rattle.tqd_instance.specs.Job.{
      goods,
      suppliers,
      need,
      most,
      stock,
      segments,
      low,
      high,
      price,
      fee,
      least_winners,
      most_winners,
      supplier_at,
      segment_at,
      pick,
    };

    pub(crate) fn of(
        needs: Numbers,
        mosts: Numbers,
        suppliers: Suppliers,
        least_winners: u64,
        most_winners: u64,
    ) -> Self
        requires { IsJob needs mosts suppliers least_winners most_winners }
        ensures needs { result.needs ≡ needs }
        ensures mosts { result.mosts ≡ mosts }
        ensures suppliers { result.suppliers ≡ suppliers }
        ensures least_winners { result.least_winners ≡ least_winners }
        ensures most_winners { result.most_winners ≡ most_winners }
    {
        Job {
            needs,
            mosts,
            suppliers,
            least_winners,
            most_winners,
        }
    }

    /// How many goods there are, at most 1,000.
    #[tactic(auto, unfolding(crate::specs::Job::goods))]
    pub fn goods(&self) -> usize
        ensures value { result ≡ goods self.now }
        ensures few { result ≤ GOODS_MAX }
    {
        self.needs.len()
    }

    /// How many suppliers there are, at most 64.
    #[tactic(auto, unfolding(crate::specs::Job::suppliers))]
    pub fn suppliers(&self) -> usize
        ensures value { result ≡ suppliers self.now }
        ensures few { result ≤ SUPPLIERS_MAX }
    {
        self.suppliers.len()
    }

    /// How many units of a good have to be bought, from 1 to 100,000,000.
    #[tactic(auto, unfolding(crate::specs::Job::goods, crate::specs::Job::need))]
    pub fn need(&self, k: usize) -> u64
        requires { k < goods self.now }
        ensures value { result ≡ need self.now k }
        ensures some { 1 ≤ result }
        ensures within { result ≤ QTY_MAX }
    {
        self.needs.get(k)
    }

    /// How many units of a good may be bought at most: no fewer than have to be, and at most 6,400,000,000.
    #[tactic(auto, unfolding(crate::specs::Job::goods, crate::specs::Job::need, crate::specs::Job::most))]
    pub fn most(&self, k: usize) -> u64
        requires { k < goods self.now }
        ensures value { result ≡ most self.now k }
        ensures ordered { need self.now k ≤ result }
        ensures bounded { result ≤ SUPPLIERS_MAX * QTY_MAX }
    {
        self.mosts.get(k)
    }

    /// How many units of a good a supplier has, at most 100,000,000.
    #[tactic(auto, unfolding(crate::specs::Job::goods, crate::specs::Job::suppliers, crate::specs::Job::stock, crate::specs::Job::supplier_at))]
    pub fn stock(&self, i: usize, k: usize) -> u64
        requires supplier { i < suppliers self.now }
        requires good { k < goods self.now }
        ensures value { result ≡ stock self.now i k }
        ensures within { result ≤ QTY_MAX }
    {
        self.supplier_at(i).stocks().get(k)
    }

    /// How many segments a supplier has besides segment 0, at most 16.
    #[tactic(auto, unfolding(crate::specs::Job::suppliers, crate::specs::Job::segments, crate::specs::Job::supplier_at))]
    pub fn segments(&self, i: usize) -> u8
        requires { i < suppliers self.now }
        ensures value { result ≡ segments self.now i }
        ensures few { result ≤ INTERVALS_MAX }
    {
        (self.supplier_at(i).segments().len() - 1) as u8
    }

    /// The least total in a segment, in units.
    pub fn low(&self, i: usize, j: u8) -> u64
        requires supplier { i < suppliers self.now }
        requires some { 1 ≤ j }
        requires segment { j ≤ segments self.now i }
        ensures value { result ≡ low self.now i j }
        ensures some { 1 ≤ result }
        ensures ordered { result ≤ high self.now i j }
    {
        self.segment_at(i, j).low()
    }

    /// The greatest total in a segment, at most 100,000,000 units.
    pub fn high(&self, i: usize, j: u8) -> u64
        requires supplier { i < suppliers self.now }
        requires some { 1 ≤ j }
        requires segment { j ≤ segments self.now i }
        ensures value { result ≡ high self.now i j }
        ensures ordered { low self.now i j ≤ result }
        ensures within { result ≤ QTY_MAX }
    {
        self.segment_at(i, j).high()
    }

    /// The price of a unit of a good in a segment, in millionths of the currency, at most 10^12; 0 where it is not offered.
    pub fn price(&self, i: usize, j: u8, k: usize) -> u64
        requires supplier { i < suppliers self.now }
        requires some { 1 ≤ j }
        requires segment { j ≤ segments self.now i }
        requires good { k < goods self.now }
        ensures value { result ≡ price self.now i j k }
        ensures within { result ≤ PRICE_MAX }
    {
        self.price_in(i, j, k)
    }

    /// The price of a unit of a good in a segment, and 0 in segment 0.
    #[tactic(auto, unfolding(crate::specs::Job::price))]
    pub(crate) fn price_in(&self, i: usize, j: u8, k: usize) -> u64
        requires supplier { i < suppliers self.now }
        requires segment { j ≤ segments self.now i }
        requires good { k < goods self.now }
        ensures value { result ≡ price self.now i j k }
        ensures within { result ≤ PRICE_MAX }
    {
        self.segment_at(i, j).prices().get(k)
    }

    /// The prices of a segment, good by good.
    pub fn prices(&self, i: usize, j: u8) -> &[u64]
        requires supplier { i < suppliers self.now }
        requires some { 1 ≤ j }
        requires segment { j ≤ segments self.now i }
        ensures len { length result.now ≡ goods self.now }
        ensures value { (k : ℕ) → slice_index result.now k ≡ price self.now i j k }
        ensures within { (k : ℕ) → slice_index result.now k ≤ PRICE_MAX }
    {
        self.segment_at(i, j).prices().as_slice()
    }

    /// What is paid once where anything is bought from a supplier, in millionths of the currency, at most 10^12.
    #[tactic(auto, unfolding(crate::specs::Job::suppliers, crate::specs::Job::fee, crate::specs::Job::supplier_at))]
    pub fn fee(&self, i: usize) -> u64
        requires { i < suppliers self.now }
        ensures value { result ≡ fee self.now i }
        ensures within { result ≤ PRICE_MAX }
    {
        self.supplier_at(i).fee()
    }

    /// The least and the greatest number of suppliers that may be bought from, at most 64.
    #[tactic(auto, unfolding(crate::specs::Job::least_winners, crate::specs::Job::most_winners))]
    pub fn winners(&self) -> (u64, u64)
        ensures least { result.0 ≡ least_winners self.now }
        ensures most { result.1 ≡ most_winners self.now }
        ensures ordered { result.0 ≤ result.1 }
        ensures few { result.1 ≤ SUPPLIERS_MAX }
    {
        (self.least_winners, self.most_winners)
    }

    #[tactic(auto, unfolding(crate::specs::Job::suppliers, crate::specs::Job::supplier_at))]
    fn supplier_at(&self, i: usize) -> &Supplier
        requires { i < suppliers self.now }
        ensures { result.now ≡ supplier_at self.now i }
    {
        self.suppliers.get(i)
    }

    #[tactic(auto, unfolding(crate::specs::Job::suppliers, crate::specs::Job::segments, crate::specs::Job::supplier_at, crate::specs::Job::segment_at))]
    fn segment_at(&self, i: usize, j: u8) -> &Segment
        requires supplier { i < suppliers self.now }
        requires segment { j ≤ segments self.now i }
        ensures { result.now ≡ segment_at self.now i j }
    {
        self.supplier_at(i).segments().get(usize::from(j))
    }

    /// The segment that a total of units from a supplier selects, 0 for the total 0, or none where it lies in no segment.
    #[tactic(auto, unfolding(crate::specs::Job::segments, crate::specs::Job::pick))]
    pub fn pick(&self, i: usize, total: u64) -> Option<u8>
        requires { i < suppliers self.now }
        ensures value { result ≡ pick self.now i total }
        ensures in_range { IfSome result (λ j. j ≤ segments self.now i) }
    {
        match self.supplier_at(i).segments().place_of(total) {
            Some(at) => Some(at as u8),
            None => None,
        }
    }

    pub(crate) fn needs(&self) -> &Numbers
        ensures { result.now ≡ self.now.needs }
    {
        &self.needs
    }

    pub(crate) fn mosts(&self) -> &Numbers
        ensures { result.now ≡ self.now.mosts }
    {
        &self.mosts
    }

    pub(crate) fn sellers(&self) -> &Suppliers
        ensures { result.now ≡ self.now.suppliers }
    {
        &self.suppliers
    }

    pub(crate) fn same_limits(&self, other: &Job) -> bool
        ensures { IsTrue result
            ↔ ((self.now.least_winners ≡ other.now.least_winners) × (self.now.most_winners ≡ other.now.most_winners)) }
    {
        self.least_winners == other.least_winners && self.most_winners == other.most_winners
    }

    pub(crate) fn same_goods(&self, other: &Job) -> bool
        ensures { IsTrue result ↔ ((self.now.needs ≡ other.now.needs) × (self.now.mosts ≡ other.now.mosts)) }
    {
        self.needs.same(&other.needs) && self.mosts.same(&other.mosts)
    }

    pub(crate) fn same_suppliers(&self, other: &Job) -> bool
        ensures { IsTrue result ↔ (self.now.suppliers ≡ other.now.suppliers) }
    {
        self.suppliers.same(&other.suppliers)
    }
}
