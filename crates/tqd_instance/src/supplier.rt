use crate::list::Numbers;
use std::marker::Model;

/// A range of a supplier's totals with the prices that hold there, one for each good, in millionths of the currency.
#[derive(Debug, Drop)]
pub struct Segment {
    low: u64,
    high: u64,
    prices: Numbers,
}

impl Segment {
    ghost use Rattle.std.specs.Prelude.{◌≡◌};

    pub(crate) fn new(low: u64, high: u64, prices: Numbers) -> Self
        ensures { result ≡ record { low = low; high = high; prices = prices } }
    {
        Segment { low, high, prices }
    }

    pub fn low(&self) -> u64
        ensures { result ≡ self.now.low }
    {
        self.low
    }

    pub fn high(&self) -> u64
        ensures { result ≡ self.now.high }
    {
        self.high
    }

    pub fn prices(&self) -> &Numbers
        ensures { result.now ≡ self.now.prices }
    {
        &self.prices
    }
}

/// The segments of a supplier, segment 0, in which nothing is bought, first.
#[derive(Debug, Drop)]
pub struct Segments {
    items: Vec<Segment>,
}

impl Model for Segments {
    ghost use Rattle.std.specs.Prelude.{List};
    ghost use Rattle.tqd_instance.specs.declared.supplier.Segment.{Segment};

    ghost Value = { List Segment };

    ghost view = { λ s. s.items.items };
}

impl Segments {
    ghost use Rattle.std.specs.Prelude.{◌≡◌, ◌<◌, length, slice_index_or, IfSome};
    ghost use Rattle.tqd_instance.specs.Offer.{no_segment, place_of};

    pub(crate) fn of(items: Vec<Segment>) -> Self
        ensures { result ≡ items.items }
    {
        Segments { items }
    }

    pub fn len(&self) -> usize
        ensures { result ≡ length self.now }
    {
        self.items.len()
    }

    pub fn get(&self, at: usize) -> &Segment
        requires { at < length self.now }
        ensures { result.now ≡ slice_index_or self.now at no_segment }
    {
        &self.items[at]
    }

    /// The place of the first segment in which a total lies.
    pub fn place_of(&self, total: u64) -> Option<usize>
        ensures value { result ≡ place_of total self.now }
        ensures in_range { IfSome result (λ at. at < length self.now) }
    {
        for (at, segment) in self.items.iter().enumerate() {
            if segment.low <= total && total <= segment.high {
                return Some(at);
            }
        }
        None
    }
}

/// What a supplier offers: the fee in millionths of the currency, the stock of each good in units, and the segments.
#[derive(Debug, Drop)]
pub struct Supplier {
    fee: u64,
    stocks: Numbers,
    segments: Segments,
}

impl Supplier {
    ghost use Rattle.std.specs.Prelude.{◌≡◌};

    pub(crate) fn new(fee: u64, stocks: Numbers, segments: Segments) -> Self
        ensures { result ≡ record { fee = fee; stocks = stocks; segments = segments } }
    {
        Supplier {
            fee,
            stocks,
            segments,
        }
    }

    pub fn fee(&self) -> u64
        ensures { result ≡ self.now.fee }
    {
        self.fee
    }

    pub fn stocks(&self) -> &Numbers
        ensures { result.now ≡ self.now.stocks }
    {
        &self.stocks
    }

    pub fn segments(&self) -> &Segments
        ensures { result.now ≡ self.now.segments }
    {
        &self.segments
    }
}

/// The suppliers of a job.
#[derive(Debug, Drop)]
pub struct Suppliers {
    items: Vec<Supplier>,
}

impl Model for Suppliers {
    ghost use Rattle.std.specs.Prelude.{List};
    ghost use Rattle.tqd_instance.specs.declared.supplier.Supplier.{Supplier};

    ghost Value = { List Supplier };

    ghost view = { λ s. s.items.items };
}

impl Suppliers {
    ghost use Rattle.std.specs.Prelude.{◌≡◌, ◌<◌, length, slice_index_or};
    ghost use Rattle.tqd_instance.specs.Offer.{no_supplier};

    pub(crate) fn of(items: Vec<Supplier>) -> Self
        ensures { result ≡ items.items }
    {
        Suppliers { items }
    }

    pub fn len(&self) -> usize
        ensures { result ≡ length self.now }
    {
        self.items.len()
    }

    pub fn get(&self, at: usize) -> &Supplier
        requires { at < length self.now }
        ensures { result.now ≡ slice_index_or self.now at no_supplier }
    {
        &self.items[at]
    }
}
