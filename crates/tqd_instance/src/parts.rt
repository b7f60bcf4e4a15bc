use std::alloc::Global;
use std::marker::Model;
use tqd_base::Memory;

/// The price of a unit of a good, in millionths of the currency, where a supplier's total is at least `from` units.
#[derive(Clone, Copy, Debug, PartialEq, Eq)]
pub struct PriceRow {
    pub supplier: u32,
    pub from: u64,
    pub good: u32,
    pub price: u64,
}

/// At most so many units of a good from a supplier.
#[derive(Clone, Copy, Debug, PartialEq, Eq)]
pub struct StockRow {
    pub supplier: u32,
    pub good: u32,
    pub units: u64,
}

/// At most so many units in all from a supplier.
#[derive(Clone, Copy, Debug, PartialEq, Eq)]
pub struct TotalRow {
    pub supplier: u32,
    pub units: u64,
}

/// The thousandths of the sum of the needs between which a supplier's total lies, if anything is bought there.
#[derive(Clone, Copy, Debug, PartialEq, Eq)]
pub struct ShareRow {
    pub supplier: u32,
    pub low: u64,
    pub high: Option<u64>,
}

/// What is paid once where anything is bought from a supplier, in millionths of the currency.
#[derive(Clone, Copy, Debug, PartialEq, Eq)]
pub struct FeeRow {
    pub supplier: u32,
    pub fee: u64,
}

/// How much more than the need may be bought: so many hundredths of it, rounded down, or all that there is.
#[derive(Clone, Copy, Debug, PartialEq, Eq)]
pub enum Over {
    Percent(u64),
    Any,
}

/// What may be bought above the need of a good, or of each good that has no row of its own.
#[derive(Clone, Copy, Debug, PartialEq, Eq)]
pub struct OverRow {
    pub good: Option<u32>,
    pub over: Over,
}

/// Why parts make no job.
#[derive(Clone, Copy, Debug, PartialEq, Eq)]
pub enum JobFault {
    /// There are more than 1,000 goods: so many.
    TooManyGoods(u64),
    /// A supplier offers the good in another interval, and has no price of it in the interval that begins at `from`.
    MissingPrice { supplier: u32, from: u64, good: u32 },
    /// The low of a supplier's share is above its high.
    ShareOrder { supplier: u32 },
    /// The least number of winners is above the greatest.
    WinnerOrder,
}

/// What a job is built from: lists of rows that grow by the calls below.
#[derive(Debug, Drop)]
pub struct JobParts {
    suppliers: u32,
    needs: Vec<u64>,
    prices: Vec<PriceRow>,
    stocks: Vec<StockRow>,
    totals: Vec<TotalRow>,
    shares: Vec<ShareRow>,
    fees: Vec<FeeRow>,
    overs: Vec<OverRow>,
    least_winners: u64,
    most_winners: u64,
}

impl Model for JobParts {
    ghost use Rattle.tqd_instance.specs.PartsData.{PartsData};

    ghost Value = { PartsData };

    ghost view = { λ p. record {
      suppliers = p.suppliers;
      needs = p.needs.items;
      prices = p.prices.items;
      stocks = p.stocks.items;
      totals = p.totals.items;
      shares = p.shares.items;
      fees = p.fees.items;
      overs = p.overs.items;
      least_winners = p.least_winners;
      most_winners = p.most_winners;
    } };
}

impl JobParts {
    ghost use Rattle.std.specs.Prelude.{◌≡◌, ◌++◌, [], ◌∷◌, IfOk, OnOk, OnErr};

    /// Parts with so many suppliers and no rows. The winner limits are 0 and 64.
    pub fn new(alloc: Global, suppliers: u32) -> Result<JobParts, Memory>
        ensures { IfOk result (λ parts. parts ≡ record {
          suppliers = suppliers;
          needs = [];
          prices = [];
          stocks = [];
          totals = [];
          shares = [];
          fees = [];
          overs = [];
          least_winners = 0;
          most_winners = 64;
        }) }
    {
        Ok(JobParts {
            suppliers,
            needs: Vec::new(alloc),
            prices: Vec::new(alloc),
            stocks: Vec::new(alloc),
            totals: Vec::new(alloc),
            shares: Vec::new(alloc),
            fees: Vec::new(alloc),
            overs: Vec::new(alloc),
            least_winners: 0,
            most_winners: 64,
        })
    }

    /// Adds a good with the units of it that have to be bought, from 1 to 100,000,000 in parts that make a job.
    pub fn add_need(&mut self, need: u64) -> Result<(), Memory>
        ensures added { OnOk result (self.new ≡ record self.old { needs = self.old.needs ++ need ∷ [] }) }
        ensures kept { OnErr result (self.new ≡ self.old) }
    {
        self.needs.push(need)?;
        Ok(())
    }

    /// Adds the price of a good at a supplier in one of its intervals.
    pub fn add_price(&mut self, row: PriceRow) -> Result<(), Memory>
        ensures added { OnOk result (self.new ≡ record self.old { prices = self.old.prices ++ row ∷ [] }) }
        ensures kept { OnErr result (self.new ≡ self.old) }
    {
        self.prices.push(row)?;
        Ok(())
    }

    /// Adds the stock of a good at a supplier.
    pub fn add_stock(&mut self, row: StockRow) -> Result<(), Memory>
        ensures added { OnOk result (self.new ≡ record self.old { stocks = self.old.stocks ++ row ∷ [] }) }
        ensures kept { OnErr result (self.new ≡ self.old) }
    {
        self.stocks.push(row)?;
        Ok(())
    }

    /// Adds the most that may be bought from a supplier in all.
    pub fn add_total(&mut self, row: TotalRow) -> Result<(), Memory>
        ensures added { OnOk result (self.new ≡ record self.old { totals = self.old.totals ++ row ∷ [] }) }
        ensures kept { OnErr result (self.new ≡ self.old) }
    {
        self.totals.push(row)?;
        Ok(())
    }

    /// Adds a supplier's share.
    pub fn add_share(&mut self, row: ShareRow) -> Result<(), Memory>
        ensures added { OnOk result (self.new ≡ record self.old { shares = self.old.shares ++ row ∷ [] }) }
        ensures kept { OnErr result (self.new ≡ self.old) }
    {
        self.shares.push(row)?;
        Ok(())
    }

    /// Adds a supplier's fee.
    pub fn add_fee(&mut self, row: FeeRow) -> Result<(), Memory>
        ensures added { OnOk result (self.new ≡ record self.old { fees = self.old.fees ++ row ∷ [] }) }
        ensures kept { OnErr result (self.new ≡ self.old) }
    {
        self.fees.push(row)?;
        Ok(())
    }

    /// Adds how much more than the need may be bought of a good, or of each good without a row of its own.
    pub fn add_over(&mut self, row: OverRow) -> Result<(), Memory>
        ensures added { OnOk result (self.new ≡ record self.old { overs = self.old.overs ++ row ∷ [] }) }
        ensures kept { OnErr result (self.new ≡ self.old) }
    {
        self.overs.push(row)?;
        Ok(())
    }

    /// Sets the least and the greatest number of suppliers that may be bought from.
    pub fn set_winners(&mut self, low: u64, high: u64)
        ensures { self.new ≡ record self.old { least_winners = low; most_winners = high } }
    {
        self.least_winners = low;
        self.most_winners = high;
    }

    pub(crate) fn suppliers(&self) -> u32
        ensures { result ≡ self.now.suppliers }
    {
        self.suppliers
    }

    pub(crate) fn needs(&self) -> &[u64]
        ensures { result.now ≡ self.now.needs }
    {
        self.needs.as_slice()
    }

    pub(crate) fn prices(&self) -> &[PriceRow]
        ensures { result.now ≡ self.now.prices }
    {
        self.prices.as_slice()
    }

    pub(crate) fn stocks(&self) -> &[StockRow]
        ensures { result.now ≡ self.now.stocks }
    {
        self.stocks.as_slice()
    }

    pub(crate) fn totals(&self) -> &[TotalRow]
        ensures { result.now ≡ self.now.totals }
    {
        self.totals.as_slice()
    }

    pub(crate) fn shares(&self) -> &[ShareRow]
        ensures { result.now ≡ self.now.shares }
    {
        self.shares.as_slice()
    }

    pub(crate) fn fees(&self) -> &[FeeRow]
        ensures { result.now ≡ self.now.fees }
    {
        self.fees.as_slice()
    }

    pub(crate) fn overs(&self) -> &[OverRow]
        ensures { result.now ≡ self.now.overs }
    {
        self.overs.as_slice()
    }

    pub(crate) fn winners(&self) -> (u64, u64)
        ensures least { result.0 ≡ self.now.least_winners }
        ensures most { result.1 ≡ self.now.most_winners }
    {
        (self.least_winners, self.most_winners)
    }
}
