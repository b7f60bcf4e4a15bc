//! The reading of offers, row by row.
ghost use Rattle.std.specs.Prelude.{◌≡◌, ◌<◌, ◌≤◌, ◌==◌, not, ◌++◌, ◌∷◌, [], ℕ, None, List, length, unwrap_or, slice_index_or, IfOk, OnOk};
ghost use Rattle.std.specs.List.{list_any};
ghost use Rattle.bom_reader.specs.Faults.{Answers, unless};
ghost use Rattle.bom_reader.specs.Names.{with_name};
ghost use Rattle.offer_reader.specs.Offers.{with_number};
ghost use Rattle.offer_reader.specs.Reading.{fields_fault, many_fault, noted, numbers_of, priced, row_of};

use crate::fault::OfferFault;
use crate::wanted::good_of;
use bom_explode::Needs;
use bom_reader::{NameList, is_name};
use money::{Price, read_qty};
use std::alloc::Global;
use std::collections::BTreeSet;
use std::marker::Model;
use tqd_base::limits::{INTERVALS_MAX, QTY_MAX, SUPPLIERS_MAX};
use tqd_base::{Memory, Stop};
use tqd_instance::PriceRow;

/// The texts of a row of offers.
#[derive(Clone, Copy)]
pub(crate) struct OfferTexts<'a> {
    pub(crate) supplier: &'a str,
    pub(crate) from: &'a str,
    pub(crate) part: &'a str,
    pub(crate) price: &'a str,
}

/// The numbers of a row of offers: the least total at which the price holds, and the price.
#[derive(Clone, Copy)]
pub(crate) struct OfferNumbers {
    pub(crate) from: u64,
    pub(crate) price: u64,
}

/// The numbers of the row with this number, where its names and numbers are of their forms.
fn read_numbers(row: &OfferTexts<'_>, at: u64) -> Result<OfferNumbers, Stop<OfferFault>>
    ensures { Answers result (unless (fields_fault at (row_of row.now)) (numbers_of (row_of row.now))) }
{
    if !is_name(row.supplier) || !is_name(row.part) {
        return Err(Stop::Refused(OfferFault::Name { at }));
    }
    let Some(from) = read_qty(row.from.as_bytes(), 1, QTY_MAX) else {
        return Err(Stop::Refused(OfferFault::From { at }));
    };
    match Price::read(row.price.as_bytes()) {
        Some(price) => Ok(OfferNumbers {
            from,
            price: price.units(),
        }),
        None => Err(Stop::Refused(OfferFault::Price { at })),
    }
}

/// Whether a number is among these.
fn has_number(numbers: &[u64], n: u64) -> bool
    ensures { result ≡ list_any (λ m. m == n) numbers.now }
{
    numbers.iter().any(|m| *m == n)
}

/// The different totals from which prices of one supplier hold, in the order of their first appearance.
#[derive(Drop)]
pub(crate) struct Froms {
    numbers: Vec<u64>,
}

impl Model for Froms {
    ghost use Rattle.std.specs.Prelude.{ℕ, List};

    ghost Value = { List ℕ };

    ghost view = { λ froms. froms.numbers.items };
}

impl Froms {
    fn empty(alloc: Global) -> Froms
        ensures { result ≡ [] }
    {
        Froms {
            numbers: Vec::new(alloc),
        }
    }

    fn len(&self) -> usize
        ensures { result ≡ length self.now }
    {
        self.numbers.len()
    }

    // Adds a number, last, where it is new.
    fn note(&mut self, from: u64) -> Result<(), Memory>
        ensures { OnOk result (self.new ≡ with_number self.old from) }
    {
        if has_number(&self.numbers, from) {
            return Ok(());
        }
        Ok(self.numbers.push(from)?)
    }
}

/// Notes a total from which a price of the supplier at a place holds, and answers how many there are.
fn note_from(
    alloc: Global,
    froms: &mut Vec<Froms>,
    place: usize,
    from: u64,
) -> Result<usize, Memory>
    requires { place ≤ length froms.old.items }
    ensures noted { OnOk result (froms.new.items ≡ noted froms.old.items place from) }
    ensures count { IfOk result (λ count. count ≡ length (slice_index_or froms.new.items place [])) }
{
    if place == froms.len() {
        froms.push(Froms::empty(alloc))?;
    }
    froms[place].note(from)?;
    Ok(froms[place].len())
}

/// The prices of goods, by their suppliers.
#[derive(Drop)]
pub(crate) struct GoodPrices {
    pub(crate) suppliers: NameList,
    froms: Vec<Froms>,
    pub(crate) rows: Vec<PriceRow>,
}

impl Model for GoodPrices {
    ghost use Rattle.offer_reader.specs.Reading.{PricesData};

    ghost Value = { PricesData };

    ghost view = { λ prices. record { suppliers = prices.suppliers; froms = prices.froms.items; rows = prices.rows.items } };
}

impl GoodPrices {
    pub(crate) fn empty(alloc: Global) -> GoodPrices
        ensures { result ≡ record { suppliers = []; froms = []; rows = [] } }
    {
        GoodPrices {
            suppliers: NameList::empty(alloc),
            froms: Vec::new(alloc),
            rows: Vec::new(alloc),
        }
    }

    // Adds the price of a good at a supplier. Of the row with this number no more is tested.
    fn add(
        &mut self,
        alloc: Global,
        supplier: &str,
        good: u32,
        numbers: OfferNumbers,
        at: u64,
    ) -> Result<(), Stop<OfferFault>>
        requires { length self.old.froms ≡ length self.old.suppliers }
        ensures answer { Answers result (unless (many_fault (priced self.old supplier.now good numbers) supplier.now at) tt) }
        ensures added { OnOk result (self.new ≡ priced self.old supplier.now good numbers) }
    {
        let place = self.suppliers.add(supplier)?;
        if self.suppliers.len() > SUPPLIERS_MAX {
            return Err(Stop::Refused(OfferFault::TooManySuppliers { at }));
        }
        let intervals = note_from(alloc, &mut self.froms, place as usize, numbers.from)?;
        if intervals > INTERVALS_MAX {
            return Err(Stop::Refused(OfferFault::TooManyIntervals { at }));
        }
        self.rows.push(PriceRow {
            supplier: place,
            from: numbers.from,
            good,
            price: numbers.price,
        })?;
        Ok(())
    }
}

/// What was read of a file of offers: everyone who sells, every part that is offered, and the prices of goods.
#[derive(Drop)]
pub(crate) struct OfferReading {
    pub(crate) sellers: NameList,
    pub(crate) offered: NameList,
    pub(crate) goods: GoodPrices,
    keys: BTreeSet<(u32, u64, u32)>,
}

impl Model for OfferReading {
    ghost use Rattle.offer_reader.specs.Steps.{ReadingData};

    ghost Value = { ReadingData };

    ghost view = { λ reading. record { sellers = reading.sellers; offered = reading.offered; goods = reading.goods; keys = reading.keys.keys } };
}

impl OfferReading {
    ghost use Rattle.offer_reader.specs.Steps.{key_in, same_key, step_fault, stepped, with_key, with_names_of};

    pub(crate) fn empty(alloc: Global) -> OfferReading
        ensures { result ≡ record { sellers = []; offered = []; goods = record { suppliers = []; froms = []; rows = [] }; keys = [] } }
    {
        OfferReading {
            sellers: NameList::empty(alloc),
            offered: NameList::empty(alloc),
            goods: GoodPrices::empty(alloc),
            keys: BTreeSet::new(alloc),
        }
    }

    // Adds the names of a row and its key, and answers whether the key is new.
    fn note_names(&mut self, row: &OfferTexts<'_>, from: u64) -> Result<bool, Memory>
        ensures fresh { IfOk result (λ fresh. fresh ≡ not (list_any (same_key (key_in (with_names_of self.old (row_of row.now)) (row_of row.now) from)) self.old.keys)) }
        ensures noted { OnOk result (self.new ≡ record (with_names_of self.old (row_of row.now)) {
          keys = with_key self.old.keys (key_in (with_names_of self.old (row_of row.now)) (row_of row.now) from);
        }) }
    {
        let seller = self.sellers.add(row.supplier)?;
        let part = self.offered.add(row.part)?;
        Ok(self.keys.insert((seller, from, part))?)
    }

    /// Reads the row with this number.
    pub(crate) fn read_row(
        &mut self,
        alloc: Global,
        names: &NameList,
        needs: &Needs,
        row: &OfferTexts<'_>,
        at: u64,
    ) -> Result<(), Stop<OfferFault>>
        requires { length self.old.goods.froms ≡ length self.old.goods.suppliers }
        ensures answer { Answers result (unless (step_fault (record { names = names.now; goods = needs.now.goods }) self.old at (row_of row.now)) tt) }
        ensures added { OnOk result (self.new ≡ stepped (record { names = names.now; goods = needs.now.goods }) self.old (row_of row.now)) }
    {
        let numbers = read_numbers(row, at)?;
        if !self.note_names(row, numbers.from)? {
            return Err(Stop::Refused(OfferFault::Twice { at }));
        }
        match good_of(names, needs, row.part) {
            Some(good) => self.goods.add(alloc, row.supplier, good, numbers, at),
            None => Ok(()),
        }
    }
}
