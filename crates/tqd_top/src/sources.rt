//! The four files that state a job, in the order in which they are read.
ghost use Rattle.offer_reader.specs.Book.{HasNoTerms};
ghost use Rattle.plan_report.specs.declared.file.InputFile.TheVariants.{Orders as InOrders, Bill as InBill, Offers as InOffers, Terms as InTerms};
ghost use Rattle.tqd_top.specs.JobOf.{bill_stated, offers_stated, orders_stated, terms_stated};
ghost use Rattle.tqd_top.specs.Inner.ReadBook.{IsReadBook};

use crate::kept::OffersKept;
use crate::no_value::{NoValue, bad};
use crate::reading::{NeedsRead, OffersRead};
use crate::source::Source;
use bom_reader::{Bill, Orders, read_bill, read_orders};
use offer_reader::read_terms;
use plan_report::{FileFault, InputFile};
use std::alloc::Global;
use tqd_base::Stop;

/// The orders.
#[derive(Drop)]
pub(crate) struct OrdersFile;

impl Source for OrdersFile {
    type Value = Orders;

    ghost file_of = { λ source. InOrders };

    ghost stated = { λ source. orders_stated };

    ghost IsReady = { λ source. Unit {0} };

    fn file(&self) -> InputFile {
        InputFile::Orders
    }

    fn read(self, alloc: Global, bytes: Vec<u8>) -> Result<Orders, NoValue> {
        match read_orders(alloc, &bytes) {
            Ok(orders) => Ok(orders),
            Err(Stop::Refused(fault)) => Err(bad(alloc, FileFault::Orders(fault))),
            Err(Stop::Memory) => Err(NoValue::Memory),
        }
    }
}

/// The bill, after these orders.
#[derive(Drop)]
pub(crate) struct BillFile(pub Orders);

impl Source for BillFile {
    type Value = Bill;

    ghost file_of = { λ source. InBill };

    ghost stated = { λ source. bill_stated source.0 };

    ghost IsReady = { λ source. Unit {0} };

    fn file(&self) -> InputFile {
        InputFile::Bill
    }

    fn read(self, alloc: Global, bytes: Vec<u8>) -> Result<Bill, NoValue> {
        match read_bill(alloc, self.0, &bytes) {
            Ok(bill) => Ok(bill),
            Err(Stop::Refused(fault)) => Err(bad(alloc, FileFault::Bill(fault))),
            Err(Stop::Memory) => Err(NoValue::Memory),
        }
    }
}

/// The offers for these needs.
#[derive(Drop)]
pub(crate) struct OffersFile(pub NeedsRead);

impl Source for OffersFile {
    type Value = OffersKept;

    ghost file_of = { λ source. InOffers };

    ghost stated = { λ source. offers_stated source.0 };

    ghost IsReady = { λ source. Unit {0} };

    fn file(&self) -> InputFile {
        InputFile::Offers
    }

    fn read(self, alloc: Global, bytes: Vec<u8>) -> Result<OffersKept, NoValue> {
        OffersKept::read(alloc, self.0, bytes)
    }
}

/// The terms of these offers, which have none yet.
#[derive(Drop)]
pub(crate) struct TermsFile(pub OffersRead);

impl Source for TermsFile {
    type Value = OffersRead;

    ghost file_of = { λ source. InTerms };

    ghost stated = { λ source. terms_stated source.0 };

    ghost IsReady = { λ source. HasNoTerms source.0.book.parts × IsReadBook source.0 };

    fn file(&self) -> InputFile {
        InputFile::Terms
    }

    fn read(self, alloc: Global, bytes: Vec<u8>) -> Result<OffersRead, NoValue> {
        let OffersRead { bill, needs, book } = self.0;
        match read_terms(alloc, book, &bytes, &bill, &needs) {
            Ok(book) => Ok(OffersRead { bill, needs, book }),
            Err(Stop::Refused(fault)) => Err(bad(alloc, FileFault::Terms(fault))),
            Err(Stop::Memory) => Err(NoValue::Memory),
        }
    }
}
