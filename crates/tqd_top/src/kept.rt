//! Offers that can be read once more.
ghost use Rattle.std.specs.Prelude.{◌≡◌, IfOk};
ghost use Rattle.offer_reader.specs.Book.{HasNoTerms};
ghost use Rattle.tqd_top.specs.JobOf.{offers_stated};
ghost use Rattle.tqd_top.specs.Inner.Steps.{Yields};

use crate::no_value::{NoValue, bad};
use crate::reading::{NeedsRead, OffersRead};
use offer_reader::{OfferBook, read_offers};
use plan_report::FileFault;
use std::alloc::Global;
use std::marker::Model;
use tqd_base::{Memory, Stop};

/// Offers that were read, with the bytes of their file. Terms are read into a book that has none, and each scenario has
/// terms of its own; so each needs a book of its own, which is read from the bytes once more.
///
/// Contracts see it as the offers.
#[derive(Drop)]
pub(crate) struct OffersKept {
    offers: OffersRead,
    bytes: Vec<u8>,
}

impl Model for OffersKept {
    ghost use Rattle.std.specs.Prelude.{◌≡◌, Ok};
    ghost use Rattle.offer_reader.specs.Book.{book_in};
    ghost use Rattle.tqd_top.specs.declared.reading.OffersRead.{OffersRead};

    ghost Value = { OffersRead };

    ghost view = { λ kept. kept.offers };

    ghost invariant = { λ kept. book_in (record { names = kept.offers.bill.names; goods = kept.offers.needs.goods })
        kept.offers.needs.units kept.bytes.items ≡ Ok kept.offers.book };
}

impl OffersKept {
    /// The offers that the bytes of a file state for these needs.
    pub(crate) fn read(
        alloc: Global,
        read: NeedsRead,
        bytes: Vec<u8>,
    ) -> Result<OffersKept, NoValue>
        ensures { Yields (offers_stated read bytes.items) result }
    {
        let NeedsRead { bill, needs } = read;
        match read_offers(alloc, &bytes, &bill, &needs) {
            Ok(book) => {
                let offers = OffersRead { bill, needs, book };
                Ok(OffersKept { offers, bytes })
            }
            Err(Stop::Refused(fault)) => Err(bad(alloc, FileFault::Offers(fault))),
            Err(Stop::Memory) => Err(NoValue::Memory),
        }
    }

    /// The offers.
    pub(crate) fn offers(&self) -> &OffersRead
        ensures { result.now ≡ self.now }
    {
        &self.offers
    }

    /// The offers, without the bytes of their file.
    pub(crate) fn into_offers(self) -> OffersRead
        ensures { result ≡ self }
    {
        self.offers
    }

    /// The book of the offers, read once more. It has no terms.
    pub(crate) fn book_again(&self, alloc: Global) -> Result<OfferBook, Memory>
        ensures book { IfOk result (λ book. book ≡ self.now.book) }
        ensures no_terms { IfOk result (λ book. HasNoTerms book.parts) }
        ensures needs { IfOk result (λ book. book.parts.needs ≡ self.now.needs.units) }
    {
        match read_offers(alloc, &self.bytes, &self.offers.bill, &self.offers.needs) {
            Ok(book) => Ok(book),
            // The bytes have no fault, as they had none before.
            Err(Stop::Refused(_)) => unreachable!(),
            Err(Stop::Memory) => Err(Memory),
        }
    }
}
