//! The rows of a file of offers.
ghost use Rattle.std.specs.Prelude.{◌≡◌, All, length, IfOk};
ghost use Rattle.bom_reader.specs.Faults.{Answers};
ghost use Rattle.offer_reader.specs.Offers.{offer_rows};

use crate::fault::OfferFault;
use csv_rows::{Table, rows};
use std::alloc::Global;
use tqd_base::Stop;

pub(crate) fn offer_table(alloc: Global, bytes: &[u8]) -> Result<Table, Stop<OfferFault>>
    ensures answer { Answers result (offer_rows bytes.now) }
    ensures width { IfOk result (λ table. All (λ row. length row ≡ 4) table) }
{
    match rows(alloc, bytes, "supplier,from,part,price") {
        Ok(table) => Ok(table),
        Err(Stop::Refused(fault)) => Err(Stop::Refused(OfferFault::Rows(fault))),
        Err(Stop::Memory) => Err(Stop::Memory),
    }
}
