ghost use Rattle.std.specs.Prelude.{◌≡◌, ◌<◌, ◌≤◌, ◌^◌, All, [], length, IfOk, OnOk};
ghost use Rattle.tqd_base.specs.declared.limits.TheConstants.{SUPPLIERS_MAX};
ghost use Rattle.bom_reader.specs.Faults.{Answers};
ghost use Rattle.offer_reader.specs.Book.{HasNoTerms, book_in, parts_of};
ghost use Rattle.offer_reader.specs.Steps.{ReadsAll};

use crate::book::OfferBook;
use crate::fault::OfferFault;
use crate::reading::{GoodPrices, OfferReading, OfferTexts};
use crate::rows::offer_table;
use bom_explode::Needs;
use bom_reader::{Bill, NameList};
use csv_rows::Table;
use std::alloc::Global;
use tqd_base::{Memory, Stop};
use tqd_instance::JobParts;

/// Reads the rows after the header.
fn read_rows(
    alloc: Global,
    table: &Table,
    names: &NameList,
    needs: &Needs,
) -> Result<OfferReading, Stop<OfferFault>>
    requires width { All (λ row. length row ≡ 4) table.now }
    requires few { length table.now < 2 ^ 32 }
    ensures { ReadsAll (record { names = names.now; goods = needs.now.goods }) table.now result }
{
    let mut reading = OfferReading::empty(alloc);
    for row in 0..table.len() {
        let at = row as u64 + 2;
        let texts = OfferTexts {
            supplier: table.field(row, 0),
            from: table.field(row, 1),
            part: table.field(row, 2),
            price: table.field(row, 3),
        };
        match reading.read_row(alloc, names, needs, &texts, at) {
            Ok(()) => {}
            Err(stop) => return Err(stop),
        }
    }
    Ok(reading)
}

/// The parts of a job with these prices: the needs first, and then the prices. No terms are in them.
fn parts_with(alloc: Global, needs: &Needs, prices: &GoodPrices) -> Result<JobParts, Memory>
    requires { length prices.now.suppliers ≤ SUPPLIERS_MAX }
    ensures { IfOk result (λ parts. parts ≡ parts_of needs.now.units (length prices.now.suppliers) prices.now.rows) }
{
    let mut parts = JobParts::new(alloc, prices.suppliers.len() as u32)?;
    add_needs(&mut parts, needs)?;
    for row in &prices.rows {
        parts.add_price(*row)?;
    }
    Ok(parts)
}

/// Adds what is needed of each good.
fn add_needs(parts: &mut JobParts, needs: &Needs) -> Result<(), Memory>
    requires { parts.old.needs ≡ [] }
    ensures { OnOk result (parts.new ≡ record parts.old { needs = needs.now.units }) }
{
    for k in 0..needs.goods().len() {
        parts.add_need(needs.units(k))?;
    }
    Ok(())
}

/// Reads the file of offers, `supplier,from,part,price`. In a row the tests come in this order: the names, the total,
/// the price, the repeat, the number of suppliers, and the number of intervals of the supplier. Suppliers are numbered
/// from 0 by first appearance in the rows whose part is a good; rows of other parts are tested and then left out.
/// The bill and the needs stay.
pub fn read_offers(
    alloc: Global,
    bytes: &[u8],
    bill: &Bill,
    needs: &Needs,
) -> Result<OfferBook, Stop<OfferFault>>
    ensures answer { Answers result (book_in (record { names = bill.now.names; goods = needs.now.goods }) needs.now.units bytes.now) }
    ensures no_terms { IfOk result (λ book. HasNoTerms book.parts) }
    ensures needs { IfOk result (λ book. book.parts.needs ≡ needs.now.units) }
{
    let table = offer_table(alloc, bytes)?;
    // A file has far fewer rows: this spares a bound on the number of a row.
    if table.len() > u32::MAX as usize {
        return Err(Stop::Memory);
    }
    // There are as many goods as units that are needed of them.
    let _ = needs.goods();
    let reading = read_rows(alloc, &table, bill.names(), needs)?;
    let Ok(parts) = parts_with(alloc, needs, &reading.goods) else {
        return Err(Stop::Memory);
    };
    let OfferReading {
        sellers,
        offered,
        goods: prices,
        ..
    } = reading;
    Ok(OfferBook {
        sellers,
        offered,
        suppliers: prices.suppliers,
        parts,
    })
}
