ghost use Rattle.std.specs.Prelude.{◌≡◌, ◌<◌, ◌^◌, ◌++◌, [], All, length, IfOk, OnOk};
ghost use Rattle.std.specs.List.{cons_option};
ghost use Rattle.bom_reader.specs.Faults.{Answers, AnswersBy, unless};
ghost use Rattle.offer_reader.specs.Book.{HasNoTerms, IsBook};
ghost use Rattle.offer_reader.specs.TermRows.{row_of};
ghost use Rattle.offer_reader.specs.Terms.{book_with, checked_terms, form_fault, knows_part, knows_supplier, names_fault, term_fault, terms_in};
ghost use Rattle.offer_reader.specs.TermSteps.{HasKind, stepped};

use crate::book::{OfferBook, has_name};
use crate::kind::TermKind;
use crate::term::{Term, add_terms, term_by};
use crate::term_fault::TermFault;
use crate::term_row::{TermKeys, TermTexts, term_table};
use bom_explode::Needs;
use bom_reader::{Bill, NameList};
use csv_rows::Table;
use std::alloc::Global;
use std::marker::Model;
use tqd_base::{Memory, Stop};

/// The kind of the row with this number, where its fields are of their forms.
fn read_kind(row: &TermTexts<'_>, at: u64) -> Result<TermKind, Stop<TermFault>>
    ensures { HasKind at (row_of row.now) result }
{
    let Some(kind) = TermKind::named(row.kind) else {
        if row.kind == "multiple" {
            return Err(Stop::Refused(TermFault::OrderMultiple { at }));
        }
        return Err(Stop::Refused(TermFault::UnknownKind { at }));
    };
    match kind.forms().first_bad(row) {
        Some(field) => Err(Stop::Refused(TermFault::Field { at, field })),
        None => Ok(kind),
    }
}

/// Whether a field holds no supplier, or one that stands in a row of the offers.
fn is_supplier(book: &OfferBook, name: &str) -> bool
    ensures { result ≡ knows_supplier book.now name.now }
{
    name.is_empty() || book.sells(name)
}

/// Whether a field holds no part, or one that is a name of orders or bill or stands in a row of the offers.
fn is_part(book: &OfferBook, names: &NameList, name: &str) -> bool
    ensures { result ≡ knows_part names.now book.now name.now }
{
    name.is_empty() || has_name(names, name) || book.is_offered(name)
}

/// The fault of the names in the row with this number.
fn names_fault(
    book: &OfferBook,
    names: &NameList,
    row: &TermTexts<'_>,
    at: u64,
) -> Option<TermFault>
    ensures { result ≡ names_fault names.now book.now at (row_of row.now) }
{
    if !is_supplier(book, row.supplier) {
        return Some(TermFault::UnknownSupplier { at });
    }
    if !is_part(book, names, row.part) {
        return Some(TermFault::UnknownPart { at });
    }
    None
}

/// What was read of a file of terms: the keys of the rows, and the terms of the job.
#[derive(Drop)]
struct TermReading {
    keys: TermKeys,
    terms: Vec<Term>,
}

impl Model for TermReading {
    ghost use Rattle.offer_reader.specs.TermSteps.{ReadingData};

    ghost Value = { ReadingData };

    ghost view = { λ reading. record { keys = reading.keys; terms = reading.terms.items } };
}

impl TermReading {
    fn empty(alloc: Global) -> TermReading
        ensures { result ≡ record { keys = []; terms = [] } }
    {
        TermReading {
            keys: TermKeys::empty(alloc),
            terms: Vec::new(alloc),
        }
    }

    // Adds the term of a row, if it states one.
    fn add(&mut self, term: Option<Term>) -> Result<(), Memory>
        ensures { OnOk result (self.new ≡ record self.old { terms = self.old.terms ++ cons_option term [] }) }
    {
        match term {
            Some(term) => Ok(self.terms.push(term)?),
            None => Ok(()),
        }
    }

    /// Reads the row with this number.
    fn read_row(
        &mut self,
        alloc: Global,
        book: &OfferBook,
        names: &NameList,
        needs: &Needs,
        row: &TermTexts<'_>,
        at: u64,
    ) -> Result<(), Stop<TermFault>>
        ensures answer { Answers result (unless
            (term_fault (record { names = names.now; goods = needs.now.goods }) book.now self.old.keys at (row_of row.now))
            tt) }
        ensures added { OnOk result (self.new
            ≡ stepped (record { names = names.now; goods = needs.now.goods }) book.now.suppliers self.old (row_of row.now)) }
    {
        let kind = read_kind(row, at)?;
        if let Some(fault) = names_fault(book, names, row, at) {
            return Err(Stop::Refused(fault));
        }
        if !self.keys.insert(alloc, row)? {
            return Err(Stop::Refused(TermFault::Twice { at }));
        }
        self.add(term_by(book.suppliers(), names, needs, kind, row))?;
        Ok(())
    }
}

/// Reads the rows after the header.
fn read_rows(
    alloc: Global,
    table: &Table,
    book: &OfferBook,
    names: &NameList,
    needs: &Needs,
) -> Result<Vec<Term>, Stop<TermFault>>
    requires width { All (λ row. length row ≡ 5) table.now }
    requires few { length table.now < 2 ^ 32 }
    ensures { AnswersBy (λ terms. terms.items) result
        (checked_terms (record { names = names.now; goods = needs.now.goods }) book.now table.now) }
{
    let mut reading = TermReading::empty(alloc);
    for row in 0..table.len() {
        let at = row as u64 + 2;
        let texts = TermTexts {
            kind: table.field(row, 0),
            supplier: table.field(row, 1),
            part: table.field(row, 2),
            low: table.field(row, 3),
            high: table.field(row, 4),
        };
        match reading.read_row(alloc, book, names, needs, &texts, at) {
            Ok(()) => {}
            Err(stop) => return Err(stop),
        }
    }
    Ok(reading.terms)
}

/// The book with these terms in its parts.
fn with_terms(book: OfferBook, terms: &[Term]) -> Result<OfferBook, Memory>
    requires { IsBook (book_with book terms.now) }
    ensures { IfOk result (λ after. after ≡ book_with book terms.now) }
{
    let OfferBook {
        sellers,
        offered,
        suppliers,
        mut parts,
    } = book;
    add_terms(&mut parts, terms)?;
    Ok(OfferBook {
        sellers,
        offered,
        suppliers,
        parts,
    })
}

/// Reads the file of terms, `kind,supplier,part,low,high`, into a book that has none. In a row the tests come in this
/// order: the kind, the form of each field, the supplier, the part, the repeat. Terms on suppliers that offer no good, and
/// on parts that are none, are tested and then left out. On a refusal, and where memory is wanting, the book is dropped.
pub fn read_terms(
    alloc: Global,
    book: OfferBook,
    bytes: &[u8],
    bill: &Bill,
    needs: &Needs,
) -> Result<OfferBook, Stop<TermFault>>
    requires no_terms { HasNoTerms book.parts }
    requires needs { book.parts.needs ≡ needs.now.units }
    ensures { Answers result (terms_in (record { names = bill.now.names; goods = needs.now.goods }) book bytes.now) }
{
    let table = term_table(alloc, bytes)?;
    // A file has far fewer rows: this spares a bound on the number of a row.
    if table.len() > u32::MAX as usize {
        return Err(Stop::Memory);
    }
    // There are as many goods as units that are needed of them.
    let _ = needs.goods();
    let terms = read_rows(alloc, &table, &book, bill.names(), needs)?;
    Ok(with_terms(book, &terms)?)
}
