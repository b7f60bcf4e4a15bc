//! What a row of terms says of the job.
ghost use Rattle.std.specs.Prelude.{◌≡◌, fold, option_map, unwrap_or, OnOk};
ghost use Rattle.money.specs.Price.{price_of};
ghost use Rattle.offer_reader.specs.Terms.{number_or, over_good, over_in, term_by, with_term};
ghost use Rattle.offer_reader.specs.TermRows.{row_of};
ghost use Rattle.offer_reader.specs.declared.kind.TermKind.TheVariants.{Stock as StockKind};
ghost use Rattle.offer_reader.specs.declared.term.Term.TheVariants.{Stock};

use crate::form::PERCENT_MAX;
use crate::kind::{TermKind, WHOLE};
use crate::term_row::TermTexts;
use crate::wanted::good_of;
use bom_explode::Needs;
use bom_reader::NameList;
use money::{Price, read_qty};
use tqd_base::Memory;
use tqd_base::limits::{QTY_MAX, SUPPLIERS_MAX};
use tqd_instance::{FeeRow, JobParts, Over, OverRow, ShareRow, StockRow, TotalRow};

/// A term of the job.
#[derive(Clone, Copy)]
pub(crate) enum Term {
    Stock(StockRow),
    Total(TotalRow),
    Share(ShareRow),
    Fee(FeeRow),
    /// The least and the greatest number of suppliers that are bought from.
    Winners(u64, u64),
    Over(OverRow),
}

/// The whole number up to `most` that a text is, or else `other`.
fn number_or(other: u64, most: u64, text: &str) -> u64
    ensures { result ≡ number_or other most text.now }
{
    read_qty(text.as_bytes(), 0, most).unwrap_or(other)
}

/// The percentage above the need that a text is, or no bound.
fn over_in(text: &str) -> Over
    ensures { result ≡ over_in text.now }
{
    if text == "any" {
        Over::Any
    } else {
        Over::Percent(number_or(0, PERCENT_MAX, text))
    }
}

/// The good that an over row is of: none in particular where it names no part.
fn over_good(names: &NameList, needs: &Needs, part: &str) -> Option<Option<u32>>
    ensures { result ≡ over_good (record { names = names.now; goods = needs.now.goods }) part.now }
{
    if part.is_empty() {
        Some(None)
    } else {
        good_of(names, needs, part).map(Some)
    }
}

/// The fee that a text is.
fn fee_in(text: &str) -> u64
    ensures { result ≡ unwrap_or (price_of text.now) 0 }
{
    match Price::read(text.as_bytes()) {
        Some(fee) => fee.units(),
        None => 0,
    }
}

/// The stock that a row states, where its supplier offers a good and its part is one.
fn stock_in(
    suppliers: &NameList,
    names: &NameList,
    needs: &Needs,
    row: &TermTexts<'_>,
) -> Option<StockRow>
    ensures { option_map Stock result
        ≡ term_by (record { names = names.now; goods = needs.now.goods }) suppliers.now StockKind (row_of row.now) }
{
    let supplier = suppliers.number(row.supplier)?;
    let good = good_of(names, needs, row.part)?;
    Some(StockRow {
        supplier,
        good,
        units: number_or(0, QTY_MAX, row.high),
    })
}

/// The term of a row of a kind whose fields are of its forms. There is none where its supplier offers no good, or its
/// part is none.
pub(crate) fn term_by(
    suppliers: &NameList,
    names: &NameList,
    needs: &Needs,
    kind: TermKind,
    row: &TermTexts<'_>,
) -> Option<Term>
    ensures { result
        ≡ term_by (record { names = names.now; goods = needs.now.goods }) suppliers.now kind (row_of row.now) }
{
    match kind {
        TermKind::Stock => stock_in(suppliers, names, needs, row).map(Term::Stock),
        TermKind::Total => {
            let supplier = suppliers.number(row.supplier)?;
            let units = number_or(0, QTY_MAX, row.high);
            Some(Term::Total(TotalRow { supplier, units }))
        }
        TermKind::Share => {
            let supplier = suppliers.number(row.supplier)?;
            let low = number_or(0, WHOLE, row.low);
            let high = read_qty(row.high.as_bytes(), 0, WHOLE);
            Some(Term::Share(ShareRow {
                supplier,
                low,
                high,
            }))
        }
        TermKind::Fee => {
            let supplier = suppliers.number(row.supplier)?;
            let fee = fee_in(row.high);
            Some(Term::Fee(FeeRow { supplier, fee }))
        }
        TermKind::Winners => {
            let most = SUPPLIERS_MAX as u64;
            Some(Term::Winners(number_or(0, most, row.low), number_or(most, most, row.high)))
        }
        TermKind::Over => {
            let good = over_good(names, needs, row.part)?;
            let over = over_in(row.high);
            Some(Term::Over(OverRow { good, over }))
        }
    }
}

/// Adds a term to the parts of a job.
fn add_term(parts: &mut JobParts, term: Term) -> Result<(), Memory>
    ensures { OnOk result (parts.new ≡ with_term parts.old term) }
{
    match term {
        Term::Stock(row) => parts.add_stock(row),
        Term::Total(row) => parts.add_total(row),
        Term::Share(row) => parts.add_share(row),
        Term::Fee(row) => parts.add_fee(row),
        Term::Winners(least, most) => {
            parts.set_winners(least, most);
            Ok(())
        }
        Term::Over(row) => parts.add_over(row),
    }
}

/// Adds terms to the parts of a job.
pub(crate) fn add_terms(parts: &mut JobParts, terms: &[Term]) -> Result<(), Memory>
    ensures { OnOk result (parts.new ≡ fold with_term parts.old terms.now) }
{
    for term in terms {
        add_term(parts, *term)?;
    }
    Ok(())
}
