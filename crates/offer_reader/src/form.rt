//! The forms of the fields of terms.
ghost use Rattle.std.specs.Prelude.{◌≡◌};
ghost use Rattle.offer_reader.specs.TermForms.{allows, bad_field};
ghost use Rattle.offer_reader.specs.TermRows.{row_of};

use crate::term_row::TermTexts;
use bom_reader::is_name;
use money::{Price, read_qty};
use tqd_base::limits::QTY_MAX;

/// The greatest percentage above the need. A rule of this program.
pub(crate) const PERCENT_MAX: u64 = 1000;

/// What a field of terms may hold.
#[derive(Clone, Copy)]
pub(crate) enum FieldForm {
    /// Nothing.
    Empty,
    /// A name of a supplier or a part.
    Name,
    NameOrEmpty,
    /// Units of parts, 0 to 100,000,000.
    Units,
    /// A whole number up to this one, or nothing.
    UpTo(u64),
    /// A price, or a fee, which is written as one.
    Price,
    /// A percentage, or `any`.
    Over,
}

impl FieldForm {
    /// Whether a text is of the form.
    fn allows(self, text: &str) -> bool
        ensures { result ≡ allows self text.now }
    {
        match self {
            FieldForm::Empty => text.is_empty(),
            FieldForm::Name => is_name(text),
            FieldForm::NameOrEmpty => text.is_empty() || is_name(text),
            FieldForm::Units => read_qty(text.as_bytes(), 0, QTY_MAX).is_some(),
            FieldForm::UpTo(most) => {
                text.is_empty() || read_qty(text.as_bytes(), 0, most).is_some()
            }
            FieldForm::Price => Price::read(text.as_bytes()).is_some(),
            FieldForm::Over => {
                text == "any" || read_qty(text.as_bytes(), 0, PERCENT_MAX).is_some()
            }
        }
    }
}

/// The forms of the fields of a row after its kind.
#[derive(Clone, Copy)]
pub(crate) struct RowForms {
    pub(crate) supplier: FieldForm,
    pub(crate) part: FieldForm,
    pub(crate) low: FieldForm,
    pub(crate) high: FieldForm,
}

impl RowForms {
    pub(crate) fn new(
        supplier: FieldForm,
        part: FieldForm,
        low: FieldForm,
        high: FieldForm,
    ) -> RowForms
        ensures { result ≡ record { supplier = supplier; part = part; low = low; high = high } }
    {
        RowForms {
            supplier,
            part,
            low,
            high,
        }
    }

    /// The number of the first field that is not of its form. Fields count from 1, and the kind is the first.
    pub(crate) fn first_bad(&self, row: &TermTexts<'_>) -> Option<u64>
        ensures { result ≡ bad_field self.now (row_of row.now) }
    {
        if !self.supplier.allows(row.supplier) {
            return Some(2);
        }
        if !self.part.allows(row.part) {
            return Some(3);
        }
        if !self.low.allows(row.low) {
            return Some(4);
        }
        if !self.high.allows(row.high) {
            return Some(5);
        }
        None
    }
}
