//! The kinds of terms.
use crate::form::FieldForm::{Empty, Name, NameOrEmpty, Over, Price, Units, UpTo};
use crate::form::RowForms;
use tqd_base::limits::SUPPLIERS_MAX;

/// The thousandths of a share that are all of it.
pub(crate) const WHOLE: u64 = 1000;

/// What a row of terms is about.
#[derive(Clone, Copy)]
pub(crate) enum TermKind {
    Stock,
    Total,
    Share,
    Fee,
    Winners,
    Over,
}

impl TermKind {
    ghost use Rattle.std.specs.Prelude.{◌≡◌};
    ghost use Rattle.offer_reader.specs.TermForms.{forms_of, kind_of};

    /// The kind with this name.
    pub(crate) fn named(name: &str) -> Option<TermKind>
        ensures { result ≡ kind_of name.now }
    {
        match name {
            "stock" => Some(TermKind::Stock),
            "total" => Some(TermKind::Total),
            "share" => Some(TermKind::Share),
            "fee" => Some(TermKind::Fee),
            "winners" => Some(TermKind::Winners),
            "over" => Some(TermKind::Over),
            _ => None,
        }
    }

    /// The forms of the fields in a row of the kind.
    pub(crate) fn forms(self) -> RowForms
        ensures { result ≡ forms_of self }
    {
        let share = UpTo(WHOLE);
        let number = UpTo(SUPPLIERS_MAX as u64);
        match self {
            TermKind::Stock => RowForms::new(Name, Name, Empty, Units),
            TermKind::Total => RowForms::new(Name, Empty, Empty, Units),
            TermKind::Share => RowForms::new(Name, Empty, share, share),
            TermKind::Fee => RowForms::new(Name, Empty, Empty, Price),
            TermKind::Winners => RowForms::new(Empty, Empty, number, number),
            TermKind::Over => RowForms::new(Empty, NameOrEmpty, Empty, Over),
        }
    }
}
