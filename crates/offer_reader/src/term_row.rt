//! The rows of a file of terms.
ghost use Rattle.std.specs.Prelude.{◌≡◌, All, length, IfOk};
ghost use Rattle.bom_reader.specs.Faults.{Answers};
ghost use Rattle.offer_reader.specs.Terms.{term_rows};

use crate::term_fault::TermFault;
use csv_rows::{Table, rows};
use std::alloc::Global;
use std::collections::BTreeSet;
use std::marker::Model;
use tqd_base::{Memory, Stop};

/// The texts of a row of terms.
#[derive(Clone, Copy)]
pub(crate) struct TermTexts<'a> {
    pub(crate) kind: &'a str,
    pub(crate) supplier: &'a str,
    pub(crate) part: &'a str,
    pub(crate) low: &'a str,
    pub(crate) high: &'a str,
}

pub(crate) fn term_table(alloc: Global, bytes: &[u8]) -> Result<Table, Stop<TermFault>>
    ensures answer { Answers result (term_rows bytes.now) }
    ensures width { IfOk result (λ table. All (λ row. length row ≡ 5) table) }
{
    match rows(alloc, bytes, "kind,supplier,part,low,high") {
        Ok(table) => Ok(table),
        Err(Stop::Refused(fault)) => Err(Stop::Refused(TermFault::Rows(fault))),
        Err(Stop::Memory) => Err(Stop::Memory),
    }
}

/// The kinds, suppliers and parts of rows. A look-up compares as many of them as the logarithm of their number, whatever
/// the texts are.
#[derive(Drop)]
pub(crate) struct TermKeys {
    keys: BTreeSet<(String, String, String)>,
}

impl Model for TermKeys {
    ghost use Rattle.std.specs.Prelude.{List, map};
    ghost use Rattle.bom_reader.specs.Rows.{Row};
    ghost use Rattle.offer_reader.specs.TermRows.{key_texts};

    ghost Value = { List Row };

    ghost view = { λ keys. map key_texts keys.keys.keys };
}

impl TermKeys {
    ghost use Rattle.std.specs.Prelude.{◌≡◌, ◌++◌, ◌∷◌, [], not, if◌then◌else◌, IfOk, OnOk};
    ghost use Rattle.std.specs.List.{list_any};
    ghost use Rattle.offer_reader.specs.Terms.{same_term};
    ghost use Rattle.offer_reader.specs.TermRows.{row_of, with_key};

    pub(crate) fn empty(alloc: Global) -> TermKeys
        ensures { result ≡ [] }
    {
        TermKeys {
            keys: BTreeSet::new(alloc),
        }
    }

    /// Adds those of a row, where they are new, and answers whether they are.
    pub(crate) fn insert(&mut self, alloc: Global, row: &TermTexts<'_>) -> Result<bool, Memory>
        ensures fresh { IfOk result (λ fresh. fresh ≡ not (list_any (same_term (row_of row.now)) self.old)) }
        ensures keys { OnOk result (self.new ≡ with_key self.old (row_of row.now)) }
    {
        let kind = String::from_str(alloc, row.kind)?;
        let supplier = String::from_str(alloc, row.supplier)?;
        let part = String::from_str(alloc, row.part)?;
        Ok(self.keys.insert((kind, supplier, part))?)
    }
}
