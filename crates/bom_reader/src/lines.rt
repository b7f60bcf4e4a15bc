//! The rows of a bill.
ghost use Rattle.std.specs.Prelude.{◌≡◌, ◌≤◌, List, ℕ, [], ◌∷◌, All, length, map, OnOk};
ghost use Rattle.tqd_base.specs.declared.limits.TheConstants.{NAMES_MAX, LINES_MAX};
ghost use Rattle.bom_reader.specs.Names.{with_names};
ghost use Rattle.bom_reader.specs.Faults.{Answers, AnswersBy, first_fault, unless};
ghost use Rattle.bom_reader.specs.Lines.{line_fault, line_fault_after, line_of, names_in};

use crate::fault::BillFault;
use crate::line::Line;
use crate::names::NameList;
use crate::reading::{is_name, read_units};
use csv_rows::Table;
use std::alloc::Global;
use std::collections::BTreeSet;
use tqd_base::Stop;
use tqd_base::limits::NAMES_MAX;

/// Reads the rows after the header, and adds their names to those of the orders.
pub(crate) fn read_lines(
    alloc: Global,
    table: &Table,
    names: &mut NameList,
) -> Result<Vec<Line>, Stop<BillFault>>
    requires width { All (λ row. length row ≡ 3) table.now }
    requires few { length table.now ≤ LINES_MAX }
    ensures answer { AnswersBy (λ lines. lines.items) result
        (unless (first_fault (line_fault_after names.old) [] table.now) (map (line_of names.new) table.now)) }
    ensures names { OnOk result (names.new ≡ with_names names.old (names_in table.now)) }
{
    let mut lines = Vec::with_capacity(alloc, table.len())?;
    let mut pairs = BTreeSet::new(alloc);
    for row in 0..table.len() {
        let at = row as u64 + 2;
        let line = read_line(
            table.field(row, 0),
            table.field(row, 1),
            table.field(row, 2),
            at,
            names,
        )?;
        if !pairs.insert((line.assembly, line.part))? {
            return Err(Stop::Refused(BillFault::Twice { at }));
        }
        lines.push(line)?;
    }
    Ok(lines)
}

/// The line of a row after those of the names, to which it adds its own. Whether the pair stood in
/// an earlier row is not tested.
fn read_line(
    assembly: &str,
    part: &str,
    quantity: &str,
    at: u64,
    names: &mut NameList,
) -> Result<Line, Stop<BillFault>>
    ensures answer { Answers result (unless (line_fault names.old [] at (assembly.now ∷ part.now ∷ quantity.now ∷ []))
        (line_of names.new (assembly.now ∷ part.now ∷ quantity.now ∷ []))) }
    ensures names { OnOk result (names.new ≡ with_names names.old (assembly.now ∷ part.now ∷ [])) }
{
    if !is_name(assembly) || !is_name(part) {
        return Err(Stop::Refused(BillFault::Name { at }));
    }
    let quantity = read_units(quantity, 1, at)?;
    let assembly = names.add(assembly)?;
    let part = names.add(part)?;
    if names.len() > NAMES_MAX {
        return Err(Stop::Refused(BillFault::TooManyNames { at }));
    }
    Ok(Line {
        assembly,
        part,
        quantity,
    })
}
