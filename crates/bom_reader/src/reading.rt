//! What orders and bills are both read by.
ghost use Rattle.std.specs.Prelude.{◌≡◌, All, length, not, is_none, unwrap_or, IfOk, None};
ghost use Rattle.tqd_base.specs.declared.limits.TheConstants.{QTY_MAX};
ghost use Rattle.money.specs.Number.{qty_of};
ghost use Rattle.csv_rows.specs.Rows.{names_of};
ghost use Rattle.std.specs.List.{list_all};
ghost use Rattle.bom_reader.specs.Names.{is_name, is_name_byte};
ghost use Rattle.bom_reader.specs.Faults.{Answers, fault_if, unless};
ghost use Rattle.bom_reader.specs.Rows.{rows_in};
ghost use Rattle.bom_reader.specs.declared.fault.BillFault.TheVariants.{Name as BadName, Quantity as BadQuantity};

use crate::fault::BillFault;
use csv_rows::{Table, rows};
use money::read_qty;
use std::alloc::Global;
use tqd_base::Stop;
use tqd_base::limits::{NAME_MAX, QTY_MAX};

/// The rows of a file under a header.
pub(crate) fn read_table(
    alloc: Global,
    bytes: &[u8],
    header: &str,
) -> Result<Table, Stop<BillFault>>
    ensures answer { Answers result (rows_in (names_of header.now) bytes.now) }
    ensures width { IfOk result (λ table. All (λ row. length row ≡ length (names_of header.now)) table) }
{
    match rows(alloc, bytes, header) {
        Ok(table) => Ok(table),
        Err(Stop::Refused(fault)) => Err(Stop::Refused(BillFault::Rows(fault))),
        Err(Stop::Memory) => Err(Stop::Memory),
    }
}

/// Whether a text is a name: 1 to 64 bytes, none of them below 32 or 127. A rule of this program.
pub fn is_name(text: &str) -> bool
    ensures { result ≡ is_name text.now }
{
    let bytes = text.as_bytes();
    1 <= bytes.len() && bytes.len() <= NAME_MAX && are_name_bytes(bytes)
}

/// Whether a name may hold each of the bytes.
fn are_name_bytes(bytes: &[u8]) -> bool
    ensures { result ≡ list_all is_name_byte bytes.now }
{
    bytes.iter().all(|&byte| 32 <= byte && byte != 127)
}

/// The quantity in a row, at least `least`.
pub(crate) fn read_units(text: &str, least: u64, at: u64) -> Result<u64, Stop<BillFault>>
    ensures { Answers result (unless (fault_if (is_none (qty_of least QTY_MAX text.now)) (BadQuantity at) None)
        (unwrap_or (qty_of least QTY_MAX text.now) 0)) }
{
    match read_qty(text.as_bytes(), least, QTY_MAX) {
        Some(units) => Ok(units),
        None => Err(Stop::Refused(BillFault::Quantity { at })),
    }
}
