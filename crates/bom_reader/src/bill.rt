ghost use Rattle.std.specs.Prelude.{◌≡◌, []};
ghost use Rattle.bom_reader.specs.Faults.{Answers};
ghost use Rattle.bom_reader.specs.Lines.{bill_in};

use crate::fault::BillFault;
use crate::line::Line;
use crate::lines::read_lines;
use crate::names::NameList;
use crate::orders::Orders;
use crate::reading::read_table;
use std::alloc::Global;
use std::marker::Model;
use tqd_base::Stop;
use tqd_base::limits::LINES_MAX;

/// A bill of materials with the orders: at most 20,000 names, at most 100,000 lines between them,
/// and for each name the units ordered of it, 0 to 100,000,000.
///
/// Contracts see it as `BillData` of `specs/`. Every bill keeps what `IsBill` there says.
#[derive(Drop)]
pub struct Bill {
    names: NameList,
    ordered: Vec<u64>,
    lines: Vec<Line>,
}

impl Model for Bill {
    ghost use Rattle.bom_reader.specs.Bill.{BillData, IsBill};

    ghost Value = { BillData };

    ghost view = { λ bill. record {
      names = bill.names;
      ordered = bill.ordered.items;
      lines = bill.lines.items;
    } };

    ghost invariant = { λ bill. IsBill (record {
      names = bill.names;
      ordered = bill.ordered.items;
      lines = bill.lines.items;
    }) };
}

impl Bill {
    ghost use Rattle.std.specs.Prelude.{◌≡◌, ◌<◌, ◌≤◌, length, slice_index, slice_get, Some};
    ghost use Rattle.tqd_base.specs.declared.limits.TheConstants.{QTY_MAX};
    ghost use Rattle.bom_reader.specs.Bill.{IsBill, IsLine, line_with};

    /// The names, those of the orders first.
    pub fn names(&self) -> &NameList
        ensures value { result.now ≡ self.now.names }
        ensures kept { IsBill self.now }
    {
        &self.names
    }

    /// The units ordered of a name, which are 0 where only the bill has it.
    pub fn ordered(&self, n: usize) -> u64
        requires { n < length self.now.names }
        ensures value { result ≡ slice_index self.now.ordered n }
        ensures within { result ≤ QTY_MAX }
    {
        self.ordered[n]
    }

    /// How many lines there are, at most 100,000.
    pub fn lines(&self) -> usize
        ensures value { result ≡ length self.now.lines }
        ensures kept { IsBill self.now }
    {
        self.lines.len()
    }

    /// A line: the numbers of the assembly and the part, and the units of the part in one unit of
    /// the assembly, from 1 to 100,000,000.
    pub fn line(&self, at: usize) -> (u32, u32, u64)
        requires { at < length self.now.lines }
        ensures value { slice_get self.now.lines at ≡ Some (line_with result.0 result.1 result.2) }
        ensures kept { IsLine (length self.now.names) (line_with result.0 result.1 result.2) }
    {
        let line = self.lines[at];
        (line.assembly, line.part, line.quantity)
    }
}

/// The orders with a bill that has no lines. It takes no memory.
pub fn no_bill(orders: Orders) -> Bill
    ensures { result ≡ record { names = orders.names; ordered = orders.ordered; lines = [] } }
{
    let Orders { names, ordered } = orders;
    let lines = Vec::new(*ordered.allocator());
    Bill {
        names,
        ordered,
        lines,
    }
}

/// Reads the file of a bill, `assembly,part,quantity`: a pair of names once, with 1 to 100,000,000
/// units of the part for one unit of the assembly. More than 100,000 rows are refused first; then in
/// a row the tests come in this order: the names, the quantity, the number of names, the repeat. On a
/// refusal, and where memory is wanting, the orders are dropped.
pub fn read_bill(alloc: Global, orders: Orders, bytes: &[u8]) -> Result<Bill, Stop<BillFault>>
    ensures { Answers result (bill_in orders bytes.now) }
{
    let table = read_table(alloc, bytes, "assembly,part,quantity")?;
    if table.len() > LINES_MAX {
        return Err(Stop::Refused(BillFault::TooManyLines));
    }
    let Orders {
        mut names,
        mut ordered,
    } = orders;
    let lines = read_lines(alloc, &table, &mut names)?;
    ordered.resize(names.len(), 0)?;
    Ok(Bill {
        names,
        ordered,
        lines,
    })
}
