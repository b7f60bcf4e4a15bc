ghost use Rattle.std.specs.Prelude.{◌≡◌, ◌≤◌, ◌++◌, List, ℕ, [], ◌∷◌, All, length, unwrap_or, OnOk};
ghost use Rattle.tqd_base.specs.declared.limits.TheConstants.{NAMES_MAX};
ghost use Rattle.bom_reader.specs.Faults.{Answers, unless};
ghost use Rattle.bom_reader.specs.Orders.{order_fault, order_units, orders_in, orders_of};

use crate::fault::BillFault;
use crate::names::NameList;
use crate::reading::{is_name, read_table, read_units};
use csv_rows::Table;
use std::alloc::Global;
use std::marker::Model;
use tqd_base::Stop;
use tqd_base::limits::NAMES_MAX;

/// What is ordered: names, and of each a number of units from 0 to 100,000,000.
///
/// Contracts see it as `OrdersData` of `specs/`.
#[derive(Drop)]
pub struct Orders {
    pub(crate) names: NameList,
    pub(crate) ordered: Vec<u64>,
}

impl Model for Orders {
    ghost use Rattle.bom_reader.specs.Bill.{AreOrders, OrdersData};

    ghost Value = { OrdersData };

    ghost view = { λ orders. record { names = orders.names; ordered = orders.ordered.items } };

    ghost invariant = { λ orders. AreOrders orders.names orders.ordered.items };
}

/// Reads the file of orders, `product,quantity`: a name once, with 0 to 100,000,000 units. In a row
/// the tests come in this order: the name, the quantity, the number of names, the repeat.
pub fn read_orders(alloc: Global, bytes: &[u8]) -> Result<Orders, Stop<BillFault>>
    ensures { Answers result (orders_in bytes.now) }
{
    let table = read_table(alloc, bytes, "product,quantity")?;
    read_rows(alloc, &table)
}

/// Reads the rows after the header.
fn read_rows(alloc: Global, table: &Table) -> Result<Orders, Stop<BillFault>>
    requires { All (λ row. length row ≡ 2) table.now }
    ensures { Answers result (orders_of table.now) }
{
    let mut names = NameList::empty(alloc);
    let mut ordered = Vec::with_capacity(alloc, table.len().min(NAMES_MAX))?;
    for row in 0..table.len() {
        let at = row as u64 + 2;
        let units = read_order(table.field(row, 0), table.field(row, 1), at, &mut names)?;
        ordered.push(units)?;
    }
    Ok(Orders { names, ordered })
}

/// The units in a row after those of the names, to which it adds its own.
fn read_order(
    product: &str,
    quantity: &str,
    at: u64,
    names: &mut NameList,
) -> Result<u64, Stop<BillFault>>
    ensures answer { Answers result (unless (order_fault names.old at (product.now ∷ quantity.now ∷ []))
        (unwrap_or (order_units (product.now ∷ quantity.now ∷ [])) 0)) }
    ensures names { OnOk result (names.new ≡ names.old ++ product.now ∷ []) }
    ensures few { OnOk result (length names.new ≤ NAMES_MAX) }
{
    if !is_name(product) {
        return Err(Stop::Refused(BillFault::Name { at }));
    }
    let units = read_units(quantity, 0, at)?;
    let earlier = names.len();
    names.add(product)?;
    if names.len() > NAMES_MAX {
        return Err(Stop::Refused(BillFault::TooManyNames { at }));
    }
    if names.len() == earlier {
        return Err(Stop::Refused(BillFault::Twice { at }));
    }
    Ok(units)
}
