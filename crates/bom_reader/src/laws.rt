//! What follows from the definitions alone.
ghost use Rattle.bom_reader.specs.Bill.{IsBill};
ghost use Rattle.bom_reader.specs.Laws.{BillFaultsAreFirst, BillsAreWhole, FormComesFirst, NamesAreByFirstAppearance, NamesArePlain, NoRowsAreNoBill, OrderFaultsAreFirst, OrdersAreWhole};

use crate::bill::Bill;

/// Every bill keeps its limits.
pub fn bill_keeps_its_limits(bill: &Bill)
    ensures { IsBill bill.now }
{
    let _ = bill.lines();
}

/// A name is 1 to 64 bytes, none of them below 32, and none of them 127.
pub fn names_are_plain()
    ensures { NamesArePlain }
{}

/// Names are numbered by first appearance: each once, and none but those that are given; names that
/// are given later have greater numbers than all before.
pub fn names_are_by_first_appearance()
    ensures { NamesAreByFirstAppearance }
{}

/// Orders come exactly where the rows state them: a name and a quantity in each row, no name twice,
/// and not more than 20,000 names. They have these names and quantities.
pub fn orders_are_whole()
    ensures { OrdersAreWhole }
{}

/// Each fault of orders comes exactly where a row has it after rows that state orders: the name
/// before the quantity, and these before the number of names and a name that stood before.
pub fn order_faults_are_first()
    ensures { OrderFaultsAreFirst }
{}

/// A bill comes exactly where orders and rows state it: two names and a quantity in each row, no
/// pair twice, and not more than 100,000 rows or 20,000 names. It has these names, first those of the
/// orders, these quantities, and these lines by the numbers of their names.
pub fn bills_are_whole()
    ensures { BillsAreWhole }
{}

/// Each fault of a bill comes exactly where there are more than 100,000 rows, or else where a row has
/// it after rows that state a bill: the names before the quantity, then the number of names, and then
/// a pair that stood before.
pub fn bill_faults_are_first()
    ensures { BillFaultsAreFirst }
{}

/// Orders without a file of a bill are the bill of a file without rows.
pub fn no_rows_are_no_bill()
    ensures { NoRowsAreNoBill }
{}

/// A fault of the form of a file comes exactly where its records have it, before all other faults.
pub fn form_comes_first()
    ensures { FormComesFirst }
{}
