//! Orders and bills of materials, read from comma-separated files.
//!
//! [`read_orders`] and [`read_bill`] answer exactly what `orders_in` and `bill_in` of `specs/` say of
//! the bytes: the data, or the first fault. All rows are tested for their form first, then a bill for
//! its number of rows, and then the first row with a fault decides. Only the want of memory is left
//! open. Names are numbered from 0 by first appearance: the orders first, then the bill row by row,
//! the assembly before the part.
//!
//! A [`Bill`] keeps its limits by its type. Contracts see it as `BillData` of `specs/`, and a
//! [`NameList`] as the list of its names, a name being the list of its bytes.
#![tactic(auto)]

mod bill;
mod fault;
pub mod laws;
mod line;
mod lines;
mod names;
mod orders;
mod reading;

pub use bill::{Bill, no_bill, read_bill};
pub use fault::BillFault;
pub use line::Line;
pub use names::NameList;
pub use orders::{Orders, read_orders};
pub use reading::is_name;
