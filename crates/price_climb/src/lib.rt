//! Better prices without a flow: the value of a row is raised by changing one price at a time.
//!
//! A row's value is the sum of the goods' terms and of each supplier's least segment value. `ClimbTable` keeps them
//! all, so that `after` gives the value that the row would have with one other price by what that price touches alone:
//! a term in each segment for the price of a good, one segment for the price of a segment. `specs/` says what a change
//! is (`PriceList`), what the table keeps (`Columns`, `Table`) and what a climb answers (`Climbing`, `Raises`).
//!
//! `climb` raises the value by steps of one size, price after price, until no such step raises it or its rounds are
//! over. This is coordinate ascent on the concave function that a row's value is; it may end below the greatest value.
#![tactic(auto)]

mod climbing;
mod column;
mod prices;
mod segment;
mod table;

pub use climbing::{Climbed, climb};
pub use table::ClimbTable;
