//! Cheapest circulations with prices.
//!
//! `cheapest_from` gives a circulation of a net and a number for each of its nodes, or, exactly where there is no
//! circulation, a cut, as `mcf_lower::circulate` does. The numbers fit the circulation: with `rc` the cost of an arc and
//! the number of its tail less that of its head, an arc with `rc` above 0 carries its low, and one with `rc` below 0 its
//! cap. So the circulation is a cheapest one (`mcf_lower::laws`). Node 0 has number 0, and no number is farther from 0 than
//! the greatest cost times one less than the number of nodes.
//!
//! It begins with the numbers that it is given; `cheapest` is the case of zeros. Both mean the same, whatever the start.
#![tactic(auto)]

mod narrow;
mod numbers;
mod prices;
mod start;

pub use numbers::NumberList;
pub use prices::{Priced, cheapest, cheapest_from};
