//! The lower bound of a box of purchases, from a cheapest circulation.
//!
//! A relaxed purchase of a box (`specs/Relaxed`) keeps stocks, needs and mosts, and each supplier's total lies anywhere
//! from the first to the last segment of its range; each good is paid at its least price in the range. `bound` gives
//! one of least relaxed cost, over all matrices of whole numbers, with a row of prices whose value in the box is at
//! least that cost; or, exactly where there is none, a row whose free value is above 0. `bound_from` does the same from
//! the prices of a row that is known, and its answer has a row of no lower value. On a box that leaves no choice the
//! plan is feasible and costs what the bound says, unless the winner limits leave no purchase. `laws` promises that
//! each feasible purchase in a box is a relaxed one, and costs no less than its relaxed cost.
//!
//! The relaxed purchases of a box are the circulations of one net (`specs/BoxNet`), and node numbers are rows of
//! prices (`specs/NodeRow`).
#![tactic(auto)]

mod answer;
mod flow;
pub mod laws;
mod least;
mod net;
mod row;

pub use answer::{Bounded, bound, bound_from};
