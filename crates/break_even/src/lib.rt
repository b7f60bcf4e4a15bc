//! How far the prices of a supplier must fall before the least cost of a job falls.
//!
//! A cut is a number of thousandths, 1 to 1,000, by which each price of one supplier is less (`Job::cut_prices` of
//! tqd_instance). `least_cut` finds the least cut under which a least purchase costs less than it does today, or says that
//! none does, or that no purchase is feasible. The way to find a least cost is the caller's (`Optimum`).
//!
//! `specs/` says which answer is right. `laws` has what the search halves the range by: the least cost never rises as the
//! cut rises.
#![tactic(auto)]

mod cut;
pub mod laws;

pub use cut::{CutAnswer, least_cut};
