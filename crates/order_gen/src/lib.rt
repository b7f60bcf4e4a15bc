//! Jobs made from a seed, for trying the program and for measuring it.
//!
//! The generator is this program's own. It draws numbers by a linear congruence (`Draws` in `specs/`), first the need
//! of each good, then for each supplier two discounts and a base price of each good; `GenParts` says which job they
//! make.
//!
//! `make_job` makes that job, for every seed and every number of goods and suppliers within the limits, and promises
//! that it has a feasible purchase: all that is needed, from one supplier. `laws` has that the drawn parts are well formed
//! and pass every test, and that they make one job.
#![tactic(auto)]

mod draws;
pub mod laws;
mod make;
mod offers;

pub use make::make_job;
