//! The least costs of many jobs.
//!
//! `one_by_one` finds the least cost of each job of a list, and `winner_table_plain` that of one job for each greatest number
//! of winners from its least number up to the number of its suppliers. `solve_all` and `winner_table` promise the same, and
//! share the jobs out over 1 to 64 workers, each in a thread of its own where one can be started; they may wait for them.
//! The way to find a least cost is the caller's (`Optimum` of tqd_instance).
//!
//! Workers take the number of the next job from one counter. What it gives is a hint: of each cost that a worker found it is
//! known that it is that of its job, and a job of which no worker brought a cost is solved on the caller's thread.
//!
//! `specs/` says which costs are right. `laws` has what a buyer reads off a table: a greater number of winners never costs more.
#![tactic(auto)]

mod costs;
mod entries;
pub mod laws;
mod plain;
mod shared;

pub use costs::CostList;
pub use plain::{one_by_one, winner_table_plain};
pub use shared::{solve_all, winner_table};
