//! The job of a buyer under total quantity discounts, and what a purchase, a feasible one and a least one are.
//!
//! A supplier's quantity intervals are selected by the number of units bought from that supplier over all goods,
//! and the selected interval prices every one of those units. `specs/` has the definitions that every theorem of
//! the program speaks of: `Job`, `Purchase`, `Feasible`, `Cost` and `Least`, over all matrices of whole numbers.
//!
//! `Job::build` makes the job that well-formed parts describe, or refuses them by the first test that they fail, each
//! refusal exactly where its test is the first. `JobParts::is_well_formed` tests parts of which that is not known.
//! `Job::standing` says whether a plan is feasible and what it costs, or which test of feasibility it fails first;
//! `Job::pick` gives the segment that a total selects. `Job::same` says whether two jobs have the same numbers.
//! `Job::with_most_winners` and `Job::cut_prices` make the job with that change alone. What finds the least cost of a job,
//! or that no purchase is feasible, is an `Optimum`.
//! `laws` has what follows from the definitions alone: the ranges of a job's numbers, what a pick is, that well-formed
//! parts describe one job, that two jobs with the same numbers are one, and that a job with lower prices or wider winner
//! limits has no higher least cost.
#![tactic(auto)]

mod build;
mod change;
mod copy;
mod formed;
mod job;
mod lacks;
pub mod laws;
mod list;
mod offers;
mod optimum;
mod parts;
mod plan;
mod same;
mod segments;
mod seller;
mod standing;
mod supplier;

pub use job::Job;
pub use list::Numbers;
pub use optimum::Optimum;
pub use parts::{
    FeeRow, JobFault, JobParts, Over, OverRow, PriceRow, ShareRow, StockRow, TotalRow,
};
pub use plan::Plan;
pub use standing::Standing;
pub use supplier::{Segment, Segments, Supplier, Suppliers};
