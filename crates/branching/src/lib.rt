//! The choice of a split of a box, from a plan that keeps the box's bounds on totals.
//!
//! The rule is this program's own. It splits at a supplier whose real prices differ most from the prices that a bound
//! counts: `specs/` says what the gap of a supplier is (`Gap`), which totals a plan may have (`Totals`) and which
//! supplier and number the rule chooses (`Chosen`).
//!
//! `choose` answers the split of the rule, which is proper for the box, and takes no memory. `keeps_totals` tests
//! whether a plan keeps the bounds, for callers that do not know it. `laws` promises that the rule chooses one split
//! alone.
#![tactic(auto)]

mod choice;
mod gap;
pub mod laws;
mod totals;

pub use choice::choose;
pub use totals::keeps_totals;
