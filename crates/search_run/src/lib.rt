//! The search for a least purchase of a job, on one thread and by several workers.
//!
//! A worker thinks about a box without a look at the book (`think`), stage by stage: tests of winners and totals and a
//! first plan, cuts of ranges, a climb of the goods' prices (`lagrangian`), tries of plans near what the climb found, cuts
//! of segments that can't pay, and the split, or else a bound by a flow (`box_bound`, `branching`, `price_climb`). What it
//! thought is then written into the book (`commit`): a plan is offered, and the box is closed by a row whose value reaches
//! the cost of the best plan, or by a leaf that kills it; ends of ranges are split off and closed; or the box is split. The
//! half that is kept is worked on next. Prices of the goods and columns go on from box to box (`mind`).
//!
//! All that finds rows, plans, cuts and splits is advice: what is brought to the book is tested where it is made or where
//! it is written.
//!
//! `settle` does both on the caller's thread until the book has a verdict: no node is Open or Taken. `search_one` opens a
//! book and settles it. Both always return: each stage lowers the size that is due in the book (`due_size`), or leaves it
//! and has fewer stages to follow. Whatever `settle` answers, the book is later than before: what was split or closed stays so,
//! and the best plan costs no more. Without memory a second `settle` goes on from there.
//!
//! Whoever works on a box passes a `Gate` before it, by which a caller may see that the work goes on: no clause speaks of
//! it. `settle_by` and `search_one_by` take one, as `search_many` does.
//!
//! `search_many` has workers round one lock, whose value is the book. They find boxes by the tickets of lanes
//! (`steal_pool`), and see the least cost that any of them published in one word (`best_word`). Tickets and that word are
//! hints: when a worker takes the lock it knows nothing of the book but what its type keeps, so it tests that the book is
//! of the given job and that its box is still Taken, and compares costs again. `search_many` may wait for its workers;
//! when they have ended it settles what they left. Each of the three answers a book of the job with a verdict, or Memory.
#![tactic(auto)]

mod branch;
mod commit;
mod flow;
mod holds;
mod kits;
mod many;
mod mind;
mod rows;
mod search;
mod think;
mod thought;
mod totals;
mod tries;
mod trim;
mod winners;
mod worker;
mod worths;

pub use many::{Gate, NoGate, Way, search_many};
pub use search::{search_one, search_one_by, settle, settle_by};
