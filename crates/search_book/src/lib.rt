//! The book of a search: numbered nodes of boxes, and the best plan found.
//!
//! A node is Open, Taken by a worker, split into two other nodes or closed by a leaf that kills its box. `specs/` says
//! what a state of the book is (`BookState`), what the events are that change it (`Events`), when a state is covered
//! (`Covered`), when one state is later than another (`Later`), which nodes are Taken afterwards (`Taken`), and which
//! tree is read from a state (`TreeOf`).
//!
//! Each call of `Book` is one event or none, as its contract says, and every value of the type is covered: so each
//! feasible purchase lies in the box of an Open or Taken node, or costs at least as much as the best plan. `verdict`
//! answers only where no node is Open or Taken, and `finish` then hands out the best plan and the tree. The functions
//! of `laws` promise what holds along every list of events, whoever made them and in whichever order, and that each list
//! leads to one state.
#![tactic(auto)]

mod above;
mod answers;
mod book;
mod calls;
mod finish;
pub mod laws;
mod node;
mod node_box;
mod nodes;

pub use answers::{BookVerdict, Close, Improve, State, Take};
pub use book::Book;
pub use finish::Finished;
