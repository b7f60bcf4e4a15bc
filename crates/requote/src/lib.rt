//! An old tree as a hint for a job that has changed, as by a supplier's new prices.
//!
//! `replant` makes a book of the new job out of the text of a tree, of either format. The old plan is the best one
//! where it is feasible in the new job, at what it costs there. The splits of the old tree are kept; each of its leaves
//! is judged anew, and one that still kills its box stays closed. All else is open, for a search to go on with. No text
//! is refused: what cannot be read ends the reading.
//!
//! `specs/` says which lines a text has (`Lines`), what its first lines give (`Head`), what a line says of a box
//! (`Said`) and which events these come to (`Graft`). The state of the book is exactly the one that they lead to from
//! the opening state, so that it is covered, whatever the text holds.
#![tactic(auto)]

mod graft;
mod head;
mod lines;
mod replanting;
mod row;
mod said;

pub use replanting::{OLD_MAX, replant};
