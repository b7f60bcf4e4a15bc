//! The checker of trees: a verdict on a job that needs no trust in who wrote the text of the tree.
//!
//! `specs/Verdict` says what a text shows: it is read line by line, each line has its cases, and the first cause ends
//! the reading. `Optimal(c)` and `NoPurchase` come where a whole tree of boxes was read, each leaf of which kills its box.
//! In format 1 a leaf has its row in its line. In format 2 lines give rows to 64 slots, and a leaf names the slot of its
//! row, which is narrowed to its box.
//!
//! A `CheckRun` reads the text in pieces. What it keeps is what the bytes fed lead to (`specs/Run`), so that `feed` and
//! `finish` answer exactly by the verdict of those bytes, however they were cut. After `start` nothing takes memory.
//! `check` gives the verdict of a text, and `check_from` that of what a desk's slot has left. `laws` promises that a
//! rejection, but for an early end, is the same for every longer text.
//!
//! For crates that read a tree to another end there are the tests of its lines one by one: `line_end`, `next_place` of a
//! `buy` line, `split_place` of a split, `read_row` and `named_slot` of a leaf, and `RowSlots` with `slot_row_fault` of the
//! rows in slots.
#![tactic(auto)]

mod buffer;
mod checking;
mod due;
mod judge;
pub mod laws;
mod leaf;
mod rejection;
mod run;
mod slot_leaf;
mod slots;
mod stack;

pub use buffer::line_end;
pub use checking::{CheckStop, check, check_from};
pub use due::{next_place, split_place};
pub use leaf::{PRICES_MAX, prices_wanted, read_row};
pub use rejection::{Feed, Rejection, Verdict, Why};
pub use run::CheckRun;
pub use slot_leaf::{named_slot, slot_row_fault};
pub use slots::RowSlots;
