//! Rows of prices that prove a bound for the purchases in a box, the leaves of the trees that certify an answer, and
//! the text of such trees.
//!
//! `specs/` says what a row of a box is (`Prices`), what its value is (`Value`), what its prices on a part of the box
//! are (`Narrowed`), when a leaf kills its box (`Kills`), what a line says (`ReadLine`) and what the text of a tree is
//! (`TreeText`). The value is a sum that needs no flow: it is weak duality, interval by interval.
//!
//! `Row::value` and `value_in` compute it, and `Leaf::kills` decides by it. `write_tree` writes a tree's text with one
//! piece for each line, and `line_head`, `prices_into` and `TreeReader` read lines. `laws` promises that no feasible
//! purchase in a box costs less than the value of a row, what follows of leaves and of trees, and that a text is read
//! as a line exactly where it is its text, so that different trees have different texts.
#![tactic(auto)]

mod fields;
mod kills;
pub mod laws;
mod leaf;
mod line;
mod narrow;
mod other_box;
mod places;
mod read_line;
mod reader;
mod root_value;
mod row;
mod share;
mod slots;
mod text;
mod tree;
mod value;
mod word;
mod write;

pub use leaf::{Leaf, TreeNode};
pub use line::{LineHead, SignedList, TreeLine};
pub use places::{count_of, place_count, prices_fit};
pub use read_line::{line_head, prices_into};
pub use reader::{LineGot, TreeReader};
pub use root_value::{root_value_free_in, root_value_in};
pub use row::Row;
pub use share::write_shared;
pub use slots::SLOTS_MAX;
pub use tree::Tree;
pub use value::{Asked, goods_value, least_times, saving, segment_value, value_free_in, value_in};
pub use write::{WriteStop, write_tree};
