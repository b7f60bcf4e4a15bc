//! Boxes of purchases: for each supplier of a job a range of segment numbers, in which its total has to pick.
//!
//! `specs/` says which purchases are in a box (`Ranges`), what the halves of a split are (`Halves`), how large a box
//! is (`Size`), when no purchase in it can meet the winner limits (`Winners`), over all matrices of whole numbers, and
//! what the box of a pick for each supplier is (`Singles`).
//!
//! The calls of `IntervalBox` compute these words, and none of them takes memory. The functions of `laws` promise that
//! every feasible purchase is in the root, that a purchase in a box is in exactly one half of each proper split, that
//! the sizes of the halves add up to the size of the box, and that no purchase in a box whose winners fail is feasible.
#![tactic(auto)]

mod boxes;
mod contents;
pub mod laws;
mod winners;

pub use boxes::IntervalBox;
