//! Prices, costs and whole numbers as decimal texts.
//!
//! A reader answers exactly what its definition in `specs/` says of the text: the value, or `None`
//! where the text is not of the form or the value out of range. A writer answers the one text of the
//! value, or [`tqd_base::Memory`]. Readers allocate nothing.
//!
//! The laws of [`laws`] say what the definitions come to. Counts and signed numbers have one text for
//! each value, the shortest, so what is written is read back, and no other text is. Quantities may
//! have zeros before it. A price is a decimal number of at most 7 digits and 6 decimals within
//! `PRICE_MAX`, and the text of a cost within that limit is read back as the price.
#![tactic(auto)]

pub mod laws;
mod number;
mod price;

pub use number::{read_count, read_qty, read_signed, write_count, write_signed};
pub use price::{Price, write_cost};
