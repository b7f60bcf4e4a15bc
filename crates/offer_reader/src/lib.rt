//! Offers and terms, read from comma-separated files into the parts of a job.
//!
//! [`read_offers`] answers exactly what `book_in` of `specs/` says of the bytes: who sells, what is offered, and the parts
//! of a job without terms; or the first fault. [`read_terms`] answers what `terms_in` says: that book with the terms in its
//! parts. All rows are tested for their form first, and then the first row with a fault decides. Only the want of memory
//! is left open. The parts of every [`OfferBook`] are well formed, so that a job may be built of them.
//!
//! Offers of parts that are no goods are tested and then left out, and so are terms on suppliers or parts that have no part
//! in the job. Suppliers are numbered from 0 by first appearance in the rows of offers whose part is a good.
#![tactic(auto)]

mod book;
mod fault;
mod form;
mod kind;
pub mod laws;
mod offers;
mod reading;
mod rows;
mod term;
mod term_fault;
mod term_row;
mod terms;
mod wanted;

pub use book::OfferBook;
pub use fault::OfferFault;
pub use offers::read_offers;
pub use term_fault::TermFault;
pub use terms::read_terms;
