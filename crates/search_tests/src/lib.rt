//! Tests of the word, the deques, the lanes and the book that a search stands on, and of the search itself, by values that are known.
//!
//! They stand in a crate of their own, as the tests of a crate are proved together with all its code.
#![tactic(auto)]

#[cfg(test)]
mod books;
#[cfg(test)]
mod deques;
#[cfg(test)]
mod lanes;
#[cfg(test)]
mod searches;
#[cfg(test)]
mod words;
