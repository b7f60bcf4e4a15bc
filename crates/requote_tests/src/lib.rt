//! Tests of old trees that are read into the books of changed jobs, by small jobs whose books are known.
//!
//! They stand in a crate of their own, as the tests of a crate are proved together with all its code.
#![tactic(auto)]

#[cfg(test)]
mod books;
#[cfg(test)]
mod jobs;
#[cfg(test)]
mod texts;
