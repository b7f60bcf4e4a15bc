//! Tests of pricings and repairs, by jobs whose answers are known.
//!
//! They stand in a crate of their own, as the tests of a crate are proved together with all its code.
#![tactic(auto)]

#[cfg(test)]
mod pricings;
#[cfg(test)]
mod repairs;
