//! Tests of desks, of numbers and rows as texts, and of nets, by values that are known.
//!
//! They stand in a crate of their own, as the tests of a crate are proved together with all its code.
#![tactic(auto)]

#[cfg(test)]
mod circulations;
#[cfg(test)]
mod desks;
#[cfg(test)]
mod nets;
#[cfg(test)]
mod numbers;
#[cfg(test)]
mod prices;
#[cfg(test)]
mod tables;
