//! Tests of the reading of orders, bills, offers and terms, and of the texts that the program prints, by files whose answers are known.
//!
//! They stand in a crate of their own, as the tests of a crate are proved together with all its code.
#![tactic(auto)]

#[cfg(test)]
mod answers;
#[cfg(test)]
mod bills;
#[cfg(test)]
mod costs;
#[cfg(test)]
mod faults;
#[cfg(test)]
mod needs;
#[cfg(test)]
mod offers;
#[cfg(test)]
mod rejections;
#[cfg(test)]
mod terms;
