//! Tests of the commands, from the words and the bytes of files in memory to the status, the output and the tree.
//!
//! They stand in a crate of their own, as the tests of a crate are proved together with all its code.
#![tactic(auto)]

#[cfg(test)]
mod check_rows;
#[cfg(test)]
mod cut_rows;
#[cfg(test)]
mod devices;
#[cfg(test)]
mod failing_rows;
#[cfg(test)]
mod gates;
#[cfg(test)]
mod hostile;
#[cfg(test)]
mod large;
#[cfg(test)]
mod list_rows;
#[cfg(test)]
mod made;
#[cfg(test)]
mod requote_rows;
#[cfg(test)]
mod requoted;
#[cfg(test)]
mod runs;
#[cfg(test)]
mod scenario_rows;
#[cfg(test)]
mod solve_rows;
#[cfg(test)]
mod table_rows;
#[cfg(test)]
mod words;
