//! Tests of jobs, boxes and splits, of rows and trees, of the bounds of boxes, and of the checker of trees, by jobs whose answers are known.
//!
//! They stand in a crate of their own, as the tests of a crate are proved together with all its code.
#![tactic(auto)]

#[cfg(test)]
mod bounds;
#[cfg(test)]
mod boxes;
#[cfg(test)]
mod formed;
#[cfg(test)]
mod jobs;
#[cfg(test)]
mod made;
#[cfg(test)]
mod parts;
#[cfg(test)]
mod rows;
#[cfg(test)]
mod shares;
#[cfg(test)]
mod slots;
#[cfg(test)]
mod splits;
#[cfg(test)]
mod texts;
#[cfg(test)]
mod verdicts;
