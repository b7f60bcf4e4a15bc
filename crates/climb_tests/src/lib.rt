//! Tests of climbs and of their tables, by a job whose values are known.
#![tactic(auto)]

#[cfg(test)]
mod climbs;
#[cfg(test)]
mod fixture;
#[cfg(test)]
mod tables;
