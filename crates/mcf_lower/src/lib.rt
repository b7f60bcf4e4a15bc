//! Circulations with lower bounds: flows that bring to each node of a net what they take from there, and carry on each
//! arc from its low to its cap.
//!
//! `circulate` gives a circulation, or, exactly where there is none, a cut: a set of nodes such that the lows of the arcs
//! that leave it add up to more than the caps of those that enter it. `circulate_from` does the same from node numbers of
//! the caller's, and gives numbers that fit its circulation, which is then a cheapest one.
//!
//! `laws` has what holds of all circulations of a net, whoever made them: a cut and a circulation exclude each other; any
//! node numbers bound the cost of a circulation from below; a circulation that some numbers fit is a cheapest one.
//!
//! The answers come from successive shortest paths in the residual graph. A pseudoflow starts within the bounds of each
//! arc and at no edge's gain; then units are brought, along shortest paths, to each node that lacks some. No step breaks
//! the bounds or makes a gain of an edge, and each brings at least one unit.
#![tactic(auto)]

mod backs;
mod balancing;
mod circulation;
mod edge;
mod end;
mod found;
mod index;
mod labels;
pub mod laws;
mod net;
mod pseudoflow;
mod search;
mod tournament;

pub use circulation::{circulate, circulate_from};
pub use found::{FlowList, Found, NodeSet, Solved};
pub use net::{ARCS_MAX, NODES_MAX, Net, NetArc};
