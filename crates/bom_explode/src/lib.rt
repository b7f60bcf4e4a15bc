//! The explosion of a bill of materials: how many units of each part the orders need, over all levels of the bill.
//!
//! A name needs its ordered quantity and, for each line whose part it is, the line's quantity times the need of the line's
//! assembly. [`explode`] gives the goods, which are the needed names that no line has as its assembly, with their needs;
//! or the least name that is below itself; or, where none is, the least name whose need is above 100,000,000. `Explodes`
//! of `specs/` says so, and `laws` that a bill without a circle has exactly one solution of the equation of needs, and
//! each bill one answer, so that each answer comes exactly where its facts hold. Only the want of memory is left open.
//!
//! The time taken is linear in names and lines. A depth-first search down the lines gives an order of the names, and a
//! second one up the lines, from the last name of that order on, the strongly connected components (Kosaraju's algorithm,
//! after Aho, Hopcroft, Ullman, Data Structures and Algorithms, 1983, section 6.7). A name is on a circle exactly where a
//! line leads from it to a name of its own component. Where no name is, the order has each name after all of its parts,
//! so its needs are summed up from the end. Nothing recurses, so the depth of a bill takes no stack.
#![tactic(auto)]

mod amounts;
mod chains;
mod circle;
mod explosion;
mod fault;
pub mod laws;
mod needs;
mod order;
mod search;
mod structure;

pub use explosion::explode;
pub use fault::ExplodeFault;
pub use needs::Needs;
