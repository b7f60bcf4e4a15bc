//! A first-in first-out deque whose handles count the steps that found it empty.
//!
//! A step that finds a deque of `crossbeam_deque` empty tells its caller so, and leaves what the caller knows as it is.
//! So no rule over the deque can count such steps. Here each handle carries a count, which contracts alone see.
//!
//! A `CountedWorker` is made with its deque. The count of its pops rises in `pop` alone, exactly where the one step of
//! that call found the deque empty. A `CountedPass` is cut off by the worker with the count 0, which rises in `steal`
//! alone, in the same way. Where the worker takes passes in (`absorb`), their counts are added to one another, beside
//! the count of its pops, and the next pass that it cuts off by `release` gets the sum.
//!
//! Nothing else makes a count or adds two, so none can be kept apart from its handle and joined in later. `pop` and
//! `steal` are generic in the rule of the deque and in what a step tells, so neither can answer that it was empty
//! without such a step. That the counts count those steps and nothing else rests on what is private to this crate: the
//! fields of the handles, and `Dry` of dry.rt, with the three small types that say how a number is made of others.
#![tactic(auto)]

mod dry;
mod handles;
mod pass;
mod worker;

pub use handles::{CountedPass, CountedWorker};
