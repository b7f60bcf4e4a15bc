//! Lanes of tickets: deques, each with one owner, that any number of threads steal from.
//!
//! The owner of a `Lane` pushes at the back and pops at the front; other threads steal at the front through a shared
//! `Thief`, each with a `Pass` of its own. Contracts see a lane as `put` and `got`, what its owner pushed and popped,
//! beside its room, its parts and `dry`, how many steps of its owner found it empty; and a pass as `got`, what was
//! stolen with it, its own `dry`, and its parts of the right to close the lane. Between any two steps of any threads
//! the account `LaneAccount` of specs/LaneAccount.antt holds: what was put is what was taken and then what the lane
//! holds, and each number was taken as often as it stands in the `got` of owner and passes. So `close` answers exactly
//! what was put and not taken, the front first.
//!
//! `push` gives a ticket back exactly where the lane's room is used up, and None of `pop` and `steal` comes only where
//! `dry` rose. Each `dry` is the count of a handle of `counted_deque`, which counts such steps and nothing else.
//! `steal` alone may wait, since it tries again where another thread was faster.
//! Passes are cut and joined through the owner, since the deque lets its owner alone cut what a pass knows.
#![tactic(auto)]

mod account;
mod cuts;
mod lane;
mod pass;
mod thief;
mod ticket_list;

pub use lane::Lane;
pub use pass::Pass;
pub use thief::Thief;
pub use ticket_list::TicketList;
