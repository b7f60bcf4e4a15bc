//! What every crate of the program stands on: the limits, the want of memory, and the desk.
//!
//! A `Desk` is where the program reads, writes and prints. Its clauses say of each call what it does to the files, the
//! output and the open slots, as far as the desk tells them, and that a call fails only where the count of its kind of
//! fault rose. `read_all` reads a whole file, and says exactly when it is too large.
//!
//! Three desks keep these clauses. A `MemoryDesk` tells all, and its calls fail as `fail` plans it. A `SureDesk` tells
//! all and never fails, and reads a name that is not there as an empty file. A `RealDesk` is over the system's files and
//! standard output, and tells no content: what the system does with the bytes is outside of what is proved.
#![tactic(auto)]

mod count;
mod desk;
mod kept;
pub mod limits;
mod memory;
mod memory_desk;
mod plan;
mod read;
mod real_desk;
mod real_slot;
mod store;
mod sure_desk;

pub use desk::{Desk, DeskStop};
pub use memory::{Memory, Stop};
pub use memory_desk::MemoryDesk;
pub use plan::DeskCall;
pub use read::{ReadStop, read_all};
pub use real_desk::RealDesk;
pub use sure_desk::SureDesk;
