//! The texts that the program prints, byte for byte.
//!
//! [`plan_text`] gives the text of a feasible plan, [`needs_text`] that of the needs of a bill, [`fault_text`] that of the
//! first fault of the files, [`unread_text`] that of a file that could not be read, [`rejection_text`] that of a tree that
//! certifies nothing, [`infeasible_text`], [`accepted_text`], [`summary_text`] and [`break_even_text`] those of answers of
//! one line, [`scenarios_text`] and [`winners_text`] those of the least costs of many jobs. Each is exactly the definition
//! of its name in `specs/`; only the want of memory is left open.
#![tactic(auto)]

mod answer;
mod causes;
mod costs;
mod fault;
mod file;
mod names;
mod needs;
mod plan;
mod rejection;
mod text;

pub use answer::{accepted_text, break_even_text, infeasible_text, summary_text};
pub use causes::{fault_text, unread_text};
pub use costs::{scenarios_text, winners_text};
pub use fault::FileFault;
pub use file::InputFile;
pub use needs::needs_text;
pub use plan::plan_text;
pub use rejection::rejection_text;
