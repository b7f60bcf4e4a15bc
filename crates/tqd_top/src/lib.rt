//! The commands of the program, from the bytes of the files to the text that is printed.
//!
//! `run` is the call that the program makes; `run_plain` does the same on the caller's thread alone. Both promise one
//! record, `IsProgramRun` of specs/Headline.antt, which has one clause for each answer. Those of Solved, Infeasible,
//! Accepted and AcceptedNone speak of a least and of a feasible purchase and of the checker's verdict alone, and of the
//! graft of the old tree besides, where the answer is that of a `requote`. Those of the other answers cite
//! specs/Causes.antt, why an answer comes, and specs/Output.antt, what is printed and saved. The rest says which
//! answers come where no device fails, and what holds of every answer. The words are read by command_words. What stands
//! in specs/Inner is of the steps, and no promise.
#![tactic(auto)]

mod answer;
mod check;
mod compare;
mod cut;
mod input;
mod job;
mod jobs;
mod kept;
mod make;
mod needs;
mod no_value;
mod old_tree;
mod optimum;
mod program;
mod reading;
mod save;
mod scenario;
mod solution;
mod solve;
mod source;
mod sources;
mod text;
mod winners;

pub use answer::{Answer, Ended, Target};
pub use optimum::OneSearch;
pub use program::{run, run_plain};
