//! The words of a command line: of which form they are, and what they ask for.
//!
//! The forms of words are the table `FORMS`, from which words are read and the usage is made. `read_words` is exactly
//! `command_of` of specs/Words.antt, and `usage_text` the text of its name in specs/Forms.antt. `laws` has that words are
//! of one form at most, and are a command exactly where they are of a form.
#![tactic(auto)]

mod form;
mod laws;
mod usage;
mod word;
mod words;

pub use form::{Behind, FORMS, Field, Form, Verb};
pub use laws::{words_are_of_one_form, words_of_a_form_are_a_command};
pub use usage::usage_text;
pub use word::{SCENARIOS_MAX, SEED_MAX, file};
pub use words::{Command, JobFiles, read_words};
