//! A word that workers share, which holds the least cost that any of them has published.
//!
//! A worker steps on the word through a `Seat`. Contracts see a seat as `put`, the least cost that it published, `seen`, the
//! least that it was answered, `looks`, how often it looked at the word, and its parts of the right to close the word.
//! Between any two steps of any threads the account `WordAccount` of specs/WordAccount.antt holds: the word is the least `put`
//! of all seats, and at most the `seen` of each; each seat has at least one part, and the parts add up to those of the word.
//! So `see` and `publish` never answer more than their seat published or was answered before, and who has all parts learns from
//! `close` exactly the least cost that was published.
//! No call waits or tries again, and none but `BestWord::new` takes memory.
#![tactic(auto)]

mod account;
mod word;

pub use word::{BestWord, Seat};
