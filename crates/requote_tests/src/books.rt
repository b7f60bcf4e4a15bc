//! The books that texts of trees lead to.

use requote::replant;
use search_book::{Book, State};
use std::alloc::Global;
use std::process::Abort;
use tqd_base::Memory;
use tqd_instance::Job;

/// A text in which a slash stands for a line feed, the cost of the best plan, and what became of the nodes.
pub(crate) type Case = (&'static str, Option<u128>, &'static [State]);

pub(crate) const OPEN: &[State] = &[State::Open];

pub(crate) const CLOSED: &[State] = &[State::Closed];
/// Both halves of the root are open, the low one alone is closed, the high one alone, or both are.
pub(crate) const OPEN_OPEN: &[State] = &[State::Split(1, 2), State::Open, State::Open];

pub(crate) const CLOSED_OPEN: &[State] = &[State::Split(1, 2), State::Closed, State::Open];

pub(crate) const OPEN_CLOSED: &[State] = &[State::Split(1, 2), State::Open, State::Closed];

pub(crate) const CLOSED_CLOSED: &[State] = &[State::Split(1, 2), State::Closed, State::Closed];

/// The bytes of a text in which a slash stands for a line feed.
pub(crate) fn lines(alloc: Global, text: &str) -> Result<Vec<u8>, Memory> {
    let mut bytes = Vec::new(alloc);
    for byte in text.as_bytes() {
        bytes.push(if *byte == b'/' { b'\n' } else { *byte })?;
    }
    Ok(bytes)
}

/// Whether the nodes of a book are in these states, and there are no others.
pub(crate) fn has_states(book: &Book, states: &[State]) -> bool {
    for n in 0..states.len() {
        if book.state(n as u64) != Some(states[n]) {
            return false;
        }
    }
    book.nodes() == states.len() as u64
}

/// Reads the text of a tree into a book of the job, which has to have this best cost and these states.
pub(crate) fn expect(rt: &impl Abort, alloc: Global, job: &Job, case: &Case) -> Result<(), Memory> {
    let (text, best, states) = *case;
    let bytes = lines(alloc, text)?;
    let book = replant(alloc, job, &bytes)?;
    assert_eq!(rt; book.best(), best, "in {text}");
    assert!(rt; has_states(&book, states), "in {text}");
    Ok(())
}
