//! The least cost of a job, found on the caller's thread.
use search_book::BookVerdict;
use search_run::search_one;
use std::alloc::Global;
use tqd_base::Memory;
use tqd_instance::{Job, Optimum};

/// The least cost that [`search_one`] finds.
#[derive(Clone, Copy, Debug, PartialEq, Eq)]
pub struct OneSearch;

impl Optimum for OneSearch {
    fn least(&self, alloc: Global, job: &Job) -> Result<Option<u128>, Memory> {
        let book = search_one(alloc, job)?;
        match book.verdict() {
            Some(BookVerdict::Least(cost)) => Ok(Some(cost)),
            Some(BookVerdict::NoPurchase) => Ok(None),
            // The search has decided.
            None => unreachable!(),
        }
    }
}
