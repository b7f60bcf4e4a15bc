ghost use Rattle.std.specs.Prelude.{ℕ, ◌≡◌, ◌≤◌, IfOk};
ghost use Rattle.search_book.specs.Answers.{IsSettled};
ghost use Rattle.search_run.specs.Opened.{IsLaterThanOpening};

use crate::holds::Hall;
use crate::kits::{Kit, kits_of};
use crate::search::{is_later_than_opening, settle_by};
use crate::worker::work;
use best_word::BestWord;
use search_book::Book;
use std::alloc::Global;
use std::sync::Wait;
use std::thread;
use std::thread::Threads;
use tqd_base::Memory;
use tqd_instance::Job;

/// How a worker came by a box.
#[derive(Clone, Copy, Debug, PartialEq, Eq)]
pub enum Way {
    /// It kept this half of the box that it split.
    Kept,
    /// By a ticket of its own lane.
    Own,
    /// By a ticket of the lane of this worker.
    Stolen(u32),
    /// It was the Open box of the least number, when all lanes were empty.
    First,
}

/// What workers pass before they work on a box.
pub trait Gate {
    /// A worker, numbered from 0, is about to work on the box of a node. It knows of a plan of the cost `best`, in
    /// millionths, or of none. It holds no lock.
    fn enter(&self, worker: u32, number: u64, way: Way, best: Option<u128>);

    /// No box is left to work on.
    fn leave(&self);
}

/// A gate that lets every worker pass.
#[derive(Clone, Copy, Debug, PartialEq, Eq)]
pub struct NoGate;

impl Gate for NoGate {
    fn enter(&self, _worker: u32, _number: u64, _way: Way, _best: Option<u128>) {}

    fn leave(&self) {}
}

/// A book of the job that has a verdict, found by 1 to 64 workers, each in a thread of its own where one can be started.
/// It may wait for them.
pub fn search_many<'j, R: Threads + Wait + Sync, G: Gate + Sync>(
    rt: &R,
    alloc: Global,
    job: &'j Job,
    workers: u32,
    gate: &G,
) -> Result<Book<'j>, Memory>
    requires some { 1 ≤ workers }
    requires few { workers ≤ 64 }
    ensures settled { IfOk result (λ book. IsSettled book) }
    ensures job { IfOk result (λ book. book.job ≡ job.now) }
    ensures later { IfOk result (λ book. IsLaterThanOpening job.now book) }
{
    let (word, seat) = BestWord::new(alloc, u64::from(workers) + 1)?;
    let kits = kits_of(alloc, workers, &word, seat)?;
    let hall = Hall::new(job, Book::open(alloc, job)?);
    let run = |kit: Kit| work(rt, alloc, &hall, gate, kit);
    let _ = thread::map_vec(rt, kits, &run);
    let mut book = book_of(alloc, job, hall.into_book())?;
    settle_by(alloc, &mut book, gate)?;
    is_later_than_opening(job, &book);
    Ok(book)
}

/// The book, or a new one where it is of another job.
fn book_of<'j>(alloc: Global, job: &'j Job, book: Book<'j>) -> Result<Book<'j>, Memory>
    ensures { IfOk result (λ found. found.job ≡ job.now) }
{
    if book.job().same(job) {
        Ok(book)
    } else {
        Book::open(alloc, job)
    }
}
