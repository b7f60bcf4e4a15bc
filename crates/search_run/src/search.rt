ghost use Rattle.std.specs.Prelude.{◌≡◌, IfOk, OnOk};
ghost use Rattle.interval_box.specs.Ranges.{IsBoxOf};
ghost use Rattle.search_book.specs.Later.{IsLater};
ghost use Rattle.search_book.specs.Answers.{IsSettled, IsTakenAt};
ghost use Rattle.search_run.specs.Opened.{IsLaterThanOpening};
ghost use Rattle.search_run.specs.Minds.{IsMindOf};
ghost use Rattle.search_run.specs.Steps.{HasClosed, IsLeft, IsTaskIn};

use crate::commit::{Step, commit};
use crate::many::{Gate, NoGate, Way};
use crate::mind::Mind;
use crate::think::think;
use crate::thought::{Stage, Task, entered};
use interval_box::IntervalBox;
use search_book::{Book, laws};
use std::alloc::Global;
use tqd_base::Memory;
use tqd_instance::Job;

/// Works on the Open boxes of a book, and on those that were left Taken, until none is left, so that the book has a
/// verdict. Without memory the book is in some state that its calls lead to, from which another call goes on.
pub fn settle(alloc: Global, book: &mut Book) -> Result<(), Memory>
    ensures settled { OnOk result (IsSettled book.new) }
    ensures job { book.new.job ≡ book.old.job }
    ensures later { IsLater book.old book.new }
{
    settle_by(alloc, book, &NoGate)
}

/// Works as [`settle`] does, and passes the gate before each box, as worker 0, and when no box is left.
pub fn settle_by<G: Gate>(alloc: Global, book: &mut Book, gate: &G) -> Result<(), Memory>
    ensures settled { OnOk result (IsSettled book.new) }
    ensures job { book.new.job ≡ book.old.job }
    ensures later { IsLater book.old book.new }
{
    let mut mind = Mind::new(alloc, book.job())?;
    book.release_all();
    while let Some((n, area)) = book.take_first() {
        work(alloc, book, &mut mind, gate, n, &area)?;
    }
    gate.leave();
    laws::states_settle_where_none_waits();
    Ok(())
}

/// A book of the job that has a verdict.
pub fn search_one<'j>(alloc: Global, job: &'j Job) -> Result<Book<'j>, Memory>
    ensures settled { IfOk result (λ book. IsSettled book) }
    ensures job { IfOk result (λ book. book.job ≡ job.now) }
    ensures later { IfOk result (λ book. IsLaterThanOpening job.now book) }
{
    search_one_by(alloc, job, &NoGate)
}

/// Finds a book as [`search_one`] does, and passes the gate before each box, as worker 0, and when no box is left.
pub fn search_one_by<'j, G: Gate>(alloc: Global, job: &'j Job, gate: &G) -> Result<Book<'j>, Memory>
    ensures settled { IfOk result (λ book. IsSettled book) }
    ensures job { IfOk result (λ book. book.job ≡ job.now) }
    ensures later { IfOk result (λ book. IsLaterThanOpening job.now book) }
{
    let mut book = Book::open(alloc, job)?;
    settle_by(alloc, &mut book, gate)?;
    is_later_than_opening(job, &book);
    Ok(book)
}

/// Every book of a job is later than an opening state of it, since node 0 has the box of the root.
pub(crate) fn is_later_than_opening(_job: &Job, book: &Book)
    requires { book.now.job ≡ _job.now }
    ensures { IsLaterThanOpening _job.now book.now }
{
    let _count = book.nodes();
}

/// Works on a Taken box, and on what is kept of it, until nothing is left of it.
fn work<G: Gate>(
    alloc: Global,
    book: &mut Book,
    mind: &mut Mind,
    gate: &G,
    n: u64,
    area: &IntervalBox,
) -> Result<(), Memory>
    requires taken { IsTakenAt book.old n area.now }
    requires of_job { IsBoxOf book.old.job area.now }
    requires mind { IsMindOf book.old.job mind.old }
    ensures closed { OnOk result (HasClosed book.old n book.new) }
    ensures mind { IsMindOf book.old.job mind.new }
    ensures later { IsLater book.old book.new }
{
    let mut left = turn(alloc, book, mind, gate, entered(n, area, Way::First))?;
    while let Some(task) = left {
        left = turn(alloc, book, mind, gate, task)?;
    }
    Ok(())
}

/// Works on a Taken box for one stage: closes it, splits it and keeps a half, or goes on with what is left of it. The gate
/// is passed at the first stage.
fn turn<G: Gate>(
    alloc: Global,
    book: &mut Book,
    mind: &mut Mind,
    gate: &G,
    task: Task,
) -> Result<Option<Task>, Memory>
    requires task { IsTaskIn book.old task }
    requires mind { IsMindOf book.old.job mind.old }
    ensures left { IfOk result (IsLeft book.old task book.new) }
    ensures mind { IsMindOf book.old.job mind.new }
    ensures later { IsLater book.old book.new }
{
    let best = book.best();
    if task.stage == Stage::Enter {
        gate.enter(0, task.number, task.way, best);
    }
    let thought = think(alloc, book.job(), mind, best, &task)?;
    match commit(book, task, thought)? {
        Step::Closed => Ok(None),
        Step::Goes(next) => Ok(Some(next)),
        Step::Split { half, .. } => Ok(Some(half)),
    }
}
