//! What a worker does to the book: each method of `Hall` takes the lock once, and knows nothing of the book that it
//! finds there but what its type keeps.
ghost use Rattle.std.specs.Prelude.{◌≡◌, IfSome};
ghost use Rattle.search_book.specs.Later.{IsLater};
ghost use Rattle.search_run.specs.Thoughts.{IsThought};
ghost use Rattle.search_run.specs.Steps.{IsTaskIn};
ghost use Rattle.search_run.specs.Working.{IsFoundIn, IsGoodFor, IsTask};

use crate::commit::{Step, commit};
use crate::kits::Kit;
use crate::many::Way;
use crate::thought::{Task, Thought, entered};
use interval_box::IntervalBox;
use search_book::{Book, Take};
use std::sync::{Condvar, Mutex, Wait};
use tqd_base::Memory;
use tqd_instance::Job;

/// What a look for a box found.
#[derive(Drop)]
pub(crate) enum Look {
    Found(Task),
    /// The box of a ticket was no longer Open, or others had boxes and none was left to take.
    Again,
    /// No box is Open or Taken, or the book is of another job.
    Over,
}

/// What a worker does next.
#[derive(Drop)]
pub(crate) enum Next {
    /// It goes on with a box that it has.
    Kept(Task),
    /// It looks for a box.
    Free,
    /// It ends.
    Over,
}

/// The book under its lock, and the word that it changed.
#[derive(Drop)]
pub(crate) struct Hall<'j> {
    pub(crate) job: &'j Job,
    book: Mutex<Book<'j>>,
    changed: Condvar,
}

impl<'j> Hall<'j> {
    pub(crate) fn new(job: &'j Job, book: Book<'j>) -> Hall<'j>
        ensures { result.job.now ≡ job.now }
    {
        Hall {
            job,
            book: Mutex::new(book),
            changed: Condvar::new(),
        }
    }

    /// The book, once no worker is left.
    pub(crate) fn into_book(self) -> Book<'j> {
        let Hall {
            job: _,
            book,
            changed: _,
        } = self;
        book.into_inner()
    }

    /// Takes the box of a ticket, where it is still Open.
    pub(crate) fn take<R: Wait>(&self, rt: &R, ticket: u64, way: Way) -> Look
        ensures { IsFoundIn self.now.job.now result }
    {
        let mut book = self.book.lock(rt);
        if !book.job().same(self.job) {
            return Look::Over;
        }
        claim(&mut *book, ticket, way)
    }

    /// Looks at all lanes while no other worker changes the book. Where they are empty, takes the Open box of the least
    /// number; where there is none, waits for the boxes that others have.
    pub(crate) fn look<R: Wait>(&self, rt: &R, kit: &mut Kit) -> Look
        ensures { IsFoundIn self.now.job.now result }
    {
        let mut book = self.book.lock(rt);
        if !book.job().same(self.job) {
            return Look::Over;
        }
        if let Some((ticket, way)) = kit.ticket(rt) {
            return claim(&mut *book, ticket, way);
        }
        if let Some(task) = first(&mut *book) {
            return Look::Found(task);
        }
        if book.taken_count() == 0 {
            return Look::Over;
        }
        let _changed = self.changed.wait_while(rt, book, |book| {
            book.open_count() == 0 && book.taken_count() != 0
        });
        Look::Again
    }

    /// Writes a thought about the box of a task into the book, where the box is still Taken, and keeps the ticket of the
    /// half that it does not keep.
    pub(crate) fn write<R: Wait>(&self, rt: &R, kit: &mut Kit, task: Task, thought: Thought) -> Next
        requires task { IsTask self.now.job.now task }
        requires thought { IsThought self.now.job.now task.area task.stage thought }
        ensures { IsGoodFor self.now.job.now result }
    {
        let mut book = self.book.lock(rt);
        if !book.job().same(self.job) {
            return Next::Over;
        }
        if !book.is_taken_at(task.number, &task.area) {
            return Next::Free;
        }
        let next = write_thought(&mut *book, kit, task, thought);
        self.changed.notify_all();
        next
    }

    /// Gives a box back that the worker took, where it is still Taken.
    pub(crate) fn give_back<R: Wait>(&self, rt: &R, n: u64, area: &IntervalBox) {
        let mut book = self.book.lock(rt);
        if book.job().same(self.job) && book.is_taken_at(n, area) {
            book.give_back(n);
            self.changed.notify_all();
        }
    }

    /// Tells the others that a worker ends.
    pub(crate) fn leave(&self) {
        self.changed.notify_all();
    }
}

/// Takes the box of a ticket, which may be any number.
fn claim(book: &mut Book, ticket: u64, way: Way) -> Look
    ensures task { IsFoundIn book.old.job result }
    ensures later { IsLater book.old book.new }
{
    if book.nodes() <= ticket {
        return Look::Again;
    }
    match book.take(ticket) {
        Take::Got(area) => Look::Found(entered(ticket, &area, way)),
        Take::NotOpen(_) => Look::Again,
    }
}

/// Takes the Open box of the least number.
fn first(book: &mut Book) -> Option<Task>
    ensures task { IfSome result (IsTask book.old.job) }
    ensures later { IsLater book.old book.new }
{
    let (number, area) = book.take_first()?;
    Some(entered(number, &area, Way::First))
}

/// Writes a thought about the box of a Taken node.
fn write_thought(book: &mut Book, kit: &mut Kit, task: Task, thought: Thought) -> Next
    requires task { IsTaskIn book.old task }
    requires thought { IsThought book.old.job task.area task.stage thought }
    ensures next { IsGoodFor book.old.job result }
    ensures later { IsLater book.old book.new }
{
    match commit(book, task, thought) {
        Ok(Step::Closed) => Next::Free,
        Ok(Step::Goes(next)) => Next::Kept(next),
        Ok(Step::Split { half, other }) => {
            kit.push(other);
            Next::Kept(half)
        }
        Err(Memory) => Next::Over,
    }
}
