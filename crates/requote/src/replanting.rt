ghost use Rattle.std.specs.Prelude.{◌≡◌, Some, None, IfOk};
ghost use Rattle.tqd_instance.specs.Plan.{IsSizedFor};
ghost use Rattle.tqd_instance.specs.Purchase.{Purchase};
ghost use Rattle.requote.specs.Graft.{IsGraft, IsPlanOf, Offers};

use crate::graft::Grafter;
use crate::head::{Head, read_head};
use crate::lines::Lines;
use search_book::Book;
use std::alloc::Global;
use tqd_base::Memory;
use tqd_instance::{Job, Plan, Standing};
use tree_checker::RowSlots;

/// The greatest length of an old tree that a program reads, in bytes.
pub const OLD_MAX: u64 = 268_435_456;

/// The book of a job into which an old tree is read, the bytes of a tree file of either format, whichever job it was
/// made for. The old plan is offered where it is feasible in this job, at what it costs here; the splits are made again,
/// and a leaf closes its box where it kills it here. All else is Open. No bytes are refused: where a line is no line of
/// a tree, or none that the box admits, the reading ends.
///
/// The text is read once. Of the rows of its leaves those alone are copied whose boxes are closed.
pub fn replant<'j>(alloc: Global, job: &'j Job, old: &[u8]) -> Result<Book<'j>, Memory>
    ensures graft { IfOk result (IsGraft job.now old.now) }
    ensures job { IfOk result (λ book. book.job ≡ job.now) }
{
    let mut lines = Lines::of(old);
    let mut slots = RowSlots::start(alloc, job)?;
    let mut book = Book::open(alloc, job)?;
    match read_head(alloc, job, &mut lines, &mut slots)? {
        Head::Wrong => Ok(book),
        Head::NoPlan => Grafter::graft(alloc, book, slots, lines),
        Head::Plan(plan) => {
            offer(&mut book, plan);
            Grafter::graft(alloc, book, slots, lines)
        }
    }
}

// Offers the plan of the text to a book that has none, where it is feasible in the job.
fn offer(book: &mut Book<'_>, plan: Plan)
    requires sized { IsSizedFor book.old.job plan }
    requires none { book.old.best ≡ None }
    ensures offers { (x : Purchase) → IsPlanOf book.old.job x plan → Offers book.old.job book.old (Some x) book.new }
    ensures nodes { book.new.nodes ≡ book.old.nodes }
    ensures job { book.new.job ≡ book.old.job }
{
    if let Standing::Feasible(cost) = book.job().standing(&plan) {
        let _answer = book.improve(plan, cost);
    }
}
