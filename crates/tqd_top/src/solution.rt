//! The search for the answer to a job, and what is printed of it.
ghost use Rattle.std.specs.Prelude.{◌≡◌, ◌≤◌, IfOk, Some};
ghost use Rattle.search_book.specs.Answers.{IsSettled};
ghost use Rattle.tqd_top.specs.Inner.Solution.{IsFinishOf, IsFinished, IsFinishedFrom, IsSolution};
ghost use Rattle.tqd_top.specs.Inner.ReadBook.{IsReadJob};
ghost use Rattle.tqd_top.specs.Inner.Solving.{solution_answer, solution_text};

use crate::answer::Answer;
use crate::reading::JobRead;
use plan_report::{infeasible_text, plan_text};
use requote::replant;
use search_book::{Book, Finished};
use search_run::{Gate, search_many, search_one_by, settle_by};
use std::alloc::Global;
use std::sync::Wait;
use std::thread::Threads;
use tqd_base::Memory;
use tqd_instance::{Job, Plan};

// What a book that has a verdict found.
fn finish(alloc: Global, book: Book<'_>) -> Result<Finished, Memory>
    requires { IsSettled book }
    ensures { IfOk result (IsFinishOf book.entry) }
{
    book.finish(alloc)
}

/// A least purchase of a job with its cost, or none where no purchase is feasible; and a tree that certifies it. It passes
/// the gate before each box.
pub(crate) fn search<G: Gate>(alloc: Global, job: &Job, gate: &G) -> Result<Finished, Memory>
    ensures { IfOk result (IsFinished job.now) }
{
    let book = search_one_by(alloc, job, gate)?;
    finish(alloc, book)
}

/// The same, found by 1 to 64 workers, each of which passes the gate.
pub(crate) fn search_by<R: Threads + Wait + Sync, G: Gate + Sync>(
    rt: &R,
    alloc: Global,
    job: &Job,
    workers: u32,
    gate: &G,
) -> Result<Finished, Memory>
    requires some { 1 ≤ workers }
    requires few { workers ≤ 64 }
    ensures { IfOk result (IsFinished job.now) }
{
    let book = search_many(rt, alloc, job, workers, gate)?;
    finish(alloc, book)
}

/// The same, found from the text of an old tree, whose splits and whose leaves that still kill are kept.
pub(crate) fn regrow<G: Gate>(
    alloc: Global,
    job: &Job,
    old: &[u8],
    gate: &G,
) -> Result<Finished, Memory>
    ensures { IfOk result (IsFinishedFrom job.now (Some old.now)) }
{
    let mut book = replant(alloc, job, old)?;
    settle_by(alloc, &mut book, gate)?;
    finish(alloc, book)
}

/// What is printed of a solution.
pub(crate) fn solution_text(
    alloc: Global,
    read: &JobRead,
    plan: &Option<(Plan, u128)>,
) -> Result<Vec<u8>, Memory>
    requires facts { IsReadJob read.now }
    requires solution { IsSolution read.now.job plan.now }
    ensures { IfOk result (λ text. text.items ≡ solution_text read.now plan.now) }
{
    let Some((plan, _)) = plan else {
        return infeasible_text(alloc);
    };
    let names = read.bill.names();
    let goods = read.needs.goods();
    plan_text(alloc, &read.job, plan, names, goods, read.book.suppliers())
}

/// The answer that a solution is.
pub(crate) fn solution_answer(plan: Option<(Plan, u128)>) -> Answer
    ensures { result ≡ solution_answer plan }
{
    match plan {
        Some((plan, cost)) => Answer::Solved(plan, cost),
        None => Answer::Infeasible,
    }
}
