//! The command `break-even`.
ghost use Rattle.std.specs.Prelude.{◌≡◌, ◌<◌, IfOk, List, Some};
ghost use Rattle.break_even.specs.LeastCut.{IsLeastCut};
ghost use Rattle.command_words.specs.Words.{ToBreakEven, command_of, files_named};
ghost use Rattle.plan_report.specs.AnswerText.{break_even_text};
ghost use Rattle.tqd_base.specs.World.{Name};
ghost use Rattle.tqd_instance.specs.Job.{suppliers};
ghost use Rattle.tqd_top.specs.BreakEven.{AnswersCut};
ghost use Rattle.tqd_top.specs.Inner.Cuts.{CutReply, cut_answer};
ghost use Rattle.tqd_top.specs.Inner.ReadBook.{IsReadJob};
ghost use Rattle.tqd_top.specs.Inner.Runs.{PlainReplies};

use crate::answer::{Answer, Reply};
use crate::job::read_job;
use crate::no_value::bad;
use crate::optimum::OneSearch;
use crate::reading::JobRead;
use crate::text::reply_without_value;
use break_even::{CutAnswer, least_cut};
use command_words::JobFiles;
use plan_report::{FileFault, break_even_text};
use std::alloc::Global;
use tqd_base::{Desk, Memory};
use tqd_instance::Job;

// The answer that a cut is.
fn answer_of(answer: CutAnswer) -> Answer
    ensures { result ≡ cut_answer answer }
{
    match answer {
        CutAnswer::NoPurchase => Answer::Infeasible,
        CutAnswer::NoCut(_) | CutAnswer::Cut { .. } => Answer::Listed,
    }
}

// The least cut that pays of the prices of supplier `i`, whose name is this.
fn cut_of(alloc: Global, job: &Job, i: usize, supplier: &str) -> Result<Reply, Memory>
    requires { i < suppliers job.now }
    ensures { IfOk result (CutReply job.now i supplier.now) }
{
    let answer = least_cut(alloc, job, i, &OneSearch)?;
    let text = break_even_text(alloc, supplier.as_bytes(), answer)?;
    Ok(Reply {
        answer: answer_of(answer),
        text,
    })
}

// The answer for a job that was read and the name of a supplier.
fn cut_by_name(alloc: Global, read: &JobRead, supplier: &str) -> Result<Reply, Memory>
    requires { IsReadJob read.now }
    ensures { IfOk result (λ reply. AnswersCut read.now supplier.now reply.answer reply.text.items) }
{
    match read.book.suppliers().number(supplier) {
        Some(i) => cut_of(alloc, &read.job, i as usize, supplier),
        None => reply_without_value(alloc, bad(alloc, FileFault::NoSupplier)),
    }
}

// The answer for the names of the files of a job and of a supplier.
pub(crate) fn cut<D: Desk>(
    alloc: Global,
    desk: &mut D,
    files: &JobFiles<'_>,
    supplier: &str,
) -> Result<Reply, Memory>
    ensures { (words : List Name) → command_of words ≡ Some (ToBreakEven (files_named files.now) supplier.now)
        → PlainReplies D.absent_is_empty (D.state desk.old) (D.state desk.new) words result }
{
    match read_job(alloc, desk, files) {
        Ok(read) => cut_by_name(alloc, &read, supplier),
        Err(no_value) => reply_without_value(alloc, no_value),
    }
}
