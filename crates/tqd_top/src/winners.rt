//! The command `winners`.
ghost use Rattle.std.specs.Prelude.{ℕ, ◌≡◌, ◌≤◌, IfOk, List, Some};
ghost use Rattle.std.specs.Result.{ForOk};
ghost use Rattle.command_words.specs.Words.{ToTabulate, command_of, files_named};
ghost use Rattle.scenarios.specs.Costs.{IsWinnerTable};
ghost use Rattle.tqd_base.specs.World.{Name};
ghost use Rattle.tqd_top.specs.Inner.Runs.{PlainReplies};
ghost use Rattle.tqd_top.specs.Listed.{IsTableText};
ghost use Rattle.tqd_top.specs.declared.answer.Answer.TheVariants.{Listed};

use crate::answer::{Answer, Reply};
use crate::job::read_job;
use crate::optimum::OneSearch;
use crate::text::reply_without_value;
use command_words::JobFiles;
use plan_report::winners_text;
use scenarios::{CostList, winner_table, winner_table_plain};
use std::alloc::Global;
use std::thread::Threads;
use tqd_base::{Desk, Memory};
use tqd_instance::Job;

// The least costs of a job with each greatest number of winners, listed.
fn list_table(alloc: Global, job: &Job, found: Result<CostList, Memory>) -> Result<Reply, Memory>
    requires { ForOk found (IsWinnerTable job.now) }
    ensures answer { IfOk result (λ reply. reply.answer ≡ Listed) }
    ensures text { IfOk result (λ reply. IsTableText job.now reply.text.items) }
{
    let costs = found?;
    let (least, _) = job.winners();
    let text = winners_text(alloc, least, &costs)?;
    Ok(Reply {
        answer: Answer::Listed,
        text,
    })
}

// The answer for the names of the files of a job.
pub(crate) fn winners<D: Desk>(
    alloc: Global,
    desk: &mut D,
    files: &JobFiles<'_>,
) -> Result<Reply, Memory>
    ensures { (words : List Name) (workers : ℕ) → command_of words ≡ Some (ToTabulate (files_named files.now) workers)
        → PlainReplies D.absent_is_empty (D.state desk.old) (D.state desk.new) words result }
{
    match read_job(alloc, desk, files) {
        Ok(read) => {
            let found = winner_table_plain(alloc, &read.job, &OneSearch);
            list_table(alloc, &read.job, found)
        }
        Err(no_value) => reply_without_value(alloc, no_value),
    }
}

// The same, found by 1 to 64 workers.
pub(crate) fn winners_by<R: Threads + Sync, D: Desk>(
    rt: &R,
    alloc: Global,
    desk: &mut D,
    files: &JobFiles<'_>,
    workers: u32,
) -> Result<Reply, Memory>
    requires some { 1 ≤ workers }
    requires few { workers ≤ 64 }
    ensures { (words : List Name) (asked : ℕ) → command_of words ≡ Some (ToTabulate (files_named files.now) asked)
        → PlainReplies D.absent_is_empty (D.state desk.old) (D.state desk.new) words result }
{
    match read_job(alloc, desk, files) {
        Ok(read) => {
            let found = winner_table(rt, alloc, &read.job, workers, &OneSearch);
            list_table(alloc, &read.job, found)
        }
        Err(no_value) => reply_without_value(alloc, no_value),
    }
}
