//! The command `scenarios`: the least cost with the terms of each of several files.
ghost use Rattle.std.specs.Prelude.{ℕ, ◌≡◌, ◌≤◌, List, Some, IfOk, length, map, string_bytes};
ghost use Rattle.std.specs.Result.{ForOk};
ghost use Rattle.command_words.specs.declared.word.TheConstants.{SCENARIOS_MAX};
ghost use Rattle.command_words.specs.Forms.{file_of};
ghost use Rattle.command_words.specs.Words.{ToCompare, command_of, files_named};
ghost use Rattle.scenarios.specs.Costs.{AreCosts};
ghost use Rattle.tqd_base.specs.World.{Name};
ghost use Rattle.tqd_instance.specs.declared.job.Job.{Job};
ghost use Rattle.tqd_top.specs.Inner.ReadBook.{IsReadBook};
ghost use Rattle.tqd_top.specs.Inner.Runs.{PlainReplies};
ghost use Rattle.tqd_top.specs.Inner.Steps.{ReadGives};
ghost use Rattle.tqd_top.specs.Listed.{AreCostsTold};
ghost use Rattle.tqd_top.specs.Scenarios.{ScenariosGive, ScenariosOf};
ghost use Rattle.tqd_top.specs.Unread.{IsUnreadScenarios, IsUnreadTerms};
ghost use Rattle.tqd_top.specs.declared.answer.Answer.TheVariants.{Listed};

use crate::answer::{Answer, Reply};
use crate::job::read_offer_files;
use crate::jobs::JobList;
use crate::kept::OffersKept;
use crate::no_value::NoValue;
use crate::optimum::OneSearch;
use crate::scenario::read_scenario;
use crate::text::reply_without_value;
use command_words::{JobFiles, file};
use plan_report::scenarios_text;
use scenarios::{CostList, one_by_one, solve_all};
use std::alloc::Global;
use std::thread::Threads;
use tqd_base::{Desk, Memory};

/// The jobs that the offers make with the terms of each word in turn.
fn read_jobs<D: Desk>(
    alloc: Global,
    desk: &mut D,
    kept: &OffersKept,
    terms: &[String],
) -> Result<JobList, NoValue>
    requires facts { IsReadBook kept.now }
    requires few { length terms.now ≤ SCENARIOS_MAX }
    ensures { ReadGives
        (ScenariosGive D.absent_is_empty (D.state desk.old).world (map (λ word. file_of (string_bytes word)) terms.now)
        kept.now)
        (IsUnreadTerms D.absent_is_empty (D.state desk.old) (D.state desk.new) kept.now
        (map (λ word. file_of (string_bytes word)) terms.now))
        (D.state desk.old) (D.state desk.new) result }
{
    let mut jobs = JobList::empty(alloc);
    for word in terms {
        let at = jobs.len() as u32 + 1;
        let job = read_scenario(alloc, desk, kept, at, file(word))?;
        jobs.push(job)?;
    }
    Ok(jobs)
}

/// The jobs that files state, one for each word of terms.
fn read_scenarios<D: Desk>(
    alloc: Global,
    desk: &mut D,
    files: &JobFiles<'_>,
    terms: &[String],
) -> Result<JobList, NoValue>
    requires { length terms.now ≤ SCENARIOS_MAX }
    ensures { ReadGives
        (ScenariosOf D.absent_is_empty (D.state desk.old).world (files_named files.now)
        (map (λ word. file_of (string_bytes word)) terms.now))
        (IsUnreadScenarios D.absent_is_empty (D.state desk.old) (D.state desk.new) (files_named files.now)
        (map (λ word. file_of (string_bytes word)) terms.now))
        (D.state desk.old) (D.state desk.new) result }
{
    let kept = read_offer_files(alloc, desk, files)?;
    read_jobs(alloc, desk, &kept, terms)
}

// The least costs of jobs, listed.
fn list_costs(alloc: Global, found: Result<CostList, Memory>) -> Result<Reply, Memory>
    ensures answer { IfOk result (λ reply. reply.answer ≡ Listed) }
    ensures text { (jobs : List Job) → ForOk found (AreCosts jobs)
        → IfOk result (λ reply. AreCostsTold jobs reply.text.items) }
{
    let costs = found?;
    let text = scenarios_text(alloc, &costs)?;
    Ok(Reply {
        answer: Answer::Listed,
        text,
    })
}

// The answer for the names of the files up to the offers, and the words of the terms.
pub(crate) fn compare<D: Desk>(
    alloc: Global,
    desk: &mut D,
    files: &JobFiles<'_>,
    terms: &[String],
) -> Result<Reply, Memory>
    requires { length terms.now ≤ SCENARIOS_MAX }
    ensures { (words : List Name) (workers : ℕ)
        → command_of words ≡ Some (ToCompare (files_named files.now)
        (map (λ word. file_of (string_bytes word)) terms.now) workers)
        → PlainReplies D.absent_is_empty (D.state desk.old) (D.state desk.new) words result }
{
    match read_scenarios(alloc, desk, files, terms) {
        Ok(jobs) => list_costs(alloc, one_by_one(alloc, jobs.as_slice(), &OneSearch)),
        Err(no_value) => reply_without_value(alloc, no_value),
    }
}

// The same, found by 1 to 64 workers.
pub(crate) fn compare_by<R: Threads + Sync, D: Desk>(
    rt: &R,
    alloc: Global,
    desk: &mut D,
    files: &JobFiles<'_>,
    terms: &[String],
    workers: u32,
) -> Result<Reply, Memory>
    requires few_words { length terms.now ≤ SCENARIOS_MAX }
    requires some { 1 ≤ workers }
    requires few { workers ≤ 64 }
    ensures { (words : List Name) (asked : ℕ)
        → command_of words ≡ Some (ToCompare (files_named files.now)
        (map (λ word. file_of (string_bytes word)) terms.now) asked)
        → PlainReplies D.absent_is_empty (D.state desk.old) (D.state desk.new) words result }
{
    match read_scenarios(alloc, desk, files, terms) {
        Ok(jobs) => {
            let found = solve_all(rt, alloc, jobs.as_slice(), workers, &OneSearch);
            list_costs(alloc, found)
        }
        Err(no_value) => reply_without_value(alloc, no_value),
    }
}
