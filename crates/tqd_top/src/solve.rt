//! The commands `solve` and `requote`.
ghost use Rattle.std.specs.Prelude.{ℕ, ◌≡◌, ◌≤◌, List, Option, Some};
ghost use Rattle.std.specs.Option.{option_copied};
ghost use Rattle.std.specs.Result.{ForOk};
ghost use Rattle.tqd_base.specs.World.{Bytes, IsIdle, Name};
ghost use Rattle.tqd_top.specs.Inner.Solution.{IsFinished, IsFinishedFrom};
ghost use Rattle.tqd_top.specs.Inner.ReadBook.{IsReadJob};
ghost use Rattle.tqd_top.specs.Inner.Solving.{SolveGives};
ghost use Rattle.command_words.specs.Words.{ToRequote, ToSolve, command_of, files_named};
ghost use Rattle.tqd_top.specs.Inner.Runs.{Replies};

use crate::answer::{NoReply, Reply};
use crate::job::read_job;
use crate::old_tree::read_requote;
use crate::reading::JobRead;
use crate::save::save_given;
use crate::solution::{regrow, search, search_by, solution_answer, solution_text};
use crate::text::{or_no_reply, reply_without_value};
use command_words::JobFiles;
use search_book::Finished;
use search_run::Gate;
use std::alloc::Global;
use std::sync::Wait;
use std::thread::Threads;
use tqd_base::{Desk, Memory};

// The answer for a job that was searched. Its text is made first, and then the tree is saved where a file is given for
// it.
fn solve_job<D: Desk>(
    alloc: Global,
    desk: &mut D,
    read: &JobRead,
    tree: Option<&str>,
    searched: Result<Finished, Memory>,
) -> Result<Reply, NoReply>
    requires idle { IsIdle (D.state desk.old).world }
    requires facts { IsReadJob read.now }
    requires finished { ForOk searched (IsFinished read.now.job) }
    ensures { (from : Option Bytes) → ForOk searched (IsFinishedFrom read.now.job from)
        → SolveGives read.now from (D.state desk.old) (D.state desk.new) (option_copied tree.entry) result }
{
    let done = searched?;
    let text = solution_text(alloc, read, &done.plan)?;
    save_given(alloc, &read.job, &done, desk, tree)?;
    Ok(Reply {
        answer: solution_answer(done.plan),
        text,
    })
}

// The answer for the names of the files of a job, with its tree saved in a file or not. The gate is passed before each
// box.
pub(crate) fn solve<D: Desk, G: Gate>(
    alloc: Global,
    desk: &mut D,
    files: &JobFiles<'_>,
    tree: Option<&str>,
    gate: &G,
) -> Result<Reply, NoReply>
    requires { IsIdle (D.state desk.old).world }
    ensures { (words : List Name) (workers : ℕ)
        → command_of words ≡ Some (ToSolve (files_named files.now) (option_copied tree.entry) workers)
        → Replies D.absent_is_empty (D.state desk.old) (D.state desk.new) words result }
{
    match read_job(alloc, desk, files) {
        Ok(read) => {
            let searched = search(alloc, &read.job, gate);
            solve_job(alloc, desk, &read, tree, searched)
        }
        Err(no_value) => or_no_reply(reply_without_value(alloc, no_value)),
    }
}

// The same, found by 1 to 64 workers, each of which passes the gate.
pub(crate) fn solve_by<R: Threads + Wait + Sync, D: Desk, G: Gate + Sync>(
    rt: &R,
    alloc: Global,
    desk: &mut D,
    files: &JobFiles<'_>,
    tree: Option<&str>,
    workers: u32,
    gate: &G,
) -> Result<Reply, NoReply>
    requires idle { IsIdle (D.state desk.old).world }
    requires some { 1 ≤ workers }
    requires few { workers ≤ 64 }
    ensures { (words : List Name) (asked : ℕ)
        → command_of words ≡ Some (ToSolve (files_named files.now) (option_copied tree.entry) asked)
        → Replies D.absent_is_empty (D.state desk.old) (D.state desk.new) words result }
{
    match read_job(alloc, desk, files) {
        Ok(read) => {
            let searched = search_by(rt, alloc, &read.job, workers, gate);
            solve_job(alloc, desk, &read, tree, searched)
        }
        Err(no_value) => or_no_reply(reply_without_value(alloc, no_value)),
    }
}

// The answer for the names of the files of a job and of an old tree, with the new tree saved in a file or not. That may
// be the file of the old tree, which is read and closed by then.
pub(crate) fn requote<D: Desk, G: Gate>(
    alloc: Global,
    desk: &mut D,
    files: &JobFiles<'_>,
    old: &str,
    tree: Option<&str>,
    gate: &G,
) -> Result<Reply, NoReply>
    requires { IsIdle (D.state desk.old).world }
    ensures { (words : List Name)
        → command_of words ≡ Some (ToRequote (files_named files.now) old.now (option_copied tree.entry))
        → Replies D.absent_is_empty (D.state desk.old) (D.state desk.new) words result }
{
    match read_requote(alloc, desk, files, old) {
        Ok(read) => {
            let searched = regrow(alloc, &read.job.job, read.old.as_bytes(), gate);
            solve_job(alloc, desk, &read.job, tree, searched)
        }
        Err(no_value) => or_no_reply(reply_without_value(alloc, no_value)),
    }
}
