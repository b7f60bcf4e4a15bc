//! The command `check`.
ghost use Rattle.std.specs.Prelude.{◌≡◌, IfOk, List, Some};
ghost use Rattle.tqd_base.specs.World.{Name, Reads};
ghost use Rattle.tqd_top.specs.Inner.Checking.{CheckFileGives, CheckSlotGives, OpenTreeGives, CheckStopGives};
ghost use Rattle.tqd_top.specs.Shows.{VerdictAnswer};
ghost use Rattle.tqd_top.specs.Inner.Runs.{PlainReplies, VerdictGives};
ghost use Rattle.command_words.specs.Words.{ToCheck, command_of, files_named};

use crate::answer::{Answer, Reply};
use crate::job::read_job;
use crate::no_value::{NoValue, bad};
use crate::text::reply_without_value;
use command_words::JobFiles;
use plan_report::{FileFault, InputFile, accepted_text, rejection_text};
use std::alloc::Global;
use tqd_base::{Desk, DeskStop, Memory};
use tqd_instance::Job;
use tree_checker::{CheckStop, Verdict, check_from};

// Opens the file of a tree.
fn open_tree<D: Desk>(alloc: Global, desk: &mut D, name: &str) -> Result<u32, NoValue>
    ensures { OpenTreeGives D.absent_is_empty (D.state desk.old) (D.state desk.new) name.now result }
{
    match desk.open(alloc, name) {
        Ok(slot) => Ok(slot),
        Err(DeskStop::Failed) => Err(NoValue::Unread(InputFile::Tree)),
        Err(DeskStop::Memory) => Err(NoValue::Memory),
    }
}

// What halts a check that stopped.
fn verdict_or_halt(alloc: Global, checked: Result<Verdict, CheckStop>) -> Result<Verdict, NoValue>
    ensures { CheckStopGives checked result }
{
    match checked {
        Ok(verdict) => Ok(verdict),
        Err(CheckStop::Fault) => Err(NoValue::Unread(InputFile::Tree)),
        Err(CheckStop::Size) => Err(bad(alloc, FileFault::Size(InputFile::Tree))),
        Err(CheckStop::Memory) => Err(NoValue::Memory),
    }
}

// What the text that a slot has left shows of a job. The slot is closed.
fn check_slot<D: Desk>(
    alloc: Global,
    job: &Job,
    desk: &mut D,
    slot: u32,
) -> Result<Verdict, NoValue>
    requires { Reads ((D.state desk.old).world.slots slot) }
    ensures { CheckSlotGives job.now (D.state desk.old) (D.state desk.new) slot result }
{
    let verdict = check_from(alloc, job, desk, slot);
    let _closed = desk.close(slot);
    verdict_or_halt(alloc, verdict)
}

/// What the text of the file of a tree shows of a job.
pub(crate) fn check_file<D: Desk>(
    alloc: Global,
    job: &Job,
    desk: &mut D,
    tree: &str,
) -> Result<Verdict, NoValue>
    ensures { CheckFileGives D.absent_is_empty job.now (D.state desk.old) (D.state desk.new) tree.now result }
{
    let slot = open_tree(alloc, desk, tree)?;
    check_slot(alloc, job, desk, slot)
}

// What the text of the file of a tree shows of the job that files state.
fn read_verdict<D: Desk>(
    alloc: Global,
    desk: &mut D,
    files: &JobFiles<'_>,
    tree: &str,
) -> Result<Verdict, NoValue>
    ensures { VerdictGives D.absent_is_empty (D.state desk.old) (D.state desk.new)
        (files_named files.now) tree.now result }
{
    let read = read_job(alloc, desk, files)?;
    check_file(alloc, &read.job, desk, tree)
}

// The answer for a verdict.
fn verdict_reply(alloc: Global, verdict: Verdict) -> Result<Reply, Memory>
    ensures { IfOk result (λ reply. VerdictAnswer verdict reply.answer reply.text.items) }
{
    match verdict {
        Verdict::Optimal(cost) => {
            let text = accepted_text(alloc, Some(cost))?;
            Ok(Reply {
                answer: Answer::Accepted(cost),
                text,
            })
        }
        Verdict::NoPurchase => {
            let text = accepted_text(alloc, None)?;
            Ok(Reply {
                answer: Answer::AcceptedNone,
                text,
            })
        }
        Verdict::Rejected(rejection) => {
            let text = rejection_text(alloc, &rejection)?;
            Ok(Reply {
                answer: Answer::Rejected(rejection),
                text,
            })
        }
    }
}

// The answer for the names of the files of a job and of a tree.
pub(crate) fn check<D: Desk>(
    alloc: Global,
    desk: &mut D,
    files: &JobFiles<'_>,
    tree: &str,
) -> Result<Reply, Memory>
    ensures { (words : List Name) → command_of words ≡ Some (ToCheck (files_named files.now) tree.now)
        → PlainReplies D.absent_is_empty (D.state desk.old) (D.state desk.new) words result }
{
    match read_verdict(alloc, desk, files, tree) {
        Ok(verdict) => verdict_reply(alloc, verdict),
        Err(no_value) => reply_without_value(alloc, no_value),
    }
}
