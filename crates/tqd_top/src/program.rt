ghost use Rattle.std.specs.Prelude.{◌≡◌, List, map, string_bytes};
ghost use Rattle.tqd_base.specs.World.{IsIdle, Name, State};
ghost use Rattle.tqd_top.specs.Causes.{status_of};
ghost use Rattle.tqd_top.specs.Headline.{IsProgramRun};
ghost use Rattle.tqd_top.specs.Inner.Runs.{EndGives, Replies, PrintGives};

use crate::answer::{Answer, Ended, NoReply, Reply, Target};
use crate::check::check;
use crate::compare::{compare, compare_by};
use crate::cut::cut;
use crate::make::make;
use crate::needs::needs;
use crate::solve::{requote, solve, solve_by};
use crate::text::or_no_reply;
use crate::winners::{winners, winners_by};
use command_words::{Command, read_words, usage_text};
use search_run::{Gate, NoGate};
use std::alloc::Global;
use std::sync::Wait;
use std::thread::Threads;
use tqd_base::{Desk, DeskStop};
use verdict_laws::laws;

// The reply that the words and the files call for; its tree is saved where the words ask for that.
fn reply_to<D: Desk, G: Gate>(
    alloc: Global,
    words: &[String],
    desk: &mut D,
    gate: &G,
) -> Result<Reply, NoReply>
    requires { IsIdle (D.state desk.old).world }
    ensures { Replies D.absent_is_empty (D.state desk.old) (D.state desk.new) (map string_bytes words.now) result }
{
    let Some(command) = read_words(words) else {
        let text = usage_text(alloc)?;
        return Ok(Reply {
            answer: Answer::Words,
            text,
        });
    };
    match command {
        Command::Solve { files, tree, .. } => solve(alloc, desk, &files, tree, gate),
        Command::Check { files, tree } => or_no_reply(check(alloc, desk, &files, tree)),
        Command::Needs { orders, bill } => or_no_reply(needs(alloc, desk, orders, bill)),
        Command::Make {
            seed,
            goods,
            suppliers,
        } => or_no_reply(make(alloc, seed, goods, suppliers)),
        Command::Requote { files, old, tree } => requote(alloc, desk, &files, old, tree, gate),
        Command::Scenarios { files, terms, .. } => {
            or_no_reply(compare(alloc, desk, &files, terms))
        }
        Command::Winners { files, .. } => or_no_reply(winners(alloc, desk, &files)),
        Command::BreakEven { files, supplier } => or_no_reply(cut(alloc, desk, &files, supplier)),
    }
}

// Prints the text of an answer; where that fails, the answer is the fault.
fn print<D: Desk>(desk: &mut D, reply: Reply) -> Answer
    ensures { PrintGives (D.state desk.old) (D.state desk.new) reply.answer reply.text.items result }
{
    match desk.out(&reply.text) {
        Ok(()) => reply.answer,
        Err(DeskStop::Failed) => Answer::WriteFault(Target::Out),
        Err(DeskStop::Memory) => Answer::Memory,
    }
}

// The status that the program ends with.
fn status(answer: &Answer) -> u8
    ensures { result ≡ status_of answer.now }
{
    match answer {
        Answer::Solved(_, _) => 0,
        Answer::Infeasible => 1,
        Answer::Accepted(_) => 0,
        Answer::AcceptedNone => 1,
        Answer::Rejected(_) => 4,
        Answer::Listed => 0,
        Answer::Words => 2,
        Answer::BadInput(_) => 3,
        Answer::ReadFault(_) => 5,
        Answer::WriteFault(_) => 6,
        Answer::Memory => 7,
    }
}

// Prints the reply, if there is one.
fn answer<D: Desk>(desk: &mut D, reply: Result<Reply, NoReply>) -> Answer
    ensures { EndGives (D.state desk.old) (D.state desk.new) reply result }
{
    match reply {
        Ok(reply) => print(desk, reply),
        Err(NoReply::Tree) => Answer::WriteFault(Target::Tree),
        Err(NoReply::Memory) => Answer::Memory,
    }
}

// Prints the reply, and so ends the run of the words that call for it.
fn end<D: Desk>(desk: &mut D, reply: Result<Reply, NoReply>) -> Ended
    ensures { (old : State) (words : List Name) → IsIdle old.world
        → Replies D.absent_is_empty old (D.state desk.old) words reply
        → IsProgramRun D.absent_is_empty old (D.state desk.new) words result }
{
    laws::verdicts_are_exact();
    laws::yes_is_sound();
    let answer = answer(desk, reply);
    Ended {
        status: status(&answer),
        answer,
    }
}

/// Runs the command that the words give, on the caller's thread, whatever the number of workers. It waits for nobody
/// and always returns.
///
/// `solve ORDERS BILL OFFERS TERMS TREE` finds a least purchase of the job that the files state, writes the tree that
/// certifies it, and prints it. `check ORDERS BILL OFFERS TERMS TREE` says what the text of a tree shows of the job.
/// `needs ORDERS BILL` prints what is needed of each part that has to be bought. `make SEED GOODS SUPPLIERS` makes a
/// job, solves it and sums it up. `requote ORDERS BILL OFFERS TERMS OLD TREE` does what `solve` does, from the old tree
/// of OLD, which may be of another job and may be the file TREE. `scenarios ORDERS BILL OFFERS TERMS..` prints what a
/// least purchase costs with each of 1 to 16 files of terms, `winners ORDERS BILL OFFERS TERMS` what it costs with each
/// greatest number of winners, and `break-even ORDERS BILL OFFERS TERMS SUPPLIER` the least cut of a supplier's prices
/// that lowers the least cost. Words that are of no form print the usage. Every answer but WriteFault and Memory prints
/// its text as the last act; if that fails, the answer is WriteFault(Out). No file changes but the TREE of `solve` and
/// of `requote`. The desk is handed in without an open slot, and has none at the end.
pub fn run_plain<D: Desk>(alloc: Global, words: &[String], desk: &mut D) -> Ended
    requires { IsIdle (D.state desk.old).world }
    ensures { IsProgramRun D.absent_is_empty (D.state desk.old) (D.state desk.new) (map string_bytes words.now) result }
{
    let reply = reply_to(alloc, words, desk, &NoGate);
    end(desk, reply)
}

// Runs the command on the caller's thread, which passes the gate before each box of a `solve` and of a `requote`.
fn run_alone<D: Desk, G: Gate>(alloc: Global, words: &[String], desk: &mut D, gate: &G) -> Ended
    requires { IsIdle (D.state desk.old).world }
    ensures { IsProgramRun D.absent_is_empty (D.state desk.old) (D.state desk.new) (map string_bytes words.now) result }
{
    let alone = reply_to(alloc, words, desk, gate);
    end(desk, alone)
}

/// Runs the command that the words give, as [`run_plain`] does, but that the workers of `solve --workers N`,
/// `scenarios .. --workers N` and `winners .. --workers N`, where they are two or more, are threads. Only then may it wait;
/// what it promises then holds if it returns. Whoever works on a box of a `solve` or a `requote` passes the gate before it.
pub fn run<R: Threads + Wait + Sync, D: Desk, G: Gate + Sync>(
    rt: &R,
    alloc: Global,
    words: &[String],
    desk: &mut D,
    gate: &G,
) -> Ended
    requires { IsIdle (D.state desk.old).world }
    ensures { IsProgramRun D.absent_is_empty (D.state desk.old) (D.state desk.new) (map string_bytes words.now) result }
{
    match read_words(words) {
        Some(
            Command::Solve {
                files,
                tree,
                workers,
            },
        ) if workers >= 2 => {
            let number = workers as u32;
            let solved = solve_by(rt, alloc, desk, &files, tree, number, gate);
            end(desk, solved)
        }
        Some(
            Command::Scenarios {
                files,
                terms,
                workers,
            },
        ) if workers >= 2 => {
            let number = workers as u32;
            let compared = compare_by(rt, alloc, desk, &files, terms, number);
            end(desk, or_no_reply(compared))
        }
        Some(Command::Winners { files, workers }) if workers >= 2 => {
            let number = workers as u32;
            let listed = winners_by(rt, alloc, desk, &files, number);
            end(desk, or_no_reply(listed))
        }
        _ => run_alone(alloc, words, desk, gate),
    }
}
