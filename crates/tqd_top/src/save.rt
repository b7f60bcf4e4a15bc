//! Saving the tree of an answer.
ghost use Rattle.std.specs.Prelude.{◌≡◌, IsSome};
ghost use Rattle.std.specs.Option.{option_copied};
ghost use Rattle.tqd_base.specs.World.{HasNoSlot, IsIdle, Writes};
ghost use Rattle.bound_tree.specs.WriteTree.{purchase_of, IsPriced};
ghost use Rattle.tqd_top.specs.Inner.Solution.{IsFinished, IsSolution, bought_by, certificate_of};
ghost use Rattle.tqd_top.specs.Inner.Saving.{CloseTreeGives, FillGives, MakeTreeGives, PutTreeGives, SaveGivenGives, SaveGives};

use crate::answer::NoReply;
use bound_tree::{WriteStop, write_shared};
use search_book::Finished;
use std::alloc::Global;
use tqd_base::{Desk, DeskStop};
use tqd_instance::{Job, Plan};

// Makes the file of a tree.
fn make_tree<D: Desk>(alloc: Global, desk: &mut D, name: &str) -> Result<u32, NoReply>
    requires { HasNoSlot (D.state desk.old).world name.now }
    ensures { MakeTreeGives (D.state desk.old) (D.state desk.new) name.now result }
{
    match desk.make(alloc, name) {
        Ok(slot) => Ok(slot),
        Err(DeskStop::Failed) => Err(NoReply::Tree),
        Err(DeskStop::Memory) => Err(NoReply::Memory),
    }
}

// The plan of a solution with its cost, where there is one.
fn plan_of<'d>(_job: &Job, done: &'d Finished) -> Option<(&'d Plan, u128)>
    requires { IsSolution _job.now done.now.plan }
    ensures priced { IsPriced _job.now result }
    ensures bought { purchase_of result ≡ bought_by done.now.plan }
{
    match &done.plan {
        Some((plan, cost)) => Some((plan, *cost)),
        None => None,
    }
}

// Writes the tree of a solution to a slot.
fn put_tree<D: Desk>(
    alloc: Global,
    job: &Job,
    done: &Finished,
    desk: &mut D,
    slot: u32,
) -> Result<(), NoReply>
    requires writes { Writes ((D.state desk.old).world.slots slot) }
    requires finished { IsFinished job.now done.now }
    ensures { (f : IsFinished job.now done.now)
        → PutTreeGives (D.state desk.old) (D.state desk.new) slot (certificate_of job.now done.now f) result }
{
    let plan = plan_of(job, done);
    match write_shared(alloc, job, plan, &done.tree, desk, slot) {
        Ok(()) => Ok(()),
        Err(WriteStop::Fault) => Err(NoReply::Tree),
        Err(WriteStop::Memory) => Err(NoReply::Memory),
    }
}

// Closes the file of a tree.
fn close_tree<D: Desk>(desk: &mut D, slot: u32) -> Result<(), NoReply>
    requires { IsSome ((D.state desk.old).world.slots slot) }
    ensures { CloseTreeGives (D.state desk.old) (D.state desk.new) slot result }
{
    match desk.close(slot) {
        Ok(()) => Ok(()),
        Err(_) => Err(NoReply::Tree),
    }
}

// Writes the tree of a solution to a slot, and closes it.
fn fill_slot<D: Desk>(
    alloc: Global,
    job: &Job,
    done: &Finished,
    desk: &mut D,
    slot: u32,
) -> Result<(), NoReply>
    requires writes { Writes ((D.state desk.old).world.slots slot) }
    requires finished { IsFinished job.now done.now }
    ensures { (f : IsFinished job.now done.now)
        → FillGives (D.state desk.old) (D.state desk.new) slot (certificate_of job.now done.now f) result }
{
    match put_tree(alloc, job, done, desk, slot) {
        Ok(()) => close_tree(desk, slot),
        Err(lost) => {
            let _closed = close_tree(desk, slot);
            Err(lost)
        }
    }
}

// Saves the tree of a solution in the file of a name.
fn save_tree<D: Desk>(
    alloc: Global,
    job: &Job,
    done: &Finished,
    desk: &mut D,
    name: &str,
) -> Result<(), NoReply>
    requires idle { IsIdle (D.state desk.old).world }
    requires finished { IsFinished job.now done.now }
    ensures { (f : IsFinished job.now done.now)
        → SaveGives (D.state desk.old) (D.state desk.new) name.now (certificate_of job.now done.now f) result }
{
    let slot = make_tree(alloc, desk, name)?;
    fill_slot(alloc, job, done, desk, slot)
}

/// Saves the tree of a solution in the file of a name, where one is given. No slot may be open before, and none is
/// after.
pub(crate) fn save_given<D: Desk>(
    alloc: Global,
    job: &Job,
    done: &Finished,
    desk: &mut D,
    tree: Option<&str>,
) -> Result<(), NoReply>
    requires idle { IsIdle (D.state desk.old).world }
    requires finished { IsFinished job.now done.now }
    ensures { (f : IsFinished job.now done.now)
        → SaveGivenGives (D.state desk.old) (D.state desk.new) (option_copied tree.entry)
        (certificate_of job.now done.now f) result }
{
    match tree {
        Some(name) => save_tree(alloc, job, done, desk, name),
        None => Ok(()),
    }
}
