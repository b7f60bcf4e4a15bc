ghost use Rattle.std.specs.Prelude.{IfSome};
ghost use Rattle.search_run.specs.Minds.{IsMindOf};
ghost use Rattle.search_run.specs.Thoughts.{IsThought};
ghost use Rattle.search_run.specs.Working.{IsFoundIn, IsGoodFor, IsTask};

use crate::holds::{Hall, Look, Next};
use crate::kits::Kit;
use crate::many::Gate;
use crate::mind::Mind;
use crate::think::think;
use crate::thought::{Act, Stage, Task, Thought};
use std::alloc::Global;
use std::sync::Wait;

/// Works on the boxes of the book until none is Open or Taken, or there is no memory.
pub(crate) fn work<R: Wait, G: Gate>(rt: &R, alloc: Global, hall: &Hall, gate: &G, kit: Kit) {
    if let Ok(mind) = Mind::new(alloc, hall.job) {
        work_by(rt, alloc, hall, gate, kit, mind);
    }
    hall.leave();
}

fn work_by<R: Wait, G: Gate>(
    rt: &R,
    alloc: Global,
    hall: &Hall,
    gate: &G,
    mut kit: Kit,
    mut mind: Mind,
)
    requires { IsMindOf hall.now.job.now mind }
{
    let mut next = Next::Free;
    for _ in rt.forever() {
        let Some(task) = task_after(rt, hall, &mut kit, next) else {
            break;
        };
        next = turn(rt, alloc, hall, gate, &mut kit, &mut mind, task);
    }
}

/// The box that was kept, or else one that is found.
fn task_after<R: Wait>(rt: &R, hall: &Hall, kit: &mut Kit, next: Next) -> Option<Task>
    requires { IsGoodFor hall.now.job.now next }
    ensures { IfSome result (IsTask hall.now.job.now) }
{
    match next {
        Next::Kept(task) => Some(task),
        Next::Free => find(rt, hall, kit),
        Next::Over => None,
    }
}

/// A box of a ticket of the worker's own lane, of another one, or the first one; none where no box is left to wait for.
fn find<R: Wait>(rt: &R, hall: &Hall, kit: &mut Kit) -> Option<Task>
    ensures { IfSome result (IsTask hall.now.job.now) }
{
    for _ in rt.forever() {
        match seek(rt, hall, kit) {
            Look::Found(task) => return Some(task),
            Look::Again => {}
            Look::Over => return None,
        }
    }
    unreachable!()
}

fn seek<R: Wait>(rt: &R, hall: &Hall, kit: &mut Kit) -> Look
    ensures { IsFoundIn hall.now.job.now result }
{
    match kit.ticket(rt) {
        Some((ticket, way)) => hall.take(rt, ticket, way),
        None => hall.look(rt, kit),
    }
}

/// Works on a box for one stage: thinks without the lock, and writes what it thought under it. The gate is passed once
/// for each box, at the first stage.
fn turn<R: Wait, G: Gate>(
    rt: &R,
    alloc: Global,
    hall: &Hall,
    gate: &G,
    kit: &mut Kit,
    mind: &mut Mind,
    task: Task,
) -> Next
    requires task { IsTask hall.now.job.now task }
    requires mind { IsMindOf hall.now.job.now mind.old }
    ensures next { IsGoodFor hall.now.job.now result }
    ensures mind { IsMindOf hall.now.job.now mind.new }
{
    let best = kit.hint.see();
    if task.stage == Stage::Enter {
        gate.enter(kit.number, task.number, task.way, best);
    }
    let Ok(thought) = think(alloc, hall.job, mind, best, &task) else {
        hall.give_back(rt, task.number, &task.area);
        return Next::Over;
    };
    write(rt, hall, kit, task, thought)
}

/// Writes a thought into the book, and publishes the cost of its plan. Where there is nothing to write, the lock is left
/// alone.
fn write<R: Wait>(rt: &R, hall: &Hall, kit: &mut Kit, task: Task, thought: Thought) -> Next
    requires task { IsTask hall.now.job.now task }
    requires thought { IsThought hall.now.job.now task.area task.stage thought }
    ensures { IsGoodFor hall.now.job.now result }
{
    let cost = match &thought.offer {
        Some(offer) => offer.cost,
        None => {
            if let Act::Stay = thought.act {
                return Next::Kept(task.staged());
            }
            return hall.write(rt, kit, task, thought);
        }
    };
    let next = hall.write(rt, kit, task, thought);
    kit.hint.publish(cost);
    next
}
