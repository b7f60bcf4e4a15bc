ghost use Rattle.std.specs.Prelude.{ℕ, ◌≡◌, ◌≢◌, ◌<◌, ◌≤◌, IfOk, IfSome, OnErr, IsSomeAnd};
ghost use Rattle.bound_tree.specs.Prices.{Fits};
ghost use Rattle.bound_tree.specs.Kills.{Kills};
ghost use Rattle.interval_box.specs.Halves.{IsProper};
ghost use Rattle.search_book.specs.declared.node.Phase.TheVariants.{Taken};
ghost use Rattle.search_book.specs.Nodes.{area_of, phase_of, HasPhase};
ghost use Rattle.search_book.specs.BookState.{best_cost};
ghost use Rattle.search_book.specs.Counts.{due_size};
ghost use Rattle.search_book.specs.Answers.{CanClose};
ghost use Rattle.search_book.specs.Later.{IsLater};
ghost use Rattle.search_book.specs.Taken.{SameTaken, TakenWithout};
ghost use Rattle.search_run.specs.Stages.{rank};
ghost use Rattle.search_run.specs.Thoughts.{rest_of, AreCuts, IsCut, IsOffer, IsThought};
ghost use Rattle.search_run.specs.Steps.{HasClosed, IsRestOf, IsTaskIn, Makes};

use crate::many::Way;
use crate::thought::{Act, Branch, Cut, Offer, Stage, Task, Thought};
use bound_tree::{Leaf, Row};
use search_book::{Book, Close, Take};
use tqd_base::Memory;

/// What a thought made of the node of its box.
#[derive(Drop)]
pub(crate) enum Step {
    Closed,
    /// The work goes on, with the same box or with what was left of it.
    Goes(Task),
    /// The half that is kept is Taken, the other one, of this number, is Open.
    Split { half: Task, other: u64 },
}

/// Writes a thought about the box of a Taken node into the book. Without memory the box, or what is left of it, is given
/// back; the plan may have been offered.
pub(crate) fn commit(book: &mut Book, task: Task, thought: Thought) -> Result<Step, Memory>
    requires task { IsTaskIn book.old task }
    requires thought { IsThought book.old.job task.area task.stage thought }
    ensures step { IfOk result (Makes book.old task book.new) }
    ensures err { OnErr result (TakenWithout book.old task.number book.new) }
    ensures later { IsLater book.old book.new }
{
    let Thought { offer, act } = thought;
    if let Some(offer) = offer {
        improve(book, offer);
    }
    match act {
        Act::Stay => Ok(Step::Goes(task.staged())),
        Act::Kill(leaf) => {
            close(book, task.number, leaf);
            Ok(Step::Closed)
        }
        Act::Reach(row) => Ok(reach(book, task, row)),
        Act::Solve(row) => {
            close(book, task.number, Leaf::Bound(row));
            Ok(Step::Closed)
        }
        Act::Trim(cuts) => Ok(Step::Goes(trim(book, task, cuts)?.staged())),
        Act::Split { bound, branch } => close_or_split(book, task, bound, branch),
    }
}

/// Closes a Taken box by a leaf that kills it.
fn close(book: &mut Book, n: u64, leaf: Leaf)
    requires taken { HasPhase book.old.nodes n Taken }
    requires kills { Kills book.old.job (area_of book.old.nodes n) (best_cost book.old) leaf }
    ensures closed { HasClosed book.old n book.new }
    ensures later { IsLater book.old book.new }
{
    match book.close(n, leaf) {
        Close::Closed => {}
        Close::Short(_) => unreachable!(),
    }
}

/// Offers a feasible plan, so that the best plan costs no more.
fn improve(book: &mut Book, offer: Offer)
    requires { IsOffer book.old.job offer }
    ensures known { IsSomeAnd (best_cost book.new) (λ best. best ≤ offer.cost) }
    ensures nodes { book.new.nodes ≡ book.old.nodes }
    ensures due { due_size book.new ≡ due_size book.old }
    ensures takes { SameTaken book.old book.new }
    ensures later { IsLater book.old book.new }
{
    let Offer { plan, cost } = offer;
    book.improve(plan, cost);
}

/// Closes a Taken box by a row, where that reaches the cost of the best plan. Else the work goes on.
fn reach(book: &mut Book, task: Task, row: Row) -> Step
    requires task { IsTaskIn book.old task }
    requires stage { 0 < rank task.stage }
    requires fits { Fits book.old.job task.area row }
    ensures step { Makes book.old task book.new result }
    ensures later { IsLater book.old book.new }
{
    match book.close(task.number, Leaf::Bound(row)) {
        Close::Closed => Step::Closed,
        Close::Short(_) => Step::Goes(task.staged()),
    }
}

/// Splits ends off a Taken box, one after another. Without memory what is left is given back.
fn trim(book: &mut Book, task: Task, cuts: Vec<Cut>) -> Result<Task, Memory>
    requires task { IsTaskIn book.old task }
    requires cuts { AreCuts book.old.job task.area cuts.items }
    ensures rest { IfOk result (IsRestOf book.old task book.new) }
    ensures err { OnErr result (TakenWithout book.old task.number book.new) }
    ensures later { IsLater book.old book.new }
{
    let mut rest = task;
    for cut in cuts {
        rest = cut_off(book, rest, cut)?;
    }
    Ok(rest)
}

/// Splits an end off a Taken box and closes it; the rest is Taken. An end whose row is short is given back.
fn cut_off(book: &mut Book, task: Task, cut: Cut) -> Result<Task, Memory>
    requires task { IsTaskIn book.old task }
    requires cut { IsCut book.old.job task.area cut }
    ensures rest { IfOk result (IsRestOf book.old task book.new) }
    ensures area { IfOk result (λ rest. rest.area ≡ rest_of task.area cut) }
    ensures err { OnErr result (TakenWithout book.old task.number book.new) }
    ensures later { IsLater book.old book.new }
{
    let Cut {
        supplier,
        at,
        low,
        leaf,
    } = cut;
    let Ok((low_half, high_half)) = book.split(task.number, supplier, at, low) else {
        book.give_back(task.number);
        return Err(Memory);
    };
    let (dead, number) = if low {
        (low_half, high_half)
    } else {
        (high_half, low_half)
    };
    bury(book, dead, leaf);
    match book.take(number) {
        Take::Got(area) => Ok(Task {
            number,
            area,
            ..task
        }),
        Take::NotOpen(_) => unreachable!(),
    }
}

/// Closes a Taken node by a leaf, or gives it back.
fn bury(book: &mut Book, n: u64, leaf: Leaf)
    requires taken { HasPhase book.old.nodes n Taken }
    requires leaf { CanClose book.old.job (area_of book.old.nodes n) leaf }
    ensures others { (k : ℕ) → k ≢ n → phase_of book.new.nodes k ≡ phase_of book.old.nodes k }
    ensures takes { TakenWithout book.old n book.new }
    ensures due { due_size book.new ≤ due_size book.old }
    ensures later { IsLater book.old book.new }
{
    if let Close::Short(_) = book.close(n, leaf) {
        book.give_back(n);
    }
}

/// Closes a Taken box by a row, where there is one that reaches the cost of the best plan, and else splits it.
fn close_or_split(
    book: &mut Book,
    task: Task,
    bound: Option<Row>,
    branch: Branch,
) -> Result<Step, Memory>
    requires task { IsTaskIn book.old task }
    requires fits { IfSome bound (Fits book.old.job task.area) }
    requires proper { IsProper task.area branch.supplier branch.at }
    ensures step { IfOk result (Makes book.old task book.new) }
    ensures err { OnErr result (TakenWithout book.old task.number book.new) }
    ensures later { IsLater book.old book.new }
{
    if let Some(row) = bound {
        if let Close::Closed = book.close(task.number, Leaf::Bound(row)) {
            return Ok(Step::Closed);
        }
    }
    split(book, task, branch)
}

/// Splits a Taken box and keeps a half. Without memory the box is given back.
fn split(book: &mut Book, task: Task, branch: Branch) -> Result<Step, Memory>
    requires task { IsTaskIn book.old task }
    requires proper { IsProper task.area branch.supplier branch.at }
    ensures step { IfOk result (Makes book.old task book.new) }
    ensures err { OnErr result (TakenWithout book.old task.number book.new) }
    ensures later { IsLater book.old book.new }
{
    let Branch {
        supplier,
        at,
        keep_low,
    } = branch;
    let Ok((low, high)) = book.split(task.number, supplier, at, keep_low) else {
        book.give_back(task.number);
        return Err(Memory);
    };
    let (number, other) = if keep_low { (low, high) } else { (high, low) };
    let half = Task {
        number,
        area: book.area(number),
        stage: Stage::Enter,
        way: Way::Kept,
    };
    Ok(Step::Split { half, other })
}
