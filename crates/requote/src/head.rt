ghost use Rattle.std.specs.Prelude.{◌≡◌, false, IfOk};
ghost use Rattle.tqd_instance.specs.Plan.{IsSizedFor};
ghost use Rattle.tqd_instance.specs.Purchase.{Purchase};
ghost use Rattle.bound_tree.specs.SlotTree.{no_rows};
ghost use Rattle.tree_checker.specs.Verdict.{RowStore};
ghost use Rattle.tree_checker.specs.Judged.{HasUnits};
ghost use Rattle.tree_checker.specs.SlotRows.{are_used, store_of, Holds, SameRows};
ghost use Rattle.requote.specs.Head.{after_buys, no_buys, plan_in, head_in};
ghost use Rattle.requote.specs.Reading.{BuysOne, ReadsHead};

use crate::lines::Lines;
use bound_tree::{LineHead, line_head};
use std::alloc::Global;
use tqd_base::Memory;
use tqd_instance::{Job, Plan};
use tree_checker::{RowSlots, next_place};

/// How an old text begins.
#[derive(Debug, Drop)]
pub(crate) enum Head {
    /// The header or a line of the plan is wrong or missing.
    Wrong,
    /// The text has no plan.
    NoPlan,
    /// What the text buys, whether that is feasible or not.
    Plan(Plan),
}

/// Reads the header and the lines of the plan. In a text of format 2 the slots are taken into use.
pub(crate) fn read_head(
    alloc: Global,
    job: &Job,
    lines: &mut Lines<'_>,
    slots: &mut RowSlots,
) -> Result<Head, Memory>
    requires unused { are_used slots.old ≡ false }
    requires none { Holds job.now slots.old no_rows }
    ensures head { IfOk result (ReadsHead job.now (store_of job.now slots.new) lines.new (head_in job.now lines.old)) }
    ensures rows { SameRows slots.old slots.new }
{
    let Some(header) = lines.next() else {
        return Ok(Head::Wrong);
    };
    match line_head(header) {
        Some(LineHead::Header) => read_plan(alloc, job, lines),
        Some(LineHead::Header2) => {
            slots.take_into_use();
            read_plan(alloc, job, lines)
        }
        _ => Ok(Head::Wrong),
    }
}

// Reads the lines of the plan.
fn read_plan(alloc: Global, job: &Job, lines: &mut Lines<'_>) -> Result<Head, Memory>
    ensures { (store : RowStore) → IfOk result (ReadsHead job.now store lines.new (plan_in job.now lines.old store)) }
{
    let Some(line) = lines.next() else {
        return Ok(Head::Wrong);
    };
    match line_head(line) {
        Some(LineHead::NoPlan) => Ok(Head::NoPlan),
        Some(LineHead::Plan { count, .. }) => {
            if count <= job.suppliers() as u128 * job.goods() as u128 {
                read_buys(alloc, job, count as u64, lines)
            } else {
                Ok(Head::Wrong)
            }
        }
        _ => Ok(Head::Wrong),
    }
}

// Reads so many `buy` lines.
fn read_buys(alloc: Global, job: &Job, count: u64, lines: &mut Lines<'_>) -> Result<Head, Memory>
    ensures { (store : RowStore)
        → IfOk result (ReadsHead job.now store lines.new (after_buys job.now store count no_buys lines.old)) }
{
    let mut plan = Plan::zero(alloc, job.suppliers(), job.goods())?;
    let mut next = 0;
    for _ in 0..count {
        match read_buy(job, next, &mut plan, lines) {
            Some(after) => next = after,
            None => return Ok(Head::Wrong),
        }
    }
    Ok(Head::Plan(plan))
}

// Reads a `buy` line into the plan, and gives the least place in the order of suppliers and goods that the line after
// it may have. None where the line is wrong or missing.
fn read_buy(job: &Job, next: u64, plan: &mut Plan, lines: &mut Lines<'_>) -> Option<u64>
    requires { IsSizedFor job.now plan.old }
    ensures sized { IsSizedFor job.now plan.new }
    ensures buys { (x : Purchase) → HasUnits job.now plan.old x
        → BuysOne job.now (record { next = next; bought = x }) lines.old plan.new lines.new result }
{
    let head = line_head(lines.next()?)?;
    let LineHead::Buy {
        supplier,
        good,
        units,
    } = head
    else {
        return None;
    };
    let place = next_place(job, next, supplier, good, units)?;
    plan.set(supplier as usize, good as usize, units as u64);
    Some(place + 1)
}
