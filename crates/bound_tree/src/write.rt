ghost use Rattle.std.specs.Prelude.{◌≡◌, ◌≤◌, ◌<◌, ◌∷◌, ◌++◌, ◌*◌, [], length, map, Some};
ghost use Rattle.tqd_base.specs.World.{Writes};
ghost use Rattle.tqd_base.specs.declared.limits.TheConstants.{GOODS_MAX, SUPPLIERS_MAX};
ghost use Rattle.tqd_instance.specs.Job.{goods as job_goods, suppliers as job_suppliers};
ghost use Rattle.tqd_instance.specs.Cost.{cost as job_cost};
ghost use Rattle.tqd_instance.specs.Plan.{units, IsSizedFor};
ghost use Rattle.bound_tree.specs.LineText.{counts_text};
ghost use Rattle.bound_tree.specs.TreeText.{lines_to, units_line, buy_line, buy_lines, plan_lines, node_line, lines_text, tree_text};
ghost use Rattle.bound_tree.specs.WriteTree.{purchase_of, IsPriced, WriteGives};

use crate::text::{counts_line, node_line};
use crate::tree::Tree;
use crate::word::{ROWS, Word};
use std::alloc::Global;
use tqd_base::{Desk, DeskStop, Memory};
use tqd_instance::{Job, Plan};

/// Why a tree was not written whole.
#[derive(Clone, Copy, Debug, PartialEq, Eq)]
pub enum WriteStop {
    /// The device failed.
    Fault,
    /// Memory was wanting.
    Memory,
}

impl From<DeskStop> for WriteStop {
    ghost use Rattle.std.specs.Prelude.{◌≡◌};
    ghost use Rattle.bound_tree.specs.WriteTree.{write_stop_of};

    ghost from_gives = { λ e r. r ≡ write_stop_of e };

    fn from(stop: DeskStop) -> WriteStop {
        match stop {
            DeskStop::Failed => WriteStop::Fault,
            DeskStop::Memory => WriteStop::Memory,
        }
    }
}

impl From<Memory> for WriteStop {
    ghost use Rattle.std.specs.Prelude.{◌≡◌};
    ghost use Rattle.bound_tree.specs.declared.write.WriteStop.TheVariants.{Memory};

    ghost from_gives = { λ _ r. r ≡ Memory };

    fn from(_error: Memory) -> WriteStop {
        WriteStop::Memory
    }
}

/// Writes the text of a tree to the end of a slot's file, with one `put` for each line.
///
/// `plan` is a plan of the job's size with its cost in millionths of the currency. After any answer the file has grown
/// by a prefix of the text, after Ok by the whole, and all else on the desk is as it was. Fault comes only where the
/// count of faults of writing rose.
pub fn write_tree<D: Desk>(
    alloc: Global,
    job: &Job,
    plan: Option<(&Plan, u128)>,
    tree: &Tree,
    desk: &mut D,
    slot: u32,
) -> Result<(), WriteStop>
    requires writes { Writes ((D.state desk.old).world.slots slot) }
    requires priced { IsPriced job.now plan }
    ensures { WriteGives (D.state desk.old) (D.state desk.new) slot
        (tree_text job.now (purchase_of plan.entry) tree.now) result }
{
    put_counts(alloc, Word::Header, &[ROWS], desk, slot)?;
    put_given(alloc, job, plan, desk, slot)?;
    put_nodes(alloc, tree, desk, slot)
}

// The plan, or that there is none.
pub(crate) fn put_given<D: Desk>(
    alloc: Global,
    job: &Job,
    plan: Option<(&Plan, u128)>,
    desk: &mut D,
    slot: u32,
) -> Result<(), WriteStop>
    requires writes { Writes ((D.state desk.old).world.slots slot) }
    requires priced { IsPriced job.now plan }
    ensures { WriteGives (D.state desk.old) (D.state desk.new) slot
        (lines_text (plan_lines job.now (purchase_of plan.entry))) result }
{
    match plan {
        None => put_counts(alloc, Word::NoPlan, &[], desk, slot),
        Some((plan, cost)) => put_plan(alloc, job, plan, cost, desk, slot),
    }
}

// The line of a word and counts.
pub(crate) fn put_counts<D: Desk>(
    alloc: Global,
    word: Word,
    counts: &[u128],
    desk: &mut D,
    slot: u32,
) -> Result<(), WriteStop>
    requires { Writes ((D.state desk.old).world.slots slot) }
    ensures { WriteGives (D.state desk.old) (D.state desk.new) slot (counts_text word counts.now ++ 10 ∷ []) result }
{
    let line = counts_line(alloc, word, counts)?;
    put_line(&line, desk, slot)
}

pub(crate) fn put_line<D: Desk>(line: &[u8], desk: &mut D, slot: u32) -> Result<(), WriteStop>
    requires { Writes ((D.state desk.old).world.slots slot) }
    ensures { WriteGives (D.state desk.old) (D.state desk.new) slot line.now result }
{
    desk.put(slot, line)?;
    Ok(())
}

// The cost of a plan, the number of the lines that follow, and what is bought.
fn put_plan<D: Desk>(
    alloc: Global,
    job: &Job,
    plan: &Plan,
    cost: u128,
    desk: &mut D,
    slot: u32,
) -> Result<(), WriteStop>
    requires writes { Writes ((D.state desk.old).world.slots slot) }
    requires sized { IsSizedFor job.now plan.now }
    requires priced { cost ≡ job_cost job.now (units plan.now) }
    ensures { WriteGives (D.state desk.old) (D.state desk.new) slot
        (lines_text (plan_lines job.now (Some (units plan.now)))) result }
{
    let count = buy_count(job, plan);
    put_counts(alloc, Word::Plan, &[cost, count], desk, slot)?;
    for i in 0..job.suppliers() {
        put_buys(alloc, job, plan, i, desk, slot)?;
    }
    Ok(())
}

// What is bought from a supplier.
fn put_buys<D: Desk>(
    alloc: Global,
    job: &Job,
    plan: &Plan,
    i: usize,
    desk: &mut D,
    slot: u32,
) -> Result<(), WriteStop>
    requires writes { Writes ((D.state desk.old).world.slots slot) }
    requires sized { IsSizedFor job.now plan.now }
    requires supplier { i < job_suppliers job.now }
    ensures { WriteGives (D.state desk.old) (D.state desk.new) slot
        (lines_text (lines_to (job_goods job.now) (buy_line (units plan.now) i))) result }
{
    for k in 0..job.goods() {
        put_buy(alloc, i, k, plan.get(i, k), desk, slot)?;
    }
    Ok(())
}

// So many units of a good from a supplier, where there are any.
fn put_buy<D: Desk>(
    alloc: Global,
    i: usize,
    k: usize,
    units: u64,
    desk: &mut D,
    slot: u32,
) -> Result<(), WriteStop>
    requires { Writes ((D.state desk.old).world.slots slot) }
    ensures { WriteGives (D.state desk.old) (D.state desk.new) slot (lines_text (units_line i k units)) result }
{
    if units == 0 {
        return Ok(());
    }
    let counts = [i as u128, k as u128, u128::from(units)];
    put_counts(alloc, Word::Buy, &counts, desk, slot)
}

// The nodes in order.
fn put_nodes<D: Desk>(alloc: Global, tree: &Tree, desk: &mut D, slot: u32) -> Result<(), WriteStop>
    requires { Writes ((D.state desk.old).world.slots slot) }
    ensures { WriteGives (D.state desk.old) (D.state desk.new) slot (lines_text (map node_line tree.now)) result }
{
    for at in 0..tree.len() {
        let line = node_line(alloc, tree.node(at))?;
        put_line(&line, desk, slot)?;
    }
    Ok(())
}

// How many goods are bought, supplier by supplier.
fn buy_count(job: &Job, plan: &Plan) -> u128
    requires { IsSizedFor job.now plan.now }
    ensures value { result ≡ length (buy_lines job.now (units plan.now)) }
    ensures few { result ≤ SUPPLIERS_MAX * GOODS_MAX }
{
    let mut count = 0;
    for i in 0..job.suppliers() {
        count += supplier_buy_count(job, plan, i);
    }
    count
}

fn supplier_buy_count(job: &Job, plan: &Plan, i: usize) -> u128
    requires sized { IsSizedFor job.now plan.now }
    requires supplier { i < job_suppliers job.now }
    ensures value { result ≡ length (lines_to (job_goods job.now) (buy_line (units plan.now) i)) }
    ensures few { result ≤ GOODS_MAX }
{
    let mut count = 0;
    for k in 0..job.goods() {
        if plan.get(i, k) != 0 {
            count += 1;
        }
    }
    count
}
