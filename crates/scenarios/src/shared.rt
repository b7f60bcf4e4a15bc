//! The least costs, found by workers.
ghost use Rattle.std.specs.Prelude.{ℕ, ◌≡◌, ◌<◌, ◌≤◌, None, IfOk, IfSome, All, length, slice_index_or};
ghost use Rattle.scenarios.specs.Found.{AreFound, AreKnown};
ghost use Rattle.scenarios.specs.Costs.{AreCosts, IsWinnerTable};

use crate::costs::CostList;
use crate::entries::{Entries, Jobs, Table};
use std::alloc::Global;
use std::sync::atomic::{AtomicUsize, Ordering};
use std::thread;
use std::thread::Threads;
use tqd_base::Memory;
use tqd_instance::{Job, Optimum};

/// The least cost of each job of a list, in order, found by 1 to 64 workers.
pub fn solve_all<R: Threads + Sync, O: Optimum + Sync>(
    rt: &R,
    alloc: Global,
    jobs: &[Job],
    workers: u32,
    optimum: &O,
) -> Result<CostList, Memory>
    requires some { 1 ≤ workers }
    requires few { workers ≤ 64 }
    ensures { IfOk result (AreCosts jobs.now) }
{
    let costs = shared_costs(rt, alloc, &Jobs { jobs, optimum }, workers)?;
    Ok(CostList::of(costs))
}

/// The table of `winner_table_plain`, found by 1 to 64 workers.
pub fn winner_table<R: Threads + Sync, O: Optimum + Sync>(
    rt: &R,
    alloc: Global,
    job: &Job,
    workers: u32,
    optimum: &O,
) -> Result<CostList, Memory>
    requires some { 1 ≤ workers }
    requires few { workers ≤ 64 }
    ensures { IfOk result (IsWinnerTable job.now) }
{
    let costs = shared_costs(rt, alloc, &Table { job, optimum }, workers)?;
    Ok(CostList::of(costs))
}

/// The cost that a worker found, and the number of its job.
#[derive(Clone, Copy)]
struct Found {
    at: usize,
    cost: Option<u128>,
}

fn shared_costs<R: Threads + Sync, E: Entries + Sync>(
    rt: &R,
    alloc: Global,
    entries: &E,
    workers: u32,
) -> Result<Vec<Option<u128>>, Memory>
    ensures count { IfOk result (λ costs. length costs.items ≡ E.count entries.now) }
    ensures each { IfOk result (λ costs. (at : ℕ) → at < E.count entries.now
        → E.costs entries.now at (slice_index_or costs.items at None)) }
{
    let next = AtomicUsize::new(0);
    let found = thread::map_indices(
        rt,
        alloc,
        workers as usize,
        &|_| work(alloc, entries, &next),
    )?;
    let known = placed(alloc, entries, found)?;
    completed(alloc, entries, &known)
}

/// What one worker finds: it takes the number of the next job from the counter until there is none.
fn work<E: Entries>(alloc: Global, entries: &E, next: &AtomicUsize) -> Result<Vec<Found>, Memory>
    ensures { IfOk result (λ found. AreFound (E.count entries.now) (E.costs entries.now) found.items) }
{
    let mut found = Vec::new(alloc);
    for _ in 0..entries.len() {
        let at = next.fetch_add(1, Ordering::SeqCst);
        if entries.len() <= at {
            return Ok(found);
        }
        let cost = entries.least(alloc, at)?;
        found.push(Found { at, cost })?;
    }
    Ok(found)
}

/// The costs that workers found, each at the number of its job.
fn placed<E: Entries>(
    alloc: Global,
    entries: &E,
    batches: Vec<Result<Vec<Found>, Memory>>,
) -> Result<Vec<Option<Option<u128>>>, Memory>
    requires { All (λ batch. IfOk batch (λ found. AreFound (E.count entries.now) (E.costs entries.now) found.items)) batches.items }
    ensures count { IfOk result (λ known. length known.items ≡ E.count entries.now) }
    ensures each { IfOk result (λ known. AreKnown (E.costs entries.now) known.items) }
{
    let mut known = vec![in alloc; None; entries.len()]?;
    for batch in batches {
        place(entries, &mut known, &batch?);
    }
    Ok(known)
}

fn place<E: Entries>(entries: &E, known: &mut [Option<Option<u128>>], found: &[Found])
    requires count { length known.old ≡ E.count entries.now }
    requires each { AreKnown (E.costs entries.now) known.old }
    requires found { AreFound (E.count entries.now) (E.costs entries.now) found.now }
    ensures count { length known.new ≡ length known.old }
    ensures each { AreKnown (E.costs entries.now) known.new }
{
    for cost in found {
        known[cost.at] = Some(cost.cost);
    }
}

/// All costs: those that are known, and the others found on this thread.
fn completed<E: Entries>(
    alloc: Global,
    entries: &E,
    known: &[Option<Option<u128>>],
) -> Result<Vec<Option<u128>>, Memory>
    requires count { length known.now ≡ E.count entries.now }
    requires each { AreKnown (E.costs entries.now) known.now }
    ensures count { IfOk result (λ costs. length costs.items ≡ E.count entries.now) }
    ensures each { IfOk result (λ costs. (at : ℕ) → at < E.count entries.now
        → E.costs entries.now at (slice_index_or costs.items at None)) }
{
    let mut costs = Vec::with_capacity(alloc, known.len())?;
    for at in 0..known.len() {
        costs.push(cost_at(alloc, entries, at, known[at])?)?;
    }
    Ok(costs)
}

fn cost_at<E: Entries>(
    alloc: Global,
    entries: &E,
    at: usize,
    known: Option<Option<u128>>,
) -> Result<Option<u128>, Memory>
    requires in_range { at < E.count entries.now }
    requires known { IfSome known (λ cost. E.costs entries.now at cost) }
    ensures { IfOk result (λ cost. E.costs entries.now at cost) }
{
    match known {
        Some(cost) => Ok(cost),
        None => entries.least(alloc, at),
    }
}
