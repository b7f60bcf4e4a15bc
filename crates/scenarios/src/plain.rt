//! The least costs one after another, on the caller's thread.
ghost use Rattle.std.specs.Prelude.{ℕ, ◌≡◌, ◌<◌, None, IfOk, length, slice_index_or};
ghost use Rattle.scenarios.specs.Costs.{AreCosts, IsWinnerTable};

use crate::costs::CostList;
use crate::entries::{Entries, Jobs, Table};
use std::alloc::Global;
use tqd_base::Memory;
use tqd_instance::{Job, Optimum};

/// The least cost of each job of a list, in order.
pub fn one_by_one<O: Optimum>(alloc: Global, jobs: &[Job], optimum: &O) -> Result<CostList, Memory>
    ensures { IfOk result (AreCosts jobs.now) }
{
    let costs = all_costs(alloc, &Jobs { jobs, optimum })?;
    Ok(CostList::of(costs))
}

/// The least cost of a job with each greatest number of winners, from its least number up to the greater of that and the
/// number of its suppliers.
pub fn winner_table_plain<O: Optimum>(
    alloc: Global,
    job: &Job,
    optimum: &O,
) -> Result<CostList, Memory>
    ensures { IfOk result (IsWinnerTable job.now) }
{
    let costs = all_costs(alloc, &Table { job, optimum })?;
    Ok(CostList::of(costs))
}

fn all_costs<E: Entries>(alloc: Global, entries: &E) -> Result<Vec<Option<u128>>, Memory>
    ensures count { IfOk result (λ costs. length costs.items ≡ E.count entries.now) }
    ensures each { IfOk result (λ costs. (at : ℕ) → at < E.count entries.now
        → E.costs entries.now at (slice_index_or costs.items at None)) }
{
    let mut costs = Vec::with_capacity(alloc, entries.len())?;
    for at in 0..entries.len() {
        costs.push(entries.least(alloc, at)?)?;
    }
    Ok(costs)
}
