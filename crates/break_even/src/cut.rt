//! The least cut of a supplier's prices that lowers the least cost.
ghost use Rattle.std.specs.Prelude.{◌<◌, ◌≤◌, IfOk, MatchOption};
ghost use Rattle.break_even.specs.LeastCut.{Gains, GainsNothing, IsLeastCut, IsLowestGain};
ghost use Rattle.tqd_instance.specs.Job.{suppliers};
ghost use Rattle.tqd_instance.specs.Optimum.{IsLeastCost};

use std::alloc::Global;
use tqd_base::Memory;
use tqd_instance::{Job, Optimum};

/// What the search for a cut found. Costs are in millionths of the currency.
#[derive(Clone, Copy, Debug, PartialEq, Eq)]
pub enum CutAnswer {
    /// No purchase is feasible, under whatever cut.
    NoPurchase,
    /// A least purchase costs this, and no cut lowers that.
    NoCut(u128),
    /// The least cut that pays, in thousandths, 1 to 1,000, and what a least purchase costs without it and with it.
    Cut { cut: u64, before: u128, after: u128 },
}

/// A cut that pays, and what a least purchase costs under it.
#[derive(Clone, Copy)]
struct Gain {
    cut: u64,
    after: u128,
}

const WHOLE: u64 = 1000;

/// The least cut of the prices of supplier `i` that lowers the least cost of the job.
pub fn least_cut<O: Optimum>(
    alloc: Global,
    job: &Job,
    i: usize,
    optimum: &O,
) -> Result<CutAnswer, Memory>
    requires { i < suppliers job.now }
    ensures { IfOk result (IsLeastCut job.now i) }
{
    let Some(before) = optimum.least(alloc, job)? else {
        return Ok(CutAnswer::NoPurchase);
    };
    match lower_cost(alloc, job, i, WHOLE, before, optimum)? {
        Some(after) => {
            let greatest = Gain { cut: WHOLE, after };
            let Gain { cut, after } = halved(alloc, job, i, before, greatest, optimum)?;
            Ok(CutAnswer::Cut { cut, before, after })
        }
        None => Ok(CutAnswer::NoCut(before)),
    }
}

/// What a least purchase costs under a cut, where that is less than before.
fn lower_cost<O: Optimum>(
    alloc: Global,
    job: &Job,
    i: usize,
    cut: u64,
    before: u128,
    optimum: &O,
) -> Result<Option<u128>, Memory>
    requires supplier { i < suppliers job.now }
    requires share { cut ≤ 1000 }
    ensures { IfOk result (λ found. MatchOption found (GainsNothing job.now i before cut) (Gains job.now i before cut)) }
{
    let cheaper = job.cut_prices(alloc, i, cut)?;
    match optimum.least(alloc, &cheaper)? {
        Some(after) if after < before => Ok(Some(after)),
        _ => Ok(None),
    }
}

/// The least cut that pays, from one that does: the range below it is halved.
fn halved<O: Optimum>(
    alloc: Global,
    job: &Job,
    i: usize,
    before: u128,
    greatest: Gain,
    optimum: &O,
) -> Result<Gain, Memory>
    requires supplier { i < suppliers job.now }
    requires some { 1 ≤ greatest.cut }
    requires within { greatest.cut ≤ 1000 }
    requires gains { Gains job.now i before greatest.cut greatest.after }
    ensures { IfOk result (λ gain. IsLowestGain job.now i before gain.cut gain.after) }
{
    let Gain { mut cut, mut after } = greatest;
    let mut vain = 0;
    while vain + 1 < cut {
        let middle = (vain + cut) / 2;
        match lower_cost(alloc, job, i, middle, before, optimum)? {
            Some(cost) => (cut, after) = (middle, cost),
            None => vain = middle,
        }
    }
    Ok(Gain { cut, after })
}
