//! Numbers with the same order, and no gap above a given one between neighbours in that order.

ghost use Rattle.std.specs.Prelude.{◌≡◌, ℕ, ◌+◌, ◌-◌, ◌*◌, ◌<◌, ◌≤◌, length, slice_index, MatchOption, IfOk};
ghost use Rattle.tqd_base.specs.declared.limits.TheConstants.{PRICE_MAX};
ghost use Rattle.mcf_lower.specs.declared.net.TheConstants.{NODES_MAX};
ghost use Rattle.flow_prices.specs.Narrow.{IsLeast, AreNarrowed};

use std::alloc::Global;
use tqd_base::Memory;

/// What stands for a number that is not made yet.
pub const UNMADE: u64 = u64::MAX;

/// A place of a least number among those with no narrowed number, if there is any.
fn least(numbers: &[u64], narrowed: &[u64]) -> Option<usize>
    requires { length narrowed.now ≡ length numbers.now }
    ensures { IsLeast numbers.now narrowed.now result }
{
    let mut best = None;
    let mut low = u64::MAX;
    for v in 0..numbers.len() {
        if narrowed[v] == UNMADE && numbers[v] < low {
            low = numbers[v];
            best = Some(v);
        }
    }
    best
}

/// Numbers from 0 on in the order of `numbers`, in which each gap between neighbours is as before, but at most `gap`.
pub(crate) fn narrow(alloc: Global, numbers: &[u64], gap: u64) -> Result<Vec<u64>, Memory>
    requires few { length numbers.now ≤ NODES_MAX }
    requires small { (v : ℕ) → v < length numbers.now → slice_index numbers.now v < UNMADE }
    requires gap { gap ≤ PRICE_MAX }
    ensures { IfOk result (λ narrowed. AreNarrowed numbers.now gap narrowed.items) }
{
    let mut narrowed = vec![in alloc; UNMADE; numbers.len()]?;
    let mut last = u64::MAX;
    let mut top = 0;
    while let Some(v) = least(numbers, &narrowed) {
        top += numbers[v].saturating_sub(last).min(gap);
        last = numbers[v];
        narrowed[v] = top;
    }
    Ok(narrowed)
}
