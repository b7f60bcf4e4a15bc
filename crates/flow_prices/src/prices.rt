ghost use Rattle.std.specs.Prelude.{◌≡◌, ℕ, ◌+◌, ◌-◌, ◌*◌, ◌<◌, ◌≤◌, pos, length, slice_index, IfOk, MatchBool};
ghost use Rattle.tqd_base.specs.declared.limits.TheConstants.{PRICE_MAX};
ghost use Rattle.mcf_lower.specs.Net.{IsNetwork};
ghost use Rattle.mcf_lower.specs.Search.{number_max};
ghost use Rattle.flow_prices.specs.Prices.{greatest_cost, AreStart, AreLess, AreNear, ServeAs};
ghost use Rattle.flow_prices.specs.Answers.{IsAnswer};

use crate::narrow::narrow;
use crate::numbers::NumberList;
use crate::start::start_numbers;
use mcf_lower::{FlowList, Net, NodeSet, Solved, circulate_from};
use std::alloc::Global;
use tqd_base::Memory;

/// What `cheapest` finds: a circulation and node numbers that fit it, in millionths of the currency a unit, or a set of
/// nodes out of which more has to flow than can come in.
#[derive(Drop)]
pub enum Priced {
    Flow { flow: FlowList, numbers: NumberList },
    Cut(NodeSet),
}

/// The greatest cost of an arc.
fn dearest(net: &Net) -> u64
    ensures is { result ≡ greatest_cost net.now }
    ensures most { result ≤ PRICE_MAX }
    ensures network { IsNetwork net.now }
{
    let mut most = 0;
    for a in 0..net.arcs() {
        most = most.max(net.arc(a).cost as u64);
    }
    most
}

/// The numbers less the first of them.
fn lowered(alloc: Global, numbers: &[u64]) -> Result<Vec<i64>, Memory>
    requires some { 1 ≤ length numbers.now }
    requires small { (v : ℕ) → v < length numbers.now → slice_index numbers.now v ≤ number_max }
    ensures { IfOk result (λ lowered. AreLess numbers.now lowered.items) }
{
    let base = numbers[0] as i64;
    let mut lowered = Vec::with_capacity(alloc, numbers.len())?;
    for number in numbers {
        lowered.push(*number as i64 - base)?;
    }
    Ok(lowered)
}

/// Whether no number is farther from the first of them than `most`.
fn are_near(numbers: &[u64], most: u64) -> bool
    requires some { 1 ≤ length numbers.now }
    ensures { MatchBool result (AreNear numbers.now most) (AreNear numbers.now most → ⊥) }
{
    let first = numbers[0];
    for number in numbers {
        if *number > first.saturating_add(most) || first > number.saturating_add(most) {
            return false;
        }
    }
    true
}

/// The numbers less the first of them, and narrowed where one would be farther from 0 than the net's costs call for.
fn bounded(alloc: Global, net: &Net, numbers: &[u64]) -> Result<Vec<i64>, Memory>
    requires nodes { length numbers.now ≡ net.now.nodes }
    requires small { (v : ℕ) → v < length numbers.now → slice_index numbers.now v ≤ number_max }
    ensures { IfOk result (λ bounded. ServeAs net.now numbers.now bounded.items) }
{
    let cost = dearest(net);
    let most = u64::from(net.nodes() - 1) * cost;
    if are_near(numbers, most) {
        return lowered(alloc, numbers);
    }
    let narrowed = narrow(alloc, numbers, cost)?;
    lowered(alloc, &narrowed)
}

/// A cheapest circulation with numbers that fit it, or a cut, exactly where there is no circulation. The search starts
/// from the numbers `start`, one for each node, none of them farther from 0 than `DUAL_MAX`.
pub fn cheapest_from(alloc: Global, net: &Net, start: &NumberList) -> Result<Priced, Memory>
    requires { AreStart net.now start.now }
    ensures { IfOk result (λ priced. IsAnswer net.now priced) }
{
    match circulate_from(alloc, net, start_numbers(alloc, net, start)?)? {
        Solved::Flow { flow, numbers } => {
            let numbers = NumberList::from_vec(bounded(alloc, net, &numbers)?);
            Ok(Priced::Flow { flow, numbers })
        }
        Solved::Cut(set) => Ok(Priced::Cut(set)),
    }
}

/// A cheapest circulation with numbers that fit it, or a cut, exactly where there is no circulation.
pub fn cheapest(alloc: Global, net: &Net) -> Result<Priced, Memory>
    ensures { IfOk result (λ priced. IsAnswer net.now priced) }
{
    let zeros = vec![in alloc; 0i64; net.nodes() as usize]?;
    cheapest_from(alloc, net, &NumberList::from_vec(zeros))
}
