//! Numbers to start a search from.

ghost use Rattle.std.specs.Prelude.{◌≡◌, ℕ, ◌<◌, ◌≤◌, length, slice_index, IfOk};
ghost use Rattle.mcf_lower.specs.Net.{IsNetwork};
ghost use Rattle.mcf_lower.specs.Search.{start_max};
ghost use Rattle.flow_prices.specs.Prices.{AreStart};

use crate::numbers::NumberList;
use mcf_lower::Net;
use std::alloc::Global;
use tqd_base::Memory;
use tqd_base::limits::DUAL_MAX;

/// The greatest number that a search starts from.
const START_MAX: u64 = 2 * DUAL_MAX as u64;

/// The start numbers, raised so that none is below 0.
fn raised(alloc: Global, net: &Net, start: &NumberList) -> Result<Vec<u64>, Memory>
    requires { AreStart net.now start.now }
    ensures nodes { IfOk result (λ numbers. length numbers.items ≡ net.now.nodes) }
    ensures most { IfOk result (λ numbers. (v : ℕ) → v < net.now.nodes → slice_index numbers.items v ≤ start_max) }
{
    let mut numbers = Vec::with_capacity(alloc, net.nodes() as usize)?;
    for n in 0..net.nodes() {
        numbers.push((start.get(n) + DUAL_MAX) as u64)?;
    }
    Ok(numbers)
}

/// Counts for each node the arcs that come in, up to 255, and finds the least that one of them with capacity asks: the
/// number of its tail and its cost.
fn find_least(net: &Net, numbers: &[u64], incoming: &mut [u8], least: &mut [u64])
    requires nodes { length numbers.now ≡ net.now.nodes }
    requires small { (v : ℕ) → v < net.now.nodes → slice_index numbers.now v ≤ start_max }
    requires incoming { length incoming.old ≡ net.now.nodes }
    requires least { length least.old ≡ net.now.nodes }
    ensures { IsNetwork net.now }
{
    for a in 0..net.arcs() {
        let arc = net.arc(a);
        let head = arc.head as usize;
        incoming[head] = incoming[head].saturating_add(1);
        if arc.cap > 0 {
            least[head] = least[head].min(numbers[arc.tail as usize] + arc.cost as u64);
        }
    }
}

/// Gives each node but the first that has two or more arcs coming in the least number that one of them asks, so that
/// none of them is at a gain, unless that number is too great.
fn lower(numbers: &mut [u64], incoming: &[u8], least: &[u64])
    requires incoming { length incoming.now ≡ length numbers.old }
    requires least { length least.now ≡ length numbers.old }
    requires small { (v : ℕ) → v < length numbers.old → slice_index numbers.old v ≤ start_max }
    ensures { (v : ℕ) → v < length numbers.old → slice_index numbers.new v ≤ start_max }
{
    for v in 1..numbers.len() {
        if incoming[v] > 1 && least[v] <= START_MAX {
            numbers[v] = least[v];
        }
    }
}

/// The numbers that a search starts from: those that are given, raised so that none is below 0, but at each node with
/// several arcs coming in the least that one of them asks. A start that does not fit the net then makes few arcs carry
/// what they need not.
pub(crate) fn start_numbers(
    alloc: Global,
    net: &Net,
    start: &NumberList,
) -> Result<Vec<u64>, Memory>
    requires { AreStart net.now start.now }
    ensures nodes { IfOk result (λ numbers. length numbers.items ≡ net.now.nodes) }
    ensures most { IfOk result (λ numbers. (v : ℕ) → v < net.now.nodes → slice_index numbers.items v ≤ start_max) }
{
    let mut numbers = raised(alloc, net, start)?;
    let mut incoming = vec![in alloc; 0u8; net.nodes() as usize]?;
    let mut least = vec![in alloc; u64::MAX; net.nodes() as usize]?;
    find_least(net, &numbers, &mut incoming, &mut least);
    lower(&mut numbers, &incoming, &least);
    Ok(numbers)
}
