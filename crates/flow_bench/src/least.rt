//! What a circulation costs, and what its node numbers show that none costs less than.

ghost use Rattle.std.specs.Prelude.{◌≡◌, ℕ, ◌<◌, ◌≤◌, ◌≤ℤ◌, neg_ℤ, length, IfOk};
ghost use Rattle.mcf_lower.specs.Net.{IsNetwork};
ghost use Rattle.flow_prices.specs.Prices.{number_of, AreStart};

use flow_prices::NumberList;
use mcf_lower::{FlowList, Net};
use std::alloc::Global;
use tqd_base::Memory;
use tqd_base::limits::DUAL_MAX;

/// What a circulation costs, in millionths of the currency.
pub fn cost(net: &Net, flow: &FlowList) -> i128
    requires { length flow.now ≡ length net.now.arcs }
{
    let mut sum = 0i128;
    for a in 0..net.arcs() {
        let cost = i128::from(net.arc(a).cost);
        sum = sum.saturating_add(cost.saturating_mul(i128::from(flow.get(a))));
    }
    sum
}

/// What no circulation costs less than, by the numbers of the nodes: each arc carries its low where its cost and the
/// number of its tail are no less than that of its head, and its cap elsewhere.
pub fn least_cost(net: &Net, numbers: &NumberList) -> i128
    requires { length numbers.now ≡ net.now.nodes }
{
    let mut sum = 0i128;
    for a in 0..net.arcs() {
        let arc = net.arc(a);
        let (tail, head) = (numbers.get(arc.tail), numbers.get(arc.head));
        let gap = i128::from(tail).saturating_sub(i128::from(head));
        let reduced = gap.saturating_add(i128::from(arc.cost));
        let units = if reduced < 0 { arc.cap } else { arc.low };
        sum = sum.saturating_add(reduced.saturating_mul(i128::from(units)));
    }
    sum
}

/// These numbers as those that a search in another net starts from.
pub fn start_of(alloc: Global, net: &Net, numbers: &[i64]) -> Result<NumberList, Memory>
    ensures { IfOk result (λ start. AreStart net.now start) }
{
    let mut start = Vec::with_capacity(alloc, net.nodes() as usize)?;
    for n in 0..net.nodes() {
        let number = numbers.get(n as usize).copied().unwrap_or(0);
        start.push(number.clamp(-DUAL_MAX, DUAL_MAX))?;
    }
    Ok(NumberList::from_vec(start))
}
