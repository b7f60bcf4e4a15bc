//! Nets of arcs.

ghost use Rattle.std.specs.Prelude.{◌≡◌, length};

use mcf_lower::{Net, NetArc, NodeSet};
use std::alloc::Global;
use std::process::Abort;
use tqd_base::Memory;

/// An arc's tail, head, low, cap and cost.
pub(crate) type Numbers = (u32, u32, i64, i64, i64);

/// Adds an arc of these numbers.
fn add(rt: &impl Abort, net: &mut Net, numbers: Numbers) -> Result<(), Memory> {
    let (tail, head, low, cap, cost) = numbers;
    assert!(rt; tail < net.nodes());
    assert!(rt; head < net.nodes());
    assert!(rt; 0 <= low && low <= cap && cap <= 10_000_000_000);
    assert!(rt; 0 <= cost && cost <= 1_000_000_000_000);
    assert!(rt; net.arcs() < 65_064);
    let arc = NetArc {
        tail,
        head,
        low,
        cap,
        cost,
    };
    net.add(arc)?;
    Ok(())
}

/// A net of these arcs.
pub(crate) fn net_of(
    rt: &impl Abort,
    alloc: Global,
    nodes: u32,
    arcs: &[Numbers],
) -> Result<Net, Memory> {
    assert!(rt; 1 <= nodes && nodes <= 1_065);
    let mut net = Net::new(alloc, nodes)?;
    for arc in arcs {
        add(rt, &mut net, *arc)?;
    }
    Ok(net)
}

/// Whether a set of nodes of a net has these members.
pub(crate) fn are_members(net: &Net, set: &NodeSet, members: &[bool]) -> bool
    requires { length set.now ≡ net.now.nodes }
{
    if members.len() != net.nodes() as usize {
        return false;
    }
    for n in 0..net.nodes() {
        if set.has(n) != members[n as usize] {
            return false;
        }
    }
    true
}
