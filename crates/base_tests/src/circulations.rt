//! Nets whose circulations or cuts are known.

ghost use Rattle.mcf_lower.specs.Answers.{IsAnswer};

use crate::nets::{Numbers, are_members, net_of};
use mcf_lower::{FlowList, Found, Net, NetArc, NodeSet, Solved, circulate};
use std::alloc::Global;
use std::process::Abort;
use std::test::Fail;
use tqd_base::Memory;

/// What each arc carries in a circulation.
fn units_of(found: Found) -> Option<Vec<u64>> {
    match found {
        Found::Flow(flow) => Some(flow.into_vec()),
        Found::Cut(_) => None,
    }
}

/// What each arc of a net carries, where the net has a circulation.
fn carried(
    rt: &impl Abort,
    alloc: Global,
    nodes: u32,
    arcs: &[Numbers],
) -> Result<Option<Vec<u64>>, Memory> {
    let net = net_of(rt, alloc, nodes, arcs)?;
    let found = circulate(alloc, &net)?;
    Ok(units_of(found))
}

/// Whether an answer is the cut with these nodes.
fn is_cut(net: &Net, found: &Found, members: &[bool]) -> bool
    requires { IsAnswer net.now found.now }
{
    match found {
        Found::Flow(_) => false,
        Found::Cut(set) => are_members(net, set, members),
    }
}

/// Whether a net has no circulation, and its cut has these nodes.
fn cuts(
    rt: &impl Abort,
    alloc: Global,
    nodes: u32,
    arcs: &[Numbers],
    members: &[bool],
) -> Result<bool, Memory> {
    let net = net_of(rt, alloc, nodes, arcs)?;
    let found = circulate(alloc, &net)?;
    Ok(is_cut(&net, &found, members))
}

#[test]
fn circulations_keep_the_bounds(rt: HostRuntime) -> Result<(), Fail> {
    for (nodes, arcs, units) in [
        (1, [].as_slice(), [].as_slice()),
        (1, [(0, 0, 2, 2, 0)].as_slice(), [2].as_slice()),
        (
            3,
            [(0, 1, 0, 10, 0), (1, 2, 0, 10, 0), (2, 0, 3, 3, 0)].as_slice(),
            [3, 3, 3].as_slice(),
        ),
        (
            2,
            [(0, 1, 2, 2, 0), (0, 1, 5, 5, 0), (1, 0, 0, 7, 0)].as_slice(),
            [2, 5, 7].as_slice(),
        ),
    ] {
        let carried = carried(&rt, rt.alloc(), nodes, arcs)?;
        assert_eq!(rt; carried.as_deref(), Some(units));
    }
    Ok(())
}

#[test]
fn cuts_are_sets_with_too_much_to_send(rt: HostRuntime) -> Result<(), Fail> {
    for (nodes, arcs, members) in [
        (2, [(0, 1, 1, 1, 0)].as_slice(), [true, false].as_slice()),
        (
            3,
            [(0, 1, 0, 2, 0), (1, 2, 0, 10, 0), (2, 0, 3, 3, 0)].as_slice(),
            [false, true, true].as_slice(),
        ),
    ] {
        assert!(rt; cuts(&rt, rt.alloc(), nodes, arcs, members)?);
    }
    Ok(())
}

const ARC: NetArc = NetArc {
    tail: 1,
    head: 0,
    low: 3,
    cap: 10_000_000_000,
    cost: 1_000_000_000_000,
};

/// A net of two nodes with that arc, and the number that the arc was given.
fn with_arc(alloc: Global) -> Result<(Net, u32), Memory> {
    let mut net = Net::new(alloc, 2)?;
    let number = net.add(ARC)?;
    Ok((net, number))
}

/// How many nodes and arcs a net has, and its first arc.
fn shape(rt: &impl Abort, net: &Net) -> (u32, u32, NetArc) {
    assert!(rt; 0 < net.arcs());
    (net.nodes(), net.arcs(), net.arc(0))
}

#[test]
fn arcs_are_kept_as_they_were_added(rt: HostRuntime) -> Result<(), Fail> {
    let (net, number) = with_arc(rt.alloc())?;
    assert_eq!(rt; number, 0);
    assert!(rt; shape(&rt, &net) == (2, 1, ARC));
    Ok(())
}

/// Takes a type whose values may go to other threads, and be read by several.
fn is_shared<T: Send + Sync>() {}

#[test]
fn nets_and_answers_may_go_to_other_threads() {
    is_shared::<Net>();
    is_shared::<FlowList>();
    is_shared::<NodeSet>();
    is_shared::<Found>();
    is_shared::<Solved>();
}
