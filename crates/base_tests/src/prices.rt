//! Nets whose cheapest circulations are known.

ghost use Rattle.std.specs.Prelude.{neg_ℤ, ◌≤ℤ◌};
ghost use Rattle.flow_prices.specs.Answers.{IsAnswer};

use crate::nets::{Numbers, are_members, net_of};
use flow_prices::{NumberList, Priced, cheapest, cheapest_from};
use mcf_lower::Net;
use std::alloc::Global;
use std::process::Abort;
use std::test::Fail;
use tqd_base::Memory;
use tqd_base::limits::DUAL_MAX;

/// What each arc carries in a circulation, and the number of each node.
fn lists_of(priced: Priced) -> Option<(Vec<u64>, Vec<i64>)> {
    match priced {
        Priced::Flow { flow, numbers } => Some((flow.into_vec(), numbers.into_vec())),
        Priced::Cut(_) => None,
    }
}

/// Whether an answer is a circulation with these units and numbers.
fn is_flow(priced: Priced, units: &[u64], numbers: &[i64]) -> bool {
    match lists_of(priced) {
        Some((flow, found)) => flow.as_slice() == units && found.as_slice() == numbers,
        None => false,
    }
}

/// Whether a net has a cheapest circulation with these units and numbers.
fn is_priced(
    rt: &impl Abort,
    alloc: Global,
    nodes: u32,
    arcs: &[Numbers],
    units: &[u64],
    numbers: &[i64],
) -> Result<bool, Memory> {
    let net = net_of(rt, alloc, nodes, arcs)?;
    let priced = cheapest(alloc, &net)?;
    Ok(is_flow(priced, units, numbers))
}

#[test]
fn small_nets_are_priced(rt: HostRuntime) -> Result<(), Fail> {
    for (nodes, arcs, units, numbers) in [
        (1, [].as_slice(), [].as_slice(), [0].as_slice()),
        (
            1,
            [(0, 0, 2, 2, 9)].as_slice(),
            [2].as_slice(),
            [0].as_slice(),
        ),
        (
            3,
            [(0, 1, 0, 10, 0), (1, 2, 0, 10, 5), (2, 0, 3, 3, 0)].as_slice(),
            [3, 3, 3].as_slice(),
            [0, 0, 5].as_slice(),
        ),
        (
            2,
            PARALLEL.as_slice(),
            [2, 5, 7].as_slice(),
            [0, 2].as_slice(),
        ),
    ] {
        assert!(rt; is_priced(&rt, rt.alloc(), nodes, arcs, units, numbers)?);
    }
    Ok(())
}

/// Whether an answer is the cut with these nodes.
fn is_cut(net: &Net, priced: &Priced, members: &[bool]) -> bool
    requires { IsAnswer net.now priced.now }
{
    match priced {
        Priced::Flow { .. } => false,
        Priced::Cut(set) => are_members(net, set, members),
    }
}

/// Whether a net has no circulation, and its cut has these nodes.
fn cuts(
    rt: &impl Abort,
    alloc: Global,
    nodes: u32,
    arcs: &[Numbers],
    members: &[bool],
) -> Result<bool, Memory> {
    let net = net_of(rt, alloc, nodes, arcs)?;
    let priced = cheapest(alloc, &net)?;
    Ok(is_cut(&net, &priced, members))
}

#[test]
fn cuts_stand_where_no_circulation_is(rt: HostRuntime) -> Result<(), Fail> {
    for (nodes, arcs, members) in [
        (2, [(0, 1, 1, 1, 0)].as_slice(), [true, false].as_slice()),
        (
            3,
            [(0, 1, 0, 2, 0), (1, 2, 0, 10, 5), (2, 0, 3, 3, 0)].as_slice(),
            [false, true, true].as_slice(),
        ),
    ] {
        assert!(rt; cuts(&rt, rt.alloc(), nodes, arcs, members)?);
    }
    Ok(())
}

/// Two ways for the units of one arc, of which the second is cheaper.
const PARALLEL: [Numbers; 3] = [(0, 1, 0, 5, 2), (0, 1, 0, 5, 1), (1, 0, 7, 7, 0)];

/// Whether the cheaper of the parallel ways is used first, priced from these start numbers.
fn is_priced_from(rt: &impl Abort, alloc: Global, first: i64, second: i64) -> Result<bool, Memory>
    requires first_least { neg_ℤ DUAL_MAX ≤ℤ first }
    requires first_most { first ≤ℤ DUAL_MAX }
    requires second_least { neg_ℤ DUAL_MAX ≤ℤ second }
    requires second_most { second ≤ℤ DUAL_MAX }
{
    let net = net_of(rt, alloc, 2, PARALLEL.as_slice())?;
    assert_eq!(rt; net.nodes(), 2);
    let start = NumberList::of(alloc, &[first, second])?;
    let priced = cheapest_from(alloc, &net, &start)?;
    Ok(is_flow(priced, &[2, 5, 7], &[0, 2]))
}

#[test]
fn every_start_gives_the_cheaper_arc_first(rt: HostRuntime) -> Result<(), Fail> {
    for (first, second) in [
        (0, 1_000),
        (0, -1_000),
        (DUAL_MAX, -DUAL_MAX),
        (-DUAL_MAX, DUAL_MAX),
    ] {
        assert!(rt; -DUAL_MAX <= first && first <= DUAL_MAX);
        assert!(rt; -DUAL_MAX <= second && second <= DUAL_MAX);
        assert!(rt; is_priced_from(&rt, rt.alloc(), first, second)?);
    }
    Ok(())
}

/// Takes a type whose values may go to other threads, and be read by several.
fn is_shared<T: Send + Sync>() {}

#[test]
fn numbers_and_answers_may_go_to_other_threads() {
    is_shared::<NumberList>();
    is_shared::<Priced>();
}
