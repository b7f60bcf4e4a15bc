ghost use Rattle.std.specs.Prelude.{◌≡◌, ℕ, ◌<◌, ◌≤◌, length, slice_index, IfOk};
ghost use Rattle.mcf_lower.specs.Search.{start_max};
ghost use Rattle.mcf_lower.specs.Pseudoflow.{IsBounded, AreCarried, AreSettled};
ghost use Rattle.mcf_lower.specs.Answers.{IsAnswer, IsSolution};

use crate::balancing::serve_all;
use crate::found::{FlowList, Found, NodeSet, Solved};
use crate::index::Index;
use crate::labels::{Labels, UNSETTLED};
use crate::net::Net;
use crate::pseudoflow::{Pseudoflow, flow_on};
use std::alloc::Global;
use tqd_base::Memory;

/// What each arc carries.
fn flows(alloc: Global, net: &Net, room: &[u64]) -> Result<Vec<u64>, Memory>
    requires { IsBounded net.now room.now }
    ensures { IfOk result (λ flow. AreCarried net.now room.now flow.items) }
{
    let mut flow = Vec::with_capacity(alloc, net.arcs() as usize)?;
    for a in 0..net.arcs() {
        flow.push(flow_on(net, room, a))?;
    }
    Ok(flow)
}

/// Which nodes are settled.
fn settled(alloc: Global, rank: &[u32]) -> Result<Vec<bool>, Memory>
    ensures { IfOk result (λ has. AreSettled rank.now has.items) }
{
    let mut has = Vec::with_capacity(alloc, rank.len())?;
    for r in rank {
        has.push(*r < UNSETTLED)?;
    }
    Ok(has)
}

/// A cheapest circulation of a net with node numbers that fit it, or, exactly where it has none, a cut. It starts from
/// the numbers that are given, one for each node, in millionths of the currency a unit and none above twice `DUAL_MAX`,
/// by successive shortest paths (Ahuja, Magnanti, Orlin, Network Flows, 1993, section 9.7).
pub fn circulate_from(alloc: Global, net: &Net, numbers: Vec<u64>) -> Result<Solved, Memory>
    requires nodes { length numbers.items ≡ net.now.nodes }
    requires small { (v : ℕ) → v < length numbers.items → slice_index numbers.items v ≤ start_max }
    ensures { IfOk result (λ solved. IsSolution net.now solved) }
{
    let index = Index::new(alloc, net)?;
    let mut labels = Labels::new(alloc, net.nodes())?;
    let mut flow = Pseudoflow::new(alloc, net, numbers)?;
    let served = serve_all(net, &index, &mut flow, &mut labels)?;
    if served {
        let units = FlowList::of(flows(alloc, net, &flow.room)?);
        Ok(Solved::Flow {
            flow: units,
            numbers: flow.numbers,
        })
    } else {
        Ok(Solved::Cut(NodeSet::of(settled(alloc, &labels.rank)?)))
    }
}

/// A circulation of a net, or, exactly where it has none, a cut: a set of nodes out of which more has to flow than can
/// come in.
pub fn circulate(alloc: Global, net: &Net) -> Result<Found, Memory>
    ensures { IfOk result (λ found. IsAnswer net.now found) }
{
    let numbers = vec![in alloc; 0u64; net.nodes() as usize]?;
    match circulate_from(alloc, net, numbers)? {
        Solved::Flow { flow, numbers: _ } => Ok(Found::Flow(flow)),
        Solved::Cut(set) => Ok(Found::Cut(set)),
    }
}
