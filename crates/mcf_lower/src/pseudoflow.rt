ghost use Rattle.std.specs.Prelude.{◌≡◌, ℕ, ◌+◌, ◌-◌, ◌<◌, ◌≤◌, ◌==◌, if◌then◌else◌, List, length, slice_index, IfOk};
ghost use Rattle.mcf_lower.specs.Net.{IsNetwork, flow_max};
ghost use Rattle.mcf_lower.specs.declared.net.TheConstants.{NODES_MAX};
ghost use Rattle.mcf_lower.specs.Edges.{edges};
ghost use Rattle.mcf_lower.specs.Ends.{ListsBacks};
ghost use Rattle.mcf_lower.specs.Tree.{IsPriced, Tree};
ghost use Rattle.mcf_lower.specs.Search.{IsSmall, IsFound, start_max};
ghost use Rattle.mcf_lower.specs.Pseudoflow.{AreFirstRooms, IsBounded, first_room, carried, AreSums, IsPseudoflow, IsRaised, CanRaise, IsPath, BalanceMoves, IsLess};

use crate::backs::Backs;
use crate::edge::{Edge, partner};
use crate::labels::Labels;
use crate::net::Net;
use std::alloc::Global;
use tqd_base::Memory;

/// A flow within the bounds of each arc, with node numbers at which no edge with room is a gain.
///
/// For each edge of the residual graph its room; for each node the units that it has to send on and those that it
/// lacks, and its number, in millionths of the currency a unit. `backs` has each arc whose edge back has room.
#[derive(Drop)]
pub(crate) struct Pseudoflow {
    pub room: Vec<u64>,
    pub supply: Vec<u64>,
    pub demand: Vec<u64>,
    pub numbers: Vec<u64>,
    pub backs: Backs,
}

/// The room of edge `e` where an arc at a gain carries all that it can, and each other arc no more than it has to.
fn room_at_first(net: &Net, numbers: &[u64], e: u32) -> u64
    requires inside { e < edges net.now }
    requires nodes { length numbers.now ≡ net.now.nodes }
    requires small { IsSmall numbers.now }
    ensures is { result ≡ first_room net.now numbers.now e }
    ensures network { IsNetwork net.now }
{
    let arcs = net.arcs();
    if e < arcs {
        let arc = net.arc_of(e);
        if numbers[arc.tail as usize] + arc.cost < numbers[arc.head as usize] {
            0
        } else {
            arc.cap - arc.low
        }
    } else {
        let arc = net.arc_of(e - arcs);
        if numbers[arc.tail as usize] + arc.cost < numbers[arc.head as usize] {
            arc.cap - arc.low
        } else {
            0
        }
    }
}

/// The rooms of all edges.
fn rooms(alloc: Global, net: &Net, numbers: &[u64]) -> Result<Vec<u64>, Memory>
    requires nodes { length numbers.now ≡ net.now.nodes }
    requires small { IsSmall numbers.now }
    ensures { IfOk result (λ room. AreFirstRooms net.now numbers.now room.items) }
{
    let edges = net.arcs() + net.arcs();
    let mut room = Vec::with_capacity(alloc, edges as usize)?;
    for e in 0..edges {
        room.push(room_at_first(net, numbers, e))?;
    }
    Ok(room)
}

/// What an arc carries.
pub(crate) fn flow_on(net: &Net, room: &[u64], a: u32) -> u64
    requires arc { a < length net.now.arcs }
    requires bounded { IsBounded net.now room.now }
    ensures is { result ≡ carried net.now room.now a }
    ensures most { result ≤ flow_max }
    ensures network { IsNetwork net.now }
{
    net.arc_of(a).low + room[(a + net.arcs()) as usize]
}

/// Adds up for each node what its arcs bring, its supply, and what they take, its demand.
fn sums(net: &Net, room: &[u64], supply: &mut [u64], demand: &mut [u64])
    requires bounded { IsBounded net.now room.now }
    requires supplies { length supply.old ≡ net.now.nodes }
    requires demands { length demand.old ≡ net.now.nodes }
    requires no_supply { (v : ℕ) → v < net.now.nodes → slice_index supply.old v ≡ 0 }
    requires no_demand { (v : ℕ) → v < net.now.nodes → slice_index demand.old v ≡ 0 }
    ensures { AreSums net.now room.now (length net.now.arcs) supply.new demand.new }
{
    for a in 0..net.arcs() {
        let arc = net.arc_of(a);
        let flow = flow_on(net, room, a);
        supply[arc.head as usize] += flow;
        demand[arc.tail as usize] += flow;
    }
}

/// Raises the number of each node by as much as its distance falls short of `far`.
fn raise(numbers: &mut [u64], distance: &[u64], far: u64)
    requires sizes { length numbers.old ≡ length distance.now }
    requires room { CanRaise numbers.old distance.now far }
    ensures { IsRaised numbers.old distance.now far numbers.new }
{
    for v in 0..numbers.len() {
        numbers[v] += far.saturating_sub(distance[v]);
    }
}

/// Sends `amount` units from node `from` along its path to the root.
fn push(
    net: &Net,
    room: &mut [u64],
    backs: &mut Backs,
    numbers: &[u64],
    labels: &Labels,
    from: u32,
    amount: u64,
) -> Result<(), Memory>
    requires path { IsPath net.now room.old numbers.now labels.now (slice_index labels.now.distance.items from) }
    requires inside { from < net.now.nodes }
    requires priced { IsPriced net.now room.old numbers.now }
    requires bounded { IsBounded net.now room.old }
    requires backs { ListsBacks net.now room.old backs.old }
    requires some { 1 ≤ amount }
    requires wide { amount ≤ slice_index labels.now.width.items from }
    ensures priced { IfOk result (λ _. IsPriced net.now room.new numbers.now) }
    ensures bounded { IfOk result (λ _. IsBounded net.now room.new) }
    ensures backs { IfOk result (λ _. ListsBacks net.now room.new backs.new) }
    ensures moved { IfOk result (λ _. BalanceMoves net.now room.old room.new from labels.now.root amount) }
{
    let mut v = from;
    while v != labels.root {
        let e = labels.parent[v as usize];
        let back = partner(net, e);
        backs.list(net, e)?;
        room[e as usize] -= amount;
        room[back as usize] += amount;
        v = Edge::of(net, e).finish;
    }
    Ok(())
}

impl Pseudoflow {
    /// The pseudoflow of some node numbers. It takes no step: a node with units to send on and a lack of its own has
    /// both.
    pub(crate) fn new(alloc: Global, net: &Net, numbers: Vec<u64>) -> Result<Pseudoflow, Memory>
        requires nodes { length numbers.items ≡ net.now.nodes }
        requires small { (v : ℕ) → v < length numbers.items → slice_index numbers.items v ≤ start_max }
        ensures { IfOk result (λ p. IsPseudoflow net.now p) }
    {
        let room = rooms(alloc, net, &numbers)?;
        let mut supply = vec![in alloc; 0u64; net.nodes() as usize]?;
        let mut demand = vec![in alloc; 0u64; net.nodes() as usize]?;
        sums(net, &room, &mut supply, &mut demand);
        let backs = Backs::of(alloc, net, &room)?;
        Ok(Pseudoflow {
            room,
            supply,
            demand,
            numbers,
            backs,
        })
    }

    /// Sends units from `source` to the root of the labels, as many as the path takes.
    pub(crate) fn send(&mut self, net: &Net, labels: &Labels, source: u32) -> Result<(), Memory>
        requires network { IsNetwork net.now }
        requires pseudoflow { IsPseudoflow net.now self.old }
        requires tree { Tree net.now self.old.room.items self.old.numbers.items labels.now }
        requires few { labels.now.settled ≤ NODES_MAX }
        requires found { IsFound net.now self.old.room.items self.old.supply.items self.old.numbers.items labels.now source }
        requires wanted { 0 < slice_index self.old.demand.items labels.now.root }
        ensures pseudoflow { IfOk result (λ _. IsPseudoflow net.now self.new) }
        ensures less { IfOk result (λ _. IsLess self.old.demand.items self.new.demand.items) }
        ensures sent { IfOk result (λ _. slice_index self.new.demand.items labels.now.root < slice_index self.old.demand.items labels.now.root) }
    {
        let (from, root) = (source as usize, labels.root as usize);
        raise(&mut self.numbers, &labels.distance, labels.distance[from]);
        let amount = labels.width[from]
            .min(self.supply[from])
            .min(self.demand[root]);
        push(
            net,
            &mut self.room,
            &mut self.backs,
            &self.numbers,
            labels,
            source,
            amount,
        )?;
        self.supply[from] -= amount;
        self.demand[root] -= amount;
        Ok(())
    }
}
