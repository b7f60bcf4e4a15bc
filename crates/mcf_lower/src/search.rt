ghost use Rattle.std.specs.Prelude.{◌≡◌, ℕ, ◌+◌, ◌<◌, ◌≤◌, length, slice_index, MatchOption};
ghost use Rattle.mcf_lower.specs.Net.{IsNetwork};
ghost use Rattle.mcf_lower.specs.declared.net.TheConstants.{NODES_MAX};
ghost use Rattle.mcf_lower.specs.Edges.{edges, edge_of, IsEdge};
ghost use Rattle.mcf_lower.specs.Ends.{IsIndex, ListsBacks};
ghost use Rattle.mcf_lower.specs.Tree.{IsPriced, Tree, Last, Keyed, IsMet, IsClosedBut, IsClosed, HasSizes};
ghost use Rattle.mcf_lower.specs.Search.{IsSmall, IsOffered, IsFound, IsStuck, MeetsAlong, MeetsBack};
ghost use Rattle.mcf_lower.specs.Pseudoflow.{IsPseudoflow};

use crate::backs::Backs;
use crate::edge::Edge;
use crate::index::Index;
use crate::labels::Labels;
use crate::net::Net;
use crate::pseudoflow::Pseudoflow;

/// Takes edge `e`, which finishes at the node that was settled last, where it has room and makes a path shorter. Few
/// edges do, so the room is looked up last.
#[inline(always)]
fn offer(_net: &Net, room: &[u64], numbers: &[u64], e: u32, edge: Edge, labels: &mut Labels)
    requires network { IsNetwork _net.now }
    requires inside { e < edges _net.now }
    requires edge { edge ≡ edge_of _net.now e }
    requires ends { IsEdge _net.now.nodes edge }
    requires priced { IsPriced _net.now room.now numbers.now }
    requires small { IsSmall numbers.now }
    requires tree { Tree _net.now room.now numbers.now labels.old }
    requires keyed { Keyed labels.old }
    requires places { labels.old.keys.places ≡ _net.now.nodes }
    requires few { labels.old.settled ≤ NODES_MAX }
    requires last { Last _net.now numbers.now labels.old edge.finish }
    ensures tree { Tree _net.now room.now numbers.now labels.new }
    ensures keyed { Keyed labels.new }
    ensures offered { IsOffered _net.now.nodes labels.old labels.new }
    ensures met { 0 < slice_index room.now e → IsMet _net.now numbers.now labels.new.distance.items e }
{
    let (u, v) = (edge.start as usize, edge.finish as usize);
    let distance = (labels.distance[v] + numbers[u] + edge.plus).saturating_sub(
        numbers[v] + edge.minus,
    );
    if distance >= labels.distance[u] {
        return;
    }
    if room[e as usize] == 0 {
        return;
    }
    labels.distance[u] = distance;
    labels.parent[u] = e;
    labels.width[u] = room[e as usize].min(labels.width[v]);
    labels.keys.set(edge.start, distance);
}

/// Takes each arc with room that ends at `v`, the node that was settled last, where it makes a path shorter.
fn pull_along(net: &Net, index: &Index, room: &[u64], numbers: &[u64], v: u32, labels: &mut Labels)
    requires network { IsNetwork net.now }
    requires index { IsIndex net.now index.now }
    requires priced { IsPriced net.now room.now numbers.now }
    requires small { IsSmall numbers.now }
    requires tree { Tree net.now room.now numbers.now labels.old }
    requires keyed { Keyed labels.old }
    requires places { labels.old.keys.places ≡ net.now.nodes }
    requires few { labels.old.settled ≤ NODES_MAX }
    requires last { Last net.now numbers.now labels.old v }
    ensures tree { Tree net.now room.now numbers.now labels.new }
    ensures keyed { Keyed labels.new }
    ensures offered { IsOffered net.now.nodes labels.old labels.new }
    ensures met { MeetsAlong net.now room.now numbers.now labels.new.distance.items v }
{
    for p in index.starts[v as usize]..index.starts[v as usize + 1] {
        let end = index.ends[p];
        let edge = end.along(net, v);
        offer(net, room, numbers, end.arc, edge, labels);
    }
}

/// Takes each edge back with room that finishes at `v`, the node that was settled last, where it makes a path shorter.
fn pull_back(net: &Net, backs: &Backs, room: &[u64], numbers: &[u64], v: u32, labels: &mut Labels)
    requires network { IsNetwork net.now }
    requires backs { ListsBacks net.now room.now backs.now }
    requires priced { IsPriced net.now room.now numbers.now }
    requires small { IsSmall numbers.now }
    requires tree { Tree net.now room.now numbers.now labels.old }
    requires keyed { Keyed labels.old }
    requires places { labels.old.keys.places ≡ net.now.nodes }
    requires few { labels.old.settled ≤ NODES_MAX }
    requires last { Last net.now numbers.now labels.old v }
    ensures tree { Tree net.now room.now numbers.now labels.new }
    ensures keyed { Keyed labels.new }
    ensures offered { IsOffered net.now.nodes labels.old labels.new }
    ensures met { MeetsBack net.now room.now numbers.now labels.new.distance.items v }
{
    let mut cursor = backs.first[v as usize];
    while cursor > 0 {
        let end = backs.ends[cursor - 1];
        let edge = end.back(net, v);
        offer(net, room, numbers, end.arc + net.arcs(), edge, labels);
        cursor = backs.next[cursor - 1];
    }
}

/// Takes each edge with room that finishes at `v`, the node that was settled last, where it makes a path shorter.
fn pull(
    net: &Net,
    index: &Index,
    backs: &Backs,
    room: &[u64],
    numbers: &[u64],
    v: u32,
    labels: &mut Labels,
)
    requires network { IsNetwork net.now }
    requires index { IsIndex net.now index.now }
    requires backs { ListsBacks net.now room.now backs.now }
    requires priced { IsPriced net.now room.now numbers.now }
    requires small { IsSmall numbers.now }
    requires tree { Tree net.now room.now numbers.now labels.old }
    requires keyed { Keyed labels.old }
    requires places { labels.old.keys.places ≡ net.now.nodes }
    requires few { labels.old.settled ≤ NODES_MAX }
    requires last { Last net.now numbers.now labels.old v }
    requires closed { IsClosedBut net.now room.now numbers.now labels.old.distance.items labels.old.rank.items v }
    ensures tree { Tree net.now room.now numbers.now labels.new }
    ensures keyed { Keyed labels.new }
    ensures offered { IsOffered net.now.nodes labels.old labels.new }
    ensures closed { IsClosed net.now room.now numbers.now labels.new.distance.items labels.new.rank.items }
{
    pull_along(net, index, room, numbers, v, labels);
    pull_back(net, backs, room, numbers, v, labels);
}

/// Finds a nearest node with supply from which units can come to `root`, and a path of each node that is nearer; or
/// settles each node from which any unit can come, where none of them has a supply.
pub(crate) fn search(
    net: &Net,
    index: &Index,
    flow: &Pseudoflow,
    root: u32,
    labels: &mut Labels,
) -> Option<u32>
    requires index { IsIndex net.now index.now }
    requires pseudoflow { IsPseudoflow net.now flow.now }
    requires sizes { HasSizes net.now.nodes labels.old }
    requires inside { root < net.now.nodes }
    ensures tree { Tree net.now flow.now.room.items flow.now.numbers.items labels.new }
    ensures sizes { HasSizes net.now.nodes labels.new }
    ensures root { labels.new.root ≡ root }
    ensures few { labels.new.settled ≤ NODES_MAX }
    ensures answer { MatchOption result
        (IsStuck net.now flow.now.room.items flow.now.supply.items flow.now.numbers.items labels.new)
        (λ s. IsFound net.now flow.now.room.items flow.now.supply.items flow.now.numbers.items labels.new s) }
{
    labels.begin(root, net.nodes());
    while let Some(v) = labels.nearest() {
        labels.settle(v);
        if flow.supply[v as usize] > 0 {
            return Some(v);
        }
        pull(
            net,
            index,
            &flow.backs,
            &flow.room,
            &flow.numbers,
            v,
            labels,
        );
    }
    None
}
