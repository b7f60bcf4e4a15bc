//! The arcs of a net by the nodes where they end, made once for a net. Those of a node stand beside one another, as a
//! search reads all of them and little else.

ghost use Rattle.std.specs.Prelude.{◌≡◌, ℕ, ◌+◌, ◌<◌, ◌≤◌, length, IfOk};
ghost use Rattle.mcf_lower.specs.Net.{IsNetwork, arc_of};
ghost use Rattle.mcf_lower.specs.Edges.{IsChain};
ghost use Rattle.mcf_lower.specs.Ends.{IsIndex, AreAdded};

use crate::end::End;
use crate::net::Net;
use std::alloc::Global;
use tqd_base::Memory;

/// The arcs of each node in a chain from the highest number down, as numbers of arcs and 1, with 0 at its end.
#[derive(Drop)]
struct Chains {
    first: Vec<u32>,
    next: Vec<u32>,
}

impl Chains {
    fn new(alloc: Global, net: &Net) -> Result<Chains, Memory>
        ensures chains { IfOk result (λ c. IsChain net.now.nodes (λ a. (arc_of net.now a).head)
            (length net.now.arcs) c.first.items c.next.items) }
        ensures network { IfOk result (λ c. IsNetwork net.now) }
    {
        let mut first = vec![in alloc; 0u32; net.nodes() as usize]?;
        let mut next = Vec::with_capacity(alloc, net.arcs() as usize)?;
        for a in 0..net.arcs() {
            let head = net.arc_of(a).head as usize;
            next.push(first[head])?;
            first[head] = a + 1;
        }
        Ok(Chains { first, next })
    }

    /// Adds the arcs into a node to a list.
    fn add_to(&self, net: &Net, v: u32, ends: &mut Vec<End>) -> Result<(), Memory>
        requires chains { IsChain net.now.nodes (λ a. (arc_of net.now a).head)
            (length net.now.arcs) self.now.first.items self.now.next.items }
        requires inside { v < net.now.nodes }
        ensures { IfOk result (λ _. AreAdded net.now v ends.old.items ends.new.items) }
    {
        let mut cursor = self.first[v as usize];
        while cursor > 0 {
            let a = cursor - 1;
            ends.push(End::coming(net, a))?;
            cursor = self.next[a as usize];
        }
        Ok(())
    }
}

/// The arcs into node `v` stand in `ends` from place `starts[v]` on, and below place `starts[v + 1]`.
#[derive(Drop)]
pub(crate) struct Index {
    pub starts: Vec<usize>,
    pub ends: Vec<End>,
}

impl Index {
    pub(crate) fn new(alloc: Global, net: &Net) -> Result<Index, Memory>
        ensures { IfOk result (λ index. IsIndex net.now index) }
    {
        let chains = Chains::new(alloc, net)?;
        let mut ends = Vec::with_capacity(alloc, net.arcs() as usize)?;
        let mut starts = Vec::with_capacity(alloc, net.nodes() as usize + 1)?;
        starts.push(0)?;
        for v in 0..net.nodes() {
            chains.add_to(net, v, &mut ends)?;
            starts.push(ends.len())?;
        }
        Ok(Index { starts, ends })
    }
}
