//! The search for a shortest path in the residual graph, by Dijkstra's labels (Edmonds and Karp, 1972, with reduced
//! costs). It goes back from the root, a node that lacks units, so the labels tell the way to the root.
//!
//! The nearest node comes from a tournament of the nodes that are not settled. On loose nets a search ends after a few
//! nodes, on tight ones after a hundred or more of a thousand.

ghost use Rattle.std.specs.Prelude.{◌≡◌, ℕ, ◌+◌, ◌<◌, ◌≤◌, length, slice_index, slice_set, MatchOption, IfOk, replicate};
ghost use Rattle.mcf_lower.specs.declared.net.TheConstants.{NODES_MAX};
ghost use Rattle.mcf_lower.specs.Tree.{IsNearest, IsBegun, HasSizes, Keyed};

use crate::tournament::Tournament;
use std::alloc::Global;
use tqd_base::Memory;

/// The distance of a node that no path is known from.
pub const FAR: u64 = u64::MAX;

/// The rank of a node that is not settled.
pub const UNSETTLED: u32 = u32::MAX;

/// For each node: its distance to the root, its place in the order of settling, the edge on which its path to the root
/// begins, how many units can take that path, and its key, which is its distance until it is settled, and `FAR` then.
#[derive(Drop)]
pub(crate) struct Labels {
    pub root: u32,
    pub settled: u32,
    pub distance: Vec<u64>,
    pub rank: Vec<u32>,
    pub parent: Vec<u32>,
    pub width: Vec<u64>,
    pub keys: Tournament,
}

impl Labels {
    pub(crate) fn new(alloc: Global, nodes: u32) -> Result<Labels, Memory>
        requires { nodes ≤ NODES_MAX }
        ensures { IfOk result (λ l. HasSizes nodes l) }
    {
        Ok(Labels {
            root: 0,
            settled: 0,
            distance: vec![in alloc; 0u64; nodes as usize]?,
            rank: vec![in alloc; 0u32; nodes as usize]?,
            parent: vec![in alloc; 0u32; nodes as usize]?,
            width: vec![in alloc; 0u64; nodes as usize]?,
            keys: Tournament::new(alloc, nodes as usize)?,
        })
    }

    /// Forgets all paths but the empty one at `root`.
    pub(crate) fn begin(&mut self, root: u32, nodes: u32)
        requires sizes { HasSizes nodes self.old }
        requires inside { root < nodes }
        ensures { IsBegun nodes root self.new }
    {
        self.distance.fill(FAR);
        self.rank.fill(UNSETTLED);
        self.distance[root as usize] = 0;
        self.width[root as usize] = u64::MAX;
        self.root = root;
        self.settled = 0;
        self.keys.fill(FAR);
        self.keys.set(root, 0);
    }

    /// The nearest node that is not settled, if any has a path.
    pub(crate) fn nearest(&self) -> Option<u32>
        requires keyed { Keyed self.now }
        requires some { 1 ≤ self.now.keys.places }
        requires few { self.now.keys.places ≤ NODES_MAX }
        ensures { IsNearest self.now.keys.places self.now.distance.items self.now.rank.items result }
    {
        let v = self.keys.least();
        if self.keys.key(v) < FAR {
            Some(v)
        } else {
            None
        }
    }

    /// Makes a node the next in the order of settling.
    pub(crate) fn settle(&mut self, v: u32)
        requires inside { v < length self.old.rank.items }
        requires nodes { v < self.old.keys.places }
        requires room { self.old.settled < UNSETTLED }
        requires keyed { Keyed self.old }
        ensures keyed { Keyed self.new }
        ensures nodes { self.new.keys.places ≡ self.old.keys.places }
        ensures root { self.new.root ≡ self.old.root }
        ensures settled { self.new.settled ≡ self.old.settled + 1 }
        ensures distance { self.new.distance.items ≡ self.old.distance.items }
        ensures rank { self.new.rank.items ≡ slice_set self.old.rank.items v self.old.settled }
        ensures parent { self.new.parent.items ≡ self.old.parent.items }
        ensures width { self.new.width.items ≡ self.old.width.items }
    {
        self.rank[v as usize] = self.settled;
        self.settled += 1;
        self.keys.set(v, FAR);
    }
}
