ghost use Rattle.std.specs.Prelude.{◌≡◌, ℕ, ◌+◌, ◌≤◌, ◌<◌, ◌++◌, ◌∷◌, [], pos, ◌≤ℤ◌, length, IfOk, OnErr};
ghost use Rattle.mcf_lower.specs.Net.{Network, IsNetwork, arc_of, signed, plain};

use std::alloc::Global;
use std::marker::Model;
use tqd_base::Memory;
use tqd_base::limits::{FLOW_MAX, PRICE_MAX};

/// The greatest number of nodes of a net.
pub const NODES_MAX: u32 = 1_065;

/// The greatest number of arcs of a net.
pub const ARCS_MAX: u32 = 65_064;

/// An arc from `tail` to `head`: its flow is from `low` to `cap` units of a part, at `cost` millionths of the
/// currency a unit.
#[derive(Clone, Copy, Debug, PartialEq, Eq)]
pub struct NetArc {
    pub tail: u32,
    pub head: u32,
    pub low: i64,
    pub cap: i64,
    pub cost: i64,
}

/// An arc of a net. Within a net no number is below 0.
#[derive(Clone, Copy)]
pub struct Arc {
    pub tail: u32,
    pub head: u32,
    pub low: u64,
    pub cap: u64,
    pub cost: u64,
}

/// A directed graph whose arcs have a lower and an upper bound of their flow, and a cost a unit.
#[derive(Drop)]
pub struct Net {
    nodes: u32,
    arcs: Vec<Arc>,
}

impl Model for Net {
    ghost use Rattle.mcf_lower.specs.Net.{Network, IsNetwork};

    ghost Value = { Network };

    ghost view = { λ n. record { nodes = n.nodes; arcs = n.arcs.items } };

    ghost invariant = { λ n. IsNetwork (record { nodes = n.nodes; arcs = n.arcs.items }) };
}

impl Net {
    /// A net of `nodes` nodes, numbered from 0, that has no arc.
    pub fn new(alloc: Global, nodes: u32) -> Result<Net, Memory>
        requires some { 1 ≤ nodes }
        requires few { nodes ≤ NODES_MAX }
        ensures { IfOk result (λ n. n ≡ record { nodes = nodes; arcs = [] }) }
    {
        Ok(Net {
            nodes,
            arcs: Vec::new(alloc),
        })
    }

    /// A net of `nodes` nodes, numbered from 0, that has no arc, and memory for `room` arcs.
    pub fn with_room(alloc: Global, nodes: u32, room: u32) -> Result<Net, Memory>
        requires some { 1 ≤ nodes }
        requires few { nodes ≤ NODES_MAX }
        requires room { room ≤ ARCS_MAX }
        ensures { IfOk result (λ n. n ≡ record { nodes = nodes; arcs = [] }) }
    {
        Ok(Net {
            nodes,
            arcs: Vec::with_capacity(alloc, room as usize)?,
        })
    }

    /// Adds an arc, and gives its number: the arcs are numbered from 0. Want of memory leaves the net as it was.
    pub fn add(&mut self, arc: NetArc) -> Result<u32, Memory>
        requires tail { arc.tail < self.old.nodes }
        requires head { arc.head < self.old.nodes }
        requires low { pos 0 ≤ℤ arc.low }
        requires cap { arc.low ≤ℤ arc.cap }
        requires most { arc.cap ≤ℤ FLOW_MAX }
        requires cost { pos 0 ≤ℤ arc.cost }
        requires dear { arc.cost ≤ℤ pos PRICE_MAX }
        requires few { length self.old.arcs < ARCS_MAX }
        ensures added { IfOk result (λ a. self.new ≡ record self.old { arcs = self.old.arcs ++ plain arc ∷ [] }) }
        ensures number { IfOk result (λ a. a ≡ length self.old.arcs) }
        ensures kept { OnErr result (self.new ≡ self.old) }
    {
        let number = self.arcs.len() as u32;
        self.arcs.push(Arc {
            tail: arc.tail,
            head: arc.head,
            low: arc.low as u64,
            cap: arc.cap as u64,
            cost: arc.cost as u64,
        })?;
        Ok(number)
    }

    /// The number of nodes.
    pub fn nodes(&self) -> u32
        ensures is { result ≡ self.now.nodes }
        ensures network { IsNetwork self.now }
    {
        self.nodes
    }

    /// The number of arcs.
    pub fn arcs(&self) -> u32
        ensures is { result ≡ length self.now.arcs }
        ensures network { IsNetwork self.now }
    {
        self.arcs.len() as u32
    }

    /// The arc with number `a`.
    pub fn arc(&self, a: u32) -> NetArc
        requires { a < length self.now.arcs }
        ensures { result ≡ signed (arc_of self.now a) }
    {
        let arc = self.arc_of(a);
        NetArc {
            tail: arc.tail,
            head: arc.head,
            low: arc.low as i64,
            cap: arc.cap as i64,
            cost: arc.cost as i64,
        }
    }

    /// The arc with number `a`, as the net keeps it.
    pub(crate) fn arc_of(&self, a: u32) -> Arc
        requires { a < length self.now.arcs }
        ensures is { result ≡ arc_of self.now a }
        ensures network { IsNetwork self.now }
    {
        self.arcs[a as usize]
    }
}
