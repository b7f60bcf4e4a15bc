ghost use Rattle.std.specs.Prelude.{◌≡◌, ◌+◌, ◌<◌, length};
ghost use Rattle.mcf_lower.specs.Net.{arc_of, IsNetwork};
ghost use Rattle.mcf_lower.specs.Edges.{edge_of, IsEdge};
ghost use Rattle.mcf_lower.specs.Ends.{IsComing, IsLeaving};

use crate::edge::Edge;
use crate::net::Net;

/// An arc as one of its ends sees it: its number, the node at its other end, and its cost.
#[derive(Clone, Copy)]
pub(crate) struct End {
    pub arc: u32,
    pub node: u32,
    pub cost: u64,
}

impl End {
    /// An arc as its head sees it.
    pub(crate) fn coming(net: &Net, a: u32) -> End
        requires { a < length net.now.arcs }
        ensures arc { result.arc ≡ a }
        ensures coming { IsComing net.now (arc_of net.now a).head result }
        ensures network { IsNetwork net.now }
    {
        let arc = net.arc_of(a);
        End {
            arc: a,
            node: arc.tail,
            cost: arc.cost,
        }
    }

    /// An arc as its tail sees it.
    pub(crate) fn leaving(net: &Net, a: u32) -> End
        requires { a < length net.now.arcs }
        ensures arc { result.arc ≡ a }
        ensures leaving { IsLeaving net.now (arc_of net.now a).tail result }
        ensures network { IsNetwork net.now }
    {
        let arc = net.arc_of(a);
        End {
            arc: a,
            node: arc.head,
            cost: arc.cost,
        }
    }

    /// The edge along the arc, as its head `v` sees it.
    #[inline(always)]
    pub(crate) fn along(&self, _net: &Net, v: u32) -> Edge
        requires network { IsNetwork _net.now }
        requires coming { IsComing _net.now v self.now }
        ensures is { result ≡ edge_of _net.now self.now.arc }
        ensures ends { IsEdge _net.now.nodes result }
        ensures finish { result.finish ≡ v }
        ensures inside { self.now.arc < length _net.now.arcs }
    {
        Edge {
            start: self.node,
            finish: v,
            plus: self.cost,
            minus: 0,
        }
    }

    /// The edge back, as the arc's tail `v` sees it.
    #[inline(always)]
    pub(crate) fn back(&self, _net: &Net, v: u32) -> Edge
        requires network { IsNetwork _net.now }
        requires leaving { IsLeaving _net.now v self.now }
        ensures is { result ≡ edge_of _net.now (self.now.arc + length _net.now.arcs) }
        ensures ends { IsEdge _net.now.nodes result }
        ensures finish { result.finish ≡ v }
        ensures inside { self.now.arc < length _net.now.arcs }
    {
        Edge {
            start: self.node,
            finish: v,
            plus: 0,
            minus: self.cost,
        }
    }
}
