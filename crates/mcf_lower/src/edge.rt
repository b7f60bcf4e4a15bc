ghost use Rattle.std.specs.Prelude.{◌≡◌, ◌+◌, ◌<◌, length};
ghost use Rattle.mcf_lower.specs.Net.{Network, IsNetwork};
ghost use Rattle.mcf_lower.specs.Edges.{edges, edge_of, partner_of, IsEdge};

use crate::net::Net;

/// An edge of the residual graph: one more unit from `start` to `finish` costs `plus - minus`.
#[derive(Clone, Copy)]
pub(crate) struct Edge {
    pub start: u32,
    pub finish: u32,
    pub plus: u64,
    pub minus: u64,
}

impl Edge {
    /// Edge `e` of the residual graph of a net. Each arc is two edges: the edge of its own number sends more along it,
    /// and the edge whose number is higher by the number of arcs sends back what flows on it.
    #[inline(always)]
    pub(crate) fn of(net: &Net, e: u32) -> Edge
        requires { e < edges net.now }
        ensures is { result ≡ edge_of net.now e }
        ensures inside { IsEdge net.now.nodes result }
        ensures network { IsNetwork net.now }
    {
        let arcs = net.arcs();
        if e < arcs {
            let arc = net.arc_of(e);
            Edge {
                start: arc.tail,
                finish: arc.head,
                plus: arc.cost,
                minus: 0,
            }
        } else {
            let arc = net.arc_of(e - arcs);
            Edge {
                start: arc.head,
                finish: arc.tail,
                plus: 0,
                minus: arc.cost,
            }
        }
    }
}

/// The edge that is the same arc the other way.
#[inline(always)]
pub(crate) fn partner(net: &Net, e: u32) -> u32
    requires { e < edges net.now }
    ensures is { result ≡ partner_of net.now e }
    ensures network { IsNetwork net.now }
{
    let arcs = net.arcs();
    if e < arcs { e + arcs } else { e - arcs }
}
