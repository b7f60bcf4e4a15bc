ghost use Rattle.std.specs.Prelude.{ℕ, ◌≡◌, ◌≢◌, ◌<◌, ◌≤◌, length, map, IfOk, MatchOption};
ghost use Rattle.search_book.specs.Nodes.{phase_of, HasPhase, with_phase};
ghost use Rattle.search_book.specs.Events.{half_node, freed};

use crate::node::{Node, Phase};
use crate::node_box::NodeBox;
use interval_box::IntervalBox;
use std::alloc::Global;
use tqd_base::Memory;

/// Says of a node what became of it. The box of one that was split or closed is let go.
pub(crate) fn mark(nodes: &mut [Node], n: usize, phase: Phase)
    requires { n < length nodes.old }
    ensures { nodes.new ≡ with_phase nodes.old n phase }
{
    turn(&mut nodes[n], phase);
}

fn turn(node: &mut Node, phase: Phase)
    ensures { node.new ≡ record node.old { phase = phase } }
{
    if let Phase::Split { .. } | Phase::Closed(_) = phase {
        node.area.let_go();
    }
    node.phase = phase;
}

/// The first Open node from a number on.
pub(crate) fn first_open(nodes: &[Node], from: usize) -> Option<usize>
    ensures { MatchOption result
        ((k : ℕ) → from ≤ k → phase_of nodes.now k ≢ Phase.Open)
        (λ n. HasPhase nodes.now n Phase.Open × ((k : ℕ) → from ≤ k → k < n → phase_of nodes.now k ≢ Phase.Open)) }
{
    for n in from..nodes.len() {
        if let Phase::Open = nodes[n].phase {
            return Some(n);
        }
    }
    None
}

/// Opens each Taken node.
pub(crate) fn release(nodes: &mut [Node])
    ensures { nodes.new ≡ map freed nodes.old }
{
    for node in nodes.iter_mut() {
        free(node);
    }
}

fn free(node: &mut Node)
    ensures { node.new ≡ freed node.old }
{
    if let Phase::Taken = node.phase {
        node.phase = Phase::Open;
    }
}

/// The node of a half: Taken where it is kept, else Open.
pub(crate) fn half(alloc: Global, area: IntervalBox, kept: bool) -> Result<Node, Memory>
    ensures { IfOk result (λ node. node ≡ half_node area kept) }
{
    Ok(Node {
        area: NodeBox::hold(alloc, area)?,
        phase: if kept { Phase::Taken } else { Phase::Open },
    })
}
