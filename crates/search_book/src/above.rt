//! The split above a node, from which its box is worked out.
ghost use Rattle.std.specs.Prelude.{ℕ, ◌≡◌, ◌<◌, ◌≤◌, length, MatchOption};
ghost use Rattle.tqd_base.specs.declared.limits.TheConstants.{SUPPLIERS_MAX};
ghost use Rattle.interval_box.specs.Halves.{IsProper};
ghost use Rattle.search_book.specs.Nodes.{phase_of};
ghost use Rattle.search_book.specs.Counts.{names};
ghost use Rattle.search_book.specs.SplitAbove.{half_of, Names};

use crate::node::{Node, Phase};
use interval_box::IntervalBox;

/// A half of a box: the supplier and the number at which the box was split, and which half it is.
#[derive(Clone, Copy, Debug, PartialEq, Eq)]
pub(crate) struct Half {
    pub supplier: u32,
    pub at: u8,
    pub is_low: bool,
}

impl Half {
    /// This half of a box.
    pub(crate) fn of(self, area: &IntervalBox) -> IntervalBox
        requires supplier { self.supplier < SUPPLIERS_MAX }
        requires proper { IsProper area.now self.supplier self.at }
        ensures { result ≡ half_of self area.now }
    {
        let (low, high) = area.halves(self.supplier as usize, self.at);
        if self.is_low { low } else { high }
    }
}

/// The half that a node has of the box of another one, or none where the other one was not split into it.
fn half_named(phase: &Phase, n: u64) -> Option<Half>
    ensures { MatchOption result (names n phase.now ≡ 0) (Names phase.now n) }
{
    match phase {
        Phase::Split {
            low,
            high,
            supplier,
            at,
        } if *low == n || *high == n => Some(Half {
            supplier: *supplier,
            at: *at,
            is_low: *low == n,
        }),
        _ => None,
    }
}

/// The number of the node that was split into a node, and the half of its box that the node has; none where no node
/// before it was.
pub(crate) fn split_above(nodes: &[Node], n: usize) -> Option<(usize, Half)>
    requires { n ≤ length nodes.now }
    ensures { MatchOption result
        ((k : ℕ) → k < n → names n (phase_of nodes.now k) ≡ 0)
        (λ above. (above.0 < n) × Names (phase_of nodes.now above.0) n above.1) }
{
    for k in 0..n {
        if let Some(half) = half_named(&nodes[k].phase, n as u64) {
            return Some((k, half));
        }
    }
    None
}
