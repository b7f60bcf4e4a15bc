//! The arcs that may carry more than their lows, which are few. Only their edges back can have room.

ghost use Rattle.std.specs.Prelude.{◌≡◌, ℕ, ◌+◌, ◌<◌, ◌≤◌, length, slice_index, IfOk};
ghost use Rattle.mcf_lower.specs.Net.{IsNetwork};
ghost use Rattle.mcf_lower.specs.Edges.{edges};
ghost use Rattle.mcf_lower.specs.Ends.{AreBacks, IsListed, ListsBacks};

use crate::end::End;
use crate::net::Net;
use std::alloc::Global;
use tqd_base::Memory;

/// Arcs, in chains by the node where they begin, and for each arc of the net whether it is among them. An arc that has
/// carried more than its low stays.
///
/// `first` gives the last arc of a node in `ends`, and `next` the one before an arc, each as its place and 1, or as 0
/// where there is none.
#[derive(Drop)]
pub(crate) struct Backs {
    pub listed: Vec<bool>,
    pub ends: Vec<End>,
    pub first: Vec<usize>,
    pub next: Vec<usize>,
}

impl Backs {
    /// No arcs of a net.
    fn none(alloc: Global, net: &Net) -> Result<Backs, Memory>
        ensures backs { IfOk result (λ b. AreBacks net.now b) }
        ensures network { IfOk result (λ b. IsNetwork net.now) }
    {
        Ok(Backs {
            listed: vec![in alloc; false; net.arcs() as usize]?,
            ends: Vec::new(alloc),
            first: vec![in alloc; 0usize; net.nodes() as usize]?,
            next: Vec::new(alloc),
        })
    }

    /// The arcs whose edges back have room.
    pub(crate) fn of(alloc: Global, net: &Net, room: &[u64]) -> Result<Backs, Memory>
        requires { length room.now ≡ edges net.now }
        ensures { IfOk result (λ b. ListsBacks net.now room.now b) }
    {
        let mut backs = Backs::none(alloc, net)?;
        for a in 0..net.arcs() {
            if room[(a + net.arcs()) as usize] > 0 {
                backs.list(net, a)?;
            }
        }
        Ok(backs)
    }

    /// Adds the arc of edge `e` where the edge goes along it, unless the arc is there.
    pub(crate) fn list(&mut self, net: &Net, e: u32) -> Result<(), Memory>
        requires backs { AreBacks net.now self.old }
        requires network { IsNetwork net.now }
        ensures backs { IfOk result (λ _. AreBacks net.now self.new) }
        ensures kept { IfOk result (λ _. (a : ℕ) → a < length net.now.arcs → IsListed self.old a → IsListed self.new a) }
        ensures listed { IfOk result (λ _. e < length net.now.arcs → IsListed self.new e) }
    {
        if e >= net.arcs() || self.listed[e as usize] {
            return Ok(());
        }
        let tail = net.arc_of(e).tail as usize;
        self.ends.push(End::leaving(net, e))?;
        self.next.push(self.first[tail])?;
        self.first[tail] = self.ends.len();
        self.listed[e as usize] = true;
        Ok(())
    }
}
