ghost use Rattle.std.specs.Prelude.{◌≡◌, ℕ, ◌<◌, ◌≤◌, pos, length, slice_index, slice_index_or, false};
ghost use Rattle.mcf_lower.specs.Units.{AreUnits};

use std::marker::Model;

/// For each arc of a net the units that it carries, by the numbers of the arcs.
#[derive(Drop)]
pub struct FlowList {
    units: Vec<u64>,
}

impl Model for FlowList {
    ghost use Rattle.std.specs.Prelude.{ℕ, List};
    ghost use Rattle.mcf_lower.specs.Units.{AreUnits};

    ghost Value = { List ℕ };

    ghost view = { λ f. f.units.items };

    ghost invariant = { λ f. AreUnits f.units.items };
}

impl FlowList {
    /// The list of these numbers, none of them above `FLOW_MAX`.
    pub fn of(units: Vec<u64>) -> FlowList
        requires { AreUnits units.items }
        ensures { result ≡ units.items }
    {
        FlowList { units }
    }

    /// The units on arc `a`.
    pub fn get(&self, a: u32) -> i64
        requires { a < length self.now }
        ensures { result ≡ pos (slice_index self.now a) }
    {
        self.units[a as usize] as i64
    }

    /// The numbers, with their allocation.
    pub fn into_vec(self) -> Vec<u64>
        ensures { result.items ≡ self }
    {
        self.units
    }
}

/// A set of the nodes of a net.
#[derive(Drop)]
pub struct NodeSet {
    members: Vec<bool>,
}

impl Model for NodeSet {
    ghost use Rattle.std.specs.Prelude.{Bool, List};

    ghost Value = { List Bool };

    ghost view = { λ s. s.members.items };
}

impl NodeSet {
    /// The set of the nodes at whose number `members` has `true`.
    pub fn of(members: Vec<bool>) -> NodeSet
        ensures { result ≡ members.items }
    {
        NodeSet { members }
    }

    /// Whether node `n` is in the set.
    pub fn has(&self, n: u32) -> bool
        requires { n < length self.now }
        ensures { result ≡ slice_index_or self.now n false }
    {
        self.members[n as usize]
    }
}

/// What `circulate` finds: a circulation, or a set of nodes out of which more has to flow than can come in.
#[derive(Drop)]
pub enum Found {
    Flow(FlowList),
    Cut(NodeSet),
}

/// What `circulate_from` finds: a circulation and node numbers that fit it, in millionths of the currency a unit, or a set of
/// nodes out of which more has to flow than can come in.
#[derive(Drop)]
pub enum Solved {
    Flow { flow: FlowList, numbers: Vec<u64> },
    Cut(NodeSet),
}
