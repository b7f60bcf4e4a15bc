ghost use Rattle.std.specs.Prelude.{ℕ, ◌≡◌, ◌<◌, ◌≤◌, ◌+◌, length, IfOk, OnOk, OnErr, IfSome, MatchOption, if◌then◌else◌};
ghost use Rattle.tqd_instance.specs.Plan.{units, IsSizedFor};
ghost use Rattle.tqd_instance.specs.Standing.{Costs};
ghost use Rattle.interval_box.specs.Ranges.{IsBoxOf};
ghost use Rattle.interval_box.specs.Halves.{IsProper, low_half, high_half};
ghost use Rattle.search_book.specs.Nodes.{area_of, HasPhase};
ghost use Rattle.search_book.specs.Events.{Happens, take_node, split_node, give_back, release};
ghost use Rattle.search_book.specs.Later.{IsLater};
ghost use Rattle.search_book.specs.Counts.{due_size};
ghost use Rattle.search_book.specs.Answers.{TakeSays, IfGot, IsTakenAt, NoneOpen, TakesFirst, ImproveSays, CanClose, CloseSays};
ghost use Rattle.search_book.specs.Taken.{NoneTaken, SameTaken, TakenInPlace, TakenWith, TakenWithout};

use crate::answers::{Close, Improve, State, Take};
use crate::book::{Book, state};
use crate::node::Phase;
use crate::nodes::{first_open, half, mark, release};
use bound_tree::Leaf;
use interval_box::IntervalBox;
use tqd_base::Memory;
use tqd_instance::Plan;

impl<'j> Book<'j> {
    /// Takes an Open node and gives its box. A node in another state stays in it.
    pub fn take(&mut self, n: u64) -> Take
        requires { n < length self.old.nodes }
        ensures says { TakeSays self.old n self.new result }
        ensures taken { IfGot result (IsTakenAt self.new n) }
        ensures takes { IfGot result (λ _. TakenWith self.old n self.new) }
        ensures of_job { IsBoxOf self.old.job (area_of self.old.nodes n) }
        ensures later { IsLater self.old self.new }
        ensures due { due_size self.new ≡ due_size self.old }
    {
        let found = state(&self.nodes[n as usize].phase);
        if found != State::Open {
            return Take::NotOpen(found);
        }
        Take::Got(self.take_open(n as usize))
    }

    /// Takes the Open node of the least number and gives its number and its box, or none exactly where no node is Open.
    pub fn take_first(&mut self) -> Option<(u64, IntervalBox)>
        ensures says { MatchOption result
            (NoneOpen self.old × (self.new ≡ self.old))
            (λ got. TakesFirst self.old got.0 got.1 self.new) }
        ensures taken { IfSome result (λ got. IsTakenAt self.new got.0 got.1) }
        ensures takes { IfSome result (λ got. TakenWith self.old got.0 self.new) }
        ensures of_job { IfSome result (λ got. IsBoxOf self.old.job got.1) }
        ensures later { IsLater self.old self.new }
        ensures due { due_size self.new ≡ due_size self.old }
    {
        if self.open_nodes == 0 {
            return None;
        }
        let n = first_open(&self.nodes, self.first_open)?;
        let area = self.take_open(n);
        self.first_open = n + 1;
        Some((n as u64, area))
    }

    fn take_open(&mut self, n: usize) -> IntervalBox
        requires { HasPhase self.old.nodes n Phase.Open }
        ensures happens { Happens self.old (take_node n) self.new }
        ensures area { result ≡ area_of self.old.nodes n }
        ensures taken { IsTakenAt self.new n result }
        ensures takes { TakenWith self.old n self.new }
        ensures of_job { IsBoxOf self.old.job result }
        ensures later { IsLater self.old self.new }
        ensures due { due_size self.new ≡ due_size self.old }
    {
        let area = self.area(n as u64);
        mark(&mut self.nodes, n, Phase::Taken);
        self.open_nodes -= 1;
        self.taken_nodes += 1;
        area
    }

    /// Makes a plan the best one, where there is none or it costs more. `cost` is what the plan costs, in millionths of
    /// the currency.
    pub fn improve(&mut self, plan: Plan, cost: u128) -> Improve
        requires sized { IsSizedFor self.old.job plan }
        requires costs { Costs self.old.job (units plan) cost }
        ensures says { ImproveSays self.old plan cost self.new result }
        ensures nodes { self.new.nodes ≡ self.old.nodes }
        ensures takes { SameTaken self.old self.new }
        ensures later { IsLater self.old self.new }
        ensures due { due_size self.new ≡ due_size self.old }
    {
        if let Some(best) = self.best() {
            if best <= cost {
                return Improve::Kept(best);
            }
        }
        self.best = Some((plan, cost));
        Improve::Better
    }

    /// Closes a Taken node by a leaf: a bound that reaches the cost of the best plan, or a leaf that needs no plan.
    /// A bound that is short changes nothing and is dropped.
    pub fn close(&mut self, n: u64, leaf: Leaf) -> Close
        requires taken { HasPhase self.old.nodes n Phase.Taken }
        requires leaf { CanClose self.old.job (area_of self.old.nodes n) leaf }
        ensures says { CloseSays self.old n leaf self.new result }
        ensures takes { (result ≡ Close.Closed) → TakenWithout self.old n self.new }
        ensures later { IsLater self.old self.new }
        ensures due { (result ≡ Close.Closed) → due_size self.new < due_size self.old }
    {
        let best = self.best();
        let area = self.area(n);
        if !leaf.kills(self.job, &area, best) {
            return Close::Short(best);
        }
        mark(&mut self.nodes, n as usize, Phase::Closed(leaf));
        self.taken_nodes -= 1;
        Close::Closed
    }

    /// Splits a Taken node at the number `s` in the range of supplier `i`, and gives the numbers of the nodes of the low
    /// and of the high half. The half that is kept is Taken, the other one Open. Without memory nothing changes.
    pub fn split(&mut self, n: u64, i: usize, s: u8, keep_low: bool) -> Result<(u64, u64), Memory>
        requires taken { HasPhase self.old.nodes n Phase.Taken }
        requires proper { IsProper (area_of self.old.nodes n) i s }
        ensures happens { OnOk result (Happens self.old (split_node n i s keep_low) self.new) }
        ensures low { IfOk result (λ halves. halves.0 ≡ length self.old.nodes) }
        ensures high { IfOk result (λ halves. halves.1 ≡ length self.old.nodes + 1) }
        ensures err { OnErr result (self.new ≡ self.old) }

        // What follows of the halves.
        ensures low_area { IfOk result (λ halves.
            area_of self.new.nodes halves.0 ≡ low_half (area_of self.old.nodes n) i s) }
        ensures high_area { IfOk result (λ halves.
            area_of self.new.nodes halves.1 ≡ high_half (area_of self.old.nodes n) i s) }
        ensures kept { IfOk result (λ halves.
            HasPhase self.new.nodes (if keep_low then halves.0 else halves.1) Phase.Taken) }
        ensures other { IfOk result (λ halves.
            HasPhase self.new.nodes (if keep_low then halves.1 else halves.0) Phase.Open) }
        ensures takes { IfOk result (λ halves.
            TakenInPlace self.old n (if keep_low then halves.0 else halves.1) self.new) }

        ensures later { IsLater self.old self.new }
        ensures due { OnOk result (due_size self.new + 1 ≡ due_size self.old) }
    {
        let (low_area, high_area) = self.area(n).halves(i, s);
        let alloc = *self.nodes.allocator();
        let low_node = half(alloc, low_area, keep_low)?;
        let high_node = half(alloc, high_area, !keep_low)?;
        self.nodes.reserve(2)?;
        let low = self.nodes.len() as u64;
        let phase = Phase::Split {
            low,
            high: low + 1,
            supplier: i as u32,
            at: s,
        };
        mark(&mut self.nodes, n as usize, phase);
        self.nodes.push_reserved(low_node);
        self.nodes.push_reserved(high_node);
        self.open_nodes += 1;
        Ok((low, low + 1))
    }

    /// Makes a Taken node Open again.
    pub fn give_back(&mut self, n: u64)
        requires { HasPhase self.old.nodes n Phase.Taken }
        ensures happens { Happens self.old (give_back n) self.new }
        ensures takes { TakenWithout self.old n self.new }
        ensures later { IsLater self.old self.new }
        ensures due { due_size self.new ≡ due_size self.old }
    {
        mark(&mut self.nodes, n as usize, Phase::Open);
        self.taken_nodes -= 1;
        self.open_nodes += 1;
        self.first_open = self.first_open.min(n as usize);
    }

    /// Makes each Taken node Open again.
    pub fn release_all(&mut self)
        ensures happens { Happens self.old release self.new }
        ensures takes { NoneTaken self.new }
        ensures later { IsLater self.old self.new }
        ensures due { due_size self.new ≡ due_size self.old }
    {
        release(&mut self.nodes);
        self.open_nodes += self.taken_nodes;
        self.taken_nodes = 0;
        self.first_open = 0;
    }
}
