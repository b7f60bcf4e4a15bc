// The owner's side.
ghost use Rattle.std.specs.Prelude.{◌≡◌, ◌+◌, ◌^◌, ◌≤◌, ◌⊎◌, [], ◌∷◌, IfOk, IfErr, MatchOption, MatchResult};
ghost use Rattle.std.specs.Int.{IsNextPowerOfTwo};
ghost use Rattle.crossbeam_deque.specs.Tasks.{Pushes, Takes, Finds, Blocks, Forks, Merges};
ghost use Rattle.crossbeam_deque.specs.Handles.{stealer_deque, stealer_flavor};
ghost use Rattle.counted_deque.specs.Counted.{owner_deque, owner_port, owner_view, owner_capacity, owner_index};
ghost use Rattle.counted_deque.specs.Counted.{SameOwner, dry_pops, held_steals, SameCounts};
ghost use Rattle.counted_deque.specs.Counted.{pass_number, pass_view, dry_steals, IsCountedPassOf};

use crate::dry::Dry;
use crate::handles::{CountedPass, CountedWorker};
use crossbeam_deque::protocol::{Join, Outcome, Protocol, Split};
use crossbeam_deque::{Stealer, Worker};
use std::alloc::{AllocError, Allocator};
use std::mem;

impl<T: Drop, A: Allocator + Clone + Drop, V, P: Protocol<T, V>> CountedWorker<T, A, V, P> {
    /// A deque that begins with `capacity` slots, rounded up to a power of two, and of which no step was counted.
    pub fn fifo_as(alloc: A, capacity: usize) -> Result<CountedWorker<T, A, V, P>, AllocError>
        requires { P.holds [] (P.first ∷ []) }
        ensures capacity { IfOk result (λ w. IsNextPowerOfTwo capacity (owner_capacity w)) }
        ensures first { IfOk result (λ w. (owner_index w ≡ 0) × (owner_view w ≡ P.first)) }
        ensures counts { IfOk result (λ w. (dry_pops w ≡ 0) × (held_steals w ≡ 0)) }
    {
        Ok(CountedWorker {
            worker: Worker::fifo_as(alloc, capacity)?,
            dry: Dry::none(),
            held: Dry::none(),
        })
    }
}

impl<T, A: Allocator, V, P: Protocol<T, V>> CountedWorker<T, A, V, P> {
    /// A handle for other threads.
    pub fn stealer(&self) -> Result<Stealer<T, A, V, P>, AllocError>
        ensures { IfOk result (λ s. (stealer_deque s ≡ owner_deque self.now) × (stealer_flavor s ≡ 0)) }
    {
        self.worker.stealer()
    }

    /// One `push_as` of the worker.
    pub fn push<M: Outcome<T, V>>(&mut self, task: T) -> Result<(), T>
        requires pushes { Pushes P.holds (owner_port self.old) (owner_view self.old) (task ∷ [])
            (M.then (owner_view self.old) (task ∷ [])) }
        requires full { Blocks P.holds (owner_capacity self.old) (owner_port self.old) (owner_view self.old)
            (M.full (owner_view self.old)) }
        ensures same { SameOwner self.old self.new × SameCounts self.old self.new }
        ensures rule { MatchResult result
            (λ _. M.then (owner_view self.old) (task ∷ []) (owner_view self.new)
            × (owner_index self.new ≡ owner_index self.old + 1))
            (λ x. (x ≡ task) × (owner_view self.new ≡ owner_view self.old)
            × (owner_index self.new ≡ owner_index self.old)
            × ((2 ^ 62 ≤ owner_index self.old) ⊎ M.full (owner_view self.old))) }
        ensures refused { IfErr result (λ _. owner_capacity self.old ≤ owner_index self.old) }
    {
        self.worker.push_as::<M>(task)
    }

    /// One `pop_as` of the worker, which raises the count of its pops exactly where it found the deque empty.
    pub fn pop<M: Outcome<T, V>>(&mut self) -> Option<T>
        requires takes { Takes P.holds (owner_port self.old) (owner_view self.old) 1 (M.then (owner_view self.old)) }
        requires empty { Finds P.holds (owner_port self.old) (owner_view self.old) (M.empty (owner_view self.old)) }
        ensures same { SameOwner self.old self.new × (owner_index self.new ≤ owner_index self.old) }
        ensures rule { MatchOption result ((owner_view self.new ≡ owner_view self.old) × M.empty (owner_view self.old))
            (λ x. M.then (owner_view self.old) (x ∷ []) (owner_view self.new)) }
        ensures dry { MatchOption result (dry_pops self.new ≡ dry_pops self.old + 1)
            (λ _. dry_pops self.new ≡ dry_pops self.old) }
        ensures held { held_steals self.new ≡ held_steals self.old }
    {
        let popped = self.worker.pop_as::<M>();
        if popped.is_none() {
            self.dry.rise();
        }
        popped
    }

    /// A new pass, with a part of the worker's view, with which no steal was counted.
    pub fn another<M: Split<V>>(&mut self) -> CountedPass<T, V, A>
        requires { Forks P.holds (owner_port self.old) (owner_view self.old)
            (M.left (owner_view self.old)) (M.right (owner_view self.old)) }
        ensures same { SameOwner self.old self.new × (owner_index self.new ≡ owner_index self.old) }
        ensures pass { IsCountedPassOf (owner_deque self.old) result }
        ensures rule { (owner_view self.new ≡ M.left (owner_view self.old))
            × (pass_view result ≡ M.right (owner_view self.old)) }
        ensures counts { (dry_steals result ≡ 0) × SameCounts self.old self.new }
    {
        CountedPass {
            token: self.worker.another::<M>(),
            dry: Dry::none(),
        }
    }

    /// A new pass, with a part of the worker's view, to which all steals are handed back that the worker holds.
    pub fn release<M: Split<V>>(&mut self) -> CountedPass<T, V, A>
        requires { Forks P.holds (owner_port self.old) (owner_view self.old)
            (M.left (owner_view self.old)) (M.right (owner_view self.old)) }
        ensures same { SameOwner self.old self.new × (owner_index self.new ≡ owner_index self.old) }
        ensures pass { IsCountedPassOf (owner_deque self.old) result }
        ensures rule { (owner_view self.new ≡ M.left (owner_view self.old))
            × (pass_view result ≡ M.right (owner_view self.old)) }
        ensures counts { (dry_steals result ≡ held_steals self.old) × (held_steals self.new ≡ 0) }
        ensures dry { dry_pops self.new ≡ dry_pops self.old }
    {
        CountedPass {
            token: self.worker.another::<M>(),
            dry: mem::replace(&mut self.held, Dry::none()),
        }
    }

    /// Takes the view of a pass into the worker's, and its steals to those that the worker holds.
    pub fn absorb<M: Join<V>>(&mut self, pass: CountedPass<T, V, A>)
        requires table { IsCountedPassOf (owner_deque self.old) pass }
        requires rule { Merges P.holds (owner_port self.old) (owner_view self.old) (pass_number pass) (pass_view pass)
            (M.both (owner_view self.old) (pass_view pass)) M.spent }
        ensures same { SameOwner self.old self.new × (owner_index self.new ≡ owner_index self.old) }
        ensures rule { owner_view self.new ≡ M.both (owner_view self.old) (pass_view pass) }
        ensures counts { held_steals self.new ≡ held_steals self.old + dry_steals pass }
        ensures dry { dry_pops self.new ≡ dry_pops self.old }
    {
        let CountedPass { token, dry } = pass;
        self.worker.absorb::<M>(token);
        self.held.add(dry);
    }
}
