// The side of the threads that steal.
ghost use Rattle.std.specs.Prelude.{◌≡◌, ◌+◌, ◌<◌, ◌⊎◌, [], ◌∷◌};
ghost use Rattle.crossbeam_deque.specs.Steals.{MatchSteal};
ghost use Rattle.crossbeam_deque.specs.Tasks.{Takes, FindsFew};
ghost use Rattle.crossbeam_deque.specs.Handles.{stealer_deque, stealer_flavor};
ghost use Rattle.counted_deque.specs.Counted.{pass_number, pass_view, pass_taken, dry_steals};
ghost use Rattle.counted_deque.specs.Counted.{IsCountedPassOf, SameCountedPass};

use crate::handles::CountedPass;
use crossbeam_deque::protocol::{Outcome, Protocol};
use crossbeam_deque::{Steal, Stealer};
use std::alloc::Allocator;

impl<T, V, A: Allocator> CountedPass<T, V, A> {
    /// One `steal_as` with the pass, which raises its count exactly where it found the deque empty.
    pub fn steal<M: Outcome<T, V>, P: Protocol<T, V>>(
        &mut self,
        stealer: &Stealer<T, A, V, P>,
    ) -> Steal<T>
        requires fifo { stealer_flavor stealer.now ≡ 0 }
        requires pass { IsCountedPassOf (stealer_deque stealer.now) self.old }
        requires takes { Takes P.holds (pass_number self.old) (pass_view self.old) 1 (M.then (pass_view self.old)) }
        requires empty { FindsFew P.holds 0 (pass_number self.old) (pass_view self.old) (M.empty (pass_view self.old)) }
        ensures same { SameCountedPass self.old self.new }
        ensures rule { MatchSteal result ((pass_view self.new ≡ pass_view self.old) × M.empty (pass_view self.old))
            ((pass_view self.new ≡ pass_view self.old)
            × ((pass_taken self.old < pass_taken self.new) ⊎ M.empty (pass_view self.old)))
            (λ x. M.then (pass_view self.old) (x ∷ []) (pass_view self.new)) }
        ensures dry { MatchSteal result (dry_steals self.new ≡ dry_steals self.old + 1)
            (dry_steals self.new ≡ dry_steals self.old) (λ _. dry_steals self.new ≡ dry_steals self.old) }
    {
        let stolen = stealer.steal_as::<M>(&mut self.token);
        if let Steal::Empty = &stolen {
            self.dry.rise();
        }
        stolen
    }
}
