ghost use Rattle.std.specs.Prelude.{◌≡◌, ◌+◌, [], ◌∷◌, ◌++◌, IfOk, MatchOption};
ghost use Rattle.steal_pool.specs.Seen.{IsSamePass};

use crate::account::{LaneStealer, Take};
use crate::pass::Pass;
use crossbeam_deque::Steal;
use std::alloc::Global;
use std::hint::spin_loop;
use std::marker::Model;
use std::sync::Wait;
use tqd_base::Memory;

/// What steals from a lane. It may be shared by any number of threads.
#[derive(Drop)]
pub struct Thief {
    pub(crate) stealer: LaneStealer,
}

impl Model for Thief {
    ghost use Rattle.std.specs.Prelude.{◌≡◌};
    ghost use Rattle.crossbeam_deque.specs.Handles.{stealer_deque, stealer_flavor};
    ghost use Rattle.steal_pool.specs.Seen.{ThiefSeen};

    ghost Value = { ThiefSeen };

    ghost view = { λ t. record { lane = (stealer_deque t.stealer).0 } };

    ghost invariant = { λ t. stealer_flavor t.stealer ≡ 0 };
}

impl Thief {
    /// Takes the ticket at the front. Where another thread was faster nothing has changed, and it tries again after a
    /// pause: so it may wait. None comes only where the step of this call by which the pass's `dry` rose found the lane
    /// empty.
    pub fn steal<R: Wait>(&self, rt: &R, pass: &mut Pass) -> Option<u64>
        requires { pass.old.lane ≡ self.now.lane }
        ensures same { IsSamePass pass.old pass.new }
        ensures taken { MatchOption result (pass.new ≡ record pass.old { dry = pass.old.dry + 1 })
            (λ ticket. pass.new ≡ record pass.old { got = pass.old.got ++ ticket ∷ [] }) }
    {
        for _ in rt.forever() {
            match pass.token.steal::<Take, _>(&self.stealer) {
                Steal::Success(ticket) => return Some(ticket),
                Steal::Empty => return None,
                Steal::Retry => spin_loop(),
            }
        }
        unreachable!()
    }

    /// Another thief of the same lane.
    pub fn share(&self, alloc: Global) -> Result<Thief, Memory>
        ensures { IfOk result (λ thief. thief ≡ self.now) }
    {
        let _ = alloc;
        Ok(Thief {
            stealer: self.stealer.clone()?,
        })
    }
}
