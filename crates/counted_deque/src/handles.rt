// The two handles of a deque whose empty steps are counted.
ghost use Rattle.std.specs.Prelude.{◌≡◌};
ghost use Rattle.crossbeam_deque.specs.Handles.{worker_flavor};

use crate::dry::Dry;
use crossbeam_deque::protocol::Protocol;
use crossbeam_deque::{Pass, Worker};
use std::alloc::Allocator;

/// The owner's handle of a first-in first-out deque, with a count of its pops that found the deque empty.
///
/// It is made with its deque, once, and lends its worker to nobody. The count begins at 0, has no greatest value, and
/// contracts alone see it. Beside it stands the count of the passes that the owner took in and has not handed back.
#[derive(Drop)]
pub struct CountedWorker<T, A: Allocator, V, P: Protocol<T, V>> {
    pub(crate) worker: Worker<T, A, V, P>,
    pub(crate) dry: Dry,
    pub(crate) held: Dry,
    ghost fifo: { worker_flavor worker ≡ 0 },
}

/// What one thread knows of such a deque, with a count of its steals that found the deque empty. It has no bytes.
#[derive(Drop)]
pub struct CountedPass<T, V, A: Allocator> {
    pub(crate) token: Pass<T, V, A>,
    pub(crate) dry: Dry,
}
