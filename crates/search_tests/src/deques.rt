//! Steps on a deque whose empty steps are counted.

use counted_deque::{CountedPass, CountedWorker};
use crossbeam_deque::Steal;
use crossbeam_deque::protocol::{Free, Join, Split};
use std::alloc::Global;
use std::test::Fail;

fn crosses_threads<T: Send>() {}

#[test]
fn counted_handles_cross_threads() {
    crosses_threads::<CountedWorker<u64, Global, (), Free>>();
    crosses_threads::<CountedPass<u64, (), Global>>();
}

// Cuts off and takes in a pass of which nothing is known.
struct Plain;

impl Split<()> for Plain {
    ghost left = { λ _. tt };

    ghost right = { λ _. tt };
}

impl Join<()> for Plain {
    ghost both = { λ _ _. tt };

    ghost spent = { tt };
}

#[test]
fn counted_steps_answer_as_the_deque_does(rt: HostRuntime) -> Result<(), Fail> {
    let mut worker: CountedWorker<u64, Global, (), Free> = CountedWorker::fifo_as(rt.alloc(), 2)?;
    let thief = worker.stealer()?;
    let mut pass = worker.another::<Plain>();
    let pushed = worker.push::<Free>(5);
    let stolen = pass.steal::<Free, _>(&thief);
    let none_to_steal = pass.steal::<Free, _>(&thief);
    let none_to_pop = worker.pop::<Free>();
    worker.absorb::<Plain>(pass);
    let none_to_steal_again = worker.release::<Plain>().steal::<Free, _>(&thief);
    assert!(rt; pushed.is_ok() && stolen == Steal::Success(5));
    assert!(rt; none_to_steal == Steal::Empty && none_to_pop.is_none());
    assert!(rt; none_to_steal_again == Steal::Empty);
    Ok(())
}
