// How the owner cuts passes off and takes them in, in the words of the deque. The count of the owner's own pops stays.
ghost use Rattle.std.specs.Prelude.{◌≡◌, ◌+◌, ◌<◌, ◌≤◌, true, false, []};
ghost use Rattle.counted_deque.specs.Counted.{owner_deque, owner_view, owner_index, SameOwner};
ghost use Rattle.counted_deque.specs.Counted.{dry_pops, held_steals, SameCounts};
ghost use Rattle.counted_deque.specs.Counted.{pass_view, dry_steals, IsCountedPassOf};
ghost use Rattle.steal_pool.specs.LaneAccount.{fresh, spent, holding, keeping, released, regained, parted};

use crate::account::{Blank, Cut, Hold, LaneWorker, Open, Portion, Release, Token};

// The first pass.
pub fn open<N: Portion>(worker: &mut LaneWorker, _parts: u64) -> Token
    requires owns { (owner_view worker.old).owns ≡ true }
    requires none { ((owner_view worker.old).parts ≡ 0) × ((owner_view worker.old).whole ≡ 0) }
    requires portion { (1 ≤ _parts) × (N.parts ≡ _parts) }
    ensures same { SameOwner worker.old worker.new × (owner_index worker.new ≡ owner_index worker.old) }
    ensures pass { IsCountedPassOf (owner_deque worker.old) result }
    ensures owner { owner_view worker.new ≡ parted _parts (owner_view worker.old) }
    ensures view { pass_view result ≡ fresh _parts }
    ensures counts { (dry_steals result ≡ 0) × SameCounts worker.old worker.new }
{
    worker.another::<Open<N>>()
}

pub fn cut<N: Portion>(worker: &mut LaneWorker, _parts: u64) -> Token
    requires owns { (owner_view worker.old).owns ≡ true }
    requires parts { (1 ≤ _parts) × (_parts < (owner_view worker.old).parts) }
    requires portion { N.parts ≡ _parts }
    ensures same { SameOwner worker.old worker.new × (owner_index worker.new ≡ owner_index worker.old) }
    ensures pass { IsCountedPassOf (owner_deque worker.old) result }
    ensures owner { owner_view worker.new ≡ keeping _parts (owner_view worker.old) }
    ensures view { pass_view result ≡ fresh _parts }
    ensures counts { (dry_steals result ≡ 0) × SameCounts worker.old worker.new }
{
    worker.another::<Cut<N>>()
}

pub fn release(worker: &mut LaneWorker) -> Token
    requires owns { (owner_view worker.old).owns ≡ true }
    requires parts { 1 ≤ (owner_view worker.old).parts }
    ensures same { SameOwner worker.old worker.new × (owner_index worker.new ≡ owner_index worker.old) }
    ensures pass { IsCountedPassOf (owner_deque worker.old) result }
    ensures owner { owner_view worker.new ≡ released (owner_view worker.old) }
    ensures view { pass_view result ≡ regained (owner_view worker.old) }
    ensures counts { (dry_steals result ≡ held_steals worker.old) × (held_steals worker.new ≡ 0) }
    ensures dry { dry_pops worker.new ≡ dry_pops worker.old }
{
    worker.release::<Release>()
}

// A pass that stands in the place of one that the owner holds.
pub fn blank(worker: &mut LaneWorker) -> Token
    requires owns { (owner_view worker.old).owns ≡ true }
    ensures same { SameOwner worker.old worker.new × (owner_index worker.new ≡ owner_index worker.old) }
    ensures pass { IsCountedPassOf (owner_deque worker.old) result }
    ensures owner { owner_view worker.new ≡ owner_view worker.old }
    ensures view { pass_view result ≡ spent }
    ensures counts { (dry_steals result ≡ 0) × SameCounts worker.old worker.new }
{
    worker.another::<Blank>()
}

pub fn hold(worker: &mut LaneWorker, token: Token)
    requires owns { (owner_view worker.old).owns ≡ true }
    requires table { IsCountedPassOf (owner_deque worker.old) token }
    requires pass { ((pass_view token).owns ≡ false) × ((pass_view token).held ≡ []) }
    ensures same { SameOwner worker.old worker.new × (owner_index worker.new ≡ owner_index worker.old) }
    ensures view { owner_view worker.new ≡ holding (owner_view worker.old) (pass_view token) }
    ensures counts { held_steals worker.new ≡ held_steals worker.old + dry_steals token }
    ensures dry { dry_pops worker.new ≡ dry_pops worker.old }
{
    worker.absorb::<Hold>(token);
}
