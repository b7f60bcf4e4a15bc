ghost use Rattle.std.specs.Prelude.{◌≡◌, ◌≤◌};
ghost use Rattle.tqd_base.specs.MemoryCalls.{one_more};
ghost use Rattle.tqd_base.specs.World.{Rose};

// A count of faults after one more fault. It stands still at the greatest number.
pub fn risen(count: u64) -> u64
    ensures rose { Rose count result }
    ensures grows { count ≤ result }
    ensures exact { result ≡ one_more count }
{
    count.saturating_add(1)
}
