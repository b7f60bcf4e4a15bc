//! What follows from the definitions alone: functions without a body that computes, whose contracts are the laws.
ghost use Rattle.std.specs.Prelude.{ℕ, ◌≡◌, ◌≤◌, ◌<◌, List, Option, None, Some, slice_index_or};
ghost use Rattle.scenarios.specs.Costs.{table_size, IsWinnerTable};
ghost use Rattle.tqd_instance.specs.Change.{HasMostWinners};
ghost use Rattle.tqd_instance.specs.Optimum.{IsNoDearer};
ghost use Rattle.tqd_instance.specs.declared.job.Job.{Job};

use tqd_instance::Job;

/// What is feasible with a greatest number of winners is feasible with each greater one, and costs the same there.
pub fn more_winners_are_no_dearer(_job: &Job)
    ensures { (m n : ℕ) (a b : Job) → m ≤ n → HasMostWinners m _job.now a → HasMostWinners n _job.now b → IsNoDearer a b }
{}

/// In a winner table an entry that has a cost is followed by entries that have one, which is no greater.
pub fn costs_never_rise_with_the_winners(_job: &Job)
    ensures { (costs : List (Option ℕ)) → IsWinnerTable _job.now costs → (p q c : ℕ) → p ≤ q → q < table_size _job.now
        → slice_index_or costs p None ≡ Some c → (d : ℕ) × ((slice_index_or costs q None ≡ Some d) × (d ≤ c)) }
{}
