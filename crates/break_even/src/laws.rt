//! What follows from the definitions alone: functions without a body that computes, whose contracts are the laws.
ghost use Rattle.std.specs.Prelude.{ℕ, ◌<◌, ◌≤◌};
ghost use Rattle.tqd_instance.specs.Change.{HasCutPrices};
ghost use Rattle.tqd_instance.specs.Job.{suppliers};
ghost use Rattle.tqd_instance.specs.Optimum.{IsLeastCost, IsNoDearer};
ghost use Rattle.tqd_instance.specs.declared.job.Job.{Job};

use tqd_instance::Job;

/// What is feasible under a cut of a supplier's prices is feasible under each greater one, and costs no more.
pub fn greater_cuts_are_no_dearer(_job: &Job)
    ensures { (i c d : ℕ) (a b : Job) → i < suppliers _job.now → c ≤ d → HasCutPrices i c _job.now a → HasCutPrices i d _job.now b
        → IsNoDearer a b }
{}

/// So the least cost never rises as the cut rises.
pub fn costs_never_rise_with_the_cut(_job: &Job)
    ensures { (i c d : ℕ) (a b : Job) → i < suppliers _job.now → c ≤ d → HasCutPrices i c _job.now a → HasCutPrices i d _job.now b
        → (m n : ℕ) → IsLeastCost a m → IsLeastCost b n → n ≤ m }
{}
