//! What follows from the definitions alone: functions without a body that computes, whose contracts are the laws.
ghost use Rattle.std.specs.Prelude.{List, ℕ, ◌<◌, ◌≤◌, ◌≡◌, ◌↔◌};
ghost use Rattle.tqd_instance.specs.Job.{suppliers};
ghost use Rattle.tqd_instance.specs.InRange.{IsInRange};
ghost use Rattle.tqd_instance.specs.Parts.{AreFroms, IsWellFormed};
ghost use Rattle.tqd_instance.specs.Built.{IsJobOf};
ghost use Rattle.tqd_instance.specs.declared.job.Job.{Job};
ghost use Rattle.tqd_instance.specs.Picks.{PicksWhereItLies};
ghost use Rattle.tqd_instance.specs.Same.{HasSameNumbers};
ghost use Rattle.tqd_instance.specs.Optimum.{IsCheaper, IsLeastCost, IsNoDearer};

use crate::job::Job;
use crate::parts::JobParts;

/// The numbers of every job are within the limits, and each segment begins where the one before ends.
pub fn job_is_in_range(_job: &Job)
    ensures { IsInRange _job.now }
{}

/// A total selects the segment in which it lies, which is one alone, and none exactly where it lies in none.
pub fn total_picks_where_it_lies(_job: &Job)
    ensures { (i total : ℕ) → i < suppliers _job.now → PicksWhereItLies _job.now i total }
{}

/// The numbers at which the intervals of a supplier begin are one list.
pub fn intervals_begin_at_one_list(_parts: &JobParts)
    ensures { (i : ℕ) (a b : List ℕ) → AreFroms _parts.now i a → AreFroms _parts.now i b → a ≡ b }
{}

/// There is such a list for each supplier of well-formed parts, so that no word about it speaks of nothing.
pub fn intervals_of_a_supplier_begin_somewhere(_parts: &JobParts)
    ensures { IsWellFormed _parts.now → (i : ℕ) → (froms : List ℕ) × AreFroms _parts.now i froms }
{}

/// Well-formed parts describe at most one job.
pub fn parts_describe_one_job(_parts: &JobParts)
    ensures { IsWellFormed _parts.now → (a b : Job) → IsJobOf _parts.now a → IsJobOf _parts.now b → a ≡ b }
{}

/// Two jobs are equal exactly where all their numbers are: so `Job::same` compares these.
pub fn equal_numbers_make_jobs_equal()
    ensures { (a b : Job) → (a ≡ b) ↔ HasSameNumbers a b }
{}

/// What is feasible in a job is feasible, and costs no more, in one that asks for the same at prices and fees that are no
/// higher and within winner limits that are no narrower.
pub fn cheaper_jobs_are_no_dearer()
    ensures { (a b : Job) → IsCheaper a b → IsNoDearer a b }
{}

/// So the least cost of that job is no higher.
pub fn least_costs_are_no_higher()
    ensures { (a b : Job) → IsNoDearer a b → (c d : ℕ) → IsLeastCost a c → IsLeastCost b d → d ≤ c }
{}
