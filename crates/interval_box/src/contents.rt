ghost use Rattle.std.specs.Prelude.{ℕ, ◌≡◌, ◌<◌, IsTrue, ◌↔◌};
ghost use Rattle.tqd_instance.specs.Job.{suppliers};
ghost use Rattle.tqd_instance.specs.Plan.{units, IsSizedFor};
ghost use Rattle.interval_box.specs.Ranges.{IsBoxOf, PicksIn, IsIn, IsSingle};

use crate::boxes::IntervalBox;
use tqd_instance::{Job, Plan};

impl IntervalBox {
    /// Whether the purchase that a plan writes down is in the box: each supplier's total picks in its range.
    pub fn holds(&self, job: &Job, plan: &Plan) -> bool
        requires of_job { IsBoxOf job.now self.now }
        requires size { IsSizedFor job.now plan.now }
        ensures { IsTrue result ↔ IsIn job.now self.now (units plan.now) }
    {
        for i in 0..job.suppliers() {
            if !self.picks_in(job, plan, i) {
                return false;
            }
        }
        true
    }

    fn picks_in(&self, job: &Job, plan: &Plan, i: usize) -> bool
        requires size { IsSizedFor job.now plan.now }
        requires supplier { i < suppliers job.now }
        ensures { IsTrue result ↔ PicksIn job.now self.now (units plan.now) i }
    {
        match job.pick(i, job.total(plan, i)) {
            Some(j) => self.admits(i, j),
            None => false,
        }
    }

    /// Whether the range of each supplier has one number.
    pub fn is_single(&self, job: &Job) -> bool
        requires { IsBoxOf job.now self.now }
        ensures { IsTrue result ↔ IsSingle job.now self.now }
    {
        for i in 0..job.suppliers() {
            if self.low_of(i) != self.high_of(i) {
                return false;
            }
        }
        true
    }
}
