ghost use Rattle.std.specs.Prelude.{◌≡◌, ◌≤◌, IsTrue, ◌↔◌};
ghost use Rattle.interval_box.specs.Ranges.{IsBoxOf};
ghost use Rattle.interval_box.specs.Winners.{sure_winners, possible_winners, WinnersFail};

use crate::boxes::IntervalBox;
use tqd_instance::Job;

impl IntervalBox {
    /// Whether no purchase in the box can meet the winner limits: more suppliers than the greatest number of winners have
    /// ranges without 0, or fewer than the least number have ranges that go above 0.
    pub fn winners_fail(&self, job: &Job) -> bool
        requires { IsBoxOf job.now self.now }
        ensures { IsTrue result ↔ WinnersFail job.now self.now }
    {
        let (least, most) = job.winners();
        most < self.sure_winners(job) || self.possible_winners(job) < least
    }

    #[tactic(auto, using(tqd_instance::proofs::SumLemmas::sums), unfolding(crate::specs::Winners::sure_winners, crate::specs::Winners::must_win))]
    fn sure_winners(&self, job: &Job) -> u64
        ensures { result ≡ sure_winners job.now self.now }
    {
        let mut number = 0;
        for i in 0..job.suppliers() {
            if self.low_of(i) != 0 {
                number += 1;
            }
        }
        number
    }

    #[tactic(auto, using(tqd_instance::proofs::SumLemmas::sums), unfolding(crate::specs::Winners::possible_winners, crate::specs::Winners::may_win))]
    fn possible_winners(&self, job: &Job) -> u64
        ensures { result ≡ possible_winners job.now self.now }
    {
        let mut number = 0;
        for i in 0..job.suppliers() {
            if self.high_of(i) != 0 {
                number += 1;
            }
        }
        number
    }
}
