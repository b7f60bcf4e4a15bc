//! The job with one change.
ghost use Rattle.std.specs.Prelude.{◌<◌, ◌≤◌, IfOk};
ghost use Rattle.tqd_instance.specs.Change.{HasCutPrices, HasMostWinners};
ghost use Rattle.tqd_instance.specs.Job.{least_winners, suppliers};

use crate::job::Job;
use std::alloc::Global;
use tqd_base::Memory;
use tqd_base::limits::SUPPLIERS_MAX;

impl Job {
    /// The job whose greatest number of winners is `most`, from the job's least number of winners to 64. All else is as in this job.
    pub fn with_most_winners(&self, alloc: Global, most: u64) -> Result<Job, Memory>
        requires ordered { least_winners self.now ≤ most }
        requires few { most ≤ SUPPLIERS_MAX }
        ensures { IfOk result (HasMostWinners most self.now) }
    {
        let (least, _) = self.winners();
        let needs = self.needs().copy(alloc)?;
        let mosts = self.mosts().copy(alloc)?;
        let suppliers = self.sellers().copy(alloc)?;
        Ok(Job::of(needs, mosts, suppliers, least, most))
    }

    /// The job in which each price of a supplier is less by `cut` thousandths of it, 0 to 1,000, rounded down to a millionth of
    /// the currency. Fees and all else are as in this job.
    pub fn cut_prices(&self, alloc: Global, i: usize, cut: u64) -> Result<Job, Memory>
        requires supplier { i < suppliers self.now }
        requires share { cut ≤ 1000 }
        ensures { IfOk result (HasCutPrices i cut self.now) }
    {
        let (least, greatest) = self.winners();
        let needs = self.needs().copy(alloc)?;
        let mosts = self.mosts().copy(alloc)?;
        let suppliers = self.sellers().cut(alloc, i, cut)?;
        Ok(Job::of(needs, mosts, suppliers, least, greatest))
    }
}
