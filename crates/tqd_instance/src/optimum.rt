//! What finds the least cost of a job.
ghost use Rattle.std.specs.Prelude.{IfOk};
ghost use Rattle.tqd_instance.specs.Optimum.{IsOptimum};

use crate::job::Job;
use std::alloc::Global;
use tqd_base::Memory;

/// A way to find what a least purchase of a job costs.
pub trait Optimum {
    /// The cost of a least purchase in millionths of the currency, or `None` where no purchase is feasible.
    fn least(&self, alloc: Global, job: &Job) -> Result<Option<u128>, Memory>
        ensures { IfOk result (IsOptimum job.now) };
}
