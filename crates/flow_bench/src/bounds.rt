//! The bound of the root of a made job.

ghost use Rattle.std.specs.Prelude.{IfSome};
ghost use Rattle.bound_tree.specs.Prices.{Fits};
ghost use Rattle.interval_box.specs.Ranges.{IsBoxOf};
ghost use Rattle.box_bound.specs.Bounded.{IsBounded};

use bound_tree::Row;
use box_bound::Bounded;
use interval_box::IntervalBox;
use order_gen::make_job;
use std::alloc::Global;
use tqd_base::Memory;
use tqd_instance::Job;

/// How many suppliers and goods the job has; each supplier has three intervals.
pub const SUPPLIERS: u64 = 64;

pub const GOODS: u64 = 1_000;

const SEED: u64 = 11;

/// The job of a seed.
pub fn made_job(alloc: Global) -> Result<Job, Memory> {
    make_job(alloc, SEED, GOODS, SUPPLIERS)
}

/// Whether the relaxed cost of a bound is what its row shows that none is below.
pub fn is_tight(job: &Job, area: &IntervalBox, bounded: &Bounded) -> bool
    requires of_job { IsBoxOf job.now area.now }
    requires bounded { IsBounded job.now area.now bounded.now }
{
    match bounded {
        Bounded::Flow {
            plan: _plan,
            relaxed,
            row,
        } => i128::try_from(*relaxed) == Ok(row.value(job, area)),
        Bounded::Empty(_row) => false,
    }
}

/// The row of prices of a bound, if the box has a relaxed purchase.
pub fn row_of(_job: &Job, _area: &IntervalBox, bounded: Bounded) -> Option<Row>
    requires { IsBounded _job.now _area.now bounded }
    ensures { IfSome result (λ row. Fits _job.now _area.now row) }
{
    match bounded {
        Bounded::Flow {
            plan: _plan,
            relaxed: _relaxed,
            row,
        } => Some(row),
        Bounded::Empty(_row) => None,
    }
}
