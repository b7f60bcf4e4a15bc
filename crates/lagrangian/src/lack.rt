ghost use Rattle.std.specs.Prelude.{◌≤◌, MatchOption};
ghost use Rattle.tqd_instance.specs.Job.{suppliers};
ghost use Rattle.interval_box.specs.Ranges.{IsBoxOf};
ghost use Rattle.lagrangian.specs.Repair.{HasRoomFor};
ghost use Rattle.lagrangian.specs.Limits.{AreLimits};

use crate::totals::{Limits, highs, lows};
use interval_box::IntervalBox;
use tqd_instance::Job;

/// Why a single box has no room for a feasible purchase.
#[derive(Clone, Copy, Debug)]
pub(crate) enum Lack {
    /// Its lows come to so many units more than may be bought.
    TooMany(u64),
    /// Its highs come to so many units less than are needed; `full` where no supplier more may win.
    TooFew { want: u64, full: bool },
    ManyWinners,
    FewWinners,
}

/// What a single box lacks, or none exactly where it has room.
#[tactic(auto, using(crate::proofs::Repairs::room))]
pub(crate) fn lack_of(job: &Job, limits: &Limits, single: &IntervalBox) -> Option<Lack>
    requires of_job { IsBoxOf job.now single.now }
    requires limits { AreLimits job.now limits.now }
    ensures { MatchOption result (HasRoomFor job.now single.now) (λ _. HasRoomFor job.now single.now → ⊥) }
{
    let lows = lows(job, single);
    if limits.mosts < lows {
        return Some(Lack::TooMany(lows - limits.mosts));
    }
    let highs = highs(job, limits, single);
    let (_least, most) = job.winners();
    if highs < limits.needs {
        return Some(Lack::TooFew {
            want: limits.needs - highs,
            full: most <= winners_of(job, single),
        });
    }
    if !single.winners_fail(job) {
        return None;
    }
    if most < winners_of(job, single) {
        Some(Lack::ManyWinners)
    } else {
        Some(Lack::FewWinners)
    }
}

/// How many suppliers win in a single box.
fn winners_of(job: &Job, single: &IntervalBox) -> u64
    requires { IsBoxOf job.now single.now }
    ensures { result ≤ suppliers job.now }
{
    let mut number = 0;
    for i in 0..job.suppliers() {
        if single.low_of(i) != 0 {
            number += 1;
        }
    }
    number
}
