ghost use Rattle.std.specs.Prelude.{◌≡◌, ◌<◌, ◌≤◌, ◌*◌, ◌^◌};
ghost use Rattle.tqd_base.specs.declared.limits.TheConstants.{QTY_MAX};
ghost use Rattle.tqd_instance.specs.Job.{suppliers, segments, low, high};
ghost use Rattle.interval_box.specs.Ranges.{IsBoxOf};
ghost use Rattle.lagrangian.specs.Repair.{needs, mosts, caps, lows, highs};
ghost use Rattle.lagrangian.specs.Limits.{AreLimits};

use crate::gather::cap_of;
use interval_box::IntervalBox;
use tqd_instance::Job;

/// What the totals of a job's boxes are held against, in units: the needs and the mosts of all goods, and the most that
/// each supplier can sell.
#[derive(Clone, Copy, Debug)]
pub struct Limits {
    pub needs: u64,
    pub mosts: u64,
    pub caps: [u64; 64],
}

impl Limits {
    /// The limits of a job. It takes no memory.
    pub fn of(job: &Job) -> Limits
        ensures { AreLimits job.now result }
    {
        let mut caps = [0; 64];
        for i in 0..job.suppliers() {
            caps[i] = caps_of(job, i);
        }
        Limits {
            needs: needs_of(job),
            mosts: mosts_of(job),
            caps,
        }
    }
}

#[tactic(auto, using(tqd_instance::proofs::SumLemmas::sums), unfolding(crate::specs::Repair::needs))]
fn needs_of(job: &Job) -> u64
    ensures value { result ≡ needs job.now }
    ensures within { result ≤ 1000 * QTY_MAX }
{
    let mut sum = 0;
    for k in 0..job.goods() {
        sum += job.need(k);
    }
    sum
}

#[tactic(auto, using(tqd_instance::proofs::SumLemmas::sums), unfolding(crate::specs::Repair::mosts))]
fn mosts_of(job: &Job) -> u64
    ensures value { result ≡ mosts job.now }
    ensures within { result ≤ 64000 * QTY_MAX }
{
    let mut sum = 0;
    for k in 0..job.goods() {
        sum += job.most(k);
    }
    sum
}

#[tactic(auto, using(tqd_instance::proofs::SumLemmas::sums), unfolding(crate::specs::Repair::caps))]
fn caps_of(job: &Job, i: usize) -> u64
    requires { i < suppliers job.now }
    ensures value { result ≡ caps job.now i }
    ensures within { result ≤ 1000 * QTY_MAX }
{
    let mut sum = 0;
    for k in 0..job.goods() {
        sum += cap_of(job, i, k);
    }
    sum
}

/// The least total in a segment, and 0 in segment 0.
pub fn low_at(job: &Job, i: usize, j: u8) -> u64
    requires supplier { i < suppliers job.now }
    requires segment { j ≤ segments job.now i }
    ensures value { result ≡ low job.now i j }
    ensures within { result ≤ QTY_MAX }
{
    if j == 0 {
        return 0;
    }
    prove!(job.low(i, j) <= job.high(i, j));
    job.low(i, j)
}

/// The greatest total in a segment, and 0 in segment 0.
pub fn high_at(job: &Job, i: usize, j: u8) -> u64
    requires supplier { i < suppliers job.now }
    requires segment { j ≤ segments job.now i }
    ensures value { result ≡ high job.now i j }
    ensures within { result ≤ QTY_MAX }
{
    if j == 0 {
        return 0;
    }
    job.high(i, j)
}

/// The least units that a purchase in a box takes, from all suppliers.
#[tactic(auto, using(tqd_instance::proofs::SumLemmas::sums), unfolding(crate::specs::Repair::lows))]
pub fn lows(job: &Job, area: &IntervalBox) -> u64
    requires { IsBoxOf job.now area.now }
    ensures value { result ≡ lows job.now area.now }
    ensures within { result ≤ 64 * QTY_MAX }
{
    let mut sum = 0;
    for i in 0..job.suppliers() {
        sum += low_at(job, i, area.low_of(i));
    }
    sum
}

/// The most units that a purchase in a box can take, from all suppliers: of each no more than it can sell.
#[tactic(auto, using(tqd_instance::proofs::SumLemmas::sums), unfolding(crate::specs::Repair::highs))]
pub fn highs(job: &Job, limits: &Limits, area: &IntervalBox) -> u64
    requires of_job { IsBoxOf job.now area.now }
    requires limits { AreLimits job.now limits.now }
    ensures value { result ≡ highs job.now area.now }
    ensures within { result ≤ 64 * QTY_MAX }
{
    let mut sum = 0;
    for i in 0..job.suppliers() {
        sum += high_at(job, i, area.high_of(i)).min(limits.caps[i]);
    }
    sum
}
