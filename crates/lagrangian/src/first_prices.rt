ghost use Rattle.std.specs.Prelude.{◌≡◌, ◌<◌, ◌≤◌, IfOk};
ghost use Rattle.tqd_base.specs.declared.limits.TheConstants.{PRICE_MAX};
ghost use Rattle.tqd_instance.specs.Job.{goods, suppliers};
ghost use Rattle.lagrangian.specs.Priced.{AreGoodPrices};

use std::alloc::Global;
use tqd_base::Memory;
use tqd_base::limits::PRICE_MAX;
use tqd_instance::Job;

/// The least price at which each good is sold, or the greatest price of all where nobody sells it.
pub(crate) fn first_prices(alloc: Global, job: &Job) -> Result<Vec<i64>, Memory>
    ensures { IfOk result (λ prices. AreGoodPrices job.now prices.items) }
{
    let mut prices = Vec::with_capacity(alloc, job.goods())?;
    for k in 0..job.goods() {
        prices.push(least_price(job, k) as i64)?;
    }
    Ok(prices)
}

fn least_price(job: &Job, k: usize) -> u64
    requires { k < goods job.now }
    ensures { result ≤ PRICE_MAX }
{
    let mut least = PRICE_MAX;
    for i in 0..job.suppliers() {
        if job.stock(i, k) > 0 {
            least = least.min(least_price_at(job, i, k));
        }
    }
    least
}

fn least_price_at(job: &Job, i: usize, k: usize) -> u64
    requires supplier { i < suppliers job.now }
    requires good { k < goods job.now }
    ensures { result ≤ PRICE_MAX }
{
    let mut least = PRICE_MAX;
    for j in 1..job.segments(i) + 1 {
        least = least.min(job.price(i, j, k));
    }
    least
}
