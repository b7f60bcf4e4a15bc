ghost use Rattle.std.specs.Prelude.{◌≡◌, ◌+◌, ◌*◌, ◌<◌, ◌≤◌, ◌++◌, IfOk, OnOk};
ghost use Rattle.tqd_base.specs.Sum.{sum_to};
ghost use Rattle.tqd_base.specs.declared.limits.TheConstants.{GOODS_MAX, QTY_MAX, SUPPLIERS_MAX};
ghost use Rattle.tqd_instance.specs.Built.{table};
ghost use Rattle.order_gen.specs.Draws.{first_state, state_after};
ghost use Rattle.order_gen.specs.GenParts.{
  drawn_need,
  parts_from,
  HasPurchase,
  IsGenJob,
};

use crate::draws::Draws;
use crate::offers::{Starts, draw_supplier};
use std::alloc::Global;
use tqd_base::{Memory, Stop};
use tqd_instance::{Job, JobParts};

/// The job that the generator makes from a seed, with 1 to 1,000 goods and 1 to 64 suppliers. Each supplier offers each
/// good in three intervals, there are no terms, and some purchase is feasible.
pub fn make_job(alloc: Global, seed: u64, goods: u64, suppliers: u64) -> Result<Job, Memory>
    requires some_goods { 1 ≤ goods }
    requires few_goods { goods ≤ GOODS_MAX }
    requires some_suppliers { 1 ≤ suppliers }
    requires few_suppliers { suppliers ≤ SUPPLIERS_MAX }
    ensures job { IfOk result (λ job. IsGenJob seed goods suppliers job) }
    ensures purchase { IfOk result (λ job. HasPurchase job) }
{
    let parts = make_parts(alloc, seed, goods, suppliers)?;
    match Job::build(alloc, &parts) {
        Ok(job) => Ok(job),
        Err(Stop::Memory) => Err(Memory),
        Err(Stop::Refused(_)) => unreachable!(),
    }
}

/// The parts of that job: the needs, and the offers of each supplier.
fn make_parts(alloc: Global, seed: u64, goods: u64, suppliers: u64) -> Result<JobParts, Memory>
    requires few_goods { goods ≤ GOODS_MAX }
    requires some_suppliers { 1 ≤ suppliers }
    requires few_suppliers { suppliers ≤ SUPPLIERS_MAX }
    ensures { IfOk result (λ parts. parts ≡ parts_from (first_state seed) goods suppliers) }
{
    let mut parts = JobParts::new(alloc, suppliers as u32)?;
    let mut draws = Draws::new(seed);
    let sum = draw_needs(&mut parts, &mut draws, goods)?;
    let starts = Starts::by(sum, suppliers);
    for supplier in 0..suppliers as u32 {
        draw_supplier(&mut parts, &mut draws, supplier, &starts, goods as u32)?;
    }
    Ok(parts)
}

/// Draws the need of each good, and gives their sum.
fn draw_needs(parts: &mut JobParts, draws: &mut Draws, goods: u64) -> Result<u64, Memory>
    requires { goods ≤ GOODS_MAX }
    ensures parts { OnOk result (parts.new
        ≡ record parts.old { needs = parts.old.needs ++ table goods (drawn_need draws.old.state) }) }
    ensures draws { OnOk result (draws.new.state ≡ state_after draws.old.state goods) }
    ensures sum { IfOk result (λ sum. sum ≡ sum_to goods (drawn_need draws.old.state)) }
    ensures within { IfOk result (λ sum. sum ≤ goods * 1000) }
{
    let mut sum = 0;
    for _ in 0..goods {
        let need = 1 + draws.below(1_000);
        parts.add_need(need)?;
        sum += need;
    }
    Ok(sum)
}
