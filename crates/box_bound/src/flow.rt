ghost use Rattle.std.specs.Prelude.{◌≡◌, ℕ, ◌+◌, ◌*◌, ◌^◌, ◌<◌, ◌≤◌, length, slice_index, IfOk};
ghost use Rattle.tqd_base.specs.declared.limits.TheConstants.{QTY_MAX};
ghost use Rattle.tqd_base.specs.Sum.{sum_to};
ghost use Rattle.mcf_lower.specs.Circulation.{cost};
ghost use Rattle.mcf_lower.specs.Answers.{IsFlow, units_of};
ghost use Rattle.tqd_instance.specs.Job.{goods, suppliers};
ghost use Rattle.tqd_instance.specs.Plan.{units, IsSizedFor};
ghost use Rattle.box_bound.specs.Relaxed.{sure_fee};
ghost use Rattle.box_bound.specs.BoxNet.{offer_place};

use interval_box::IntervalBox;
use mcf_lower::{FlowList, Net};
use std::alloc::Global;
use tqd_base::Memory;
use tqd_instance::{Job, Plan};

/// Makes what a plan buys from a supplier what the supplier's arcs carry.
fn set_row(plan: &mut Plan, job: &Job, flow: &FlowList, i: usize)
    requires size { IsSizedFor job.now plan.old }
    requires supplier { i < suppliers job.now }
    requires arcs { length flow.now ≡ suppliers job.now + (suppliers job.now * goods job.now + goods job.now) }
    requires within { (k : ℕ) → k < goods job.now → slice_index flow.now (offer_place job.now i k) ≤ QTY_MAX }
    ensures size { IsSizedFor job.now plan.new }
    ensures row { (k : ℕ) → k < goods job.now → units plan.new i k ≡ slice_index flow.now (offer_place job.now i k) }
    ensures others { (a k : ℕ) → k < goods job.now → (a ≡ i → ⊥) → units plan.new a k ≡ units plan.old a k }
{
    let first = job.suppliers() + i * job.goods();
    for k in 0..job.goods() {
        plan.set(i, k, flow.get((first + k) as u32) as u64);
    }
}

/// The plan that a flow carries.
pub(crate) fn plan_of(alloc: Global, job: &Job, flow: &FlowList) -> Result<Plan, Memory>
    requires arcs { length flow.now ≡ suppliers job.now + (suppliers job.now * goods job.now + goods job.now) }
    requires within { (i k : ℕ) → i < suppliers job.now → k < goods job.now
        → slice_index flow.now (offer_place job.now i k) ≤ QTY_MAX }
    ensures size { IfOk result (λ plan. IsSizedFor job.now plan) }
    ensures units { IfOk result (λ plan. (i k : ℕ) → i < suppliers job.now → k < goods job.now
        → units plan i k ≡ slice_index flow.now (offer_place job.now i k)) }
{
    let mut plan = Plan::zero(alloc, job.suppliers(), job.goods())?;
    for i in 0..job.suppliers() {
        set_row(&mut plan, job, flow, i);
    }
    Ok(plan)
}

/// What a flow costs, in millionths of the currency.
pub(crate) fn flow_cost(net: &Net, flow: &FlowList) -> u128
    requires { IsFlow net.now flow.now }
    ensures value { result ≡ cost net.now (units_of flow.now) }
    ensures within { result ≤ 10 ^ 27 }
{
    let mut sum = 0;
    for a in 0..net.arcs() {
        sum += net.arc(a).cost as u128 * flow.get(a) as u128;
    }
    sum
}

/// The fees of the suppliers from which something has to be bought, in millionths of the currency.
pub(crate) fn sure_fees(job: &Job, area: &IntervalBox) -> u64
    ensures value { result ≡ sum_to (suppliers job.now) (sure_fee job.now area.now) }
    ensures within { result ≤ 10 ^ 14 }
{
    let mut sum = 0;
    for i in 0..job.suppliers() {
        if area.low_of(i) != 0 {
            sum += job.fee(i);
        }
    }
    sum
}
