ghost use Rattle.std.specs.Prelude.{◌≡◌, ℕ, ◌+◌, ◌*◌, ◌<◌, ◌≤◌, ◌++◌, ◌∷◌, [], length, slice_index, IfOk};
ghost use Rattle.tqd_base.specs.declared.limits.TheConstants.{PRICE_MAX};
ghost use Rattle.mcf_lower.specs.declared.net.TheConstants.{NODES_MAX, ARCS_MAX};
ghost use Rattle.mcf_lower.specs.Net.{flow_max};
ghost use Rattle.tqd_instance.specs.Job.{goods, suppliers};
ghost use Rattle.interval_box.specs.Ranges.{IsBoxOf};
ghost use Rattle.bound_tree.specs.Value.{cap};
ghost use Rattle.box_bound.specs.BoxNet.{
  supplier_node,
  good_node,
  total_arc,
  need_arc,
  IsNetOf,
  HasMore,
  HasOffers,
};

use crate::least::{find_least_prices, greatest_total, least_total};
use interval_box::IntervalBox;
use mcf_lower::{Net, NetArc};
use std::alloc::Global;
use tqd_base::Memory;
use tqd_instance::Job;

/// The node from which all totals come and to which all that is bought goes.
const HUB: u32 = 0;

/// The node of a supplier.
pub(crate) fn supplier_node(job: &Job, i: usize) -> u32
    requires { i < suppliers job.now }
    ensures node { result ≡ supplier_node i }
    ensures within { result < 1 + suppliers job.now + goods job.now }
{
    prove!(i < job.suppliers());
    1 + i as u32
}

/// The node of a good.
pub(crate) fn good_node(job: &Job, k: usize) -> u32
    requires { k < goods job.now }
    ensures node { result ≡ good_node job.now k }
    ensures within { result < 1 + suppliers job.now + goods job.now }
{
    prove!(k < job.goods());
    (1 + job.suppliers() + k) as u32
}

/// How many nodes the net of a box has.
pub(crate) fn node_count(job: &Job) -> u32
    ensures value { result ≡ 1 + suppliers job.now + goods job.now }
    ensures few { result ≤ NODES_MAX }
{
    (1 + job.suppliers() + job.goods()) as u32
}

/// How many arcs the net of a box has.
fn arc_count(job: &Job) -> u32
    ensures value { result ≡ suppliers job.now + suppliers job.now * goods job.now + goods job.now }
    ensures few { result ≤ ARCS_MAX }
{
    let (suppliers, goods) = (job.suppliers(), job.goods());
    (suppliers + suppliers * goods + goods) as u32
}

/// Adds an arc of these ends, bounds in units and cost of a unit in millionths of the currency.
fn add(net: &mut Net, ends: (u32, u32), bounds: (u64, u64), cost: u64) -> Result<(), Memory>
    requires tail { ends.0 < net.old.nodes }
    requires head { ends.1 < net.old.nodes }
    requires ordered { bounds.0 ≤ bounds.1 }
    requires most { bounds.1 ≤ flow_max }
    requires cost { cost ≤ PRICE_MAX }
    requires few { length net.old.arcs < ARCS_MAX }
    ensures { IfOk result (λ _. net.new ≡ record net.old {
      arcs = net.old.arcs ++ (record {
        tail = ends.0;
        head = ends.1;
        low = bounds.0;
        cap = bounds.1;
        cost = cost;
      }) ∷ [];
    }) }
{
    net.add(NetArc {
        tail: ends.0,
        head: ends.1,
        low: bounds.0 as i64,
        cap: bounds.1 as i64,
        cost: cost as i64,
    })?;
    Ok(())
}

/// Adds the arcs of the suppliers' totals.
fn add_totals(net: &mut Net, job: &Job, area: &IntervalBox) -> Result<(), Memory>
    requires of_job { IsBoxOf job.now area.now }
    requires nodes { net.old.nodes ≡ 1 + suppliers job.now + goods job.now }
    requires arcs { length net.old.arcs ≡ 0 }
    ensures { IfOk result (λ _. HasMore net.old net.new (suppliers job.now) (total_arc job.now area.now)) }
{
    for i in 0..job.suppliers() {
        let bounds = (least_total(job, area, i), greatest_total(job, area, i));
        add(net, (HUB, supplier_node(job, i)), bounds, 0)?;
    }
    Ok(())
}

/// Adds the arcs from a supplier to the goods, at these prices.
fn add_row(net: &mut Net, job: &Job, prices: &[u64], i: usize) -> Result<(), Memory>
    requires supplier { i < suppliers job.now }
    requires prices { length prices.now ≡ goods job.now }
    requires cheap { (k : ℕ) → k < goods job.now → slice_index prices.now k ≤ PRICE_MAX }
    requires nodes { net.old.nodes ≡ 1 + suppliers job.now + goods job.now }
    requires arcs { length net.old.arcs ≤ suppliers job.now + i * goods job.now }
    ensures { IfOk result (λ _. HasMore net.old net.new (goods job.now) (λ k. record {
      tail = supplier_node i;
      head = good_node job.now k;
      low = 0;
      cap = cap job.now i k;
      cost = slice_index prices.now k;
    })) }
{
    for k in 0..job.goods() {
        let units = job.stock(i, k).min(job.most(k));
        let ends = (supplier_node(job, i), good_node(job, k));
        add(net, ends, (0, units), prices[k])?;
    }
    Ok(())
}

/// Adds the arcs from all suppliers to the goods, at the least prices of their ranges, which are found in `prices`.
fn add_offers(
    net: &mut Net,
    job: &Job,
    area: &IntervalBox,
    prices: &mut [u64],
) -> Result<(), Memory>
    requires of_job { IsBoxOf job.now area.now }
    requires nodes { net.old.nodes ≡ 1 + suppliers job.now + goods job.now }
    requires arcs { length net.old.arcs ≡ suppliers job.now }
    requires prices { length prices.old ≡ goods job.now }
    ensures { IfOk result (λ _. HasOffers job.now area.now net.old net.new (suppliers job.now)) }
{
    for i in 0..job.suppliers() {
        find_least_prices(prices, job, area, i);
        add_row(net, job, prices, i)?;
    }
    Ok(())
}

/// Adds the arcs of what is bought of the goods.
fn add_needs(net: &mut Net, job: &Job) -> Result<(), Memory>
    requires nodes { net.old.nodes ≡ 1 + suppliers job.now + goods job.now }
    requires arcs { length net.old.arcs ≡ suppliers job.now + suppliers job.now * goods job.now }
    ensures { IfOk result (λ _. HasMore net.old net.new (goods job.now) (need_arc job.now)) }
{
    for k in 0..job.goods() {
        let bounds = (job.need(k), job.most(k));
        add(net, (good_node(job, k), HUB), bounds, 0)?;
    }
    Ok(())
}

/// The net whose circulations are the relaxed purchases of a box.
pub(crate) fn net_of(alloc: Global, job: &Job, area: &IntervalBox) -> Result<Net, Memory>
    requires { IsBoxOf job.now area.now }
    ensures { IfOk result (λ net. IsNetOf job.now area.now net) }
{
    let mut net = Net::with_room(alloc, node_count(job), arc_count(job))?;
    add_totals(&mut net, job, area)?;
    let mut prices = vec![in alloc; 0u64; job.goods()]?;
    add_offers(&mut net, job, area, &mut prices)?;
    add_needs(&mut net, job)?;
    Ok(net)
}
