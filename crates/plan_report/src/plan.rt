ghost use Rattle.std.specs.Prelude.{◌≡◌, ◌*◌, ◌<◌, ◌≤◌, ◌++◌, All, length, IfOk, OnOk, IsSome, Some};
ghost use Rattle.tqd_base.specs.declared.limits.TheConstants.{GOODS_MAX, QTY_MAX, PRICE_MAX};
ghost use Rattle.tqd_instance.specs.Job.{goods as job_goods, suppliers as job_suppliers, pick, segments};
ghost use Rattle.tqd_instance.specs.Plan.{units, IsSizedFor};
ghost use Rattle.tqd_instance.specs.Feasible.{Feasible, HasPick};
ghost use Rattle.tqd_instance.specs.Cost.{cost, goods_cost, selected};
ghost use Rattle.plan_report.specs.Lines.{texts_to};
ghost use Rattle.plan_report.specs.Named.{name_at, good_at};
ghost use Rattle.plan_report.specs.PlanText.{buy_line, buy_text, fee_text, plan_text, supplier_text};

use crate::names::Names;
use crate::text::add_line;
use bom_reader::NameList;
use money::{write_cost, write_count};
use std::alloc::Global;
use tqd_base::Memory;
use tqd_instance::{Job, Plan, Standing};

// The segment that a total above 0 selects.
fn segment_of(job: &Job, i: usize, total: u64) -> u8
    requires supplier { i < job_suppliers job.now }
    requires some { 1 ≤ total }
    requires picked { IsSome (pick job.now i total) }
    ensures value { pick job.now i total ≡ Some result }
    ensures some { 1 ≤ result }
    ensures in_range { result ≤ segments job.now i }
{
    job.pick(i, total).unwrap()
}

// The cost of what a plan buys from a supplier, without the fee, at the prices of the segment that its total selects.
#[tactic(auto, using(tqd_instance::proofs::SumLemmas::sums), unfolding(tqd_instance::specs::Cost::goods_cost))]
fn goods_cost(job: &Job, plan: &Plan, i: usize, segment: u8) -> u128
    requires size { IsSizedFor job.now plan.now }
    requires supplier { i < job_suppliers job.now }
    requires some { 1 ≤ segment }
    requires segment { segment ≤ segments job.now i }
    requires selected { selected job.now (units plan.now) i ≡ segment }
    ensures value { result ≡ goods_cost job.now (units plan.now) i }
    ensures within { result ≤ GOODS_MAX * (QTY_MAX * PRICE_MAX) }
{
    let mut sum = 0;
    for k in 0..job.goods() {
        sum += u128::from(plan.get(i, k)) * u128::from(job.price(i, segment, k));
    }
    sum
}

// What is bought of a good from a supplier, where anything is.
#[tactic(auto, unfolding(crate::specs::PlanText::buy_line))]
fn add_buy(
    alloc: Global,
    text: &mut Vec<u8>,
    part: &str,
    units: u64,
    price: u64,
) -> Result<(), Memory>
    requires units { units ≤ QTY_MAX }
    requires price { price ≤ PRICE_MAX }
    ensures { OnOk result (text.new.items ≡ text.old.items ++ buy_line part.now units price) }
{
    if units == 0 {
        return Ok(());
    }
    let count = write_count(alloc, u128::from(units))?;
    let one = write_cost(alloc, u128::from(price))?;
    let all = write_cost(alloc, u128::from(units) * u128::from(price))?;
    add_line(text, "buy", &[part.as_bytes(), &count, &one, &all])
}

// What is bought of each good from a supplier.
#[tactic(auto, using(crate::proofs::Texts::texts), unfolding(crate::specs::PlanText::buy_text))]
fn add_buys(
    alloc: Global,
    text: &mut Vec<u8>,
    job: &Job,
    plan: &Plan,
    names: &Names<'_>,
    i: usize,
    segment: u8,
) -> Result<(), Memory>
    requires size { IsSizedFor job.now plan.now }
    requires supplier { i < job_suppliers job.now }
    requires some { 1 ≤ segment }
    requires segment { segment ≤ segments job.now i }
    requires selected { selected job.now (units plan.now) i ≡ segment }
    requires goods { length names.now.goods.now ≡ job_goods job.now }
    requires named { All (λ n. n < length names.now.names.now) names.now.goods.now }
    ensures { OnOk result (text.new.items ≡ text.old.items
        ++ texts_to (job_goods job.now) (buy_text job.now (units plan.now) (good_at names.now.names.now names.now.goods.now) i)) }
{
    for k in 0..job.goods() {
        let price = job.price(i, segment, k);
        add_buy(alloc, text, names.good(k), plan.get(i, k), price)?;
    }
    Ok(())
}

// The fee of a supplier, where it has one.
#[tactic(auto, unfolding(crate::specs::PlanText::fee_text))]
fn add_fee(alloc: Global, text: &mut Vec<u8>, job: &Job, i: usize) -> Result<(), Memory>
    requires { i < job_suppliers job.now }
    ensures { OnOk result (text.new.items ≡ text.old.items ++ fee_text job.now i) }
{
    let fee = job.fee(i);
    if fee == 0 {
        return Ok(());
    }
    let amount = write_cost(alloc, u128::from(fee))?;
    add_line(text, "fee", &[&amount])
}

// What is bought from a supplier, where anything is.
#[tactic(auto, using(crate::proofs::Texts::appends), unfolding(crate::specs::PlanText::supplier_text, tqd_instance::specs::Cost::selected))]
fn add_supplier(
    alloc: Global,
    text: &mut Vec<u8>,
    job: &Job,
    plan: &Plan,
    names: &Names<'_>,
    i: usize,
) -> Result<(), Memory>
    requires size { IsSizedFor job.now plan.now }
    requires supplier { i < job_suppliers job.now }
    requires picked { HasPick job.now (units plan.now) i }
    requires goods { length names.now.goods.now ≡ job_goods job.now }
    requires named { All (λ n. n < length names.now.names.now) names.now.goods.now }
    requires suppliers { length names.now.suppliers.now ≡ job_suppliers job.now }
    ensures { OnOk result (text.new.items ≡ text.old.items
        ++ supplier_text job.now (units plan.now) (good_at names.now.names.now names.now.goods.now) (name_at names.now.suppliers.now) i) }
{
    let total = job.total(plan, i);
    if total == 0 {
        return Ok(());
    }
    let segment = segment_of(job, i, total);
    let units = write_count(alloc, u128::from(total))?;
    let low = write_count(alloc, u128::from(job.low(i, segment)))?;
    let cost = write_cost(alloc, goods_cost(job, plan, i, segment))?;
    add_line(
        text,
        "supplier",
        &[names.supplier(i).as_bytes(), &units, &low, &cost],
    )?;
    add_fee(alloc, text, job, i)?;
    add_buys(alloc, text, job, plan, names, i, segment)
}

// The cost of a feasible plan.
fn plan_cost(job: &Job, plan: &Plan) -> u128
    requires size { IsSizedFor job.now plan.now }
    requires feasible { Feasible job.now (units plan.now) }
    ensures { result ≡ cost job.now (units plan.now) }
{
    match job.standing(plan) {
        Standing::Feasible(cost) => cost,
        _ => unreachable!(),
    }
}

/// The text of a feasible plan: its cost, and then, for each supplier that it buys from, the total, the low of the
/// segment that the total selects, the cost without the fee, the fee where there is one, and each good with its units,
/// the price of one and of all. Units are whole, and money has six decimals.
///
/// `goods` has for each good of the job the number of its name in `names`, and `suppliers` the names of the suppliers.
#[tactic(auto, using(crate::proofs::Texts::texts), unfolding(crate::specs::PlanText::plan_text))]
pub fn plan_text(
    alloc: Global,
    job: &Job,
    plan: &Plan,
    names: &NameList,
    goods: &[u32],
    suppliers: &NameList,
) -> Result<Vec<u8>, Memory>
    requires size { IsSizedFor job.now plan.now }
    requires feasible { Feasible job.now (units plan.now) }
    requires goods { length goods.now ≡ job_goods job.now }
    requires named { All (λ n. n < length names.now) goods.now }
    requires suppliers { length suppliers.now ≡ job_suppliers job.now }
    ensures { IfOk result (λ text. text.items
        ≡ plan_text job.now (units plan.now) (good_at names.now goods.now) (name_at suppliers.now)) }
{
    let named = Names {
        names,
        goods,
        suppliers,
    };
    let cost = write_cost(alloc, plan_cost(job, plan))?;
    let mut text = Vec::new(alloc);
    add_line(&mut text, "solved", &[&cost])?;
    for i in 0..job.suppliers() {
        add_supplier(alloc, &mut text, job, plan, &named, i)?;
    }
    Ok(text)
}
