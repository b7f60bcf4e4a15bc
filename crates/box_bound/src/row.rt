ghost use Rattle.std.specs.Prelude.{◌≡◌, ℕ, ◌+◌, ◌<◌, ◌≤◌, ◌==◌, if◌then◌else◌, pos, neg_ℤ, ◌≤ℤ◌, length, IfOk};
ghost use Rattle.std.specs.List.{All};
ghost use Rattle.tqd_base.specs.declared.limits.TheConstants.{SUPPLIERS_MAX};
ghost use Rattle.mcf_lower.specs.Answers.{has_of};
ghost use Rattle.tqd_instance.specs.Job.{goods, suppliers};
ghost use Rattle.interval_box.specs.Ranges.{low_of, high_of, IsBoxOf};
ghost use Rattle.flow_prices.specs.Prices.{number_of};
ghost use Rattle.bound_tree.specs.Prices.{IsPrice, price_at, count_of, Fits};
ghost use Rattle.bound_tree.specs.Value.{value};
ghost use Rattle.box_bound.specs.BoxNet.{supplier_node, good_node};
ghost use Rattle.box_bound.specs.NodeRow.{
  AreNodeNumbers,
  IsRowOf,
  HasNext,
  ArePlacePrices,
  cut_number,
  start_number,
  AreStartNumbers,
};

use crate::net::{good_node, node_count, supplier_node};
use bound_tree::{Row, place_count};
use flow_prices::NumberList;
use interval_box::IntervalBox;
use mcf_lower::NodeSet;
use std::alloc::Global;
use tqd_base::Memory;
use tqd_instance::Job;

/// How many segments, but segment 0, a supplier's range has.
#[tactic(auto, unfolding(bound_tree::specs::Prices::first_of, bound_tree::specs::Prices::count_of))]
fn count_of(area: &IntervalBox, i: usize) -> usize
    requires supplier { i < SUPPLIERS_MAX }
    requires ordered { low_of area.now i ≤ high_of area.now i }
    ensures { result ≡ count_of area.now i }
{
    usize::from(area.high_of(i)) + 1 - usize::from(area.low_of(i).max(1))
}

/// Adds a price so often.
fn push_copies(prices: &mut Vec<i64>, price: i64, count: usize) -> Result<(), Memory>
    requires price { IsPrice price }
    requires in_range { All IsPrice prices.old.items }
    ensures next { IfOk result (λ _. HasNext prices.old.items prices.new.items count (λ _. price)) }
    ensures in_range { IfOk result (λ _. All IsPrice prices.new.items) }
{
    for _copy in 0..count {
        prices.push(price)?;
    }
    Ok(())
}

/// The prices of the goods, which are the numbers of their nodes.
fn good_prices(alloc: Global, job: &Job, numbers: &NumberList) -> Result<Vec<i64>, Memory>
    requires { AreNodeNumbers job.now numbers.now }
    ensures len { IfOk result (λ prices. length prices.items ≡ goods job.now) }
    ensures each { IfOk result (λ prices. (k : ℕ) → k < goods job.now
        → number_of prices.items k ≡ number_of numbers.now (good_node job.now k)) }
{
    let mut prices = Vec::with_capacity(alloc, job.goods())?;
    for k in 0..job.goods() {
        prices.push(numbers.get(good_node(job, k)))?;
    }
    Ok(prices)
}

/// The prices of the segments of all ranges, which are the numbers of their suppliers' nodes with the other sign.
fn place_prices(
    alloc: Global,
    job: &Job,
    area: &IntervalBox,
    numbers: &NumberList,
) -> Result<Vec<i64>, Memory>
    requires of_job { IsBoxOf job.now area.now }
    requires numbers { AreNodeNumbers job.now numbers.now }
    ensures { IfOk result (λ prices. ArePlacePrices area.now numbers.now (suppliers job.now) prices.items) }
{
    let mut prices = Vec::with_capacity(alloc, place_count(job, area))?;
    for i in 0..job.suppliers() {
        let price = -numbers.get(supplier_node(job, i));
        push_copies(&mut prices, price, count_of(area, i))?;
    }
    Ok(prices)
}

/// The row of node numbers.
pub(crate) fn row_of(
    alloc: Global,
    job: &Job,
    area: &IntervalBox,
    numbers: &NumberList,
) -> Result<Row, Memory>
    requires of_job { IsBoxOf job.now area.now }
    requires numbers { AreNodeNumbers job.now numbers.now }
    ensures { IfOk result (λ row. IsRowOf job.now area.now numbers.now row) }
{
    let goods = good_prices(alloc, job, numbers)?;
    let places = place_prices(alloc, job, area, numbers)?;
    Row::build(alloc, job, area, &goods, &places)
}

/// 1 for a node in a set, 0 for another.
fn member(set: &NodeSet, n: u32) -> i64
    requires { n < length set.now }
    ensures { result ≡ pos (if has_of set.now n then 1 else 0) }
{
    i64::from(set.has(n))
}

/// Node numbers of a cut: 1 for the nodes in it and 0 for the others, all less that of the hub.
pub(crate) fn cut_numbers(alloc: Global, job: &Job, set: &NodeSet) -> Result<NumberList, Memory>
    requires { length set.now ≡ 1 + suppliers job.now + goods job.now }
    ensures len { IfOk result (λ numbers. length numbers ≡ 1 + suppliers job.now + goods job.now) }
    ensures each { IfOk result (λ numbers. (v : ℕ) → v < 1 + suppliers job.now + goods job.now
        → number_of numbers v ≡ cut_number set.now v) }
{
    let nodes = node_count(job);
    let base = member(set, 0);
    let mut numbers = Vec::with_capacity(alloc, nodes as usize)?;
    for n in 0..nodes {
        numbers.push(member(set, n) - base)?;
    }
    Ok(NumberList::from_vec(numbers))
}

/// The start number of a supplier's node, whose range has so many places from `at` on: the price at `at` with the other
/// sign, or 0 where there are none.
fn start_number(start: &Row, count: usize, at: usize) -> i64
    requires place { 1 ≤ count → at < length start.now.places }
    requires prices { All IsPrice start.now.places }
    ensures value { result ≡ (if count == 0 then pos 0 else neg_ℤ (price_at start.now.places at)) }
    ensures in_range { IsPrice result }
{
    if count == 0 {
        return 0;
    }
    -start.place(at)
}

/// Adds start numbers of the suppliers' nodes: the price of the first segment of each range with the other sign, or 0.
fn push_suppliers(
    numbers: &mut Vec<i64>,
    job: &Job,
    area: &IntervalBox,
    start: &Row,
) -> Result<(), Memory>
    requires of_job { IsBoxOf job.now area.now }
    requires fits { Fits job.now area.now start.now }
    requires in_range { All IsPrice numbers.old.items }
    ensures next { IfOk result (λ _. HasNext numbers.old.items numbers.new.items (suppliers job.now)
        (start_number area.now start.now)) }
    ensures in_range { IfOk result (λ _. All IsPrice numbers.new.items) }
{
    let mut at = 0;
    for i in 0..job.suppliers() {
        let count = count_of(area, i);
        numbers.push(start_number(start, count, at))?;
        at += count;
    }
    Ok(())
}

/// Adds start numbers of the goods' nodes, which are their prices.
fn push_goods(numbers: &mut Vec<i64>, job: &Job, start: &Row) -> Result<(), Memory>
    requires goods { length start.now.goods ≡ goods job.now }
    requires prices { All IsPrice start.now.goods }
    requires in_range { All IsPrice numbers.old.items }
    ensures next { IfOk result (λ _. HasNext numbers.old.items numbers.new.items (goods job.now)
        (price_at start.now.goods)) }
    ensures in_range { IfOk result (λ _. All IsPrice numbers.new.items) }
{
    for k in 0..job.goods() {
        numbers.push(start.good(k))?;
    }
    Ok(())
}

/// Node numbers to start a search from, which are the prices of a row.
pub(crate) fn start_numbers(
    alloc: Global,
    job: &Job,
    area: &IntervalBox,
    start: &Row,
) -> Result<NumberList, Memory>
    requires of_job { IsBoxOf job.now area.now }
    requires fits { Fits job.now area.now start.now }
    ensures { IfOk result (λ numbers. AreStartNumbers job.now area.now start.now numbers) }
{
    let mut numbers = Vec::with_capacity(alloc, node_count(job) as usize)?;
    numbers.push(0)?;
    push_suppliers(&mut numbers, job, area, start)?;
    push_goods(&mut numbers, job, start)?;
    Ok(NumberList::from_vec(numbers))
}

/// The row of greater value of two that fit a box, the first where they are of one value.
pub(crate) fn higher(
    alloc: Global,
    job: &Job,
    area: &IntervalBox,
    row: Row,
    start: &Row,
) -> Result<Row, Memory>
    requires of_job { IsBoxOf job.now area.now }
    requires fits { Fits job.now area.now row }
    requires start_fits { Fits job.now area.now start.now }
    ensures fits { IfOk result (λ higher. Fits job.now area.now higher) }
    ensures row { IfOk result (λ higher. value job.now area.now row ≤ℤ value job.now area.now higher) }
    ensures start { IfOk result (λ higher. value job.now area.now start.now ≤ℤ value job.now area.now higher) }
{
    if row.value(job, area) < start.value(job, area) {
        start.narrowed(alloc, job, area, area)
    } else {
        Ok(row)
    }
}
