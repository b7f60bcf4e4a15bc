//! The texts of the least costs of many jobs.
ghost use Rattle.std.specs.Prelude.{◌≡◌, ◌++◌, IfOk, OnOk};
ghost use Rattle.plan_report.specs.CostsText.{numbered_cost, numbered_costs, scenarios_text, winners_text};

use crate::text::add_line;
use money::{write_cost, write_count};
use scenarios::CostList;
use std::alloc::Global;
use tqd_base::Memory;

// The least cost of a job, or that it has no feasible purchase.
#[tactic(auto, unfolding(crate::specs::CostsText::numbered_cost, crate::specs::CostsText::cost_or_none))]
fn add_cost(
    alloc: Global,
    text: &mut Vec<u8>,
    word: &str,
    number: u128,
    cost: Option<u128>,
) -> Result<(), Memory>
    ensures { OnOk result (text.new.items ≡ text.old.items ++ numbered_cost word.now number cost) }
{
    let number = write_count(alloc, number)?;
    match cost {
        Some(cost) => add_line(text, word, &[&number, &write_cost(alloc, cost)?]),
        None => add_line(text, word, &[&number, b"infeasible"]),
    }
}

// Each least cost in order, with the numbers from the first on.
#[tactic(auto, using(crate::proofs::Texts::texts), unfolding(crate::specs::CostsText::nth_cost, crate::specs::CostsText::numbered_costs))]
fn numbered_costs(
    alloc: Global,
    word: &str,
    first: u64,
    costs: &CostList,
) -> Result<Vec<u8>, Memory>
    ensures { IfOk result (λ text. text.items ≡ numbered_costs word.now first costs.now) }
{
    let mut text = Vec::new(alloc);
    for n in 0..costs.len() {
        let number = u128::from(first) + n as u128;
        add_cost(alloc, &mut text, word, number, costs.get(n))?;
    }
    Ok(text)
}

/// The text for the least costs of scenarios, which are numbered from 1: for each in order its cost in millionths of the
/// currency, or `infeasible` where it has none.
#[tactic(auto, unfolding(crate::specs::CostsText::scenarios_text))]
pub fn scenarios_text(alloc: Global, costs: &CostList) -> Result<Vec<u8>, Memory>
    ensures { IfOk result (λ text. text.items ≡ scenarios_text costs.now) }
{
    numbered_costs(alloc, "scenario", 1, costs)
}

/// The text for the least costs of a job with each greatest number of winners, the first of which is `least`: for each in
/// order the number and its cost in millionths of the currency, or `infeasible` where it has none.
#[tactic(auto, unfolding(crate::specs::CostsText::winners_text))]
pub fn winners_text(alloc: Global, least: u64, costs: &CostList) -> Result<Vec<u8>, Memory>
    ensures { IfOk result (λ text. text.items ≡ winners_text least costs.now) }
{
    numbered_costs(alloc, "winners", least, costs)
}
