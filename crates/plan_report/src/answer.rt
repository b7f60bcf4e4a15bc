ghost use Rattle.std.specs.Prelude.{◌≡◌, IfOk};
ghost use Rattle.plan_report.specs.AnswerText.{accepted_text, break_even_text, infeasible_text, summary_text};

use crate::text::add_line;
use break_even::CutAnswer;
use money::{write_cost, write_count};
use std::alloc::Global;
use tqd_base::Memory;

/// The text for a job of which no purchase is feasible.
#[tactic(auto, unfolding(crate::specs::AnswerText::infeasible_text))]
pub fn infeasible_text(alloc: Global) -> Result<Vec<u8>, Memory>
    ensures { IfOk result (λ text. text.items ≡ infeasible_text) }
{
    let mut text = Vec::new(alloc);
    add_line(&mut text, "infeasible", &[])?;
    Ok(text)
}

/// The text for a tree that certifies a least cost, in millionths of the currency, or that no purchase is feasible.
#[tactic(auto, unfolding(crate::specs::AnswerText::accepted_text))]
pub fn accepted_text(alloc: Global, cost: Option<u128>) -> Result<Vec<u8>, Memory>
    ensures { IfOk result (λ text. text.items ≡ accepted_text cost) }
{
    let mut text = Vec::new(alloc);
    match cost {
        Some(cost) => add_line(&mut text, "accepted", &[&write_cost(alloc, cost)?])?,
        None => add_line(&mut text, "accepted", &[b"none"])?,
    }
    Ok(text)
}

/// The text for a made job: its seed, its numbers of goods and of suppliers, and its least cost in millionths of the
/// currency.
#[tactic(auto, unfolding(crate::specs::AnswerText::summary_text))]
pub fn summary_text(
    alloc: Global,
    seed: u64,
    goods: u64,
    suppliers: u64,
    cost: u128,
) -> Result<Vec<u8>, Memory>
    ensures { IfOk result (λ text. text.items ≡ summary_text seed goods suppliers cost) }
{
    let seed = write_count(alloc, u128::from(seed))?;
    let goods = write_count(alloc, u128::from(goods))?;
    let suppliers = write_count(alloc, u128::from(suppliers))?;
    let cost = write_cost(alloc, cost)?;
    let mut text = Vec::new(alloc);
    add_line(&mut text, "made", &[&seed, &goods, &suppliers, &cost])?;
    Ok(text)
}

/// The text for the least cut of a supplier's prices that lowers the least cost: the supplier's name, the cut in
/// thousandths, and the least cost without it and with it; or `none` and the least cost where no cut lowers it. Costs are
/// in millionths of the currency. Where no purchase is feasible the text is that of `infeasible_text`.
#[tactic(auto, unfolding(crate::specs::AnswerText::break_even_text))]
pub fn break_even_text(alloc: Global, name: &[u8], answer: CutAnswer) -> Result<Vec<u8>, Memory>
    ensures { IfOk result (λ text. text.items ≡ break_even_text name.now answer) }
{
    let mut text = Vec::new(alloc);
    match answer {
        CutAnswer::NoPurchase => return infeasible_text(alloc),
        CutAnswer::NoCut(before) => {
            let before = write_cost(alloc, before)?;
            add_line(&mut text, "break-even", &[name, b"none", &before])?;
        }
        CutAnswer::Cut { cut, before, after } => {
            let cut = write_count(alloc, u128::from(cut))?;
            let before = write_cost(alloc, before)?;
            let after = write_cost(alloc, after)?;
            add_line(&mut text, "break-even", &[name, &cut, &before, &after])?;
        }
    }
    Ok(text)
}
