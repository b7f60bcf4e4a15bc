ghost use Rattle.std.specs.Prelude.{◌≡◌, ◌++◌, IfOk, OnOk};
ghost use Rattle.plan_report.specs.RejectionText.{reason, rejection_text, standing_reason};

use crate::text::{add_counted, add_line, add_number, add_signed, add_word};
use money::write_count;
use std::alloc::Global;
use tqd_base::Memory;
use tqd_instance::Standing;
use tree_checker::{Rejection, Why};

#[tactic(auto, using(crate::proofs::Texts::appends))]
fn add_standing(alloc: Global, text: &mut Vec<u8>, standing: Standing) -> Result<(), Memory>
    ensures { OnOk result (text.new.items ≡ text.old.items ++ standing_reason standing) }
{
    match standing {
        Standing::Feasible(_) => add_word(text, "feasible plan"),
        Standing::Need { good, sum } => {
            add_counted(alloc, text, "good ", u128::from(good))?;
            add_counted(alloc, text, " gets ", u128::from(sum))
        }
        Standing::Stock { supplier, good } => {
            add_counted(alloc, text, "supplier ", u128::from(supplier))?;
            add_counted(alloc, text, " good ", u128::from(good))?;
            add_word(text, " above stock")
        }
        Standing::Gap { supplier, total } => {
            add_counted(alloc, text, "supplier ", u128::from(supplier))?;
            add_counted(alloc, text, " total ", u128::from(total))?;
            add_word(text, " in no segment")
        }
        Standing::Winners(count) => {
            add_number(alloc, text, count)?;
            add_word(text, " winners")
        }
    }
}

#[tactic(auto, using(crate::proofs::Texts::appends))]
fn add_reason(alloc: Global, text: &mut Vec<u8>, why: Why) -> Result<(), Memory>
    ensures { OnOk result (text.new.items ≡ text.old.items ++ reason why) }
{
    match why {
        Why::Header => add_word(text, "bad header"),
        Why::PlanForm => add_word(text, "bad plan line"),
        Why::PlanStanding(standing) => add_standing(alloc, text, standing),
        Why::PlanCost { said, real } => {
            add_counted(alloc, text, "cost said ", said)?;
            add_counted(alloc, text, ", is ", real)
        }
        Why::Line => add_word(text, "bad line"),
        Why::SplitRange => add_word(text, "bad split"),
        Why::RowSlot { slot } => add_counted(alloc, text, "bad row slot ", slot),
        Why::RowLength { found, wanted } => {
            add_number(alloc, text, found)?;
            add_word(text, " prices, wanted ")?;
            add_number(alloc, text, wanted)
        }
        Why::PriceRange { .. } => add_word(text, "price out of range"),
        Why::BoundWithoutPlan => add_word(text, "bound without a plan"),
        Why::BoundShort { value, cost } => {
            add_signed(alloc, text, "value ", value)?;
            add_counted(alloc, text, " below cost ", cost)
        }
        Why::EmptyFails(value) => {
            add_signed(alloc, text, "free value ", value)?;
            add_word(text, " is not above 0")
        }
        Why::WinnersFit => add_word(text, "winner limits can be met"),
        Why::EarlyEnd => add_word(text, "ends early"),
        Why::Trailing => add_word(text, "text after the tree"),
    }
}

/// The text for a rejected tree: the number of the line, from 1, and why. Suppliers and goods are numbers from 0, as in
/// the tree; costs and values are in millionths of the currency, with `-` before a negative one.
///
/// Every rejection has a text. The checker of trees never gives `Why::PlanStanding(Standing::Feasible(_))`, for which the
/// reason is `feasible plan`.
#[tactic(auto, unfolding(crate::specs::RejectionText::rejection_text))]
pub fn rejection_text(alloc: Global, rejection: &Rejection) -> Result<Vec<u8>, Memory>
    ensures { IfOk result (λ text. text.items ≡ rejection_text rejection.now) }
{
    let line = write_count(alloc, u128::from(rejection.line))?;
    let mut reason = Vec::new(alloc);
    add_reason(alloc, &mut reason, rejection.why)?;
    let mut text = Vec::new(alloc);
    add_line(&mut text, "rejected", &[&line, &reason])?;
    Ok(text)
}
