ghost use Rattle.std.specs.Prelude.{◌≡◌, ℕ, ◌<◌, ◌≤◌, min, length, slice_index, IfOk, MatchOption};
ghost use Rattle.tqd_base.specs.declared.limits.TheConstants.{QTY_MAX};
ghost use Rattle.bom_explode.specs.Structure.{structure_of, IsStructure};
ghost use Rattle.bom_explode.specs.Ways.{along};
ghost use Rattle.bom_explode.specs.Below.{HasNoCircle};
ghost use Rattle.bom_explode.specs.Chains.{AreChains};
ghost use Rattle.bom_explode.specs.Needs.{demand, IsLeastAbove};
ghost use Rattle.bom_explode.specs.Order.{IsOrder};
ghost use Rattle.bom_explode.specs.Solution.{need_of, AreCapped};
ghost use Rattle.bom_explode.specs.declared.structure.Way.TheVariants.{Up};

use crate::chains::Chains;
use crate::structure::{names, ordered, source};
use bom_reader::Bill;
use std::alloc::Global;
use tqd_base::Memory;
use tqd_base::limits::QTY_MAX;

/// What stands for each need above `QTY_MAX`. As the quantity of a line is at least 1, a need that rests on such a need is
/// one too, so no sum has to be kept beyond it.
pub(crate) const TOO_MANY: u64 = QTY_MAX + 1;

/// What a name needs, where the needs of all assemblies that it goes into are known.
fn amount(bill: &Bill, up: &Chains, amounts: &[u64], n: u32) -> u64
    requires kept { IsStructure (structure_of bill.now) }
    requires chains { AreChains (along Up (structure_of bill.now)) up.now.first.items up.now.next.items }
    requires inside { n < (structure_of bill.now).names }
    requires names { length amounts.now ≡ (structure_of bill.now).names }
    requires small { (k : ℕ) → slice_index amounts.now k ≤ TOO_MANY }
    requires known { (l : ℕ) → l < (structure_of bill.now).lines → (structure_of bill.now).part l ≡ n
        → slice_index amounts.now ((structure_of bill.now).assembly l) ≡ min (need_of (structure_of bill.now) ((structure_of bill.now).assembly l)) TOO_MANY }
    ensures { result ≡ min (demand (structure_of bill.now) (need_of (structure_of bill.now)) n) TOO_MANY }
{
    let mut total = ordered(bill, n);
    let mut cursor = up.first[n as usize];
    while cursor > 0 {
        let line = cursor - 1;
        let (assembly, quantity) = source(bill, line);
        total = (total + quantity * amounts[assembly as usize]).min(TOO_MANY);
        cursor = up.next[line as usize];
    }
    total
}

/// What each name needs, with `TOO_MANY` in place of each greater number. Each name comes after the assemblies that it
/// goes into, from the end of the order on.
pub(crate) fn amounts(
    alloc: Global,
    bill: &Bill,
    up: &Chains,
    order: &[u32],
) -> Result<Vec<u64>, Memory>
    requires chains { AreChains (along Up (structure_of bill.now)) up.now.first.items up.now.next.items }
    requires order { IsOrder (structure_of bill.now) order.now }
    requires no_circle { HasNoCircle (structure_of bill.now) }
    ensures { IfOk result (λ amounts. AreCapped (structure_of bill.now) amounts.items) }
{
    let mut amounts = vec![in alloc; 0u64; names(bill) as usize]?;
    for i in (0..order.len()).rev() {
        let n = order[i];
        amounts[n as usize] = amount(bill, up, &amounts, n);
    }
    Ok(amounts)
}

/// The least name that needs more than `QTY_MAX` units.
pub(crate) fn least_above(bill: &Bill, amounts: &[u64]) -> Option<u32>
    requires { AreCapped (structure_of bill.now) amounts.now }
    ensures { MatchOption result ((n : ℕ) → n < (structure_of bill.now).names → need_of (structure_of bill.now) n ≤ QTY_MAX)
        (λ n. IsLeastAbove (structure_of bill.now) (need_of (structure_of bill.now)) n) }
{
    for n in 0..names(bill) {
        if amounts[n as usize] > QTY_MAX {
            return Some(n);
        }
    }
    None
}
