ghost use Rattle.std.specs.Prelude.{IfOk};
ghost use Rattle.bom_explode.specs.Structure.{structure_of};
ghost use Rattle.bom_explode.specs.Ways.{along};
ghost use Rattle.bom_explode.specs.Chains.{AreChains};
ghost use Rattle.bom_explode.specs.Order.{IsOrder, AreComponents};
ghost use Rattle.bom_explode.specs.declared.structure.Way.TheVariants.{Down, Up};

use crate::chains::Chains;
use crate::search::Search;
use crate::structure::{Way, names};
use bom_reader::Bill;
use std::alloc::Global;
use tqd_base::Memory;

/// The names in the order in which a search from assemblies down to parts leaves them: on a bill without a circle each
/// part before its assemblies.
pub(crate) fn leaving_order(alloc: Global, bill: &Bill, down: &Chains) -> Result<Vec<u32>, Memory>
    requires { AreChains (along Down (structure_of bill.now)) down.now.first.items down.now.next.items }
    ensures { IfOk result (λ order. IsOrder (structure_of bill.now) order.items) }
{
    let mut search = Search::new(alloc, bill, Way::Down, down)?;
    for root in 0..names(bill) {
        search.visit(bill, Way::Down, down, root, 0)?;
    }
    Ok(search.left)
}

/// For each name the number of its component: names on one circle have one number, and other names different ones.
pub(crate) fn components(
    alloc: Global,
    bill: &Bill,
    up: &Chains,
    order: &[u32],
) -> Result<Vec<usize>, Memory>
    requires chains { AreChains (along Up (structure_of bill.now)) up.now.first.items up.now.next.items }
    requires order { IsOrder (structure_of bill.now) order.now }
    ensures { IfOk result (λ component. AreComponents (structure_of bill.now) component.items) }
{
    let mut search = Search::new(alloc, bill, Way::Up, up)?;
    for i in (0..order.len()).rev() {
        search.visit(bill, Way::Up, up, order[i], i)?;
    }
    Ok(search.mark)
}
