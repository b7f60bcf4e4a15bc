ghost use Rattle.std.specs.Prelude.{◌≡◌, MatchOption};
ghost use Rattle.bom_explode.specs.Structure.{structure_of};
ghost use Rattle.bom_explode.specs.Below.{HasNoCircle, IsLeastOnCircle};
ghost use Rattle.bom_explode.specs.Order.{AreComponents};

use crate::structure::{Way, ends, lines, names};
use bom_reader::Bill;

/// The least name that is below itself: one from which a line leads to a name of the same component.
pub(crate) fn least_on_circle(bill: &Bill, component: &[usize]) -> Option<u32>
    requires { AreComponents (structure_of bill.now) component.now }
    ensures { MatchOption result (HasNoCircle (structure_of bill.now)) (λ n. IsLeastOnCircle (structure_of bill.now) n) }
{
    let count = names(bill);
    let mut least = count;
    for l in 0..lines(bill) {
        let (assembly, part) = ends(bill, Way::Down, l);
        if component[assembly as usize] == component[part as usize] {
            least = least.min(assembly);
        }
    }
    if least < count { Some(least) } else { None }
}
