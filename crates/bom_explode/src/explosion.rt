ghost use Rattle.bom_explode.specs.Structure.{structure_of};
ghost use Rattle.bom_explode.specs.Explosion.{Explodes};

use crate::amounts::{amounts, least_above};
use crate::chains::Chains;
use crate::circle::least_on_circle;
use crate::fault::ExplodeFault;
use crate::needs::Needs;
use crate::order::{components, leaving_order};
use crate::structure::Way;
use bom_reader::Bill;
use std::alloc::Global;
use tqd_base::Stop;

/// The goods of a bill and what is needed of each. A name needs its ordered quantity and, for each line whose part it is,
/// the quantity of the line times the need of its assembly; a good is a needed name that is the assembly of no line.
///
/// `Circle` comes exactly where a name is below itself, with the least such name; `NeedRange` exactly where no name is and
/// a need is above 100,000,000, with the least such name. The time taken grows with the number of names and lines.
pub fn explode(alloc: Global, bill: &Bill) -> Result<Needs, Stop<ExplodeFault>>
    ensures { Explodes (structure_of bill.now) result }
{
    let down = Chains::new(alloc, bill, Way::Down)?;
    let up = Chains::new(alloc, bill, Way::Up)?;
    let order = leaving_order(alloc, bill, &down)?;
    let components = components(alloc, bill, &up, &order)?;
    if let Some(n) = least_on_circle(bill, &components) {
        return Err(Stop::Refused(ExplodeFault::Circle(n)));
    }
    let amounts = amounts(alloc, bill, &up, &order)?;
    if let Some(n) = least_above(bill, &amounts) {
        return Err(Stop::Refused(ExplodeFault::NeedRange(n)));
    }
    Ok(Needs::of(alloc, bill, &down, &amounts)?)
}
