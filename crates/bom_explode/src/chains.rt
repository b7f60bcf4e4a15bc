ghost use Rattle.std.specs.Prelude.{IfOk};
ghost use Rattle.bom_explode.specs.Structure.{structure_of, IsStructure};
ghost use Rattle.bom_explode.specs.Ways.{along};
ghost use Rattle.bom_explode.specs.Chains.{AreChains};

use crate::structure::{Way, ends, lines, names};
use bom_reader::Bill;
use std::alloc::Global;
use tqd_base::Memory;

/// The lines of a bill by the name where they start, on one way: for each name a chain of its lines from the highest
/// number down, as numbers of lines and 1, with 0 at its end.
#[derive(Drop)]
pub(crate) struct Chains {
    pub first: Vec<u32>,
    pub next: Vec<u32>,
}

impl Chains {
    pub(crate) fn new(alloc: Global, bill: &Bill, way: Way) -> Result<Chains, Memory>
        ensures kept { IsStructure (structure_of bill.now) }
        ensures made { IfOk result (λ chains. AreChains (along way (structure_of bill.now)) chains.first.items chains.next.items) }
    {
        let mut first = vec![in alloc; 0u32; names(bill) as usize]?;
        let count = lines(bill);
        let mut next = Vec::with_capacity(alloc, count as usize)?;
        for l in 0..count {
            let (start, _) = ends(bill, way, l);
            next.push(first[start as usize])?;
            first[start as usize] = l + 1;
        }
        Ok(Chains { first, next })
    }
}
