ghost use Rattle.std.specs.Prelude.{◌≡◌, ◌<◌, ◌≤◌};
ghost use Rattle.tqd_base.specs.declared.limits.TheConstants.{QTY_MAX};
ghost use Rattle.bom_explode.specs.Structure.{structure_of, IsStructure};
ghost use Rattle.bom_explode.specs.Ways.{start_of, finish_of};

use bom_reader::Bill;

/// Which way the lines of a bill are followed: from assemblies down to parts, or from parts up to assemblies.
#[derive(Clone, Copy)]
pub(crate) enum Way {
    Down,
    Up,
}

/// How many names there are.
pub(crate) fn names(bill: &Bill) -> u32
    ensures value { result ≡ (structure_of bill.now).names }
    ensures kept { IsStructure (structure_of bill.now) }
{
    bill.names().len() as u32
}

/// How many lines there are.
pub(crate) fn lines(bill: &Bill) -> u32
    ensures value { result ≡ (structure_of bill.now).lines }
    ensures kept { IsStructure (structure_of bill.now) }
{
    bill.lines() as u32
}

/// The units ordered of a name.
pub(crate) fn ordered(bill: &Bill, n: u32) -> u64
    requires { n < (structure_of bill.now).names }
    ensures value { result ≡ (structure_of bill.now).ordered n }
    ensures within { result ≤ QTY_MAX }
{
    bill.ordered(n as usize)
}

/// The assembly of a line, and the units of the part in one unit of it.
pub(crate) fn source(bill: &Bill, l: u32) -> (u32, u64)
    requires { l < (structure_of bill.now).lines }
    ensures assembly { result.0 ≡ (structure_of bill.now).assembly l }
    ensures quantity { result.1 ≡ (structure_of bill.now).quantity l }
    ensures inside { result.0 < (structure_of bill.now).names }
    ensures within { result.1 ≤ QTY_MAX }
{
    let (assembly, _, quantity) = bill.line(l as usize);
    (assembly, quantity)
}

/// The assembly and the part of a line.
fn assembly_and_part(bill: &Bill, l: u32) -> (u32, u32)
    requires { l < (structure_of bill.now).lines }
    ensures assembly { result.0 ≡ (structure_of bill.now).assembly l }
    ensures part { result.1 ≡ (structure_of bill.now).part l }
    ensures assembly_inside { result.0 < (structure_of bill.now).names }
    ensures part_inside { result.1 < (structure_of bill.now).names }
{
    let (assembly, part, _) = bill.line(l as usize);
    (assembly, part)
}

/// The name where a line starts, and the name where it finishes.
pub(crate) fn ends(bill: &Bill, way: Way, l: u32) -> (u32, u32)
    requires { l < (structure_of bill.now).lines }
    ensures start { result.0 ≡ start_of way (structure_of bill.now) l }
    ensures finish { result.1 ≡ finish_of way (structure_of bill.now) l }
    ensures start_inside { result.0 < (structure_of bill.now).names }
    ensures finish_inside { result.1 < (structure_of bill.now).names }
{
    let (assembly, part) = assembly_and_part(bill, l);
    match way {
        Way::Down => (assembly, part),
        Way::Up => (part, assembly),
    }
}
