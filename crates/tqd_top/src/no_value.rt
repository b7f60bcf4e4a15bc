//! Why files gave no value.
ghost use Rattle.std.specs.Prelude.{[]};
ghost use Rattle.plan_report.specs.FaultText.{IsFaultNamed, fault_text};
ghost use Rattle.tqd_top.specs.JobOf.{plainly, told_by_offers};
ghost use Rattle.tqd_top.specs.Inner.Steps.{StopsAt};

use crate::reading::OffersRead;
use bom_reader::NameList;
use plan_report::{FileFault, InputFile, fault_text};
use std::alloc::Global;
use tqd_base::Memory;

/// Why files gave no value: their first fault with the line that tells it, a file that could not be read, or the want
/// of memory.
#[derive(Drop)]
pub enum NoValue {
    Bad(FileFault, Vec<u8>),
    Unread(InputFile),
    Memory,
}

impl From<Memory> for NoValue {
    ghost use Rattle.std.specs.Prelude.{◌≡◌};
    ghost use Rattle.tqd_top.specs.declared.no_value.NoValue.TheVariants.{Memory};

    ghost from_gives = { λ _ e. e ≡ Memory };

    fn from(_error: Memory) -> NoValue {
        NoValue::Memory
    }
}

// A fault, told by these names of parts, these goods and these suppliers.
fn bad_named(
    alloc: Global,
    fault: FileFault,
    names: &NameList,
    goods: &[u32],
    suppliers: &NameList,
) -> NoValue
    requires { IsFaultNamed names.now goods.now suppliers.now fault }
    ensures { StopsAt (record { fault = fault; text = fault_text names.now goods.now suppliers.now fault }) result }
{
    match fault_text(alloc, &fault, names, goods, suppliers) {
        Ok(text) => NoValue::Bad(fault, text),
        Err(_) => NoValue::Memory,
    }
}

// A fault whose line names parts of a bill.
pub(crate) fn bad_parts(alloc: Global, fault: FileFault, names: &NameList) -> NoValue
    requires { IsFaultNamed names.now [] [] fault }
    ensures { StopsAt (record { fault = fault; text = fault_text names.now [] [] fault }) result }
{
    let none = NameList::empty(alloc);
    bad_named(alloc, fault, names, &[], &none)
}

// A fault whose line names goods and suppliers.
pub(crate) fn bad_offers(alloc: Global, fault: FileFault, read: &OffersRead) -> NoValue
    requires { IsFaultNamed read.now.bill.names read.now.needs.goods read.now.book.suppliers fault }
    ensures { StopsAt (told_by_offers read.now fault) result }
{
    let names = read.bill.names();
    bad_named(
        alloc,
        fault,
        names,
        read.needs.goods(),
        read.book.suppliers(),
    )
}

// A fault whose line names no part and no supplier.
pub(crate) fn bad(alloc: Global, fault: FileFault) -> NoValue
    requires { IsFaultNamed [] [] [] fault }
    ensures { StopsAt (plainly fault) result }
{
    let none = NameList::empty(alloc);
    bad_named(alloc, fault, &none, &[], &none)
}
