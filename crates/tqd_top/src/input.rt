//! Reading orders and a bill, and exploding the bill.
ghost use Rattle.std.specs.Prelude.{◌≡◌, Option};
ghost use Rattle.plan_report.specs.declared.file.InputFile.TheVariants.{Bill as InBill};
ghost use Rattle.std.specs.Option.{option_copied};
ghost use Rattle.tqd_top.specs.JobOf.{BillGives, BillOf, ExplosionGives, NeedsOf};
ghost use Rattle.tqd_top.specs.Inner.Steps.{Answers, ReadGives};
ghost use Rattle.tqd_top.specs.Unread.{FailsAtGiven, IsUnreadBill};

use crate::no_value::{NoValue, bad_parts};
use crate::reading::NeedsRead;
use crate::source::read_file;
use crate::sources::{BillFile, OrdersFile};
use bom_explode::explode;
use bom_reader::{Bill, Orders, no_bill};
use plan_report::FileFault;
use std::alloc::Global;
use tqd_base::{Desk, Stop};

/// The bill that a file states after these orders; without a file, a bill that has no lines.
fn read_given_bill<D: Desk>(
    alloc: Global,
    desk: &mut D,
    orders: Orders,
    bill: Option<&str>,
) -> Result<Bill, NoValue>
    ensures { ReadGives (BillGives D.absent_is_empty (D.state desk.old).world (option_copied bill.entry) orders)
        (λ file. (file ≡ InBill) × FailsAtGiven (D.state desk.old) (D.state desk.new) (option_copied bill.entry))
        (D.state desk.old) (D.state desk.new) result }
{
    match bill {
        Some(name) => read_file(alloc, desk, name, BillFile(orders)),
        None => Ok(no_bill(orders)),
    }
}

/// The bill that files of orders and of a bill state.
fn read_bill_files<D: Desk>(
    alloc: Global,
    desk: &mut D,
    orders: &str,
    bill: Option<&str>,
) -> Result<Bill, NoValue>
    ensures { ReadGives (BillOf D.absent_is_empty (D.state desk.old).world orders.now (option_copied bill.entry))
        (IsUnreadBill D.absent_is_empty (D.state desk.old) (D.state desk.new) orders.now (option_copied bill.entry))
        (D.state desk.old) (D.state desk.new) result }
{
    let orders = read_file(alloc, desk, orders, OrdersFile)?;
    read_given_bill(alloc, desk, orders, bill)
}

fn needs_of(alloc: Global, bill: Bill) -> Result<NeedsRead, NoValue>
    ensures { Answers (ExplosionGives bill) result }
{
    let names = bill.names();
    match explode(alloc, &bill) {
        Ok(needs) => Ok(NeedsRead { bill, needs }),
        Err(Stop::Refused(fault)) => Err(bad_parts(alloc, FileFault::Explode(fault), names)),
        Err(Stop::Memory) => Err(NoValue::Memory),
    }
}

/// The bill that files of orders and of a bill state, and its needs.
pub(crate) fn read_needs<D: Desk>(
    alloc: Global,
    desk: &mut D,
    orders: &str,
    bill: Option<&str>,
) -> Result<NeedsRead, NoValue>
    ensures { ReadGives (NeedsOf D.absent_is_empty (D.state desk.old).world orders.now (option_copied bill.entry))
        (IsUnreadBill D.absent_is_empty (D.state desk.old) (D.state desk.new) orders.now (option_copied bill.entry))
        (D.state desk.old) (D.state desk.new) result }
{
    let bill = read_bill_files(alloc, desk, orders, bill)?;
    needs_of(alloc, bill)
}
