//! The command `needs`.
ghost use Rattle.std.specs.Prelude.{◌≡◌, ◌<◌, All, IfOk, List, Some, length};
ghost use Rattle.std.specs.Option.{option_copied};
ghost use Rattle.tqd_base.specs.World.{Name};
ghost use Rattle.plan_report.specs.NeedsText.{needs_text};
ghost use Rattle.command_words.specs.Words.{ToNeed, command_of};
ghost use Rattle.tqd_top.specs.Inner.Runs.{PlainReplies};
ghost use Rattle.tqd_top.specs.declared.answer.Answer.TheVariants.{Listed};

use crate::answer::{Answer, Reply};
use crate::input::read_needs;
use crate::reading::NeedsRead;
use crate::text::reply_without_value;
use plan_report::needs_text;
use std::alloc::Global;
use tqd_base::{Desk, Memory};

// The needs of a bill, listed.
fn list_needs(alloc: Global, read: &NeedsRead) -> Result<Reply, Memory>
    requires { All (λ n. n < length read.now.bill.names) read.now.needs.goods }
    ensures answer { IfOk result (λ reply. reply.answer ≡ Listed) }
    ensures text { IfOk result
        (λ reply. reply.text.items ≡ needs_text read.now.bill.names read.now.needs.goods read.now.needs.units) }
{
    let text = needs_text(alloc, &read.bill, &read.needs)?;
    Ok(Reply {
        answer: Answer::Listed,
        text,
    })
}

// The answer for the names of the files of orders and of a bill.
pub(crate) fn needs<D: Desk>(
    alloc: Global,
    desk: &mut D,
    orders: &str,
    bill: Option<&str>,
) -> Result<Reply, Memory>
    ensures { (words : List Name) → command_of words ≡ Some (ToNeed orders.now (option_copied bill.entry))
        → PlainReplies D.absent_is_empty (D.state desk.old) (D.state desk.new) words result }
{
    match read_needs(alloc, desk, orders, bill) {
        Ok(read) => list_needs(alloc, &read),
        Err(no_value) => reply_without_value(alloc, no_value),
    }
}
