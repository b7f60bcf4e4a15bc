//! Replies where files gave no value.
ghost use Rattle.std.specs.Prelude.{◌≡◌};
ghost use Rattle.tqd_top.specs.Inner.Runs.{ReplyWithoutValue, or_no_reply};

use crate::answer::{Answer, NoReply, Reply};
use crate::no_value::NoValue;
use plan_report::unread_text;
use std::alloc::Global;
use tqd_base::Memory;

// The answer where the files gave no value.
pub(crate) fn reply_without_value(alloc: Global, no_value: NoValue) -> Result<Reply, Memory>
    ensures { ReplyWithoutValue no_value result }
{
    match no_value {
        NoValue::Bad(fault, text) => Ok(Reply {
            answer: Answer::BadInput(fault),
            text,
        }),
        NoValue::Unread(file) => {
            let text = unread_text(alloc, file)?;
            Ok(Reply {
                answer: Answer::ReadFault(file),
                text,
            })
        }
        NoValue::Memory => Err(Memory),
    }
}

// The reply of a command that saves nothing, as one that may.
pub(crate) fn or_no_reply(reply: Result<Reply, Memory>) -> Result<Reply, NoReply>
    ensures { result ≡ or_no_reply reply }
{
    match reply {
        Ok(reply) => Ok(reply),
        Err(_) => Err(NoReply::Memory),
    }
}
