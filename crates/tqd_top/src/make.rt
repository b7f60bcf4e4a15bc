//! The command `make`.
ghost use Rattle.std.specs.Prelude.{◌≡◌, ◌≤◌, IfOk};
ghost use Rattle.tqd_base.specs.declared.limits.TheConstants.{GOODS_MAX, SUPPLIERS_MAX};
ghost use Rattle.tqd_top.specs.MakeAnswer.{SumsUp};
ghost use Rattle.tqd_top.specs.declared.answer.Answer.TheVariants.{Listed};

use crate::answer::{Answer, Reply};
use crate::solution::search;
use order_gen::make_job;
use plan_report::summary_text;
use search_run::NoGate;
use std::alloc::Global;
use tqd_base::Memory;

/// The summary of a made job, with the cost of a least purchase of it.
pub(crate) fn make(alloc: Global, seed: u64, goods: u64, suppliers: u64) -> Result<Reply, Memory>
    requires some_goods { 1 ≤ goods }
    requires few_goods { goods ≤ GOODS_MAX }
    requires some_suppliers { 1 ≤ suppliers }
    requires few_suppliers { suppliers ≤ SUPPLIERS_MAX }
    ensures answer { IfOk result (λ reply. reply.answer ≡ Listed) }
    ensures text { IfOk result (λ reply. SumsUp seed goods suppliers reply.text.items) }
{
    let job = make_job(alloc, seed, goods, suppliers)?;
    let done = search(alloc, &job, &NoGate)?;
    // A made job has a feasible purchase.
    let Some((_, cost)) = done.plan else {
        unreachable!()
    };
    let text = summary_text(alloc, seed, goods, suppliers, cost)?;
    Ok(Reply {
        answer: Answer::Listed,
        text,
    })
}
