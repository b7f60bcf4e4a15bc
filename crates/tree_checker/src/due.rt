ghost use Rattle.std.specs.Prelude.{◌≡◌, ◌<◌, ◌^◌, Err, IfSome};
ghost use Rattle.tree_checker.specs.Judged.{IsNextPlace, IsSplitPlace, verdict_by};

use crate::rejection::{Rejection, Verdict, Why};
use interval_box::IntervalBox;
use tqd_base::limits::QTY_MAX;
use tqd_instance::Job;

/// Which line is due.
#[derive(Clone, Copy, Debug)]
pub(crate) enum Due {
    Header,
    Plan,
    /// A `buy` line: the plan's cost as its line says it, how many `buy` lines are due, and the least place in the
    /// order of suppliers and goods that the next one may have.
    Buy { cost: u128, left: u64, next: u64 },
    /// A node of the next box, where the plan has this cost or there is none. Without a box the tree is whole.
    Node(Option<u128>),
    /// No line any more: the text is rejected.
    Ended(Rejection),
}

pub(crate) fn rejected(line: u64, why: Why) -> Result<Due, Rejection>
    ensures { result ≡ Err (record { line = line; why = why }) }
{
    Err(Rejection { line, why })
}

/// The place of a `buy` line in the order of suppliers and goods, where its numbers are in range and it is not before
/// the next place. The place of a supplier and a good is the supplier times the number of goods, plus the good.
pub fn next_place(job: &Job, next: u64, supplier: u128, good: u128, units: u128) -> Option<u64>
    ensures place { IsNextPlace job.now next supplier good units result }
    ensures few { IfSome result (λ at. at < 2 ^ 32) }
{
    let goods = job.goods() as u128;
    if job.suppliers() as u128 <= supplier || goods <= good {
        return None;
    }
    let place = supplier * goods + good;
    if 1 <= units && units <= u128::from(QTY_MAX) && u128::from(next) <= place {
        Some(place as u64)
    } else {
        None
    }
}

/// The supplier and the segment of a split, where it is proper for the box.
pub fn split_place(job: &Job, area: &IntervalBox, supplier: u128, at: u128) -> Option<(usize, u8)>
    ensures { IsSplitPlace job.now area.now supplier at result }
{
    if job.suppliers() as u128 <= supplier {
        return None;
    }
    let i = supplier as usize;
    if u128::from(area.low_of(i)) <= at && at < u128::from(area.high_of(i)) {
        Some((i, at as u8))
    } else {
        None
    }
}

/// The verdict where a text ends, by what is due, whether no box is, and the number of the next line.
pub(crate) fn verdict_by(due: Due, none: bool, line: u64) -> Verdict
    ensures { result ≡ verdict_by due none line }
{
    match due {
        Due::Ended(rejection) => Verdict::Rejected(rejection),
        Due::Node(Some(cost)) if none => Verdict::Optimal(cost),
        Due::Node(None) if none => Verdict::NoPurchase,
        _ => Verdict::Rejected(Rejection {
            line,
            why: Why::EarlyEnd,
        }),
    }
}
