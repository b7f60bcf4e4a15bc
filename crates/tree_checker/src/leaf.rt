ghost use Rattle.std.specs.Prelude.{◌≡◌, ◌≤◌, ◌≤ℤ◌, ◌<ℤ◌, pos, length, take, None, Some, IfSome, IsTrue, ◌↔◌};
ghost use Rattle.interval_box.specs.Ranges.{IsBoxOf};
ghost use Rattle.bound_tree.specs.LineHead.{head_of, prices_of, IsRowOf};
ghost use Rattle.bound_tree.specs.Prices.{AreFitting};
ghost use Rattle.tree_checker.specs.declared.leaf.TheConstants.{PRICES_MAX};
ghost use Rattle.tree_checker.specs.Verdict.{prices_wanted, row_fault, bound_fault, empty_fault, winners_fault, short_fault, free_fault};
ghost use Rattle.tree_checker.specs.ByHead.{leaf_by_head};
ghost use Rattle.tree_checker.specs.Judged.{ReadsRow};

use crate::rejection::Why;
use bound_tree::{LineHead, place_count, prices_into, value_free_in, value_in};
use interval_box::IntervalBox;
use tqd_instance::Job;

/// How many prices a row of any box has at most: one for each of 1,000 goods and of 1,024 places.
pub const PRICES_MAX: usize = 2_024;

/// How many prices a row of the box has.
pub fn prices_wanted(job: &Job, area: &IntervalBox) -> usize
    requires { IsBoxOf job.now area.now }
    ensures value { result ≡ prices_wanted job.now area.now }
    ensures few { result ≤ PRICES_MAX }
{
    job.goods() + place_count(job, area)
}

/// Reads the prices of a row of the box, of which the line has so many, to the front of the places, and says what is wrong
/// with them: their number, or the first that is out of range. Prices are in millionths of the currency.
pub fn read_row(
    job: &Job,
    area: &IntervalBox,
    line: &[u8],
    found: u64,
    places: &mut [i64],
) -> Option<Why>
    requires of_job { IsBoxOf job.now area.now }
    requires row { IsRowOf found (head_of line.now) }
    requires room { PRICES_MAX ≤ length places.old }
    ensures { ReadsRow job.now area.now (prices_of line.now) places.new result }
{
    let wanted = prices_wanted(job, area);
    if found != wanted as u64 {
        return Some(Why::RowLength {
            found,
            wanted: wanted as u64,
        });
    }
    match prices_into(line, &mut places[..wanted]) {
        Some(value) => Some(Why::PriceRange { value }),
        None => None,
    }
}

/// Why a line is no leaf that kills the box, where it is not.
pub(crate) fn leaf_fault(
    job: &Job,
    best: Option<u128>,
    area: &IntervalBox,
    head: Option<LineHead>,
    line: &[u8],
    places: &mut [i64],
) -> Option<Why>
    requires of_job { IsBoxOf job.now area.now }
    requires head { IfSome head (λ h. head_of line.now ≡ Some h) }
    requires room { PRICES_MAX ≤ length places.old }
    ensures { result ≡ leaf_by_head job.now best area.now head (prices_of line.now) }
{
    match head {
        Some(LineHead::Bound { count }) => bound_fault(job, best, area, line, count, places),
        Some(LineHead::Empty { count }) => empty_fault(job, area, line, count, places),
        Some(LineHead::Winners) => winners_fault(job, area),
        _ => Some(Why::Line),
    }
}

/// Why a `bound` line is no leaf that kills the box, where it is not.
fn bound_fault(
    job: &Job,
    best: Option<u128>,
    area: &IntervalBox,
    line: &[u8],
    found: u64,
    places: &mut [i64],
) -> Option<Why>
    requires of_job { IsBoxOf job.now area.now }
    requires row { IsRowOf found (head_of line.now) }
    requires room { PRICES_MAX ≤ length places.old }
    ensures { result ≡ bound_fault job.now best area.now (prices_of line.now) }
{
    if let Some(why) = read_row(job, area, line, found, places) {
        return Some(why);
    }
    let Some(cost) = best else {
        return Some(Why::BoundWithoutPlan);
    };
    short_fault(
        value_in(job, area, &places[..prices_wanted(job, area)]),
        cost,
    )
}

/// Why a value does not reach the cost of the plan, where it does not.
pub(crate) fn short_fault(value: i128, cost: u128) -> Option<Why>
    ensures { result ≡ short_fault (Some cost) value }
{
    if reaches(value, cost) {
        None
    } else {
        Some(Why::BoundShort { value, cost })
    }
}

/// Why an `empty` line is no leaf that kills the box, where it is not.
fn empty_fault(
    job: &Job,
    area: &IntervalBox,
    line: &[u8],
    found: u64,
    places: &mut [i64],
) -> Option<Why>
    requires of_job { IsBoxOf job.now area.now }
    requires row { IsRowOf found (head_of line.now) }
    requires room { PRICES_MAX ≤ length places.old }
    ensures { result ≡ empty_fault job.now area.now (prices_of line.now) }
{
    if let Some(why) = read_row(job, area, line, found, places) {
        return Some(why);
    }
    free_fault(value_free_in(job, area, &places[..prices_wanted(job, area)]))
}

/// Why a free value does not show that no purchase is feasible, where it does not.
pub(crate) fn free_fault(value: i128) -> Option<Why>
    ensures { result ≡ free_fault value }
{
    if 0 < value {
        None
    } else {
        Some(Why::EmptyFails(value))
    }
}

/// Why a `winners` line is no leaf that kills the box, where it is not.
pub(crate) fn winners_fault(job: &Job, area: &IntervalBox) -> Option<Why>
    requires { IsBoxOf job.now area.now }
    ensures { result ≡ winners_fault job.now area.now }
{
    if area.winners_fail(job) {
        None
    } else {
        Some(Why::WinnersFit)
    }
}

fn reaches(value: i128, cost: u128) -> bool
    ensures { IsTrue result ↔ (pos cost ≤ℤ value) }
{
    0 <= value && cost <= value as u128
}
