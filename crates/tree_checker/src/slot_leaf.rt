ghost use Rattle.std.specs.Prelude.{◌≡◌, ◌≤◌, length, IfSome, Some};
ghost use Rattle.tqd_instance.specs.declared.job.Job.{Job};
ghost use Rattle.interval_box.specs.Ranges.{IsBoxOf};
ghost use Rattle.bound_tree.specs.LineHead.{head_of, prices_of, IsRowOf};
ghost use Rattle.bound_tree.specs.SlotTree.{Slots};
ghost use Rattle.tree_checker.specs.declared.leaf.TheConstants.{PRICES_MAX};
ghost use Rattle.tree_checker.specs.Verdict.{bound_row_fault, empty_row_fault, named_fault, named_slot};
ghost use Rattle.tree_checker.specs.ByHead.{slot_leaf_by_head};
ghost use Rattle.tree_checker.specs.SlotRows.{Holds, AreSlotRows};
ghost use Rattle.tree_checker.specs.Judged.{FillsRow, NamesRow};

use crate::leaf::{free_fault, short_fault, winners_fault};
use crate::rejection::Why;
use crate::slots::RowSlots;
use bound_tree::{LineHead, SLOTS_MAX, prices_into, root_value_free_in, root_value_in};
use interval_box::IntervalBox;
use tqd_instance::Job;

/// Reads a `row` line of so many prices into its slot, and says what is wrong with it: its slot, the number of its prices,
/// or the first that is out of range. A wrong line may leave its slot without a row.
pub fn slot_row_fault(
    job: &Job,
    slots: &mut RowSlots,
    slot: u128,
    found: u64,
    line: &[u8],
) -> Option<Why>
    requires row { IsRowOf found (head_of line.now) }
    requires rows { AreSlotRows job.now slots.old }
    ensures rows { AreSlotRows job.now slots.new }
    ensures fills { FillsRow job.now slots.old slots.new slot (prices_of line.now) result }
{
    let wanted = slots.wanted() as u64;
    if SLOTS_MAX as u128 <= slot {
        return Some(Why::RowSlot { slot });
    }
    if found != wanted {
        return Some(Why::RowLength { found, wanted });
    }
    match slots.fill(job, slot as usize, line) {
        Some(value) => Some(Why::PriceRange { value }),
        None => None,
    }
}

/// The number that stands alone after the word of a leaf of so many numbers, where it is at least 0.
pub fn named_slot(line: &[u8], count: u64, places: &mut [i64]) -> Option<u128>
    requires row { IsRowOf count (head_of line.now) }
    requires room { 1 ≤ length places.old }
    ensures { result ≡ named_slot (prices_of line.now) }
{
    if count != 1 {
        return None;
    }
    let number = match prices_into(line, &mut places[..1]) {
        Some(beyond) => beyond,
        None => i128::from(places[0]),
    };
    if 0 <= number {
        Some(number as u128)
    } else {
        None
    }
}

/// Why a line of format 2 is no leaf that kills the box, where it is not.
pub(crate) fn slot_leaf_fault(
    job: &Job,
    best: Option<u128>,
    area: &IntervalBox,
    head: Option<LineHead>,
    line: &[u8],
    slots: &RowSlots,
    places: &mut [i64],
) -> Option<Why>
    requires of_job { IsBoxOf job.now area.now }
    requires head { IfSome head (λ h. head_of line.now ≡ Some h) }
    requires room { PRICES_MAX ≤ length places.old }
    requires rows { AreSlotRows job.now slots.now }
    ensures { (rows : Slots) → Holds job.now slots.now rows → result ≡ slot_leaf_by_head job.now rows best area.now head (prices_of line.now) }
{
    match head {
        Some(LineHead::Bound { count }) => {
            bound_row_fault(job, best, area, slots, named_slot(line, count, places))
        }
        Some(LineHead::Empty { count }) => {
            empty_row_fault(job, area, slots, named_slot(line, count, places))
        }
        Some(LineHead::Winners) => winners_fault(job, area),
        _ => Some(Why::Line),
    }
}

/// The row in the slot that a leaf names, or why there is none.
fn named_row<'s>(slots: &'s RowSlots, named: Option<u128>) -> Result<&'s [i64], Why>
    ensures { (job : Job) (rows : Slots) → AreSlotRows job slots.now → Holds job slots.now rows → NamesRow job rows named result }
{
    let Some(slot) = named else {
        return Err(Why::Line);
    };
    match slots.row(slot) {
        Some(prices) => Ok(prices),
        None => Err(Why::RowSlot { slot }),
    }
}

/// Why the row in the slot that a `bound` line names does not kill the box, where it does not.
fn bound_row_fault(
    job: &Job,
    best: Option<u128>,
    area: &IntervalBox,
    slots: &RowSlots,
    named: Option<u128>,
) -> Option<Why>
    requires of_job { IsBoxOf job.now area.now }
    requires rows { AreSlotRows job.now slots.now }
    ensures { (rows : Slots) → Holds job.now slots.now rows → result ≡ named_fault rows (bound_row_fault job.now best area.now) named }
{
    let prices = match named_row(slots, named) {
        Ok(prices) => prices,
        Err(why) => return Some(why),
    };
    match best {
        Some(cost) => short_fault(root_value_in(job, area, prices), cost),
        None => Some(Why::BoundWithoutPlan),
    }
}

/// Why the row in the slot that an `empty` line names does not kill the box, where it does not.
fn empty_row_fault(
    job: &Job,
    area: &IntervalBox,
    slots: &RowSlots,
    named: Option<u128>,
) -> Option<Why>
    requires of_job { IsBoxOf job.now area.now }
    requires rows { AreSlotRows job.now slots.now }
    ensures { (rows : Slots) → Holds job.now slots.now rows → result ≡ named_fault rows (empty_row_fault job.now area.now) named }
{
    match named_row(slots, named) {
        Ok(prices) => free_fault(root_value_free_in(job, area, prices)),
        Err(why) => Some(why),
    }
}
