use crate::leaf::prices_wanted;
use bound_tree::{SLOTS_MAX, prices_into};
use interval_box::IntervalBox;
use std::alloc::Global;
use tqd_base::Memory;
use tqd_instance::Job;

/// A slot, and whether it was given a row: the prices of the goods, then those of the places of the root.
#[derive(Debug, Drop)]
pub(crate) struct SlotRow {
    given: bool,
    prices: Vec<i64>,
}

/// The rows that a text of format 2 has given so far, in 64 slots: of each the prices of the goods, then those of the
/// places of the root, in millionths of the currency. In a text of format 1 the slots are not in use.
#[derive(Debug, Drop)]
pub struct RowSlots {
    in_use: bool,
    wanted: usize,
    rows: Vec<SlotRow>,
}

impl SlotRow {
    ghost use Rattle.std.specs.Prelude.{◌≡◌, true, length, find, None};
    ghost use Rattle.bound_tree.specs.LineHead.{head_of, prices_of, is_beyond, IsRowOf};

    // Reads the prices of a line. `Some` with the first one that is out of range, if there is one; then no row is given.
    fn read(&mut self, line: &[u8]) -> Option<i128>
        requires { IsRowOf (length self.old.prices.items) (head_of line.now) }
        ensures room { length self.new.prices.items ≡ length self.old.prices.items }
        ensures first { result ≡ find is_beyond (prices_of line.now) }
        ensures failed { self.new.given ≡ true → result ≡ None }
        ensures given { result ≡ None → self.new.given ≡ true }
        ensures prices { result ≡ None → self.new.prices.items ≡ prices_of line.now }
    {
        let beyond = prices_into(line, &mut self.prices);
        self.given = beyond.is_none();
        beyond
    }
}

impl RowSlots {
    ghost use Rattle.std.specs.Prelude.{◌≡◌, ◌<◌, true, false, find, None, IfOk};
    ghost use Rattle.tqd_instance.specs.declared.job.Job.{Job};
    ghost use Rattle.bound_tree.specs.declared.slots.TheConstants.{SLOTS_MAX};
    ghost use Rattle.bound_tree.specs.Root.{root_of};
    ghost use Rattle.bound_tree.specs.Prices.{row_of};
    ghost use Rattle.bound_tree.specs.LineHead.{head_of, prices_of, is_beyond, IsRowOf};
    ghost use Rattle.bound_tree.specs.SlotTree.{Slots, no_rows, row_in, with_row};
    ghost use Rattle.tree_checker.specs.Verdict.{prices_wanted};
    ghost use Rattle.tree_checker.specs.SlotRows.{are_used, Holds, AreSlotRows, SameRows, LendsRow};

    /// Slots that are not in use, none of which has a row, with room for a row of the root in each; nothing else here takes
    /// memory.
    pub fn start(alloc: Global, job: &Job) -> Result<RowSlots, Memory>
        ensures unused { IfOk result (λ kept. are_used kept ≡ false) }
        ensures rows { IfOk result (AreSlotRows job.now) }
        ensures none { IfOk result (λ kept. Holds job.now kept no_rows) }
    {
        RowSlots::with_room(alloc, prices_wanted(job, &IntervalBox::root(job)))
    }

    // No slot has a row, and in each there is room for so many prices.
    fn with_room(alloc: Global, wanted: usize) -> Result<RowSlots, Memory>
        ensures unused { IfOk result (λ kept. are_used kept ≡ false) }
        ensures rows { (job : Job) → wanted ≡ prices_wanted job (root_of job) → IfOk result (AreSlotRows job) }
        ensures none { (job : Job) → IfOk result (λ kept. Holds job kept no_rows) }
    {
        let mut rows = Vec::with_capacity(alloc, SLOTS_MAX)?;
        for _ in 0..SLOTS_MAX {
            rows.push(SlotRow {
                given: false,
                prices: vec![in alloc; 0; wanted]?,
            })?;
        }
        Ok(RowSlots {
            in_use: false,
            wanted,
            rows,
        })
    }

    /// Whether the text is one of format 2.
    pub fn are_in_use(&self) -> bool
        ensures { result ≡ are_used self.now }
    {
        self.in_use
    }

    /// The text is one of format 2.
    pub fn take_into_use(&mut self)
        ensures used { are_used self.new ≡ true }
        ensures rows { SameRows self.old self.new }
    {
        self.in_use = true;
    }

    /// How many prices a row has.
    pub(crate) fn wanted(&self) -> usize
        ensures { result ≡ self.now.wanted }
    {
        self.wanted
    }

    /// Reads the prices of a `row` line into its slot. `Some` with the first price that is out of range, if there is one;
    /// then the slot has no row.
    pub(crate) fn fill(&mut self, _job: &Job, slot: usize, line: &[u8]) -> Option<i128>
        requires slot { slot < SLOTS_MAX }
        requires row { IsRowOf self.old.wanted (head_of line.now) }
        requires rows { AreSlotRows _job.now self.old }
        ensures in_use { self.new.in_use ≡ self.old.in_use }
        ensures rows { AreSlotRows _job.now self.new }
        ensures first { result ≡ find is_beyond (prices_of line.now) }
        ensures held { (slots : Slots) → result ≡ None → Holds _job.now self.old slots
            → Holds _job.now self.new (with_row slots slot (row_of _job.now (prices_of line.now))) }
    {
        self.rows[slot].read(line)
    }

    /// The prices of the row in a slot, where the number is one of a slot that was given a row.
    pub fn row(&self, slot: u128) -> Option<&[i64]>
        ensures { (job : Job) (slots : Slots) → AreSlotRows job self.now → Holds job self.now slots
            → LendsRow job (row_in slots slot) result }
    {
        if SLOTS_MAX as u128 <= slot {
            return None;
        }
        let row = self.rows.get(slot as usize)?;
        if row.given { Some(&row.prices) } else { None }
    }
}
