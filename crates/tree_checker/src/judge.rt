ghost use Rattle.std.specs.Prelude.{◌≤◌, vec_len};
ghost use Rattle.std.specs.List.{All};
ghost use Rattle.tqd_instance.specs.Plan.{IsSizedFor};
ghost use Rattle.interval_box.specs.Ranges.{IsBoxOf};
ghost use Rattle.tree_checker.specs.declared.leaf.TheConstants.{PRICES_MAX};
ghost use Rattle.tree_checker.specs.SlotRows.{AreSlotRows};

use crate::buffer::LineBuffer;
use crate::due::{Due, next_place, rejected, split_place};
use crate::leaf::{PRICES_MAX, leaf_fault};
use crate::rejection::{Rejection, Why};
use crate::slot_leaf::{slot_leaf_fault, slot_row_fault};
use crate::slots::RowSlots;
use crate::stack::BoxStack;
use bound_tree::LineHead;
use interval_box::IntervalBox;
use std::alloc::Global;
use tqd_base::Memory;
use tqd_instance::{Job, Plan, Standing};

/// What is kept of a text between two lines.
#[derive(Debug, Drop)]
pub(crate) struct Judge<'j> {
    job: &'j Job,
    due: Due,
    plan: Plan,
    prices: Vec<i64>,
    boxes: BoxStack,
    slots: RowSlots,
    pub ghost sized: { IsSizedFor job.now plan },
    pub ghost room: { PRICES_MAX ≤ vec_len prices },
    pub ghost of_job: { All (IsBoxOf job.now) boxes },
    pub ghost rows: { AreSlotRows job.now slots },
}

impl<'j> Judge<'j> {
    ghost use Rattle.std.specs.Prelude.{
      ℕ,
      ◌≡◌,
      List,
      [],
      ◌∷◌,
      true,
      false,
      None,
      Some,
      Ok,
      Err,
      IfOk,
      IfSome,
    };
    ghost use Rattle.tqd_base.specs.World.{Bytes};
    ghost use Rattle.tqd_instance.specs.Purchase.{Purchase};
    ghost use Rattle.bound_tree.specs.ReadLine.{read_line};
    ghost use Rattle.bound_tree.specs.LineHead.{head_of, prices_of, IsRowOf};
    ghost use Rattle.tree_checker.specs.Verdict.{
      Phase,
      at_header,
      judged,
      from_root,
      when_bought,
      nothing_bought,
      RowStore,
      after_leaf,
      after_row,
      slot_row_fault,
      after_split,
      after_line,
    };
    ghost use Rattle.tree_checker.specs.ByHead.{
      header_by_head,
      plan_by_head,
      buy_by_head,
      node_by_head,
      slot_node_by_head,
      other_by_head,
    };
    ghost use Rattle.tree_checker.specs.Standing.{standing_of};
    ghost use Rattle.tree_checker.specs.Buffer.{Keeps};
    ghost use Rattle.tree_checker.specs.Stack.{IsFirst, without_first};
    ghost use Rattle.tree_checker.specs.declared.due.Due.TheVariants.{Ended};
    ghost use Rattle.tree_checker.specs.declared.rejection.Rejection.{Rejection};
    ghost use Rattle.tqd_instance.specs.declared.job.Job.{Job};
    ghost use Rattle.tqd_instance.specs.declared.plan.Plan.{Plan};
    ghost use Rattle.interval_box.specs.declared.boxes.IntervalBox.{IntervalBox};
    ghost use Rattle.bound_tree.specs.SlotTree.{Slots, no_rows};
    ghost use Rattle.tree_checker.specs.SlotRows.{Holds};
    ghost use Rattle.tree_checker.specs.Judged.{HasUnits, IsDue, IsKept, AreRows, Leads, has_none, is_whole_at};

    /// Nothing is read, and the room is reserved that a text needs; nothing else here takes memory.
    pub fn start(alloc: Global, job: &'j Job) -> Result<Judge<'j>, Memory>
        ensures job { IfOk result (λ judge. judge.job.now ≡ job.now) }
        ensures due { IfOk result (λ judge. IsDue job.now judge.due judge.plan judge.boxes judge.slots at_header) }
    {
        Ok(Judge {
            job,
            due: Due::Header,
            plan: Plan::zero(alloc, job.suppliers(), job.goods())?,
            prices: vec![in alloc; 0; PRICES_MAX]?,
            boxes: BoxStack::start(alloc)?,
            slots: RowSlots::start(alloc, job)?,
        })
    }

    /// Which line is due.
    pub fn due(&self) -> Due
        ensures { result ≡ self.now.due }
    {
        self.due
    }

    /// Whether no box is due.
    pub fn has_no_box(&self) -> bool
        ensures { result ≡ has_none self.now.boxes }
    {
        self.boxes.first().is_none()
    }

    /// Whether the tree is whole.
    pub fn is_whole(&self) -> bool
        ensures { result ≡ is_whole_at self.now.due self.now.boxes }
    {
        match self.due {
            Due::Node(_) => self.has_no_box(),
            _ => false,
        }
    }

    /// No line is due any more.
    pub fn end(&mut self, rejection: Rejection)
        ensures job { self.new.job.now ≡ self.old.job.now }
        ensures due { self.new.due ≡ Ended rejection }
    {
        self.due = Due::Ended(rejection);
    }

    /// Judges the line of this number.
    pub fn judge(&mut self, line: u64, text: &LineBuffer)
        ensures job { self.new.job.now ≡ self.old.job.now }
        ensures kept { (phase : Phase) (bytes : Bytes) → IsDue self.old.job.now self.old.due self.old.plan self.old.boxes self.old.slots phase
            → Keeps text.now bytes
            → IsKept self.old.job.now self.new.due self.new.plan self.new.boxes self.new.slots (after_line self.old.job.now line phase (read_line bytes)) }
    {
        self.due = match self.after_line(line, text) {
            Ok(due) => due,
            Err(rejection) => Due::Ended(rejection),
        };
    }

    fn after_line(&mut self, line: u64, text: &LineBuffer) -> Result<Due, Rejection>
        ensures job { self.new.job.now ≡ self.old.job.now }
        ensures leads { (phase : Phase) (bytes : Bytes) → IsDue self.old.job.now self.old.due self.old.plan self.old.boxes self.old.slots phase
            → Keeps text.now bytes
            → Leads self.old.job.now self.new.plan self.new.boxes self.new.slots result (after_line self.old.job.now line phase (read_line bytes)) }
    {
        let head = text.head();
        match self.due {
            Due::Header => self.after_header(line, head),
            Due::Plan => self.after_plan(line, head),
            Due::Buy { cost, left, next } => self.after_buy(line, cost, left, next, head),
            Due::Node(best) => self.after_node(line, best, head, text.bytes()),
            Due::Ended(rejection) => Err(rejection),
        }
    }

    fn after_header(&mut self, line: u64, head: Option<LineHead>) -> Result<Due, Rejection>
        ensures job { self.new.job.now ≡ self.old.job.now }
        ensures leads { HasUnits self.old.job.now self.old.plan nothing_bought → self.old.slots.in_use ≡ false
            → Holds self.old.job.now self.old.slots no_rows
            → Leads self.old.job.now self.new.plan self.new.boxes self.new.slots result (header_by_head line head) }
    {
        match head {
            Some(LineHead::Header) => Ok(Due::Plan),
            Some(LineHead::Header2) => {
                self.slots.take_into_use();
                Ok(Due::Plan)
            }
            _ => rejected(line, Why::Header),
        }
    }

    fn after_plan(&mut self, line: u64, head: Option<LineHead>) -> Result<Due, Rejection>
        ensures job { self.new.job.now ≡ self.old.job.now }
        ensures leads { (store : RowStore) → HasUnits self.old.job.now self.old.plan nothing_bought
            → AreRows self.old.job.now self.old.slots store
            → Leads self.old.job.now self.new.plan self.new.boxes self.new.slots result (plan_by_head self.old.job.now line store head) }
    {
        match head {
            Some(LineHead::NoPlan) => Ok(self.from_root(None)),
            Some(LineHead::Plan { cost, count }) => {
                let places = self.job.suppliers() as u128 * self.job.goods() as u128;
                if count <= places {
                    self.when_bought(cost, count as u64, 0)
                } else {
                    rejected(line, Why::PlanForm)
                }
            }
            _ => rejected(line, Why::PlanForm),
        }
    }

    fn after_buy(
        &mut self,
        line: u64,
        cost: u128,
        left: u64,
        next: u64,
        head: Option<LineHead>,
    ) -> Result<Due, Rejection>
        ensures job { self.new.job.now ≡ self.old.job.now }
        ensures leads { (store : RowStore) (x : Purchase) → HasUnits self.old.job.now self.old.plan x
            → AreRows self.old.job.now self.old.slots store
            → Leads self.old.job.now self.new.plan self.new.boxes self.new.slots result
            (buy_by_head self.old.job.now line store (record { cost = cost; left = left; next = next; bought = x }) head) }
    {
        let Some(
            LineHead::Buy {
                supplier,
                good,
                units,
            },
        ) = head
        else {
            return rejected(line, Why::PlanForm);
        };
        match next_place(self.job, next, supplier, good, units) {
            Some(place) => {
                self.plan
                    .set(supplier as usize, good as usize, units as u64);
                self.when_bought(cost, left.saturating_sub(1), place + 1)
            }
            None => rejected(line, Why::PlanForm),
        }
    }

    // Where no `buy` line is due any more, the plan is judged as a whole.
    fn when_bought(&mut self, cost: u128, left: u64, next: u64) -> Result<Due, Rejection>
        ensures job { self.new.job.now ≡ self.old.job.now }
        ensures leads { (store : RowStore) (x : Purchase) → HasUnits self.old.job.now self.old.plan x
            → AreRows self.old.job.now self.old.slots store
            → Leads self.old.job.now self.new.plan self.new.boxes self.new.slots result
            (when_bought self.old.job.now store (record { cost = cost; left = left; next = next; bought = x })) }
    {
        if left == 0 {
            self.judged(cost)
        } else {
            Ok(Due::Buy { cost, left, next })
        }
    }

    fn judged(&mut self, said: u128) -> Result<Due, Rejection>
        ensures job { self.new.job.now ≡ self.old.job.now }
        ensures leads { (store : RowStore) (x : Purchase) → HasUnits self.old.job.now self.old.plan x
            → AreRows self.old.job.now self.old.slots store
            → Leads self.old.job.now self.new.plan self.new.boxes self.new.slots result
            (judged self.old.job.now store said (standing_of self.old.job.now x)) }
    {
        match self.job.standing(&self.plan) {
            Standing::Feasible(real) => {
                if said == real {
                    Ok(self.from_root(Some(said)))
                } else {
                    rejected(2, Why::PlanCost { said, real })
                }
            }
            standing => rejected(2, Why::PlanStanding(standing)),
        }
    }

    fn from_root(&mut self, best: Option<u128>) -> Due
        ensures job { self.new.job.now ≡ self.old.job.now }
        ensures leads { (store : RowStore) → AreRows self.old.job.now self.old.slots store
            → Leads self.old.job.now self.new.plan self.new.boxes self.new.slots (Ok result) (from_root self.old.job.now store best) }
    {
        self.boxes.begin(self.job);
        Due::Node(best)
    }

    fn after_node(
        &mut self,
        line: u64,
        best: Option<u128>,
        head: Option<LineHead>,
        text: &[u8],
    ) -> Result<Due, Rejection>
        requires { IfSome head (λ h. head_of text.now ≡ Some h) }
        ensures job { self.new.job.now ≡ self.old.job.now }
        ensures leads { (store : RowStore) → AreRows self.old.job.now self.old.slots store
            → Leads self.old.job.now self.new.plan self.new.boxes self.new.slots result
            (node_by_head self.old.job.now line store best self.old.boxes head (prices_of text.now)) }
    {
        let Some(area) = self.boxes.first() else {
            return rejected(line, Why::Trailing);
        };
        match head {
            Some(LineHead::Split { supplier, at }) => self.after_split(
                line, best, &area, supplier, at,
            ),
            _ => self.after_other(line, best, &area, head, text),
        }
    }

    // A node that is no split.
    fn after_other(
        &mut self,
        line: u64,
        best: Option<u128>,
        area: &IntervalBox,
        head: Option<LineHead>,
        text: &[u8],
    ) -> Result<Due, Rejection>
        requires first { IsFirst self.old.boxes (Some area.now) }
        requires head { IfSome head (λ h. head_of text.now ≡ Some h) }
        ensures job { self.new.job.now ≡ self.old.job.now }
        ensures leads { (store : RowStore) → AreRows self.old.job.now self.old.slots store
            → Leads self.old.job.now self.new.plan self.new.boxes self.new.slots result
            (other_by_head self.old.job.now line store best area.now (without_first self.old.boxes) head (prices_of text.now)) }
    {
        if self.slots.are_in_use() {
            return self.after_slot_node(line, best, area, head, text);
        }
        let fault = leaf_fault(self.job, best, area, head, text, &mut self.prices);
        self.after_leaf(line, best, fault)
    }

    // A node of format 2 that is no split.
    fn after_slot_node(
        &mut self,
        line: u64,
        best: Option<u128>,
        area: &IntervalBox,
        head: Option<LineHead>,
        text: &[u8],
    ) -> Result<Due, Rejection>
        requires first { IsFirst self.old.boxes (Some area.now) }
        requires head { IfSome head (λ h. head_of text.now ≡ Some h) }
        requires in_use { self.old.slots.in_use ≡ true }
        ensures job { self.new.job.now ≡ self.old.job.now }
        ensures leads { (slots : Slots) → Holds self.old.job.now self.old.slots slots
            → Leads self.old.job.now self.new.plan self.new.boxes self.new.slots result
            (slot_node_by_head self.old.job.now line slots best area.now (without_first self.old.boxes) head (prices_of text.now)) }
    {
        match head {
            Some(LineHead::Row { slot, count }) => self.after_row(line, best, slot, count, text),
            _ => {
                let fault = slot_leaf_fault(
                    self.job,
                    best,
                    area,
                    head,
                    text,
                    &self.slots,
                    &mut self.prices,
                );
                self.after_leaf(line, best, fault)
            }
        }
    }

    // After a `row` line the same node is due.
    fn after_row(
        &mut self,
        line: u64,
        best: Option<u128>,
        slot: u128,
        count: u64,
        text: &[u8],
    ) -> Result<Due, Rejection>
        requires row { IsRowOf count (head_of text.now) }
        requires in_use { self.old.slots.in_use ≡ true }
        ensures job { self.new.job.now ≡ self.old.job.now }
        ensures leads { (slots : Slots) → Holds self.old.job.now self.old.slots slots
            → Leads self.old.job.now self.new.plan self.new.boxes self.new.slots result
            (after_row self.old.job.now line slots best self.old.boxes slot (prices_of text.now)
            (slot_row_fault self.old.job.now slot (prices_of text.now))) }
    {
        match slot_row_fault(self.job, &mut self.slots, slot, count, text) {
            Some(why) => rejected(line, why),
            None => Ok(Due::Node(best)),
        }
    }

    // After a leaf the next box is due.
    fn after_leaf(
        &mut self,
        line: u64,
        best: Option<u128>,
        fault: Option<Why>,
    ) -> Result<Due, Rejection>
        ensures job { self.new.job.now ≡ self.old.job.now }
        ensures leads { (store : RowStore) → AreRows self.old.job.now self.old.slots store
            → Leads self.old.job.now self.new.plan self.new.boxes self.new.slots result
            (after_leaf line store best (without_first self.old.boxes) fault) }
    {
        match fault {
            Some(why) => rejected(line, why),
            None => {
                self.boxes.drop_first();
                Ok(Due::Node(best))
            }
        }
    }

    fn after_split(
        &mut self,
        line: u64,
        best: Option<u128>,
        area: &IntervalBox,
        supplier: u128,
        at: u128,
    ) -> Result<Due, Rejection>
        requires { IsFirst self.old.boxes (Some area.now) }
        ensures job { self.new.job.now ≡ self.old.job.now }
        ensures leads { (store : RowStore) → AreRows self.old.job.now self.old.slots store
            → Leads self.old.job.now self.new.plan self.new.boxes self.new.slots result
            (after_split self.old.job.now line store best area.now (without_first self.old.boxes) supplier at) }
    {
        match split_place(self.job, area, supplier, at) {
            Some((i, s)) => {
                self.boxes.split(i, s);
                Ok(Due::Node(best))
            }
            None => rejected(line, Why::SplitRange),
        }
    }
}
