ghost use Rattle.std.specs.Prelude.{◌≤◌, vec_len};
ghost use Rattle.tree_checker.specs.declared.leaf.TheConstants.{PRICES_MAX};
ghost use Rattle.tree_checker.specs.SlotRows.{AreSlotRows};

use crate::lines::Lines;
use crate::said::{Said, Target};
use bound_tree::{Leaf, LineHead, line_head};
use interval_box::IntervalBox;
use search_book::{Book, Close, Take};
use std::alloc::Global;
use std::marker::Model;
use tqd_base::Memory;
use tree_checker::{PRICES_MAX, RowSlots, slot_row_fault};

/// A node of the book on which the old tree has something to say, and its box.
#[derive(Clone, Copy, Debug)]
pub(crate) struct DueNode {
    number: u64,
    area: IntervalBox,
}

/// The nodes that are due after the one that is Taken, the next one on top; contracts see it first.
#[derive(Debug, Drop)]
pub(crate) struct DueNodes {
    nodes: Vec<DueNode>,
}

impl Model for DueNodes {
    ghost use Rattle.std.specs.Prelude.{List, reverse};
    ghost use Rattle.requote.specs.declared.graft.DueNode.{DueNode};

    ghost Value = { List DueNode };

    ghost view = { λ s. reverse s.nodes.items };
}

impl DueNodes {
    ghost use Rattle.std.specs.Prelude.{◌≡◌, [], ◌∷◌, OnOk};
    ghost use Rattle.requote.specs.Reading.{TakesNode};

    fn new(alloc: Global) -> DueNodes
        ensures { result ≡ [] }
    {
        DueNodes {
            nodes: Vec::new(alloc),
        }
    }

    // Puts a node on top.
    fn push(&mut self, node: DueNode) -> Result<(), Memory>
        ensures { OnOk result (self.new ≡ node ∷ self.old) }
    {
        self.nodes.push(node)?;
        Ok(())
    }

    // Takes the node on top, if there is one.
    fn pop(&mut self) -> Option<DueNode>
        ensures { TakesNode self.old self.new result }
    {
        self.nodes.pop()
    }
}

/// A book into which an old tree is read.
#[derive(Debug, Drop)]
pub(crate) struct Grafter<'j> {
    book: Book<'j>,
    due: DueNodes,
    slots: RowSlots,
    places: Vec<i64>,
    pub ghost rows: { AreSlotRows book.job slots },
    pub ghost room: { PRICES_MAX ≤ vec_len places },
}

impl<'j> Grafter<'j> {
    ghost use Rattle.std.specs.Prelude.{◌≡◌, ◌<◌, [], length, None, Some, IfOk, IfSome};
    ghost use Rattle.interval_box.specs.Halves.{IsProper};
    ghost use Rattle.bound_tree.specs.Root.{root_of};
    ghost use Rattle.bound_tree.specs.LineHead.{head_of, prices_of};
    ghost use Rattle.bound_tree.specs.Kills.{Kills};
    ghost use Rattle.search_book.specs.Nodes.{area_of};
    ghost use Rattle.search_book.specs.BookState.{best_cost};
    ghost use Rattle.search_book.specs.Events.{take_node, close_node, give_back, Happens};
    ghost use Rattle.search_book.specs.Runs.{Leads};
    ghost use Rattle.tree_checker.specs.SlotRows.{store_of};
    ghost use Rattle.requote.specs.declared.said.Said.TheVariants.{Splits};
    ghost use Rattle.requote.specs.Graft.{tree_events};
    ghost use Rattle.requote.specs.Reading.{
      AreOpen,
      IsAt,
      IsAtRoot,
      CanDo,
      said_of,
      FillsSlot,
      TakesNext,
      left_events,
      Follows,
      FollowsSaid,
    };

    /// Takes the root, the only node of a book, and reads the tree from the lines after the plan.
    pub(crate) fn graft(
        alloc: Global,
        book: Book<'j>,
        slots: RowSlots,
        lines: Lines<'_>,
    ) -> Result<Book<'j>, Memory>
        requires root { IsAtRoot book }
        requires rows { AreSlotRows book.job slots }
        ensures { IfOk result (Leads book.entry
            (tree_events book.entry.job (best_cost book.entry) (store_of book.entry.job slots) lines.entry)) }
    {
        let mut grafter = Grafter {
            book,
            due: DueNodes::new(alloc),
            slots,
            places: vec![in alloc; 0; PRICES_MAX]?,
        };
        let root = grafter.take_root();
        grafter.read_all(alloc, root, lines)
    }

    // Takes the only node.
    fn take_root(&mut self) -> DueNode
        requires root { IsAtRoot self.old.book }
        requires none { self.old.due ≡ [] }
        ensures node { result ≡ record { number = 0; area = root_of self.old.book.job } }
        ensures happens { Happens self.old.book (take_node 0) self.new.book }
        ensures at { IsAt self.new result }
        ensures due { self.new.due ≡ [] }
        ensures slots { self.new.slots ≡ self.old.slots }
    {
        match self.book.take(0) {
            Take::Got(area) => DueNode { number: 0, area },
            Take::NotOpen(_) => unreachable!(),
        }
    }

    // Reads what the lines say, from a node on that is Taken.
    fn read_all(
        mut self,
        alloc: Global,
        first: DueNode,
        mut lines: Lines<'_>,
    ) -> Result<Book<'j>, Memory>
        requires { IsAt self first }
        ensures { IfOk result (Leads self.entry.book (left_events self.entry (Some first) lines.entry)) }
    {
        let mut next = Some(first);
        while let Some(node) = next {
            next = match lines.next() {
                Some(line) => self.read_line(alloc, node, line)?,
                None => self.leave(node),
            };
        }
        Ok(self.book)
    }

    // Reads a line, which fills a slot or says something of the node, and gives the node that is Taken then.
    fn read_line(
        &mut self,
        alloc: Global,
        node: DueNode,
        line: &[u8],
    ) -> Result<Option<DueNode>, Memory>
        requires { IsAt self.old node }
        ensures at { IfOk result (λ next. IfSome next (IsAt self.new)) }
        ensures follows { IfOk result (Follows self.old node line.now self.new) }
    {
        let head = line_head(line);
        if self.fills_slot(head, line) {
            return Ok(Some(node));
        }
        match self.said(alloc, node, head, line)? {
            Said::Splits { supplier, at } => self.split(node, supplier, at),
            Said::Kills(leaf) => {
                self.close(node, leaf);
                Ok(self.take_next())
            }
            Said::FallsShort => {
                self.give_back(node);
                Ok(self.take_next())
            }
            Said::Nothing => Ok(self.leave(node)),
        }
    }

    // Whether the line is a right `row` line of format 2; then its slot has the row.
    fn fills_slot(&mut self, head: Option<LineHead>, line: &[u8]) -> bool
        requires { head ≡ head_of line.now }
        ensures book { self.new.book ≡ self.old.book }
        ensures due { self.new.due ≡ self.old.due }
        ensures fills { FillsSlot self.old self.new head (prices_of line.now) result }
    {
        let Some(LineHead::Row { slot, count }) = head else {
            return false;
        };
        if !self.slots.are_in_use() {
            return false;
        }
        slot_row_fault(self.book.job(), &mut self.slots, slot, count, line).is_none()
    }

    // What a line says of a node that is Taken.
    fn said(
        &mut self,
        alloc: Global,
        node: DueNode,
        head: Option<LineHead>,
        line: &[u8],
    ) -> Result<Said, Memory>
        requires at { IsAt self.old node }
        requires head { head ≡ head_of line.now }
        ensures book { self.new.book ≡ self.old.book }
        ensures due { self.new.due ≡ self.old.due }
        ensures slots { self.new.slots ≡ self.old.slots }
        ensures says { IfOk result (λ answer. answer ≡ said_of self.old node head (prices_of line.now)) }
        ensures can_do { IfOk result (CanDo self.old.book.job (best_cost self.old.book) node.area) }
    {
        let target = Target {
            job: self.book.job(),
            area: self.book.area(node.number),
            best: self.book.best(),
        };
        target.said(alloc, head, line, &self.slots, &mut self.places)
    }

    // Splits the node. Its low half is Taken then, and the high one is due next.
    fn split(&mut self, node: DueNode, supplier: usize, at: u8) -> Result<Option<DueNode>, Memory>
        requires at { IsAt self.old node }
        requires proper { IsProper node.area supplier at }
        ensures at { IfOk result (λ next. IfSome next (IsAt self.new)) }
        ensures follows { IfOk result (FollowsSaid self.old node (Splits supplier at) self.new) }
    {
        let (low, high) = self.book.split(node.number, supplier, at, true)?;
        let high_node = self.due_node(high);
        self.due.push(high_node)?;
        Ok(Some(self.due_node(low)))
    }

    // A node of the book, and its box.
    fn due_node(&self, number: u64) -> DueNode
        requires { number < length self.now.book.nodes }
        ensures { result ≡ record { number = number; area = area_of self.now.book.nodes number } }
    {
        DueNode {
            number,
            area: self.book.area(number),
        }
    }

    // Closes the node by a leaf that kills its box.
    fn close(&mut self, node: DueNode, leaf: Leaf)
        requires at { IsAt self.old node }
        requires kills { Kills self.old.book.job node.area (best_cost self.old.book) leaf }
        ensures happens { Happens self.old.book (close_node node.number leaf) self.new.book }
        ensures open_ones { AreOpen self.new.book.nodes self.new.due }
        ensures due { self.new.due ≡ self.old.due }
        ensures slots { self.new.slots ≡ self.old.slots }
    {
        match self.book.close(node.number, leaf) {
            Close::Closed => {}
            Close::Short(_) => unreachable!(),
        }
    }

    // Opens the node again.
    fn give_back(&mut self, node: DueNode)
        requires { IsAt self.old node }
        ensures happens { Happens self.old.book (give_back node.number) self.new.book }
        ensures open_ones { AreOpen self.new.book.nodes self.new.due }
        ensures due { self.new.due ≡ self.old.due }
        ensures slots { self.new.slots ≡ self.old.slots }
    {
        self.book.give_back(node.number);
    }

    // Opens the node again and takes no other one, so that the reading ends.
    fn leave(&mut self, node: DueNode) -> Option<DueNode>
        requires { IsAt self.old node }
        ensures none { result ≡ None }
        ensures happens { Happens self.old.book (give_back node.number) self.new.book }
    {
        self.book.give_back(node.number);
        None
    }

    // Takes the next node that is due, if there is one.
    fn take_next(&mut self) -> Option<DueNode>
        requires { AreOpen self.old.book.nodes self.old.due }
        ensures at { IfSome result (IsAt self.new) }
        ensures takes { TakesNext self.old self.new result }
        ensures slots { self.new.slots ≡ self.old.slots }
    {
        let node = self.due.pop()?;
        match self.book.take(node.number) {
            Take::Got(_) => Some(node),
            Take::NotOpen(_) => unreachable!(),
        }
    }
}
