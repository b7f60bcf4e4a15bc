//! A depth-first search along the lines of a bill, with an explicit path in place of a recursion (Tarjan, Depth-first
//! search and linear graph algorithms, SIAM Journal on Computing, 1972).

ghost use Rattle.std.specs.Prelude.{◌≡◌, ℕ, ◌<◌, ◌≤◌, [], ◌∷◌, ◌++◌, length, slice_index, slice_set, IfOk, OnOk, MatchOption};
ghost use Rattle.bom_explode.specs.Structure.{structure_of, IsStructure};
ghost use Rattle.bom_explode.specs.Ways.{along};
ghost use Rattle.bom_explode.specs.Chains.{AreChains};
ghost use Rattle.bom_explode.specs.Search.{Searches, IsTop, IsIdle, IsGrown, IsVisited, KeepsGrown, steps_left};

use crate::chains::Chains;
use crate::structure::{Way, ends, names};
use bom_reader::Bill;
use std::alloc::Global;
use tqd_base::Memory;

/// The mark of a name that was not found.
pub(crate) const UNFOUND: usize = usize::MAX;

/// For each name the line to follow next, as its number and 1, or 0 where all were followed, and a mark, which is below
/// `UNFOUND` where the name was found; the names that were entered and not yet left; and those that were left, in the
/// order of leaving.
#[derive(Drop)]
pub(crate) struct Search {
    pub cursor: Vec<u32>,
    pub mark: Vec<usize>,
    pub path: Vec<u32>,
    pub left: Vec<u32>,
}

impl Search {
    /// A search that has found nothing yet.
    pub(crate) fn new(
        alloc: Global,
        bill: &Bill,
        way: Way,
        chains: &Chains,
    ) -> Result<Search, Memory>
        requires { AreChains (along way (structure_of bill.now)) chains.now.first.items chains.now.next.items }
        ensures idle { IfOk result (λ search. IsIdle (along way (structure_of bill.now)) search) }
        ensures nothing { IfOk result (λ search. (n : ℕ) → n < (structure_of bill.now).names → UNFOUND ≤ slice_index search.mark.items n) }
        ensures kept { IsStructure (structure_of bill.now) }
    {
        let count = names(bill) as usize;
        Ok(Search {
            cursor: Vec::from_slice(alloc, &chains.first)?,
            mark: vec![in alloc; UNFOUND; count]?,
            path: Vec::with_capacity(alloc, count)?,
            left: Vec::with_capacity(alloc, count)?,
        })
    }

    /// The last name on the path.
    fn top(&self) -> Option<u32>
        ensures { MatchOption result (self.now.path.items ≡ []) (λ n. IsTop self.now.path.items n) }
    {
        self.path.last().copied()
    }

    /// Marks a name as found, and enters it.
    fn enter(&mut self, n: u32, mark: usize) -> Result<(), Memory>
        requires { n < length self.old.mark.items }
        ensures cursor { self.new.cursor.items ≡ self.old.cursor.items }
        ensures mark { self.new.mark.items ≡ slice_set self.old.mark.items n mark }
        ensures path { OnOk result (self.new.path.items ≡ self.old.path.items ++ n ∷ []) }
        ensures left { self.new.left.items ≡ self.old.left.items }
    {
        self.mark[n as usize] = mark;
        self.path.push(n)?;
        Ok(())
    }

    /// Leaves the last name on the path.
    fn leave(&mut self, n: u32) -> Result<(), Memory>
        requires { IsTop self.old.path.items n }
        ensures cursor { self.new.cursor.items ≡ self.old.cursor.items }
        ensures mark { self.new.mark.items ≡ self.old.mark.items }
        ensures path { self.old.path.items ≡ self.new.path.items ++ n ∷ [] }
        ensures left { OnOk result (self.new.left.items ≡ self.old.left.items ++ n ∷ []) }
    {
        self.path.pop();
        self.left.push(n)?;
        Ok(())
    }

    /// Follows a line of the last name on the path, and enters the name that it leads to where that was not found before.
    fn follow(
        &mut self,
        bill: &Bill,
        way: Way,
        chains: &Chains,
        n: u32,
        mark: usize,
    ) -> Result<(), Memory>
        requires kept { IsStructure (structure_of bill.now) }
        requires chains { AreChains (along way (structure_of bill.now)) chains.now.first.items chains.now.next.items }
        requires searches { Searches (along way (structure_of bill.now)) self.old }
        requires mark { mark < UNFOUND }
        requires top { IsTop self.old.path.items n }
        requires more { 0 < slice_index self.old.cursor.items n }
        ensures searches { OnOk result (Searches (along way (structure_of bill.now)) self.new) }
        ensures grown { OnOk result (KeepsGrown (along way (structure_of bill.now)) mark self.old self.new) }
        ensures nearer { OnOk result (steps_left self.new < steps_left self.old) }
    {
        let line = self.cursor[n as usize] - 1;
        let (_, finish) = ends(bill, way, line);
        self.cursor[n as usize] = chains.next[line as usize];
        if self.mark[finish as usize] < UNFOUND {
            Ok(())
        } else {
            self.enter(finish, mark)
        }
    }

    fn step(
        &mut self,
        bill: &Bill,
        way: Way,
        chains: &Chains,
        n: u32,
        mark: usize,
    ) -> Result<(), Memory>
        requires kept { IsStructure (structure_of bill.now) }
        requires chains { AreChains (along way (structure_of bill.now)) chains.now.first.items chains.now.next.items }
        requires searches { Searches (along way (structure_of bill.now)) self.old }
        requires mark { mark < UNFOUND }
        requires top { IsTop self.old.path.items n }
        ensures searches { OnOk result (Searches (along way (structure_of bill.now)) self.new) }
        ensures grown { OnOk result (KeepsGrown (along way (structure_of bill.now)) mark self.old self.new) }
        ensures nearer { OnOk result (steps_left self.new < steps_left self.old) }
    {
        if self.cursor[n as usize] > 0 {
            self.follow(bill, way, chains, n, mark)
        } else {
            self.leave(n)
        }
    }

    /// Finds, from `root` on, each name that lines lead to and that was not found before, and gives it this mark.
    fn run(
        &mut self,
        bill: &Bill,
        way: Way,
        chains: &Chains,
        root: u32,
        mark: usize,
    ) -> Result<(), Memory>
        requires kept { IsStructure (structure_of bill.now) }
        requires chains { AreChains (along way (structure_of bill.now)) chains.now.first.items chains.now.next.items }
        requires idle { IsIdle (along way (structure_of bill.now)) self.old }
        requires root { root < (structure_of bill.now).names }
        requires unfound { UNFOUND ≤ slice_index self.old.mark.items root }
        requires mark { mark < UNFOUND }
        ensures idle { OnOk result (IsIdle (along way (structure_of bill.now)) self.new) }
        ensures grown { OnOk result (IsGrown (along way (structure_of bill.now)) self.old.mark.items root mark self.new.mark.items []) }
    {
        self.enter(root, mark)?;
        while let Some(n) = self.top() {
            self.step(bill, way, chains, n, mark)?;
        }
        Ok(())
    }

    /// Searches from `root`, unless it was found before.
    pub(crate) fn visit(
        &mut self,
        bill: &Bill,
        way: Way,
        chains: &Chains,
        root: u32,
        mark: usize,
    ) -> Result<(), Memory>
        requires kept { IsStructure (structure_of bill.now) }
        requires chains { AreChains (along way (structure_of bill.now)) chains.now.first.items chains.now.next.items }
        requires idle { IsIdle (along way (structure_of bill.now)) self.old }
        requires root { root < (structure_of bill.now).names }
        requires mark { mark < UNFOUND }
        ensures idle { OnOk result (IsIdle (along way (structure_of bill.now)) self.new) }
        ensures visited { OnOk result (IsVisited (along way (structure_of bill.now)) self.old.mark.items root mark self.new.mark.items) }
    {
        if self.mark[root as usize] < UNFOUND {
            Ok(())
        } else {
            self.run(bill, way, chains, root, mark)
        }
    }
}
