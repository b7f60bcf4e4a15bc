use interval_box::IntervalBox;
use std::alloc::Global;
use std::marker::Model;
use tqd_base::Memory;
use tqd_instance::Job;

/// How many boxes can be due at once: no path from the root of a tree has more than 1,024 splits.
const BOXES_MAX: usize = 1_025;

/// The boxes that are due, the next one on top; contracts see it first.
#[derive(Debug, Drop)]
pub(crate) struct BoxStack {
    boxes: Vec<IntervalBox>,
}

impl Model for BoxStack {
    ghost use Rattle.std.specs.Prelude.{List, reverse};
    ghost use Rattle.interval_box.specs.declared.boxes.IntervalBox.{IntervalBox};
    ghost use Rattle.tree_checker.specs.Stack.{IsStack};

    ghost Value = { List IntervalBox };

    ghost view = { λ s. reverse s.boxes.items };

    ghost invariant = { λ s. IsStack s.boxes };
}

impl BoxStack {
    ghost use Rattle.std.specs.Prelude.{◌≡◌, [], ◌∷◌, List, IfOk};
    ghost use Rattle.interval_box.specs.declared.boxes.IntervalBox.{IntervalBox};
    ghost use Rattle.interval_box.specs.Ranges.{IsBoxOf};
    ghost use Rattle.interval_box.specs.Halves.{low_half, high_half};
    ghost use Rattle.tree_checker.specs.Stack.{without_first, IsFirst, IsSplitFirst};
    ghost use Rattle.bound_tree.specs.Root.{root_of};

    /// No box, and room for all that can be due at once; nothing else here takes memory.
    pub fn start(alloc: Global) -> Result<BoxStack, Memory>
        ensures { IfOk result (λ stack. stack ≡ []) }
    {
        let boxes = Vec::with_capacity(alloc, BOXES_MAX)?;
        Ok(BoxStack { boxes })
    }

    /// The root alone is due.
    pub fn begin(&mut self, job: &Job)
        ensures root { self.new ≡ root_of job.now ∷ [] }
        ensures of_job { IsBoxOf job.now (root_of job.now) }
    {
        self.boxes.clear();
        // The room was reserved, so this does not fail.
        let _pushed = self.boxes.push(IntervalBox::root(job));
    }

    /// The next box.
    pub fn first(&self) -> Option<IntervalBox>
        ensures { IsFirst self.now result }
    {
        self.boxes.last().copied()
    }

    /// Takes the next box off.
    pub fn drop_first(&mut self)
        ensures { self.new ≡ without_first self.old }
    {
        let _dropped = self.boxes.pop();
    }

    /// Splits the next box: its low half is next, and its high half after that.
    pub fn split(&mut self, i: usize, s: u8)
        requires some { IsSplitFirst self.old i s }
        ensures { (area : IntervalBox) (due : List IntervalBox) → self.old ≡ area ∷ due
            → self.new ≡ low_half area i s ∷ high_half area i s ∷ due }
    {
        if let Some(area) = self.boxes.pop() {
            let (low, high) = area.halves(i, s);
            // The room was reserved, so these do not fail.
            let _pushed = self.boxes.push(high);
            let _pushed = self.boxes.push(low);
        }
    }
}
