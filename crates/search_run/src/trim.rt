//! Ends of suppliers' ranges that are split off a box.
ghost use Rattle.std.specs.Prelude.{◌≡◌, ◌<◌, IfOk, IfSome};
ghost use Rattle.tqd_base.specs.declared.limits.TheConstants.{SUPPLIERS_MAX};
ghost use Rattle.tqd_instance.specs.Job.{suppliers};
ghost use Rattle.interval_box.specs.Ranges.{IsBoxOf};
ghost use Rattle.interval_box.specs.Halves.{IsProper};
ghost use Rattle.search_book.specs.Answers.{CanClose};
ghost use Rattle.search_run.specs.Trims.{IsEndOf, IsTrimOf, IsTrimming};

use crate::thought::{Act, Cut, half_of};
use bound_tree::Leaf;
use interval_box::IntervalBox;
use std::alloc::Global;
use tqd_base::Memory;
use tqd_instance::Job;

/// What cuts leave of a box, and the cuts in their order.
#[derive(Drop)]
pub(crate) struct Trim {
    pub(crate) rest: IntervalBox,
    cuts: Vec<Cut>,
}

/// An end of a supplier's range that is to be split off at the number `at`, and the box that it is.
#[derive(Clone, Copy, Debug)]
pub(crate) struct End {
    pub(crate) supplier: usize,
    pub(crate) at: u8,
    pub(crate) low: bool,
    pub(crate) dead: IntervalBox,
}

impl Trim {
    /// A box that is whole.
    pub(crate) fn of(alloc: Global, _job: &Job, area: &IntervalBox) -> Trim
        requires { IsBoxOf _job.now area.now }
        ensures trim { IsTrimOf _job.now area.now result }
        ensures rest { result.rest ≡ area.now }
    {
        Trim {
            rest: *area,
            cuts: Vec::new(alloc),
        }
    }

    /// Splits an end off, which a leaf closes.
    pub(crate) fn cut(
        &mut self,
        _job: &Job,
        _area: &IntervalBox,
        end: &End,
        leaf: Leaf,
    ) -> Result<(), Memory>
        requires trim { IsTrimOf _job.now _area.now self.old }
        requires end { IsEndOf _job.now _area.now self.old.rest end.now }
        requires leaf { CanClose _job.now end.now.dead leaf }
        ensures { IfOk result (λ _. IsTrimOf _job.now _area.now self.new) }
    {
        let &End {
            supplier,
            at,
            low,
            ..
        } = end;
        self.cuts.push(Cut {
            supplier,
            at,
            low,
            leaf,
        })?;
        self.rest = half_of(&self.rest, supplier, at, !low);
        Ok(())
    }

    /// The cuts, where there are any; else the box stays as it is.
    pub(crate) fn act(self, _job: &Job, _area: &IntervalBox) -> Act
        requires { IsTrimOf _job.now _area.now self }
        ensures { IsTrimming _job.now _area.now result }
    {
        if self.cuts.is_empty() {
            Act::Stay
        } else {
            Act::Trim(self.cuts)
        }
    }

    /// The segments at the low end of a supplier's range that are in a set, as far as they leave one.
    pub(crate) fn low_end(
        &self,
        job: &Job,
        area: &IntervalBox,
        i: usize,
        dying: Segments,
    ) -> Option<End>
        requires trim { IsTrimOf job.now area.now self.now }
        requires supplier { i < suppliers job.now }
        ensures { IfSome result (IsEndOf job.now area.now self.now.rest) }
    {
        prove!(i < job.suppliers());
        let at = last_of_low_end(&self.rest, i, dying)?;
        Some(self.end(job, area, i, at, true))
    }

    /// The segments at the high end of a supplier's range that are in a set, as far as they leave one.
    pub(crate) fn high_end(
        &self,
        job: &Job,
        area: &IntervalBox,
        i: usize,
        dying: Segments,
    ) -> Option<End>
        requires trim { IsTrimOf job.now area.now self.now }
        requires supplier { i < suppliers job.now }
        ensures { IfSome result (IsEndOf job.now area.now self.now.rest) }
    {
        prove!(i < job.suppliers());
        let at = last_below_high_end(&self.rest, i, dying)?;
        Some(self.end(job, area, i, at, false))
    }

    fn end(&self, job: &Job, _area: &IntervalBox, supplier: usize, at: u8, low: bool) -> End
        requires trim { IsTrimOf job.now _area.now self.now }
        requires supplier { supplier < suppliers job.now }
        requires proper { IsProper self.now.rest supplier at }
        ensures { IsEndOf job.now _area.now self.now.rest result }
    {
        prove!(supplier < job.suppliers());
        End {
            supplier,
            at,
            low,
            dead: half_of(&self.rest, supplier, at, low),
        }
    }
}

/// The last number of the longest low end of a range that is in a set and is not the whole range.
fn last_of_low_end(area: &IntervalBox, i: usize, dying: Segments) -> Option<u8>
    requires { i < SUPPLIERS_MAX }
    ensures { IfSome result (IsProper area.now i) }
{
    let mut last = None;
    for j in area.low_of(i)..area.high_of(i) {
        if !dying.has(j) {
            break;
        }
        last = Some(j);
    }
    last
}

/// The number before the longest high end of a range that is in a set and is not the whole range.
fn last_below_high_end(area: &IntervalBox, i: usize, dying: Segments) -> Option<u8>
    requires { i < SUPPLIERS_MAX }
    ensures { IfSome result (IsProper area.now i) }
{
    let mut last = None;
    for j in (area.low_of(i)..area.high_of(i)).rev() {
        if !dying.has(j + 1) {
            break;
        }
        last = Some(j);
    }
    last
}

/// A set of segment numbers below 32.
#[derive(Clone, Copy, Debug, PartialEq, Eq)]
pub(crate) struct Segments(u32);

impl Segments {
    pub(crate) fn none() -> Segments {
        Segments(0)
    }

    /// Segment 0, in which nothing is bought.
    pub(crate) fn zero() -> Segments {
        Segments(1)
    }

    /// All but segment 0.
    pub(crate) fn above_zero() -> Segments {
        Segments(!1)
    }

    pub(crate) fn add(&mut self, j: u8) {
        self.0 |= 1_u32.wrapping_shl(u32::from(j));
    }

    pub(crate) fn has(self, j: u8) -> bool {
        self.0.wrapping_shr(u32::from(j)) & 1 == 1
    }
}
