ghost use Rattle.std.specs.Prelude.{◌≤◌, ◌^◌, IfOk, MatchOption, IsTrue, ◌↔◌};
ghost use Rattle.interval_box.specs.Ranges.{IsBoxOf};
ghost use Rattle.bound_tree.specs.Prices.{IsPrice, Fits};
ghost use Rattle.price_climb.specs.Table.{IsPlace};
ghost use Rattle.price_climb.specs.PriceList.{price_count};
ghost use Rattle.price_climb.specs.Climbing.{IsStep, StandsAt, StandsStill, Climbs};
ghost use Rattle.price_climb.specs.Raises.{IsRaise, Raises, StandsWithin};

use crate::table::ClimbTable;
use bound_tree::Row;
use interval_box::IntervalBox;
use std::alloc::Global;
use tqd_base::Memory;
use tqd_instance::Job;

/// Where a climb ended: in a row that stands still, so that no step of one price raises its value, or in one that does
/// not, after all its rounds.
#[derive(Debug, Drop)]
pub enum Climbed {
    Still(Row),
    Risen(Row),
}

/// A step of one price that raises the value.
#[derive(Clone, Copy, Debug)]
struct Raise {
    place: usize,
    delta: i64,
}

impl<'j> ClimbTable<'j> {
    /// Whether raising the price at a place by `delta` raises the value.
    fn is_raised(&self, place: usize, delta: i64) -> bool
        requires place { IsPlace self.now place }
        requires delta { IsPrice delta }
        ensures { IsTrue result ↔ IsRaise self.now place delta }
    {
        match self.after(place, delta) {
            Some(value) => self.value() < value,
            None => false,
        }
    }

    /// The step up or down at a place that raises the value, if one does.
    fn raise_at(&self, place: usize, step: i64) -> Option<Raise>
        requires place { IsPlace self.now place }
        requires step { IsStep step }
        ensures { MatchOption result
            (StandsAt self.now.job self.now.area self.now.row step place)
            (λ raise. Raises self.now step raise.place raise.delta) }
    {
        if self.is_raised(place, step) {
            return Some(Raise { place, delta: step });
        }
        if self.is_raised(place, -step) {
            return Some(Raise {
                place,
                delta: -step,
            });
        }
        None
    }

    /// The first step at a place from `from` to before `to` that raises the value, if one does.
    fn raise_within(&self, from: usize, to: usize, step: i64) -> Option<Raise>
        requires places { to ≤ price_count self.now.job self.now.area }
        requires step { IsStep step }
        ensures { MatchOption result
            (StandsWithin self.now step from to)
            (λ raise. Raises self.now step raise.place raise.delta) }
    {
        for place in from..to {
            if let Some(raise) = self.raise_at(place, step) {
                return Some(raise);
            }
        }
        None
    }

    /// The next step that raises the value, from a place on and then from the first, or none exactly where the row
    /// stands still.
    fn next_raise(&self, from: usize, step: i64) -> Option<Raise>
        requires step { IsStep step }
        ensures { MatchOption result
            (StandsStill self.now.job self.now.area self.now.row step)
            (λ raise. Raises self.now step raise.place raise.delta) }
    {
        match self.raise_within(from, self.places(), step) {
            Some(raise) => Some(raise),
            None => self.raise_within(0, from.min(self.places()), step),
        }
    }
}

/// Raises the value of a row by changing one price at a time, by `step` up or down, in millionths of the currency a
/// unit. After each change, which raises the value by 1 millionth at least, it goes on at the next price. Where `rounds`
/// changes were made and another would raise the value, it ends in `Risen`. `Err` is the want of memory.
pub fn climb(
    alloc: Global,
    job: &Job,
    area: &IntervalBox,
    row: Row,
    step: i64,
    rounds: u64,
) -> Result<Climbed, Memory>
    requires of_job { IsBoxOf job.now area.now }
    requires fits { Fits job.now area.now row }
    requires step { IsStep step }
    requires some { 1 ≤ rounds }
    requires few { rounds ≤ 10 ^ 6 }
    ensures { IfOk result (Climbs job.now area.now step rounds row) }
{
    let mut table = ClimbTable::new(alloc, job, *area, row)?;
    let mut from = 0;
    for _round in 0..rounds {
        let Some(raise) = table.next_raise(from, step) else {
            return Ok(Climbed::Still(table.row()));
        };
        table.change(raise.place, raise.delta);
        from = raise.place + 1;
    }
    Ok(match table.next_raise(from, step) {
        None => Climbed::Still(table.row()),
        Some(_) => Climbed::Risen(table.row()),
    })
}
