ghost use Rattle.std.specs.Prelude.{◌≡◌, IfOk};
ghost use Rattle.interval_box.specs.Ranges.{IsBoxOf};
ghost use Rattle.bound_tree.specs.Prices.{Fits, row_of};
ghost use Rattle.bound_tree.specs.Value.{value, free_value};

use bound_tree::{Row, root_value_free_in, root_value_in, value_free_in, value_in};
use interval_box::IntervalBox;
use std::alloc::Global;
use tqd_base::Memory;
use tqd_instance::Job;

/// The row of a leaf as one list of prices, those of the goods first, in millionths of the currency: a row of the
/// leaf's box, or one of the root that stands for the row narrowed to the box.
#[derive(Clone, Copy)]
pub(crate) enum LeafRow<'r> {
    OfBox(&'r [i64]),
    OfRoot(&'r [i64]),
}

impl<'r> LeafRow<'r> {
    ghost use Rattle.requote.specs.Reading.{row_in_box, FitsAs};

    /// The value of the row in the box.
    pub(crate) fn value(self, job: &Job, area: &IntervalBox) -> i128
        requires of_job { IsBoxOf job.now area.now }
        requires fits { FitsAs job.now area.now self }
        ensures { result ≡ value job.now area.now (row_in_box job.now area.now self.entry) }
    {
        match self {
            LeafRow::OfBox(prices) => value_in(job, area, prices),
            LeafRow::OfRoot(prices) => root_value_in(job, area, prices),
        }
    }

    /// The free value of the row in the box.
    pub(crate) fn value_free(self, job: &Job, area: &IntervalBox) -> i128
        requires of_job { IsBoxOf job.now area.now }
        requires fits { FitsAs job.now area.now self }
        ensures { result ≡ free_value job.now area.now (row_in_box job.now area.now self.entry) }
    {
        match self {
            LeafRow::OfBox(prices) => value_free_in(job, area, prices),
            LeafRow::OfRoot(prices) => root_value_free_in(job, area, prices),
        }
    }

    /// A copy of the row for the box.
    pub(crate) fn build(self, alloc: Global, job: &Job, area: &IntervalBox) -> Result<Row, Memory>
        requires of_job { IsBoxOf job.now area.now }
        requires fits { FitsAs job.now area.now self }
        ensures row { IfOk result (λ row. row ≡ row_in_box job.now area.now self.entry) }
        ensures fits { IfOk result (Fits job.now area.now) }
    {
        match self {
            LeafRow::OfBox(prices) => row_of(alloc, job, area, prices),
            LeafRow::OfRoot(prices) => {
                let root = IntervalBox::root(job);
                row_of(alloc, job, &root, prices)?.narrowed(alloc, job, &root, area)
            }
        }
    }
}

// The row of a box that one list of prices is.
#[tactic(auto, unfolding(bound_tree::specs::Prices::row_of))]
fn row_of(alloc: Global, job: &Job, area: &IntervalBox, prices: &[i64]) -> Result<Row, Memory>
    requires { Fits job.now area.now (row_of job.now prices.now) }
    ensures { IfOk result (λ row. row ≡ row_of job.now prices.now) }
{
    let (goods, places) = prices.split_at(job.goods());
    Row::build(alloc, job, area, goods, places)
}
