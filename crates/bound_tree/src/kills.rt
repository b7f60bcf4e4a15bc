ghost use Rattle.std.specs.Prelude.{pos, ◌≤ℤ◌, IsTrue, ◌↔◌};
ghost use Rattle.interval_box.specs.Ranges.{IsBoxOf};
ghost use Rattle.bound_tree.specs.Kills.{LeafFits, Kills};

use crate::leaf::Leaf;
use interval_box::IntervalBox;
use tqd_instance::Job;

impl Leaf {
    /// Whether the leaf kills its box, where `best` is the cost of the best purchase known, in millionths of the
    /// currency.
    pub fn kills(&self, job: &Job, area: &IntervalBox, best: Option<u128>) -> bool
        requires of_job { IsBoxOf job.now area.now }
        requires fits { LeafFits job.now area.now self.now }
        ensures { IsTrue result ↔ Kills job.now area.now best self.now }
    {
        match (self, best) {
            (Leaf::Bound(row), Some(cost)) => reaches(row.value(job, area), cost),
            (Leaf::Bound(_), None) => false,
            (Leaf::Empty(row), _) => 0 < row.value_free(job, area),
            (Leaf::Winners, _) => area.winners_fail(job),
        }
    }
}

fn reaches(value: i128, cost: u128) -> bool
    ensures { IsTrue result ↔ (pos cost ≤ℤ value) }
{
    0 <= value && cost <= value as u128
}
