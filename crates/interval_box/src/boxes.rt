ghost use Rattle.std.specs.Prelude.{ℕ, ◌≡◌, ◌<◌, ◌≤◌, length, slice_index, IsTrue, ◌↔◌};
ghost use Rattle.tqd_base.specs.declared.limits.TheConstants.{SUPPLIERS_MAX};
ghost use Rattle.tqd_instance.specs.declared.job.Job.{Job};
ghost use Rattle.tqd_instance.specs.Job.{suppliers, segments};
ghost use Rattle.interval_box.specs.Singles.{IsOfPicks};
ghost use Rattle.interval_box.specs.Ranges.{low_of, high_of, Admits, IsBoxOf, IsZero, IsRoot};
ghost use Rattle.interval_box.specs.Halves.{IsProper, low_half, high_half};

use tqd_base::limits::SUPPLIERS_MAX;
use tqd_instance::Job;

/// For each supplier of a job a range of segment numbers, from `low_of` to `high_of`; 0 is the segment in which nothing
/// is bought. The places past the job's suppliers hold 0.
#[derive(Clone, Copy, Debug, PartialEq, Eq)]
pub struct IntervalBox {
    lows: [u8; 64],
    highs: [u8; 64],
}

impl IntervalBox {
    /// The box of all purchases whose totals have picks: each range is from 0 to the supplier's last segment.
    pub fn root(job: &Job) -> IntervalBox
        ensures of_job { IsBoxOf job.now result }
        ensures whole { IsRoot job.now result }
    {
        let mut area = IntervalBox::zeros();
        for i in 0..job.suppliers() {
            area.highs[i] = job.segments(i);
        }
        area
    }

    /// The single box of a pick for each supplier, which is a segment number; further picks are not read.
    pub fn of_picks(job: &Job, picks: &[u8]) -> IntervalBox
        requires count { suppliers job.now ≤ length picks.now }
        requires segments { (i : ℕ) → i < suppliers job.now → slice_index picks.now i ≤ segments job.now i }
        ensures { IsOfPicks job.now picks.now result }
    {
        let mut area = IntervalBox::zeros();
        for i in 0..job.suppliers() {
            area.lows[i] = picks[i];
            area.highs[i] = picks[i];
        }
        area
    }

    fn zeros() -> IntervalBox
        ensures { IsZero result }
    {
        IntervalBox {
            lows: [0; 64],
            highs: [0; 64],
        }
    }

    /// The least segment number in the range of a supplier.
    #[tactic(auto, unfolding(crate::specs::Ranges::low_of))]
    pub fn low_of(&self, i: usize) -> u8
        requires { i < SUPPLIERS_MAX }
        ensures { result ≡ low_of self.now i }
    {
        self.lows[i]
    }

    /// The greatest segment number in the range of a supplier.
    #[tactic(auto, unfolding(crate::specs::Ranges::high_of))]
    pub fn high_of(&self, i: usize) -> u8
        requires { i < SUPPLIERS_MAX }
        ensures { result ≡ high_of self.now i }
    {
        self.highs[i]
    }

    /// Whether a segment number is in the range of a supplier.
    pub fn admits(&self, i: usize, j: u8) -> bool
        requires { i < SUPPLIERS_MAX }
        ensures { IsTrue result ↔ Admits self.now i j }
    {
        self.low_of(i) <= j && j <= self.high_of(i)
    }

    /// The box split at a number `s` in the range of a supplier, below the last: the range up to `s`, and from `s + 1`.
    /// All other ranges stay as they are.
    #[tactic(auto, unfolding(crate::specs::Halves::low_half, crate::specs::Halves::high_half))]
    pub fn halves(&self, i: usize, s: u8) -> (IntervalBox, IntervalBox)
        requires supplier { i < SUPPLIERS_MAX }
        requires proper { IsProper self.now i s }
        ensures low { result.0 ≡ low_half self.now i s }
        ensures high { result.1 ≡ high_half self.now i s }
        ensures low_of_job { (job : Job) → IsBoxOf job self.now → IsBoxOf job result.0 }
        ensures high_of_job { (job : Job) → IsBoxOf job self.now → IsBoxOf job result.1 }
    {
        prove!(s < self.high_of(i));
        let mut low = *self;
        let mut high = *self;
        low.highs[i] = s;
        high.lows[i] = s + 1;
        (low, high)
    }
}
