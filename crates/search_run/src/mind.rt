//! What a worker keeps from box to box.
ghost use Rattle.std.specs.Prelude.{◌≡◌, ◌≤◌, IfOk, IfSome, Some, length};
ghost use Rattle.tqd_instance.specs.Job.{suppliers};
ghost use Rattle.interval_box.specs.Ranges.{IsBoxOf};
ghost use Rattle.bound_tree.specs.Narrowed.{IsPartOf};
ghost use Rattle.search_run.specs.Minds.{IsMindOf};

use interval_box::IntervalBox;
use lagrangian::{Climb, Climber, Limits, Pricing, repaired};
use std::alloc::Global;
use tqd_base::Memory;
use tqd_instance::Job;

/// The goods' prices and columns of a worker, which go on from box to box, and what it may use again. All of its memory is
/// taken when it is made.
#[derive(Drop)]
pub(crate) struct Mind {
    pub(crate) climber: Climber,
    pub(crate) pricing: Pricing,
    /// The box that the pricing is of, once there is one.
    pub(crate) priced: Option<IntervalBox>,
    /// The last box in which a plan was tried.
    pub(crate) tried: Option<IntervalBox>,
    pub(crate) limits: Limits,
}

impl Mind {
    pub(crate) fn new(alloc: Global, job: &Job) -> Result<Mind, Memory>
        ensures { IfOk result (IsMindOf job.now) }
    {
        Ok(Mind {
            climber: Climber::new(alloc, job)?,
            pricing: Pricing::new(alloc, job)?,
            priced: None,
            tried: None,
            limits: Limits::of(job),
        })
    }

    /// Prices a box at the climber's prices of the goods, where the pricing is not that one.
    pub(crate) fn price(&mut self, job: &Job, area: &IntervalBox)
        requires of_job { IsBoxOf job.now area.now }
        requires mind { IsMindOf job.now self.old }
        ensures mind { IsMindOf job.now self.new }
        ensures priced { self.new.priced ≡ Some area.now }
    {
        if self.priced != Some(*area) {
            self.pricing.price(job, area, self.climber.goods());
            self.priced = Some(*area);
        }
    }

    /// Raises the goods' prices in a box towards a value that reaches the best cost.
    pub(crate) fn climb(&mut self, job: &Job, area: &IntervalBox, best: Option<u128>) -> Climb
        requires of_job { IsBoxOf job.now area.now }
        requires mind { IsMindOf job.now self.old }
        ensures mind { IsMindOf job.now self.new }
        ensures priced { self.new.priced ≡ Some area.now }
    {
        let climb = self.climber.climb(job, area, &mut self.pricing, best);
        self.priced = Some(*area);
        climb
    }

    /// A single box near these picks in a part of the box that the pricing is of. None where there is none, or where it
    /// was the last one that was tried.
    pub(crate) fn near(
        &mut self,
        job: &Job,
        area: &IntervalBox,
        picks: &[u8],
    ) -> Option<IntervalBox>
        requires of_job { IsBoxOf job.now area.now }
        requires picks { suppliers job.now ≤ length picks.now }
        requires mind { IsMindOf job.now self.old }
        ensures mind { IsMindOf job.now self.new }
        ensures priced { self.new.priced ≡ self.old.priced }
        ensures of_job { IfSome result (IsBoxOf job.now) }
        ensures part { IfSome result (λ near. IsPartOf job.now near area.now) }
    {
        let near = repaired(job, area, &picks[..job.suppliers()], &self.pricing)?;
        if self.tried == Some(near) {
            return None;
        }
        self.tried = Some(near);
        Some(near)
    }
}
