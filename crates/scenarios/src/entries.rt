//! What the jobs of a list and those of a winner table have in common: each has a number, and a least cost.
ghost use Rattle.std.specs.Prelude.{ℕ, ◌≡◌, ◌+◌, ◌<◌, ◌≤◌, Option, IfOk, length};
ghost use Rattle.scenarios.specs.Costs.{IsCostOf, IsTableCost, table_size};
ghost use Rattle.tqd_instance.specs.Job.{least_winners, suppliers};

use std::alloc::Global;
use tqd_base::Memory;
use tqd_base::limits::SUPPLIERS_MAX;
use tqd_instance::{Job, Optimum};

/// Jobs that are numbered from 0.
pub trait Entries {
    /// How many there are.
    ghost count: { Self → ℕ };

    /// This is the least cost of the job of this number, or none where no purchase of it is feasible.
    ghost costs: { Self → ℕ → Option ℕ → Type 0 };

    fn len(&self) -> usize
        ensures { result ≡ count self.now };

    fn least(&self, alloc: Global, at: usize) -> Result<Option<u128>, Memory>
        requires { at < count self.now }
        ensures { IfOk result (λ cost. costs self.now at cost) };
}

/// The jobs of a list.
#[derive(Drop)]
pub struct Jobs<'a, O: Optimum> {
    pub jobs: &'a [Job],
    pub optimum: &'a O,
}

impl<'a, O: Optimum> Entries for Jobs<'a, O> {
    ghost count = { λ s. length s.jobs.now };

    ghost costs = { λ s. IsCostOf s.jobs.now };

    fn len(&self) -> usize {
        self.jobs.len()
    }

    fn least(&self, alloc: Global, at: usize) -> Result<Option<u128>, Memory> {
        self.optimum.least(alloc, &self.jobs[at])
    }
}

/// A job with each greatest number of winners in turn. One such job is made at a time.
#[derive(Drop)]
pub struct Table<'a, O: Optimum> {
    pub job: &'a Job,
    pub optimum: &'a O,
}

impl<'a, O: Optimum> Entries for Table<'a, O> {
    ghost count = { λ s. table_size s.job.now };

    ghost costs = { λ s. IsTableCost s.job.now };

    #[tactic(auto, unfolding(crate::specs::Costs::table_size))]
    fn len(&self) -> usize {
        let (least, _) = self.job.winners();
        self.job.suppliers().saturating_sub(least as usize) + 1
    }

    fn least(&self, alloc: Global, at: usize) -> Result<Option<u128>, Memory> {
        let most = most_winners(self.job, at);
        let job = self.job.with_most_winners(alloc, most)?;
        self.optimum.least(alloc, &job)
    }
}

/// The greatest number of winners at a place of the table.
#[tactic(auto, unfolding(crate::specs::Costs::table_size))]
fn most_winners(job: &Job, at: usize) -> u64
    requires { at < table_size job.now }
    ensures value { result ≡ least_winners job.now + at }
    ensures within { result ≤ SUPPLIERS_MAX }
{
    let (least, _) = job.winners();
    let suppliers = job.suppliers();
    prove!(suppliers <= SUPPLIERS_MAX);
    least + at as u64
}
