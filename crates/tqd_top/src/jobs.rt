ghost use Rattle.std.specs.Prelude.{◌≡◌, ◌++◌, ◌∷◌, [], List, length, OnOk, OnErr};
ghost use Rattle.tqd_instance.specs.declared.job.Job.{Job};

use std::alloc::Global;
use std::marker::Model;
use tqd_base::Memory;
use tqd_instance::Job;

/// Jobs in order, which contracts see as a list.
#[derive(Drop)]
pub(crate) struct JobList {
    items: Vec<Job>,
}

impl Model for JobList {
    ghost Value = { List Job };

    ghost view = { λ jobs. jobs.items.items };
}

impl JobList {
    /// No jobs. It takes no memory.
    pub(crate) fn empty(alloc: Global) -> JobList
        ensures { result ≡ [] }
    {
        JobList {
            items: Vec::new(alloc),
        }
    }

    pub(crate) fn len(&self) -> usize
        ensures { result ≡ length self.now }
    {
        self.items.len()
    }

    /// Adds a job, last.
    pub(crate) fn push(&mut self, job: Job) -> Result<(), Memory>
        ensures { OnOk result (self.new ≡ self.old ++ job ∷ []) }
    {
        self.items.push(job)?;
        Ok(())
    }

    pub(crate) fn as_slice(&self) -> &[Job]
        ensures { result.now ≡ self.now }
    {
        &self.items
    }
}
