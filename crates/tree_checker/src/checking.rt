ghost use Rattle.std.specs.Prelude.{◌≡◌, [], IfOk};
ghost use Rattle.tqd_base.specs.World.{Reads};
ghost use Rattle.tree_checker.specs.Verdict.{verdict};
ghost use Rattle.tree_checker.specs.Run.{job_of, Stands};
ghost use Rattle.tree_checker.specs.CheckFrom.{CheckFromGives};

use crate::rejection::{Feed, Verdict};
use crate::run::CheckRun;
use std::alloc::Global;
use tqd_base::limits::TREE_MAX;
use tqd_base::{Desk, DeskStop, Memory};
use tqd_instance::Job;

/// Why a text that a slot has left has no verdict.
#[derive(Clone, Copy, Debug, PartialEq, Eq)]
pub enum CheckStop {
    /// The device failed.
    Fault,
    /// The text has more than 2^62 bytes, and the first 2^62 do not reject it.
    Size,
    /// Memory was wanting.
    Memory,
}

impl From<DeskStop> for CheckStop {
    ghost use Rattle.tree_checker.specs.CheckStops.{check_stop_of};

    ghost from_gives = { λ e r. r ≡ check_stop_of e };

    fn from(stop: DeskStop) -> CheckStop {
        match stop {
            DeskStop::Failed => CheckStop::Fault,
            DeskStop::Memory => CheckStop::Memory,
        }
    }
}

impl From<Memory> for CheckStop {
    ghost use Rattle.tree_checker.specs.declared.checking.CheckStop.TheVariants.{Memory};

    ghost from_gives = { λ _ r. r ≡ Memory };

    fn from(_error: Memory) -> CheckStop {
        CheckStop::Memory
    }
}

/// How many bytes one call of `take` is offered room for.
const CHUNK: usize = 16_384;

/// The verdict of a text of a tree of a job.
pub fn check(alloc: Global, job: &Job, bytes: &[u8]) -> Result<Verdict, Memory>
    ensures { IfOk result (λ answer. answer ≡ verdict job.now bytes.now) }
{
    let mut run = CheckRun::start(alloc, job)?;
    let _fed = run.feed(bytes);
    Ok(run.finish())
}

/// The verdict of the text that a reading slot has left. It keeps no more than one line, the prices of one row, 64 rows in
/// slots, the plan and the boxes that are due, and takes memory for these alone, at the beginning.
///
/// It takes until the text is rejected or nothing is left, and stops with Size as soon as more than 2^62 bytes were taken.
/// Each turn takes at least one byte, so it always returns.
pub fn check_from<D: Desk>(
    alloc: Global,
    job: &Job,
    desk: &mut D,
    slot: u32,
) -> Result<Verdict, CheckStop>
    requires { Reads ((D.state desk.old).world.slots slot) }
    ensures { CheckFromGives job.now (D.state desk.old) (D.state desk.new) slot result }
{
    let run = CheckRun::start(alloc, job)?;
    feed_all(run, desk, slot)
}

fn feed_all<D: Desk>(mut run: CheckRun, desk: &mut D, slot: u32) -> Result<Verdict, CheckStop>
    requires reads { Reads ((D.state desk.old).world.slots slot) }
    requires fresh { Stands run [] }
    ensures { CheckFromGives (job_of run.entry) (D.state desk.old) (D.state desk.new) slot result }
{
    let mut buffer = [0u8; CHUNK];
    loop {
        let taken = desk.take(slot, &mut buffer)?;
        if taken == 0 {
            return Ok(run.finish());
        }
        // No byte past the limit is fed.
        let room = TREE_MAX - run.taken();
        let fed = room.min(taken as u64) as usize;
        if let Feed::Rejected(rejection) = run.feed(&buffer[..fed]) {
            return Ok(Verdict::Rejected(rejection));
        }
        if fed < taken {
            return Err(CheckStop::Size);
        }
    }
}
