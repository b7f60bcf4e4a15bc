//! What follows from the definitions alone: functions without a body that computes, whose contracts are the laws.
ghost use Rattle.std.specs.Prelude.{◌++◌};
ghost use Rattle.tqd_base.specs.World.{Bytes};
ghost use Rattle.tqd_instance.specs.declared.job.Job.{Job};
ghost use Rattle.tree_checker.specs.declared.rejection.Rejection.{Rejection};
ghost use Rattle.tree_checker.specs.Verdict.{IsRejectedFor};

/// A rejection, but for an early end, is the same for every longer text that begins with the text that is rejected.
pub fn rejections_stay()
    ensures { (job : Job) (text more : Bytes) (rejection : Rejection)
        → IsRejectedFor job text rejection → IsRejectedFor job (text ++ more) rejection }
{}
