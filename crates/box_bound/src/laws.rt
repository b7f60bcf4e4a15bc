//! What follows from the definitions alone: functions without a body that computes, whose contracts are the laws.
ghost use Rattle.std.specs.Prelude.{◌≤◌};
ghost use Rattle.tqd_instance.specs.declared.job.Job.{Job};
ghost use Rattle.tqd_instance.specs.Purchase.{Purchase};
ghost use Rattle.tqd_instance.specs.Feasible.{Feasible};
ghost use Rattle.tqd_instance.specs.Cost.{cost};
ghost use Rattle.interval_box.specs.declared.boxes.IntervalBox.{IntervalBox};
ghost use Rattle.interval_box.specs.Ranges.{IsBoxOf, IsIn};
ghost use Rattle.box_bound.specs.Relaxed.{Relaxed, relaxed_cost};

/// Every feasible purchase in a box is a relaxed one.
pub fn feasible_is_relaxed()
    ensures { (job : Job) (area : IntervalBox) (x : Purchase)
        → IsBoxOf job area → Feasible job x → IsIn job area x → Relaxed job area x }
{}

/// No purchase in a box costs less than its relaxed cost.
pub fn relaxed_is_no_dearer()
    ensures { (job : Job) (area : IntervalBox) (x : Purchase) → IsIn job area x → relaxed_cost job area x ≤ cost job x }
{}
