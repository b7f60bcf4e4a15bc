//! What follows from the definitions alone: functions without a body that computes, whose contracts are the laws.
ghost use Rattle.std.specs.Prelude.{ℕ, ◌≡◌};
ghost use Rattle.tqd_instance.specs.declared.job.Job.{Job};
ghost use Rattle.tqd_instance.specs.Purchase.{Purchase};
ghost use Rattle.interval_box.specs.declared.boxes.IntervalBox.{IntervalBox};
ghost use Rattle.branching.specs.Chosen.{IsChosen};

/// The rule chooses at most one split of a box.
pub fn rule_chooses_one_split()
    ensures { (job : Job) (area : IntervalBox) (x : Purchase) (i s j t : ℕ) → IsChosen job area x i s
        → IsChosen job area x j t → (i ≡ j) × (s ≡ t) }
{}
