//! What follows from the definitions alone: functions without a body that computes, whose contracts are the laws.
ghost use Rattle.std.specs.Prelude.{ℕ, ◌≡◌, ◌≤◌};
ghost use Rattle.tqd_instance.specs.declared.job.Job.{Job};
ghost use Rattle.tqd_instance.specs.Purchase.{Purchase};
ghost use Rattle.tqd_instance.specs.Feasible.{Feasible};
ghost use Rattle.interval_box.specs.declared.boxes.IntervalBox.{IntervalBox};
ghost use Rattle.interval_box.specs.Ranges.{IsBoxOf, IsRoot, IsIn};
ghost use Rattle.interval_box.specs.Halves.{IsProper, Splits};
ghost use Rattle.interval_box.specs.Size.{size};
ghost use Rattle.interval_box.specs.Winners.{WinnersFail};

/// Every feasible purchase is in the root.
pub fn root_has_every_feasible_purchase()
    ensures { (job : Job) (area : IntervalBox) (x : Purchase) → IsRoot job area → Feasible job x → IsIn job area x }
{}

/// The root is one box.
pub fn root_is_one_box()
    ensures { (job : Job) (a b : IntervalBox) → IsRoot job a → IsRoot job b → a ≡ b }
{}

/// The halves of a proper split are boxes of the same job, a purchase in the box is in exactly one of them, and their
/// sizes add up to the size of the box.
pub fn halves_cover_the_box()
    ensures { (job : Job) (area : IntervalBox) (i s : ℕ) → IsBoxOf job area → IsProper area i s → Splits job area i s }
{}

/// No purchase in a box whose winners fail is feasible.
pub fn failing_winners_leave_no_purchase()
    ensures { (job : Job) (area : IntervalBox) (x : Purchase)
        → WinnersFail job area → IsIn job area x → Feasible job x → ⊥ }
{}

/// A box of a job has a size of at least 1, so that it can be split only so often.
pub fn no_box_is_empty()
    ensures { (job : Job) (area : IntervalBox) → IsBoxOf job area → 1 ≤ size job area }
{}
