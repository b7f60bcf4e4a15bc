//! The laws.
ghost use Rattle.std.specs.Prelude.{ℕ, ◌≡◌, ◌≢◌, ◌+◌, ◌++◌, ◌↔◌, []};
ghost use Rattle.tqd_base.specs.World.{Bytes};
ghost use Rattle.tqd_instance.specs.declared.job.Job.{Job};
ghost use Rattle.tqd_instance.specs.declared.standing.Standing.{Standing};
ghost use Rattle.tqd_instance.specs.Purchase.{Purchase};
ghost use Rattle.tqd_instance.specs.Standing.{Stands};
ghost use Rattle.tqd_instance.specs.Least.{HasNoPurchase};
ghost use Rattle.tree_checker.specs.declared.rejection.Why.TheVariants.{EarlyEnd, Trailing};
ghost use Rattle.tree_checker.specs.declared.rejection.Verdict.TheVariants.{Optimal, NoPurchase, Rejected};
ghost use Rattle.tree_checker.specs.Standing.{standing_of};
ghost use Rattle.tree_checker.specs.Verdict.{verdict};
ghost use Rattle.verdict_laws.specs.Shown.{ShowsLeast, ShowsNone, HasLeast, IsAccepted, feeds};

/// A text has the verdict `Optimal(c)` exactly where it is the text, in either format, of a feasible purchase that costs c
/// and of a tree that is valid for the root against c, and `NoPurchase` exactly where it is the text of no purchase and of
/// a tree that is valid for the root without one. In format 2 the tree is the one that its items unfold to.
pub fn verdicts_are_exact()
    ensures optimal { (job : Job) (text : Bytes) (c : ℕ) → (verdict job text ≡ Optimal c) ↔ ShowsLeast job text c }
    ensures none { (job : Job) (text : Bytes) → (verdict job text ≡ NoPurchase) ↔ ShowsNone job text }
{}

/// The standing by which a purchase in a text is judged is its standing in the job: the first test of feasibility that it
/// fails, or its cost.
pub fn standings_are_exact()
    ensures { (job : Job) (x : Purchase) (standing : Standing) → Stands job x standing ↔ (standing ≡ standing_of job x) }
{}

/// Whoever wrote the text: with `Optimal(c)` the purchase in it is least and costs c, with `NoPurchase` none is
/// feasible.
pub fn yes_is_sound()
    ensures optimal { (job : Job) (text : Bytes) (c : ℕ) → verdict job text ≡ Optimal c → HasLeast job text c }
    ensures none { (job : Job) (text : Bytes) → verdict job text ≡ NoPurchase → HasNoPurchase job }
{}

/// Each beginning of an accepted text, but the whole, ends early: in the line after those that have ended.
pub fn proper_prefixes_end_early()
    ensures { (job : Job) (text rest : Bytes) → IsAccepted job (text ++ rest) → rest ≢ []
        → verdict job text ≡ Rejected (record { line = feeds text + 1; why = EarlyEnd }) }
{}

/// An accepted text with anything behind it has text after the tree: in the line after its last one.
pub fn text_after_a_tree_trails()
    ensures { (job : Job) (text rest : Bytes) → IsAccepted job text → rest ≢ []
        → verdict job (text ++ rest) ≡ Rejected (record { line = feeds text + 1; why = Trailing }) }
{}
