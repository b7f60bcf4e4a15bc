//! What follows from the definitions alone: functions without a body that computes, whose contracts are the laws.
ghost use Rattle.std.specs.Prelude.{ℕ, ◌≡◌, ◌≤◌};
ghost use Rattle.tqd_base.specs.declared.limits.TheConstants.{GOODS_MAX, SUPPLIERS_MAX};
ghost use Rattle.tqd_instance.specs.Built.{Passes};
ghost use Rattle.tqd_instance.specs.Parts.{IsWellFormed};
ghost use Rattle.tqd_instance.specs.declared.job.Job.{Job};
ghost use Rattle.order_gen.specs.Draws.{first_state};
ghost use Rattle.order_gen.specs.GenParts.{parts_from, IsGenJob};

/// The parts that are drawn, with 1 to 1,000 goods and 1 to 64 suppliers, are well formed and pass every test of a job.
pub fn drawn_parts_make_a_job()
    ensures formed { (seed goods suppliers : ℕ) → 1 ≤ goods → goods ≤ GOODS_MAX → 1 ≤ suppliers → suppliers ≤ SUPPLIERS_MAX
        → IsWellFormed (parts_from (first_state seed) goods suppliers) }
    ensures passes { (seed goods suppliers : ℕ) → 1 ≤ goods → goods ≤ GOODS_MAX → 1 ≤ suppliers → suppliers ≤ SUPPLIERS_MAX
        → Passes (parts_from (first_state seed) goods suppliers) }
{}

/// So a seed, a number of goods and a number of suppliers make one job.
pub fn a_seed_makes_one_job()
    ensures { (seed goods suppliers : ℕ) (a b : Job) → 1 ≤ goods → goods ≤ GOODS_MAX → 1 ≤ suppliers → suppliers ≤ SUPPLIERS_MAX
        → IsGenJob seed goods suppliers a → IsGenJob seed goods suppliers b → a ≡ b }
{}
