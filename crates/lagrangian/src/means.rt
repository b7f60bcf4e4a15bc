//! What is taken by weights. Where numbers are too great, it wraps.

ghost use Rattle.std.specs.Prelude.{ℕ, ◌≤◌};

/// The rounded mean of two numbers by their weights.
pub(crate) fn mean(x: u64, v: u64, y: u64, w: u64) -> u64
    ensures { (n : ℕ) → x ≤ n → y ≤ n → result ≤ n }
{
    let whole = v.wrapping_add(w).max(1);
    let sum = x.wrapping_mul(v).wrapping_add(y.wrapping_mul(w));
    (sum.wrapping_add(whole / 2) / whole).min(x.max(y))
}

/// A cost times a weight.
pub(crate) fn weighed(cost: i128, weight: u64) -> i128 {
    cost.wrapping_mul(i128::from(weight))
}
