//! Sums over tasks and processors, which the definitions and laws of the crates above are written in.
//! It has no code: its one function states the law that carries most of them.
#![tactic(auto)]

ghost use Rattle.std.specs.Prelude.{◌≡◌, ℕ, ◌+◌, ◌<◌};
ghost use Rattle.finite_sums.specs.Sums.{update, total};

/// Where one of the numbers that a sum runs over is changed, the sum changes by just that much.
/// Does nothing: its contract is the law.
pub fn one_place_changes_a_sum()
    ensures { (f : ℕ → ℕ) (n t v : ℕ) → t < n → total n (update f t v) + f t ≡ total n f + v }
{}
