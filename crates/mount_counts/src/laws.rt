//! The laws of one mount, over plain numbers and the roles of tasks: what each step of a want, a drop, a change and a remount keeps
//! there, as a step of a gate. It has no code: its functions state laws.

ghost use Rattle.std.specs.Prelude.{◌≡◌, ℕ, ◌%◌, ◌<◌};
ghost use Rattle.finite_sums.specs.Sums.{total};
ghost use Rattle.cpu_words.specs.gate_counts.Gates.{CountsHold};
ghost use Rattle.mount_counts.specs.Roles.{Empty, MountView, mount_as_gate, counted, admitted, MountHolds};

/// Where each count word of a mount is the wrapping sum of the net additions to it, the words of all processors sum to what is
/// held and sought there. Does nothing: its contract is the law.
pub fn words_sum_to_what_is_counted()
    ensures { (tasks processors : ℕ) (count : ℕ → ℕ) (at : ℕ → MountView) → CountsHold tasks processors count (λ t. mount_as_gate (at t)) →
        total processors count % 18446744073709551616 ≡ total tasks (λ t. counted (at t)) % 18446744073709551616 }
{}

/// Where a task found that the words of a mount sum to 0, nobody holds an access there, and none is admitted, until that task
/// clears HOLD. Does nothing: its contract is the law.
pub fn nobody_is_admitted_until_hold_is_cleared()
    ensures { (tasks processors flags remount sb : ℕ) (count : ℕ → ℕ) (at : ℕ → MountView) →
        MountHolds tasks processors flags remount sb count at →
        (t : ℕ) → t < tasks → (at t).role ≡ Empty → total tasks (λ x. admitted (at x)) ≡ 0 }
{}
