//! The laws of the counts of any gate, over plain numbers and what each task is doing there, and of a freeze level as a gate. It has no
//! code: its functions state laws.

ghost use Rattle.std.specs.Prelude.{◌≡◌, ℕ, suc, ◌+◌, ◌%◌, ◌<◌, ◌≤◌};
ghost use Rattle.finite_sums.specs.Sums.{update, total};
ghost use Rattle.cpu_words.specs.Touches.{wrap_add, wrap_sub};
ghost use Rattle.cpu_words.specs.gate_counts.Gates.{Reading, ReadZero, GateView, admitted, counted, CountsHold, GateHolds};
ghost use Rattle.cpu_words.specs.gate_counts.Levels.{LevelView, sums_up, LevelHolds};

/// Where each count word of a gate is the wrapping sum of the net additions to it, the words of all processors sum to what is
/// held and sought there. Does nothing: its contract is the law.
pub fn words_sum_to_what_is_counted()
    ensures { (tasks processors : ℕ) (count : ℕ → ℕ) (at : ℕ → GateView) → CountsHold tasks processors count at →
        total processors count % 18446744073709551616 ≡ total tasks (λ t. counted (at t)) % 18446744073709551616 }
{}

/// Where a task that bars a gate reads the last word, and its sum is 0, nobody holds an access there, and none is admitted,
/// though the words were read one after the other and the others went on. Does nothing: its contract is the law.
pub fn a_sum_of_zero_finds_nobody()
    ensures { (tasks processors bit unowned : ℕ) (shut : ℕ → ℕ) (count : ℕ → ℕ) (at : ℕ → GateView) →
        GateHolds tasks processors bit unowned (λ i. shut i ≡ 1) count at →
        (t k sum : ℕ) → t < tasks → tasks ≤ 64 → processors ≤ 64 → (at t).barring ≡ Reading k sum → suc k ≡ processors →
        wrap_add sum (count k) ≡ 0 → total tasks (λ x. admitted (at x)) ≡ 0 }
{}

/// As long as a task that read a sum of 0 has the flag set, nobody is admitted. Does nothing: its contract is the law.
pub fn nobody_is_admitted_until_the_flag_is_cleared()
    ensures { (tasks processors bit unowned : ℕ) (shut : ℕ → ℕ) (count : ℕ → ℕ) (at : ℕ → GateView) →
        GateHolds tasks processors bit unowned (λ i. shut i ≡ 1) count at →
        (t : ℕ) → t < tasks → (at t).barring ≡ ReadZero → total tasks (λ x. admitted (at x)) ≡ 0 }
{}

/// What holds at a gate is kept by an addition of a task that sought nothing, and that seeks an access from then on. Does nothing:
/// its contract is the law.
pub fn an_addition_keeps_the_gate()
    ensures { (tasks processors bit unowned : ℕ) (shut : ℕ → ℕ) (count : ℕ → ℕ) (at : ℕ → GateView) →
        GateHolds tasks processors bit unowned (λ i. shut i ≡ 1) count at →
        (t p : ℕ) → t < tasks → p < processors → tasks ≤ 64 → processors ≤ 64 → counted (at t) ≡ (at t).held →
        GateHolds tasks processors bit unowned (λ i. shut i ≡ 1) (update count p (wrap_add (count p) 1))
        (update at t (record (at t) { added = update (at t).added p ((at t).added p + 1); questions = 0; sought_on = suc p })) }
{}

/// It is kept by the return of an access, on whatever processor. Does nothing: its contract is the law.
pub fn a_return_keeps_the_gate()
    ensures { (tasks processors bit unowned : ℕ) (shut : ℕ → ℕ) (count : ℕ → ℕ) (at : ℕ → GateView) →
        GateHolds tasks processors bit unowned (λ i. shut i ≡ 1) count at →
        (t p held : ℕ) → t < tasks → p < processors → tasks ≤ 64 → processors ≤ 64 → (at t).held ≡ suc held → counted (at t) ≡ (at t).held →
        GateHolds tasks processors bit unowned (λ i. shut i ≡ 1) (update count p (wrap_sub (count p) 1))
        (update at t (record (at t) { held = held; taken = update (at t).taken p ((at t).taken p + 1); questions = 0; sought_on = 0 })) }
{}

/// Where a level's `block` is 1 and no task sums its words, nobody holds it. Does nothing: its contract is the law.
pub fn nobody_holds_a_level_that_is_passed()
    ensures { (tasks processors block full : ℕ) (count : ℕ → ℕ) (at : ℕ → LevelView) → LevelHolds tasks processors block full count at →
        block ≡ 1 → total tasks (λ t. sums_up (at t).role) ≡ 0 → total tasks (λ t. (at t).held) ≡ 0 }
{}
