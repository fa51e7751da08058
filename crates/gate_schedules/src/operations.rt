//! The laws of all operations: each step of each phase keeps the invariant, and moves the shown state by its action or not at all; a frozen tree
//! is whole; and who comes to a reply, who is blocked, and by what (`deadlocks`). It has no code: its functions state laws.

pub mod deadlocks;

ghost use Rattle.std.specs.Prelude.{◌≡◌, ℕ, ◌<◌, Some};
ghost use Rattle.cpu_words.specs.Hooks.{HookAnswer};
ghost use Rattle.gate_world.specs.declared.config.Config.{Config};
ghost use Rattle.gate_world.specs.declared.work.Phase.{Phase};
ghost use Rattle.gate_world.specs.Configs.{IsWithin};
ghost use Rattle.gate_world.specs.Headline.{FrozenTreeIsWhole};
ghost use Rattle.gate_world.specs.Moments.{CompletesNow};
ghost use Rattle.gate_world.specs.Rules.{IsGood, StepKeeps};
ghost use Rattle.gate_world.specs.Work.{hook_of, IgnoresAnswer};
ghost use Rattle.gate_world.specs.Worlds.{World};

/// Each step of each operation keeps the invariant, and moves the shown state by its action or not at all (`keeps`). A snapshot that it completes
/// has loaded the present tree, while all is frozen (`completes`). Does nothing: its contract is the law.
pub fn each_event_keeps_the_rule()
    ensures keeps { (c : Config) → IsWithin c → (w : World) → IsGood c w → (t : ℕ) → t < c.tasks → (hook : HookAnswer) (phase : Phase) →
        (w.views t).phase ≡ Some phase → StepKeeps c w t hook phase }
    ensures completes { (c : Config) → IsWithin c → (w : World) → IsGood c w → (t : ℕ) → t < c.tasks → (hook : HookAnswer)
        (phase : Phase) → (w.views t).phase ≡ Some phase → CompletesNow c w t hook phase }
{}

/// A step that reads no hook's answer is the same whatever a hook answers, and so is what comes after it. Does nothing: its contract
/// is the law.
pub fn an_event_ignores_answers_that_it_does_not_read()
    ensures { (phase : Phase) → IgnoresAnswer phase (hook_of phase) }
{}

/// Where the invariant holds, a tree that is frozen is sound and clean. Does nothing: its contract is the law.
pub fn a_frozen_tree_is_whole()
    ensures { (c : Config) → IsWithin c → (w : World) → IsGood c w → FrozenTreeIsWhole c w }
{}
