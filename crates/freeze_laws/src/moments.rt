//! Moments of a history: after some of its first actions everything was frozen, with a tree that somebody has seen. It has no code:
//! its functions state laws.

ghost use Rattle.std.specs.Prelude.{◌≡◌, ℕ, Option, List, [], ◌∷◌};
ghost use Rattle.access_model.specs.declared.actions.Action.{Action};
ghost use Rattle.access_model.specs.declared.actions.NodeInfo.{NodeInfo};
ghost use Rattle.access_model.specs.States.{Limits, opening_state, IsClean};
ghost use Rattle.access_model.specs.Histories.{Done, end_of, IsLegal, IsMerge};
ghost use Rattle.freeze_laws.specs.moments.Moments.{WasFrozenWith, MomentTells};

/// A moment of a history stays one, whatever is done later. Does nothing: its contract is the law.
pub fn a_moment_stays()
    ensures { (nodes : ℕ) (tree : ℕ → Option NodeInfo) (done : List (ℕ × ℕ)) (log : List Done) → WasFrozenWith nodes tree done log →
        (a : Done) → WasFrozenWith nodes tree done (a ∷ log) }
{}

/// What is fully frozen after an allowed trace has no dirty node. Does nothing: its contract is the law.
pub fn what_is_frozen_is_clean()
    ensures { (l : Limits) (log : List Done) → IsLegal l log → (end_of log).stage ≡ 4 → IsClean l (end_of log) }
{}

/// At a moment of an allowed trace its first actions are an allowed trace too, which cuts each own list at what its number had done, and
/// no node of the tree was dirty. Does nothing: its contract is the law.
pub fn what_a_moment_tells()
    ensures { (l : Limits) (tree : ℕ → Option NodeInfo) (done : List (ℕ × ℕ)) (lists : ℕ → List Action) (log : List Done) →
        IsLegal l log → IsMerge lists log → (h : WasFrozenWith l.nodes tree done log) → MomentTells l tree done lists h.earlier }
{}

/// There are such moments, and a history may go on after one: task 0 makes the superblock read-only, freezes, and thaws; while it was
/// frozen the tree was the opening one, task 0 had done 2 actions and task 1 none. Does nothing: its contract is the law.
pub fn a_history_may_have_a_moment()
    ensures { (l : Limits) × (log : List Done) × IsLegal l log × WasFrozenWith l.nodes opening_state.tree ((0, 2) ∷ (1, 0) ∷ []) log ×
        ((end_of log).stage ≡ 0) }
{}
