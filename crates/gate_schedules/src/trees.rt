//! The laws of the calls at the tree behind the gates, over its words and the roles of tasks: what each step keeps, which action it is, and
//! what justifies a refusal. It has no code: its functions state laws.

ghost use Rattle.std.specs.Prelude.{◌≡◌, ℕ, ◌<◌, Bool};
ghost use Rattle.cpu_words.specs.Hooks.{HookAnswer};
ghost use Rattle.cpu_words.specs.Names.{Extents, IsWord};
ghost use Rattle.cpu_words.specs.Words.{Words};
ghost use Rattle.cpu_words.specs.declared.events.Event.{Event as WordEvent};
ghost use Rattle.cpu_words.specs.Touches.{event_of, found_by};
ghost use Rattle.gated_tree.specs.declared.changes.Create.{Create};
ghost use Rattle.gated_tree.specs.declared.changes.CreateStep.{CreateStep};
ghost use Rattle.gated_tree.specs.declared.changes.Remove.{Remove};
ghost use Rattle.gated_tree.specs.declared.changes.RemoveStep.{RemoveStep};
ghost use Rattle.gated_tree.specs.declared.changes.MoveTo.{MoveTo};
ghost use Rattle.gated_tree.specs.declared.changes.MoveStep.{MoveStep};
ghost use Rattle.gated_tree.specs.declared.growth.Grow.{Grow};
ghost use Rattle.gated_tree.specs.declared.growth.GrowStep.{GrowStep};
ghost use Rattle.gated_tree.specs.declared.marks.Mark.{Mark};
ghost use Rattle.gated_tree.specs.declared.marks.MarkStep.{MarkStep};
ghost use Rattle.gated_tree.specs.declared.opens.OpenFile.{OpenFile};
ghost use Rattle.gated_tree.specs.declared.opens.OpenStep.{OpenStep};
ghost use Rattle.gated_tree.specs.declared.snapshots.Snapshot.{Snapshot};
ghost use Rattle.gated_tree.specs.declared.snapshots.SnapshotStep.{SnapshotStep};
ghost use Rattle.gated_tree.specs.declared.phases.TreePhase.{TreePhase};
ghost use Rattle.gated_tree.specs.Phases.{create_next, grow_next, mark_next, move_next, next, open_next, remove_next, snapshot_next};
ghost use Rattle.gated_tree.specs.Calls.{TreePhaseFits, phase_role};
ghost use Rattle.gated_tree.specs.Roles.{AreWithin, Bounds, Role, TreeHolds};
ghost use Rattle.gate_schedules.specs.trees.Ends.{CreateEnds, CreateKnows, GrowEnds, GrowKnows, MarkEnds, MoveEnds, MoveKnows, OpenEnds, Passed, RemoveEnds, RemoveKnows, SeesMore, SnapshotEnds, SnapshotKnows};
ghost use Rattle.gate_schedules.specs.trees.Steps.{TreeAllowsStep, Notes, StepKeeps, found_at, tree_in};

/// Each step of each call at the tree, among all words, keeps what holds of the tree. Where it adds an action, the shown tree allows that
/// and moves by just its effect; else the shown tree stays. The word of the step is there. Does nothing: its contract is the law.
pub fn each_call_keeps_the_tree()
    ensures events { (c : Bounds) → AreWithin c → (sealed bare : ℕ) (w : Words) (at : ℕ → Role) → TreeHolds c (tree_in sealed bare w at) →
        (t : ℕ) → t < c.tasks → (phase : TreePhase) (values noted : ℕ → ℕ) (hook : HookAnswer) → at t ≡ phase_role values phase →
        TreePhaseFits c t phase → TreeAllowsStep c (tree_in sealed bare w at) phase → Notes phase values noted (found_at w (next phase hook)) →
        StepKeeps c sealed bare w at t phase noted hook }
    ensures words { (c : Bounds) → AreWithin c → (sealed bare : ℕ) (w : Words) (at : ℕ → Role) → TreeHolds c (tree_in sealed bare w at) →
        (t : ℕ) → t < c.tasks → (e : Extents) → e.nodes ≡ c.nodes → (phase : TreePhase) (values : ℕ → ℕ) (hook : HookAnswer) →
        at t ≡ phase_role values phase → TreePhaseFits c t phase → IsWord e (next phase hook).0 }
{}

/// What the steps of a call have found is known from each step to the next, by any account of which tests they passed. So a call that is
/// done has added its action and no other, one that is refused has added none, and the refusal has its cause among the steps. Does
/// nothing: its contract is the law.
pub fn each_call_ends_honestly()
    ensures create { (seen more : (WordEvent → Bool) → Bool) (x : Create) (step : CreateStep) (value : ℕ) →
        CreateKnows (Passed seen) x step →
        SeesMore (Passed seen) (Passed more) (event_of (create_next x step).0 (create_next x step).1 value) →
        CreateEnds (Passed more) x step (found_by (create_next x step).1 value) }
    ensures remove { (seen more : (WordEvent → Bool) → Bool) (x : Remove) (step : RemoveStep) (value : ℕ) →
        RemoveKnows (Passed seen) x step →
        SeesMore (Passed seen) (Passed more) (event_of (remove_next x step).0 (remove_next x step).1 value) →
        RemoveEnds (Passed more) x step (found_by (remove_next x step).1 value) }
    ensures grow { (seen more : (WordEvent → Bool) → Bool) (x : Grow) (step : GrowStep) (value : ℕ) → GrowKnows (Passed seen) x step →
        SeesMore (Passed seen) (Passed more) (event_of (grow_next x step).0 (grow_next x step).1 value) →
        GrowEnds (Passed more) x step (found_by (grow_next x step).1 value) }
    ensures move_to { (seen more : (WordEvent → Bool) → Bool) (x : MoveTo) (step : MoveStep) (value : ℕ) → MoveKnows (Passed seen) x step →
        SeesMore (Passed seen) (Passed more) (event_of (move_next x step).0 (move_next x step).1 value) →
        MoveEnds (Passed more) x step (found_by (move_next x step).1 value) }
    ensures mark { (seen more : (WordEvent → Bool) → Bool) (x : Mark) (step : MarkStep) (value : ℕ) →
        SeesMore (Passed seen) (Passed more) (event_of (mark_next x step).0 (mark_next x step).1 value) →
        MarkEnds (Passed more) x step (found_by (mark_next x step).1 value) }
    ensures open_file { (seen more : (WordEvent → Bool) → Bool) (x : OpenFile) (step : OpenStep) (value : ℕ) →
        SeesMore (Passed seen) (Passed more) (event_of (open_next x step).0 (open_next x step).1 value) →
        OpenEnds (Passed more) x step (found_by (open_next x step).1 value) }
    ensures snapshot { (seen more : (WordEvent → Bool) → Bool) (x : Snapshot) (step : SnapshotStep) (value : ℕ) →
        SnapshotKnows (Passed seen) x step →
        SeesMore (Passed seen) (Passed more) (event_of (snapshot_next x step).0 (snapshot_next x step).1 value) →
        SnapshotEnds (Passed more) x step (found_by (snapshot_next x step).1 value) }
{}
