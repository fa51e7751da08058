//! Laws of whole histories. The functions here do nothing: their contracts are the laws.

ghost use Rattle.std.specs.Prelude.{◌≡◌, ◌++◌, ℕ, true, List};
ghost use Rattle.access_model.specs.declared.actions.Action.{Action};
ghost use Rattle.access_model.specs.declared.actions.Holder.{Holder};
ghost use Rattle.access_model.specs.States.{Limits, State};
ghost use Rattle.access_model.specs.Histories.{Done, end_of, IsLegal};
ghost use Rattle.access_model.specs.Actions.{IsAllowed, after_action};
ghost use Rattle.access_model.specs.Holders.{held_by};
ghost use Rattle.access_model.specs.Laws.{NobodyHoldsClosed, FollowsOwnList, StaysFrozen, FrozenIsShut, IsFrozenStill, NeverLeaves, TreeStays};

/// After actions that were each allowed, nobody holds an access at a mount that is read-only, by its own flag or the
/// superblock's, or at a level that a freeze has closed.
pub fn nobody_holds_what_is_closed()
    ensures { (l : Limits) (history : List Done) → IsLegal l history → NobodyHoldsClosed l (end_of history) }
{}

/// What a task holds at the end of a history is what its own actions leave, whatever the other tasks did between them.
pub fn holdings_follow_the_lists()
    ensures { (history : List Done) (t : ℕ) → FollowsOwnList history t }
{}

/// What one holder has frozen stays frozen until that holder leaves: a thaw by one doesn't open what the other has frozen.
pub fn nothing_is_thawed_for_a_holder_that_stays()
    ensures { (l : Limits) (s : State) (t : ℕ) (a : Action) (h : Holder) → StaysFrozen l s t a h }
{}

/// The frozen tree stays. After actions that were each allowed:
///
/// - `shut`: at stage 4 all levels are closed, or the superblock is read-only, and then no file is removed; at stages 3 and 4 no file is dirty;
///   and where some holder holds a freeze the stage is 4.
/// - `stays`: so at stage 4 whatever action is allowed leaves each node: whether it is there, its kind, its parent, its size and its marks. Which
///   files are open may change.
/// - `still`: so from where a holder holds a freeze, as long as it doesn't leave, all stays frozen for it, with the same levels closed and the
///   same tree, whatever actions come, of whatever tasks.
pub fn the_frozen_tree_stays()
    ensures shut { (l : Limits) (history : List Done) → IsLegal l history → FrozenIsShut l (end_of history) }
    ensures stays { (l : Limits) (history : List Done) → IsLegal l history → (t : ℕ) (a : Action) → IsAllowed l (end_of history) t a →
        (end_of history).stage ≡ 4 → TreeStays (end_of history) (after_action (end_of history) t a) }
    ensures still { (l : Limits) (h : Holder) (more earlier : List Done) → IsLegal l (more ++ earlier) →
        held_by (end_of earlier).holders h ≡ true → NeverLeaves h more → IsFrozenStill h (end_of earlier) (end_of (more ++ earlier)) }
{}
